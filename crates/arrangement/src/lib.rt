// Every small arrangement of ragged cells, each by its number: the public call `arrangement`.
#![tactic(auto)]

mod digits;
mod put;
mod states;

ghost use Rattle.std.specs.Prelude.{◌≡◌};
ghost use Rattle.array.specs.Outcome.{content_array, outcome_array};
ghost use Rattle.arrange.specs.Calls.{arranged};

use crate::digits::{is_small, states_of};
use crate::put::put_arrangement;
use array::answer::Lengths;
use array::refusal::Refusal;

// Gives arrangement `number` of so many cells of a depth. Refusals 1, 19 and 6, in this order; nothing is stored before the last check.
pub fn arrangement(
    depth: u64,
    cells: u64,
    number: u64,
    masks: &mut [u8],
    values: &mut [u8],
    offsets: &mut [u64],
) -> Result<Lengths, Refusal>
    ensures { outcome_array result masks.new values.new offsets.new
        ≡ arranged depth cells number (content_array masks.old values.old offsets.old) }
{
    if !is_small(depth, cells) {
        return Err(Refusal::Kind);
    }
    let states = states_of(depth as usize, cells as usize, number)?;
    put_arrangement(&states, masks, values, offsets)
}
