// A load anyone can repeat: the public call `generate`.
#![tactic(auto)]

mod ahead;
mod cell;
mod fixed;
pub mod generator;
mod loads;
mod ragged;

ghost use Rattle.std.specs.Prelude.{◌≡◌};
ghost use Rattle.array.specs.Meaning.{kind_of};
ghost use Rattle.array.specs.Outcome.{content_array, outcome_array};
ghost use Rattle.load.specs.Calls.{generated};

use crate::generator::Generator;
use crate::loads::Load;
use array::answer::Lengths;
use array::kind::{Kind, Values};
use array::refusal::Refusal;
use valid::kind::check_kind;
use valid::shape::shape_cells;

// Makes the load of a kind, a shape and a start number. Refusals 1, 2 and 6, in this order; nothing is stored before the last check.
pub fn generate(
    kind: Kind,
    shape: &[u64],
    start: u32,
    masks: &mut [u8],
    values: &mut [u8],
    offsets: &mut [u64],
) -> Result<Lengths, Refusal>
    ensures { outcome_array result masks.new values.new offsets.new
        ≡ generated (kind_of kind) shape.now start (content_array masks.old values.old offsets.old) }
{
    if !check_kind(kind) {
        return Err(Refusal::Kind);
    }
    let load = Load {
        depth: kind.depth as usize,
        n: shape_cells(shape)?,
        first: Generator { state: start },
    };
    match kind.values {
        Values::Fixed(size, _) => fixed::make_fixed(load, size as usize, masks, values),
        Values::Ragged(_, _) => ragged::make_ragged(load, masks, values, offsets),
    }
}
