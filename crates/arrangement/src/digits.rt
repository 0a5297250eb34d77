// The states of an arrangement's cells are the digits of its number, the lowest that of the last cell.
ghost use Rattle.std.specs.Prelude.{◌≡◌, ltb};
ghost use Rattle.array.specs.Answer.{gives, unless, map_answer};
ghost use Rattle.array.specs.Meaning.{told};
ghost use Rattle.arrange.specs.Arrangement.{arrangement, arrangement_count};
ghost use Rattle.arrange.specs.Calls.{SmallOk, small_test};
ghost use Rattle.arrangement.specs.States.{stated};

use crate::states::{MOST_CELLS, States};
use array::refusal::Refusal;

// The deepest cells that are arranged.
const DEEPEST: u64 = 2;

// Whether there are arrangements of so many cells of a depth.
pub fn is_small(depth: u64, cells: u64) -> bool
    ensures { result ≡ small_test depth cells }
{
    depth <= DEEPEST && 1 <= cells && cells <= MOST_CELLS as u64
}

// The states in arrangement `number`, or refusal 19: of a number past the count something is left behind the last digit.
#[inline(always)]
fn walk(depth: usize, cells: usize, number: u64) -> Result<States, Refusal>
    requires { SmallOk depth cells }
    ensures { map_answer stated (told result)
        ≡ unless (ltb number (arrangement_count depth cells)) 19 (gives (arrangement depth cells number)) }
{
    let base = depth as u64 + 4;
    let mut each = [0u8; MOST_CELLS];
    let mut bytes: usize = 0;
    let mut left = number;
    for i in 0..cells {
        let state = (left % base) as u8;
        each[cells - 1 - i] = state;
        bytes += (state as usize).saturating_sub(depth);
        left /= base;
    }
    if left != 0 {
        return Err(Refusal::Arrangement);
    }
    Ok(States {
        depth,
        cells,
        number,
        each,
        bytes,
    })
}

// The same by depth, each loop compiled for its own, so that it divides by a constant.
pub fn states_of(depth: usize, cells: usize, number: u64) -> Result<States, Refusal>
    requires { SmallOk depth cells }
    ensures { map_answer stated (told result)
        ≡ unless (ltb number (arrangement_count depth cells)) 19 (gives (arrangement depth cells number)) }
{
    match depth {
        0 => walk(0, cells, number),
        1 => walk(1, cells, number),
        _ => walk(2, cells, number),
    }
}
