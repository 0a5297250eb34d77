// Cells with their bytes reversed: in place, and on the way to another slice.
#![tactic(auto)]

pub mod cells;
pub mod in_place;
pub mod turned;

ghost use Rattle.std.specs.Prelude.{◌≡◌};
ghost use Rattle.array.specs.Calls.{endianness_reversed};
ghost use Rattle.array.specs.Meaning.{told};

use array::refusal::Refusal;
use valid::kind::MOST_SIZE;
use word::WordSize;

// Reverses each whole cell in place and says how many bytes these are; a shorter tail is left. A size that no fixed kind
// has is refusal 1. Two tests and then few sizes each, so that no table of jumps stands before the sizes that most types have.
pub fn reverse_endianness(size: usize, bytes: &mut [u8]) -> Result<usize, Refusal>
    ensures { record { answer = told result; buffers = bytes.new } ≡ endianness_reversed size bytes.old }
{
    if size < 4 {
        match size {
            1 => Ok(bytes.len()),
            2 => Ok(in_place::reverse_words(bytes, WordSize::TWO)),
            _ => reverse_others(size, bytes),
        }
    } else {
        match size {
            4 => Ok(in_place::reverse_words(bytes, WordSize::FOUR)),
            8 => Ok(in_place::reverse_words(bytes, WordSize::EIGHT)),
            _ => reverse_others(size, bytes),
        }
    }
}

// The same, of any size. The size is a constant for the two sizes that need no division and no loop in a cell.
fn reverse_others(size: usize, bytes: &mut [u8]) -> Result<usize, Refusal>
    ensures { record { answer = told result; buffers = bytes.new } ≡ endianness_reversed size bytes.old }
{
    if size == 0 {
        return Err(Refusal::Kind);
    }
    if size > MOST_SIZE as usize {
        return Err(Refusal::Kind);
    }
    match size {
        16 => {
            let cells = bytes.len() / 16;
            Ok(in_place::reverse_cells(bytes, 0, 16, cells))
        }
        64 => {
            let cells = bytes.len() / 64;
            Ok(in_place::reverse_cells(bytes, 0, 64, cells))
        }
        _ => {
            let cells = bytes.len() / size;
            Ok(in_place::reverse_any(bytes, 0, size, cells))
        }
    }
}
