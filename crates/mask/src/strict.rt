// Stored masks of a byte a cell: their bytes are checked and counted in one pass.
ghost use Rattle.std.specs.Prelude.{◌≡◌, ◌≤◌, length};
ghost use Rattle.array.specs.Others.{others};
ghost use Rattle.codec.specs.Mask.{byte_mask};
ghost use Rattle.codec.specs.Frame.{count_set};
ghost use Rattle.mask.specs.Marks.{counted_in};
ghost use Rattle.array.specs.Meaning.{told};

use array::mark::{BLOCK, one_if_other};
use array::refusal::Refusal;
use mask_marks::one_if_set;

// Of a block of mask bytes: how many are set, and how many are over 01.
#[derive(Clone, Copy)]
pub struct Tally {
    pub set: u8,
    pub other: u8,
}

// The bytes of a block, few enough for a byte: narrow counters are what makes counting fast.
fn tally_block(block: &[u8]) -> Tally
    requires { length block.now ≤ 240 }
    ensures set { result.set ≡ count_set block.now }
    ensures other { result.other ≡ others block.now }
{
    let mut set: u8 = 0;
    let mut other: u8 = 0;
    for b in block {
        set += one_if_set(*b);
        other += one_if_other(*b);
    }
    Tally { set, other }
}

// How many bytes of a stored mask are set; where one is over 01, the refusal of it.
pub fn count_strict(mask: &[u8]) -> Result<usize, Refusal>
    ensures { told result ≡ counted_in byte_mask mask.now (length mask.now) }
{
    let mut n: usize = 0;
    for block in mask.chunks(BLOCK) {
        let tally = tally_block(block);
        if 0 < tally.other {
            return Err(Refusal::MaskByte);
        }
        n += usize::from(tally.set);
    }
    Ok(n)
}
