// Mask bytes of a plane: whether one is set, and how many are.
#![tactic(auto)]

ghost use Rattle.std.specs.Prelude.{◌≡◌, [], ◌∷◌, ◌<◌, ◌≤◌, length, get_or};
ghost use Rattle.array.specs.Cells.{set_test};
ghost use Rattle.codec.specs.Frame.{count_set};

use array::mark::{BLOCK, Mark, mark_of};

// Whether the cell j is set.
pub fn is_set(mask: &[u8], j: usize) -> bool
    requires { j < length mask.now }
    ensures { result ≡ set_test (get_or mask.now j 0) }
{
    matches!(mark_of(mask[j]), Mark::Set)
}

// 1 for a set byte, so that a count has no branch.
pub fn one_if_set(b: u8) -> u8
    ensures { result ≡ count_set (b ∷ []) }
{
    u8::from(matches!(mark_of(b), Mark::Set))
}

// The set bytes of a block, few enough for a byte: a narrow counter is what makes counting fast.
fn count_block(block: &[u8]) -> u8
    requires { length block.now ≤ 240 }
    ensures { result ≡ count_set block.now }
{
    block.iter().map(|b| one_if_set(*b)).sum()
}

// How many bytes of a plane are set.
pub fn count_set(mask: &[u8]) -> usize
    ensures { result ≡ count_set mask.now }
{
    let mut n = 0;
    for block in mask.chunks(BLOCK) {
        n += usize::from(count_block(block));
    }
    n
}
