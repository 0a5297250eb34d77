// The rule of mask bytes: each is 00 or 01.
ghost use Rattle.std.specs.Prelude.{◌≡◌, ◌≤◌, length};
ghost use Rattle.array.specs.Lists.{every};
ghost use Rattle.array.specs.Cells.{strict_test};
ghost use Rattle.array.specs.Content.{strict_bytes_test};
ghost use Rattle.array.specs.Others.{others};

use array::mark::{BLOCK, one_if_other};

// The bytes over 01 of a block, few enough for a byte: a narrow counter is what makes counting fast. As `mask_marks` counts those that are set: one
// function for both would take what it counts as a closure, and its promise from it.
fn count_others(block: &[u8]) -> u8
    requires { length block.now ≤ 240 }
    ensures { result ≡ others block.now }
{
    block.iter().map(|b| one_if_other(*b)).sum()
}

// Whether every mask byte is 00 or 01.
pub fn masks_strict(masks: &[u8]) -> bool
    ensures { result ≡ every strict_test masks.now }
{
    for block in masks.chunks(BLOCK) {
        if 0 < count_others(block) {
            return false;
        }
    }
    true
}

// Whether there are so many mask bytes, each 00 or 01: else it is 4.
pub fn are_strict(masks: &[u8], count: usize) -> bool
    ensures { result ≡ strict_bytes_test count masks.now }
{
    masks.len() == count && masks_strict(masks)
}
