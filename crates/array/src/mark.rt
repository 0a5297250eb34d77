// Mask bytes: what one says of its cell, and the blocks that they are counted by.
ghost use Rattle.std.specs.Prelude.{◌≡◌, ◌+◌, ◌<◌, min};
ghost use Rattle.array.specs.Cells.{mark_of};
ghost use Rattle.array.specs.Others.{other_by};
ghost use Rattle.array.specs.Meaning.{told_mark};

// 00 is null, 01 is set, and no other byte is a mask byte.
#[derive(Clone, Copy)]
pub enum Mark {
    Null,
    Set,
    Other,
}

// Nothing else reads a mask byte.
pub fn mark_of(b: u8) -> Mark
    ensures { told_mark result ≡ mark_of b }
{
    if b == 0 {
        Mark::Null
    } else if b == 1 {
        Mark::Set
    } else {
        Mark::Other
    }
}

// 1 for a byte over 01, so that a count of them has no branch.
pub fn one_if_other(b: u8) -> u8
    ensures { result ≡ other_by (mark_of b) }
{
    let mark = mark_of(b);
    match mark {
        Mark::Null => 0,
        Mark::Set => 0,
        Mark::Other => 1,
    }
}

// As many bytes as are counted in one byte.
pub const BLOCK: usize = 240;

// Where the block that begins at `at` ends: as many bytes as are counted in one byte.
pub fn block_end(at: usize, length: usize) -> usize
    requires { at < length }
    ensures { result ≡ min (at + 240) length }
{
    if length - at < 240 { length } else { at + 240 }
}
