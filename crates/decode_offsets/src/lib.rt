// Offsets: of cells with no mask, as they are stored, or of the cells of a plane.
#![tactic(auto)]

ghost use Rattle.std.specs.Prelude.{◌≡◌, ◌∷◌, suc, ◌+◌, ◌*◌, ◌≤◌, length, drop, replicate};
ghost use Rattle.array.specs.Buffers.{over, over_at};
ghost use Rattle.array.specs.Meaning.{width_of};
ghost use Rattle.codec.specs.Frame.{count_set};
ghost use Rattle.stored_index.specs.Index.{offsets_in};
ghost use Rattle.decode_offsets.specs.Ends.{ends_by, EndsStored};

use array::kind::{IndexWidth, width_bytes};
use array::mark::mark_of;
use buffer::copy::fill_numbers;
use buffer::field::le_at;
use decode_marks::skip;

// Writes the n + 1 offsets that are stored from `at` on.
pub fn copy_offsets(offsets: &mut [u64], s: &[u8], at: usize, n: usize, width: IndexWidth)
    requires { (at + (width_of width + n * width_of width) ≤ length s.now) × (n + 1 ≤ length offsets.old) }
    ensures { offsets.new ≡ over (offsets_in (width_of width) (suc n) (drop at s.now)) offsets.old }
{
    let w = width_bytes(width);
    for i in 0..n + 1 {
        offsets[i] = le_at(s, at + i * w, width);
    }
}

// The offset behind the last set cell, for the `count` from `to` on. Where it is 0, zeros go as bytes do, which is faster.
fn fill_ends(offsets: &mut [u64], to: usize, count: usize, end: u64)
    requires { to + count ≤ length offsets.old }
    ensures { offsets.new ≡ over_at to (replicate count end) offsets.old }
{
    if end == 0 {
        fill_numbers(offsets, to, count, 0);
    } else {
        fill_numbers(offsets, to, count, end);
    }
}

// Writes the offsets of the cells of the plane, of which `cells` are set: theirs are stored from `at` on, and `last` is the last of
// them. A cell begins where the next stored one does, so one is read for every cell until all are placed, and no branch goes by
// the plane.
pub fn spread_offsets(
    offsets: &mut [u64],
    plane: &[u8],
    s: &[u8],
    at: usize,
    width: IndexWidth,
    cells: usize,
    last: u64,
)
    requires { (length plane.now + 1 ≤ length offsets.old) × (cells ≡ count_set plane.now)
        × EndsStored (width_of width) s.now at cells last }
    ensures { offsets.new ≡ over (0 ∷ ends_by 0 plane.now
        (offsets_in (width_of width) (count_set plane.now) (drop (at + width_of width) s.now))) offsets.old }
{
    let w = width_bytes(width);
    let mut i = 0;
    let mut k = 0;
    // it ends with the last stored one and not with the last cell: a `for` over the cells would test for both
    while k < cells {
        offsets[i] = le_at(s, at + k * w, width);
        let mark = mark_of(plane[i]);
        k = skip(mark, k, 1);
        i += 1;
    }
    fill_ends(offsets, i, plane.len() + 1 - i, last);
}
