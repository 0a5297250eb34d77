// Mask planes, outermost first. Each level goes straight into its plane: what its stored mask says, spread over the plane above.
#![tactic(auto)]

ghost use Rattle.std.specs.Prelude.{◌≡◌, ◌+◌, ◌-◌, take, drop};
ghost use Rattle.array.specs.Meaning.{masks_of};
ghost use Rattle.array.specs.Buffers.{over, over_at};
ghost use Rattle.codec.specs.Mask.{mask_form};
ghost use Rattle.codec.specs.Spread.{spread};
ghost use Rattle.codec.specs.MaskAt.{said_mask};
ghost use Rattle.stored_frames.specs.Stored.{planes_below};
ghost use Rattle.decode_planes.specs.Within.{LaidWithin, PlaneWithin, LevelsWithin, PlanesWithin, planes_in};

use array::kind::MaskForm;
use array::mark::mark_of;
use buffer::copy::fill_bytes;
use decode_marks::{if_set, skip};
use mask::form::{copy_to_plane, count_stored, mask_length};

// Spreads the `cells` mask bytes at the end of the plane at `to` over the plane of n cells at `from`, in which as many are set. A byte is
// read for every cell until all are placed, so that no branch goes by the plane; none is stored before those that are left are read.
fn spread_laid(masks: &mut [u8], from: usize, to: usize, n: usize, cells: usize)
    requires { LaidWithin masks.old from to n cells }
    ensures { masks.new
        ≡ over_at to (spread 0 (take n (drop from masks.old)) (take cells (drop (to + (n - cells)) masks.old))) masks.old }
{
    let laid = to + (n - cells);
    let mut i = 0;
    let mut j = 0;
    // it ends with the last stored one and not with the last cell: a `for` over the cells would test for both
    while j < cells {
        let b = masks[laid + j];
        let mark = mark_of(masks[from + i]);
        masks[to + i] = if_set(mark, b, 0);
        j = skip(mark, j, 1);
        i += 1;
    }
    fill_bytes(masks, to + i, n - i, 0);
}

// Spreads the stored mask at `at` over the plane of n cells at `from`, in which `cells` are set, into the plane at `to` behind it.
fn place_plane(
    form: MaskForm,
    masks: &mut [u8],
    from: usize,
    to: usize,
    n: usize,
    s: &[u8],
    at: usize,
    cells: usize,
)
    requires { PlaneWithin (masks_of form) masks.old from to n s.now at cells }
    ensures { masks.new
        ≡ over_at to (spread 0 (take n (drop from masks.old)) (said_mask (mask_form (masks_of form)) s.now at cells)) masks.old }
{
    copy_to_plane(form, masks, to + (n - cells), s, at, cells);
    if cells < n {
        spread_laid(masks, from, to, n, cells);
    }
}

// Places the planes below the one that ends at `to`, in which `cells` are set: `left` levels, the next frame being at `at`.
fn place_levels(
    form: MaskForm,
    masks: &mut [u8],
    n: usize,
    to: usize,
    left: usize,
    s: &[u8],
    at: usize,
    cells: usize,
)
    requires { LevelsWithin (masks_of form) masks.old n to left s.now at cells }
    ensures { masks.new
        ≡ over_at to (planes_below (mask_form (masks_of form)) (take n (drop (to - n) masks.old)) left s.now at cells) masks.old }
{
    if left == 0 {
        return;
    }
    if cells == 0 {
        fill_bytes(masks, to, left * n, 0);
        return;
    }
    let mask = at + 16;
    let end = mask + mask_length(form, cells);
    place_plane(form, masks, to - n, to, n, s, mask, cells);
    // no level below asks how many the last one sets
    if left == 1 {
        return;
    }
    let set = count_stored(form, s, mask, cells);
    place_levels(form, masks, n, to + n, left - 1, s, end, set);
}

// Places the planes of all levels.
pub fn place_planes(form: MaskForm, masks: &mut [u8], n: usize, depth: usize, s: &[u8])
    requires { PlanesWithin (masks_of form) masks.old n depth s.now }
    ensures { masks.new ≡ over (planes_in (mask_form (masks_of form)) s.now n (depth - 1)) masks.old }
{
    let end = 16 + mask_length(form, n);
    copy_to_plane(form, masks, 0, s, 16, n);
    if depth == 1 {
        return;
    }
    let set = count_stored(form, s, 16, n);
    place_levels(form, masks, n, n, depth - 1, s, end, set);
}
