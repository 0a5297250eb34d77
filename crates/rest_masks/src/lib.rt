// The mask planes of the rest form, each by the one above it.
#![tactic(auto)]

ghost use Rattle.std.specs.Prelude.{◌≡◌, map, ◌+◌, ◌*◌, ◌≤◌, suc, length, take};
ghost use Rattle.array.specs.Buffers.{over, over_at};
ghost use Rattle.array.specs.Cells.{set_test};
ghost use Rattle.array.specs.Lists.{from, pick};
ghost use Rattle.array.specs.Places.{planes_by};
ghost use Rattle.rest_masks.specs.Rested.{rest_mask, rest_planes, kept_at, kept_by, under, Covers, covered};

use array::mark::{Mark, mark_of};
use buffer::copy::copy_many;
use live_cells::Level;

// The mask byte below another: it stays where that one is set.
pub fn kept(above: u8, mask: u8) -> u8
    ensures { result ≡ pick (set_test above) mask 0 }
{
    let mark = mark_of(above);
    match mark {
        Mark::Null => 0,
        Mark::Set => mask,
        Mark::Other => 0,
    }
}

// The plane below another.
fn put_kept(out: &mut [u8], above: &[u8], masks: &[u8])
    requires { (length above.now ≤ length out.old) × (length above.now ≤ length masks.now) }
    ensures { out.new ≡ over (map (kept_by above.now masks.now) (from 0 (length above.now))) out.old }
{
    for j in 0..above.len() {
        out[j] = kept(above[j], masks[j]);
    }
}

// The plane behind the one at `at`, which lies in the output already.
fn put_below(out: &mut [u8], masks: &[u8], cells: usize, at: usize)
    requires { (at + cells + cells ≤ length out.old) × (at + cells + cells ≤ length masks.now) }
    ensures { out.new ≡ over_at (at + cells) (map (kept_at cells out.old masks.now at) (from 0 cells)) out.old }
{
    let to = at + cells;
    let (before, behind) = out.split_at_mut(to);
    put_kept(behind, &before[at..to], &masks[to..to + cells]);
}

// The planes below the outermost, which lies in the output already and is that of the masks or says less: `left` of them.
pub fn put_levels(out: &mut [u8], masks: &[u8], cells: usize, left: usize)
    requires { (suc left * cells ≤ length masks.now) × (suc left * cells ≤ length out.old) }
    ensures { out.new ≡ over_at cells (planes_by (rest_mask cells (under cells out.old masks.now)) left 1 (from 0 cells)) out.old }
{
    for l in 0..left {
        put_below(out, masks, cells, l * cells);
    }
}

// The outermost plane: the masks' own, or that below another plane.
fn put_outermost(out: &mut [u8], above: Option<&[u8]>, masks: &[u8], cells: usize)
    requires { Covers cells above × (cells ≤ length out.old) × (cells ≤ length masks.now) }
    ensures { out.new ≡ over (take cells (covered cells above.entry masks.now)) out.old }
{
    match above {
        Some(plane) => put_kept(out, plane, masks),
        None => copy_many(out, 0, masks, 0, cells),
    }
}

// All planes of the rest form. Where another plane lies above them, as a guest's rights do, it hides what it doesn't set.
pub fn put_planes(out: &mut [u8], above: Option<&[u8]>, level: Level)
    requires { Covers level.cells above × (level.depth * level.cells ≤ length out.old) }
    ensures { out.new ≡ over (rest_planes level.entry.cells (covered level.entry.cells above.entry level.entry.masks.now) level.entry.depth) out.old }
{
    if level.depth == 0 {
        return;
    }
    put_outermost(out, above, level.masks, level.cells);
    put_levels(out, level.masks, level.cells, level.depth - 1);
}
