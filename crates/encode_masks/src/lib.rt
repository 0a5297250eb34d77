// Layer 2, gathering: the stored mask of the cells that a level counts.
#![tactic(auto)]

ghost use Rattle.std.specs.Prelude.{◌≡◌, ◌+◌, ◌*◌, ◌≤◌, length};
ghost use Rattle.array.specs.Buffers.{over_at};
ghost use Rattle.array.specs.Meaning.{masks_of};
ghost use Rattle.codec.specs.Mask.{mask_form};
ghost use Rattle.live_cells.specs.Live.{live_from, live_mask, Gathered};

use array::kind::MaskForm;
use live_cells::{Counted, Level};
use mask::form;

// Gathers the mask bytes of the next m cells from `start` on that the level counts, without a branch; says where the cells behind them begin.
#[inline(always)]
#[tactic(auto, using(crate::proofs::Blocks::picking_cell, encode_cells::proofs::Packing::mask_plane))]
fn gather_masks(block: &mut [u8], level: Level, start: usize, m: usize) -> usize
    requires { ((level.depth + 1) * level.cells ≤ length level.masks.now)
        × (m ≤ length (live_from level.cells level.masks.now level.depth start)) × (m ≤ length block.old) }
    ensures { Gathered level.entry.cells level.entry.masks.now level.entry.depth block.old start m block.new result }
{
    let at = level.depth * level.cells;
    let mut i = start;
    let mut done = 0;
    // over a range of cells the last that is gathered would be a second test in each turn
    while done < m {
        block[done] = level.masks[at + i];
        done += level.mark(i) as usize;
        i += 1;
    }
    i
}

// The stored mask of the cells that the level counts, block by block: all but the last fill whole bytes.
#[inline(always)]
fn put_live_mask(form: MaskForm, out: &mut [u8], to: usize, live: Counted)
    requires { ((live.level.depth + 1) * live.level.cells ≤ length live.level.masks.now) × (to + (mask_form (masks_of form)).size live.count ≤ length out.old) }
    ensures { out.new ≡ over_at to (live_mask (masks_of form) live.entry.level.cells live.entry.level.masks.now live.entry.level.depth) out.old }
{
    let mut block = [0; 256];
    let mut i = 0;
    for done in (0..live.count).step_by(256) {
        let m = (live.count - done).min(256);
        i = gather_masks(&mut block, live.level, i, m);
        form::put_plane(form, out, to + form::mask_length(form, done), &block, 0, m);
    }
}

// The same by level: one that is a constant has a loop of its own, in a function of its own, as put_level_runs of `encode_cells`.
#[inline(never)]
fn put_level_mask(form: MaskForm, out: &mut [u8], to: usize, live: Counted)
    requires { ((live.level.depth + 1) * live.level.cells ≤ length live.level.masks.now) × (to + (mask_form (masks_of form)).size live.count ≤ length out.old) }
    ensures { out.new ≡ over_at to (live_mask (masks_of form) live.entry.level.cells live.entry.level.masks.now live.entry.level.depth) out.old }
{
    match live.level.depth {
        1 => put_live_mask(form, out, to, live.at_depth(1)),
        2 => put_live_mask(form, out, to, live.at_depth(2)),
        3 => put_live_mask(form, out, to, live.at_depth(3)),
        _ => put_live_mask(form, out, to, live),
    }
}

// The stored mask of the cells that the level counts.
#[inline(always)]
pub fn put_mask(form: MaskForm, out: &mut [u8], to: usize, live: Counted)
    requires { ((live.level.depth + 1) * live.level.cells ≤ length live.level.masks.now) × (to + (mask_form (masks_of form)).size live.count ≤ length out.old) }
    ensures { out.new ≡ over_at to (live_mask (masks_of form) live.entry.level.cells live.entry.level.masks.now live.entry.level.depth) out.old }
{
    let Level {
        masks,
        cells,
        depth,
    } = live.level;
    if live.count == cells {
        form::put_plane(form, out, to, masks, depth * cells, cells);
    } else {
        put_level_mask(form, out, to, live);
    }
}
