// Loads of fixed values: how much is stored is known from the kind and the shape.
ghost use Rattle.std.specs.Prelude.{◌≡◌, List, ℕ, ◌+◌, ◌≤◌, length};
ghost use Rattle.array.specs.Limits.{most_size};
ghost use Rattle.array.specs.Lists.{joined};
ghost use Rattle.array.specs.Cells.{leaf};
ghost use Rattle.array.specs.Content.{masks_of, leaves, layout};
ghost use Rattle.array.specs.Buffers.{over, over_at, put_into};
ghost use Rattle.array.specs.Outcome.{content_array, outcome_array};
ghost use Rattle.load.specs.Load.{draw_cell};
ghost use Rattle.generate.specs.Cells.{sized, set_masks, column};
ghost use Rattle.generate.specs.Loads.{cells_of};
ghost use Rattle.generate.specs.Room.{Column, FixedRoom};

use crate::cell::{draw_bytes, mark_levels};
use crate::generator::Generator;
use crate::loads::Load;
use array::answer::Lengths;
use array::refusal::Refusal;
use buffer::copy::fill_bytes;

// Draws the cell `at`, its value going to the place `to`. A null leaves zeros.
#[inline(always)]
fn draw_cell(
    load: Load,
    first: Generator,
    at: usize,
    size: usize,
    to: usize,
    masks: &mut [u8],
    values: &mut [u8],
) -> Generator
    requires { Column load.n at load.depth masks.old × (to + size ≤ length values.old) }
    ensures draws { result.state ≡ (draw_cell (sized size) load.depth first.state).state }
    ensures marks { masks.new ≡ column load.n at (set_masks load.depth (draw_cell (sized size) load.depth first.state).made) masks.old }
    ensures stores { values.new ≡ over_at to (leaf load.depth (draw_cell (sized size) load.depth first.state).made) values.old }
{
    let levels = mark_levels(load, first, at, masks);
    if levels.made == load.depth {
        return draw_bytes(levels.next, values, to, size);
    }
    fill_bytes(values, to, size, 0);
    levels.next
}

// Draws all cells, one after another.
fn draw_cells(load: Load, size: usize, masks: &mut [u8], values: &mut [u8])
    requires { FixedRoom load.depth load.n size masks.old values.old }
    ensures planes { masks.new ≡ over (masks_of load.depth (cells_of (sized size) load)) masks.old }
    ensures joins { values.new ≡ over (joined (leaves load.depth (cells_of (sized size) load))) values.old }
{
    fill_bytes(masks, 0, load.depth * load.n, 0);
    let mut g = load.first;
    let mut to: usize = 0;
    for at in 0..load.n {
        g = draw_cell(load, g, at, size, to, masks, values);
        to += size;
    }
}

// The load of cells of a fixed size: 6, and then the drawing. What is lent for offsets stays.
pub fn make_fixed(
    load: Load,
    size: usize,
    masks: &mut [u8],
    values: &mut [u8],
) -> Result<Lengths, Refusal>
    requires { size ≤ most_size }
    ensures { (offsets : List ℕ) → outcome_array result masks.new values.new offsets
        ≡ put_into (layout (sized size) load.depth (cells_of (sized size) load)) (content_array masks.old values.old offsets) }
{
    let planes = load.depth * load.n;
    let bytes = load.n * size;
    if masks.len() < planes {
        return Err(Refusal::Output);
    }
    if values.len() < bytes {
        return Err(Refusal::Output);
    }
    draw_cells(load, size, masks, values);
    Ok(Lengths {
        masks: planes,
        values: bytes,
        offsets: 0,
    })
}
