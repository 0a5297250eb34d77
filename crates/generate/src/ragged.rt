// Loads of ragged values: how many bytes they have is known only once they are drawn.
ghost use Rattle.std.specs.Prelude.{◌≡◌, ◌+◌, ◌≤◌, length};
ghost use Rattle.array.specs.Lists.{joined};
ghost use Rattle.array.specs.Offsets.{offsets_of};
ghost use Rattle.array.specs.Cells.{leaf};
ghost use Rattle.array.specs.Content.{masks_of, leaves, layout};
ghost use Rattle.array.specs.Buffers.{over, over_at, put_into};
ghost use Rattle.array.specs.Outcome.{content_array, outcome_array};
ghost use Rattle.load.specs.Load.{length_by, draw_cell};
ghost use Rattle.generate.specs.Generator.{drew};
ghost use Rattle.generate.specs.Cells.{lengthy, length_drawn, set_masks, column};
ghost use Rattle.generate.specs.Loads.{cells_of, bytes_of};
ghost use Rattle.generate.specs.Room.{Column, RaggedRoom};

use crate::cell::{draw_few, mark_levels};
use crate::generator::{Drawn, Generator};
use crate::loads::Load;
use array::answer::Lengths;
use array::refusal::Refusal;
use buffer::copy::fill_bytes;
use buffer::room::has_room;
use valid::kind::MOST_DEPTH;

// The most bytes of a ragged value, and the most levels of a cell.
const MOST: usize = 8;

const DEEPEST: usize = MOST_DEPTH as usize;

// The length of a ragged value, by its draw.
fn length_of(draw: u32) -> usize
    ensures { result ≡ length_by draw }
{
    (draw % 9) as usize
}

// Draws the cell `at`, its value going to the place `to`, and says how many bytes that has. A null leaves nothing.
#[inline(always)]
fn draw_cell(
    load: Load,
    first: Generator,
    at: usize,
    to: usize,
    masks: &mut [u8],
    values: &mut [u8],
) -> Drawn<usize>
    requires { Column load.n at load.depth masks.old × (to + length (leaf load.depth (draw_cell lengthy load.depth first.state).made) ≤ length values.old) }
    ensures draws { drew result ≡ length_drawn load.depth (draw_cell lengthy load.depth first.state) }
    ensures marks { masks.new ≡ column load.n at (set_masks load.depth (draw_cell lengthy load.depth first.state).made) masks.old }
    ensures stores { values.new ≡ over_at to (leaf load.depth (draw_cell lengthy load.depth first.state).made) values.old }
{
    let levels = mark_levels(load, first, at, masks);
    let next = levels.next;
    if levels.made == load.depth {
        let drawn = next.draw();
        let bytes = length_of(drawn.made);
        let next = draw_few(drawn.next, values, to, bytes);
        return Drawn { made: bytes, next };
    }
    Drawn { made: 0, next }
}

// Draws all cells, one after another: their masks and values, and where each value begins and the last one ends. Says how many value bytes they have.
fn draw_cells(load: Load, masks: &mut [u8], values: &mut [u8], offsets: &mut [u64]) -> usize
    requires { RaggedRoom load.depth load.n (bytes_of lengthy load) masks.old values.old offsets.old }
    ensures counts { result ≡ bytes_of lengthy load }
    ensures planes { masks.new ≡ over (masks_of load.depth (cells_of lengthy load)) masks.old }
    ensures joins { values.new ≡ over (joined (leaves load.depth (cells_of lengthy load))) values.old }
    ensures places { offsets.new ≡ over (offsets_of (leaves load.depth (cells_of lengthy load))) offsets.old }
{
    fill_bytes(masks, 0, load.depth * load.n, 0);
    let mut g = load.first;
    let mut to: usize = 0;
    for at in 0..load.n {
        offsets[at] = to as u64;
        let value = draw_cell(load, g, at, to, masks, values);
        g = value.next;
        to += value.made;
    }
    offsets[load.n] = to as u64;
    to
}

// How many value bytes the cells have. Each is drawn over the one before, as the only cell of a load, and nothing is kept of it.
fn count_bytes(load: Load) -> usize
    ensures { result ≡ bytes_of lengthy load }
{
    let one = Load {
        depth: load.depth,
        n: 1,
        first: load.first,
    };
    let mut masks = [0u8; DEEPEST];
    let mut values = [0u8; MOST];
    let mut g = load.first;
    let mut sum: usize = 0;
    for _ in 0..load.n {
        let value = draw_cell(one, g, 0, 0, &mut masks, &mut values);
        g = value.next;
        sum += value.made;
    }
    sum
}

// The load of cells with ragged values: 6, by a first run where not every cell has room for the longest value, and then the drawing.
pub fn make_ragged(
    load: Load,
    masks: &mut [u8],
    values: &mut [u8],
    offsets: &mut [u64],
) -> Result<Lengths, Refusal>
    ensures { outcome_array result masks.new values.new offsets.new
        ≡ put_into (layout lengthy load.depth (cells_of lengthy load)) (content_array masks.old values.old offsets.old) }
{
    let planes = load.depth * load.n;
    let count = load.n + 1;
    if masks.len() < planes {
        return Err(Refusal::Output);
    }
    if offsets.len() < count {
        return Err(Refusal::Output);
    }
    if !has_room(MOST * load.n, values.len(), || count_bytes(load)) {
        return Err(Refusal::Output);
    }
    let bytes = draw_cells(load, masks, values, offsets);
    Ok(Lengths {
        masks: planes,
        values: bytes,
        offsets: count,
    })
}
