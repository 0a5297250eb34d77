// Layer 2, writing: the stored form by position; a frame holds a content, and a content may be a frame again.
#![tactic(auto)]

ghost use Rattle.std.specs.Prelude.{◌≡◌, ◌+◌, ◌≤◌, length};
ghost use Rattle.array.specs.Buffers.{over, over_at};
ghost use Rattle.array.specs.Meaning.{kind_of, lent};
ghost use Rattle.array.specs.Outcome.{content_array};
ghost use Rattle.encode_values.specs.Ready.{Encodable};
ghost use Rattle.encode_values.specs.Stored.{level_of, stored_from, frame_from};

use array::content::ArrayBytes;
use array::kind::{Kind, Values};
use buffer::field;
use live_cells::{Counted, Level};
use mask::form;

// Writes the content of the cells that the level with so many levels left counts; says how many bytes it wrote.
#[cycle(write_content_write_frame)]
#[tactic(auto, using(crate::proofs::Frames::content_laws))]
pub fn write_content(
    out: &mut [u8],
    at: usize,
    kind: Kind,
    cells: usize,
    array: ArrayBytes,
    left: usize,
) -> usize
    requires ready { Encodable (kind_of kind) cells (lent array) }
    requires within { left ≤ (kind_of kind).depth }
    requires room { at + length (stored_from (kind_of kind) cells (lent array) left) ≤ length out.old }
    ensures wrote { result ≡ length (stored_from (kind_of kind) cells (lent array.entry) left) }
    ensures bytes { out.new ≡ over_at at (stored_from (kind_of kind) cells (lent array.entry) left) out.old }
{
    let depth = kind.depth as usize - left;
    let live = Level {
        masks: array.masks,
        cells,
        depth,
    }
    .counted();
    if live.count == 0 {
        return 0;
    }
    if left == 0 {
        return encode_values::put_values(out, at, kind, array.values, array.offsets, live);
    }
    write_frame(out, at, kind, array.values, array.offsets, left, live)
}

// Writes the frame of these cells: the content, then the mask, then their lengths.
#[cycle(write_content_write_frame)]
#[tactic(auto, using(crate::proofs::Frames::frame_laws))]
fn write_frame<'a>(
    out: &mut [u8],
    at: usize,
    kind: Kind,
    values: &'a [u8],
    offsets: &'a [u64],
    left: usize,
    live: Counted<'a>,
) -> usize
    requires level { live.level.depth ≡ level_of (kind_of kind) left }
    requires ready { Encodable (kind_of kind) live.level.cells (content_array live.level.masks.now values.now offsets.now) }
    requires within { (1 ≤ left) × (left ≤ (kind_of kind).depth) }
    requires room { at + length (frame_from (kind_of kind) live.level.cells (content_array live.level.masks.now values.now offsets.now) left) ≤ length out.old }
    ensures wrote { result ≡ length (frame_from (kind_of kind) live.entry.level.cells (content_array live.entry.level.masks.now values.now offsets.now) left) }
    ensures bytes { out.new ≡ over_at at (frame_from (kind_of kind) live.entry.level.cells (content_array live.entry.level.masks.now values.now offsets.now) left) out.old }
{
    let Level { masks, cells, .. } = live.level;
    let array = ArrayBytes {
        masks,
        values,
        offsets,
    };
    let start = at + 16;
    let mask = form::mask_length(kind.masks, live.count);
    let length = write_content(out, start + mask, kind, cells, array, left - 1);
    encode_masks::put_mask(kind.masks, out, start, live);
    field::put_u64(out, at + 8, length as u64);
    field::put_u64(out, at, mask as u64);
    16 + mask + length
}

// Writes the whole stored form. At depth 0 there is no level to go through, and all cells count.
#[tactic(auto, using(crate::proofs::Frames::stored_laws))]
pub fn write_stored(out: &mut [u8], kind: Kind, cells: usize, array: ArrayBytes)
    requires ready { Encodable (kind_of kind) cells (lent array) }
    requires room { length (stored_from (kind_of kind) cells (lent array) (kind_of kind).depth) ≤ length out.old }
    ensures { out.new ≡ over (stored_from (kind_of kind) cells (lent array.entry) (kind_of kind).depth) out.old }
{
    let depth = kind.depth as usize;
    if 0 < depth {
        write_content(out, 0, kind, cells, array, depth);
        return;
    }
    let ArrayBytes {
        values,
        offsets,
        ..
    } = array;
    match kind.values {
        Values::Fixed(size, order) => encode_cells::put_all(
            out,
            values,
            size as usize,
            order,
            cells,
        ),
        Values::Ragged(width, place) => encode_ragged::put_plain(
            out, width, place, values, offsets,
        ),
    }
}
