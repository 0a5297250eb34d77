// What a guest sees of ragged values: how many bytes, where each cell begins, and the bytes end to end.
ghost use Rattle.std.specs.Prelude.{◌≡◌, ◌+◌, ◌<◌, ◌≤◌, length};
ghost use Rattle.array.specs.Buffers.{over, put_into};
ghost use Rattle.array.specs.Content.{ValuesOk};
ghost use Rattle.array.specs.Kind.{ragged, at_start};
ghost use Rattle.array.specs.Meaning.{lent};
ghost use Rattle.array.specs.Outcome.{content_array, outcome_array};
ghost use Rattle.array.specs.Offsets.{last};
ghost use Rattle.array.specs.Places.{shown_at};
ghost use Rattle.live_cells.specs.Levels.{shown_in};
ghost use Rattle.encode_data.specs.Offsets.{Offsets};
ghost use Rattle.guest_read.specs.Seen.{bytes_seen, places_by, shown_by, seen_of};

use crate::guest::Guest;
use array::answer::Lengths;
use array::content::ArrayBytes;
use array::refusal::Refusal;
use buffer::room::has_room;
use encode_data::{LiveOffsets, LiveValues};
use live_cells::Level;

// Where each cell begins, and the last one ends, if those that the level counts lie end to end: a length by its mark, so that nothing
// branches on a mask. As `put_cell_places` of `table_make`, with all ends in one list.
#[inline(always)]
#[tactic(auto, using(encode_data::proofs::Spans::places_rise))]
fn put_cell_offsets(out: &mut [u64], places: LiveOffsets)
    requires { places.live.level.cells < length out.old }
    ensures { out.new ≡ over (places_by (shown_in places.entry.live.level) places.entry.offsets.now (places.entry.live.level.cells + 1)) out.old }
{
    let LiveOffsets { offsets, live } = places;
    let level = live.level;
    let mut to: u64 = 0;
    for j in 0..level.cells {
        let mark = level.mark(j) as u64;
        let begin = offsets[j];
        let end = offsets[j + 1];
        out[j] = to;
        to += (end - begin) * mark;
    }
    out[level.cells] = to;
}

// The same of the cells that one plane shows.
#[inline(never)]
fn put_offsets(out: &mut [u64], places: LiveOffsets)
    requires { (places.live.level.depth ≡ 1) × (places.live.level.cells < length out.old) }
    ensures { out.new ≡ over (places_by (shown_in places.entry.live.level) places.entry.offsets.now (places.entry.live.level.cells + 1)) out.old }
{
    put_cell_offsets(out, places.at_depth(1));
}

// The values that a plane shows, end to end, and where each begins and the last one ends. Says how many bytes they have. The plane was made here,
// so it is part of no `Guest`, and of no `LiveOffsets` until its level is.
fn put_seen<'a>(
    out_values: &mut [u8],
    out_offsets: &mut [u64],
    values: &'a [u8],
    offsets: &'a [u64],
    plane: &'a [u8],
) -> usize
    requires { Offsets (length plane.now) offsets.now × (last offsets.now ≡ length values.now) × (length plane.now < length out_offsets.old)
        × (length (shown_by plane.now values.now offsets.now) ≤ length out_values.old) }
    ensures wrote { result ≡ length (shown_by plane.now values.now offsets.now) }
    ensures bytes { out_values.new ≡ over (shown_by plane.now values.now offsets.now) out_values.old }
    ensures ends { out_offsets.new ≡ over (places_by (shown_at (length plane.now) plane.now 1) offsets.now (length plane.now + 1)) out_offsets.old }
{
    let level = Level {
        masks: plane,
        cells: plane.len(),
        depth: 1,
    };
    let places = LiveOffsets {
        offsets,
        live: level.counted(),
    };
    put_offsets(out_offsets, places);
    let shown = LiveValues { values, places };
    shown.put(out_values, 0)
}

// What is shown of ragged values: 6, or all is stored. What the innermost plane shows, as it is written, is what is shown at all.
pub fn read_ragged(
    guest: Guest,
    array: ArrayBytes,
    out_masks: &mut [u8],
    out_values: &mut [u8],
    out_offsets: &mut [u64],
) -> Result<Lengths, Refusal>
    requires { ValuesOk (ragged 8 at_start) guest.level.cells (lent array) }
    ensures { outcome_array result out_masks.new out_values.new out_offsets.new
        ≡ put_into (seen_of (ragged 8 at_start) guest.entry array.entry.values.now array.entry.offsets.now)
        (content_array out_masks.old out_values.old out_offsets.old) }
{
    let ArrayBytes {
        values,
        offsets,
        ..
    } = array;
    let cells = guest.level.cells;
    let planes = guest.level.depth * cells;
    let ends = cells + 1;
    if out_masks.len() < planes {
        return Err(Refusal::Output);
    }
    if out_offsets.len() < ends {
        return Err(Refusal::Output);
    }
    let count = || -> usize
        requires { Offsets guest.level.cells offsets.now }
        ensures { result ≡ bytes_seen guest.entry offsets.entry.now }
    { guest.bytes(offsets) };
    if !has_room(values.len(), out_values.len(), count) {
        return Err(Refusal::Output);
    }
    guest.put_masks(out_masks);
    let bytes = put_seen(
        out_values,
        out_offsets,
        values,
        offsets,
        &out_masks[planes - cells..planes],
    );
    Ok(Lengths {
        masks: planes,
        values: bytes,
        offsets: ends,
    })
}
