// What a table has of an array's rest form besides masks and store: where each cell starts, and how long it is.
ghost use Rattle.std.specs.Prelude.{◌≡◌, ◌≤◌, length};
ghost use Rattle.array.specs.Buffers.{over};
ghost use Rattle.table.specs.Calls.{starts_at};
ghost use Rattle.table_make.specs.Rested.{starts_of, lengths_of};

use encode_data::LiveOffsets;

// Where a cell of so many bytes starts.
fn start_at(to: u64, size: u64) -> u64
    ensures { result ≡ starts_at to size }
{
    if 0 < size { to } else { 0 }
}

// Cell by cell. One that is not shown has no bytes: its length by its mark, so that nothing branches on a mask. As
// `put_cell_offsets` of `guest_read`, with starts and lengths in two lists.
#[inline(always)]
#[tactic(auto, using(encode_data::proofs::Spans::places_rise))]
fn put_cell_places(starts: &mut [u64], lengths: &mut [u64], places: LiveOffsets)
    requires { (places.live.level.cells ≤ length starts.old) × (places.live.level.cells ≤ length lengths.old) }
    ensures starts { starts.new ≡ over (starts_of places.entry) starts.old }
    ensures lengths { lengths.new ≡ over (lengths_of places.entry) lengths.old }
{
    let LiveOffsets { offsets, live } = places;
    let level = live.level;
    let mut to: u64 = 0;
    for j in 0..level.cells {
        let mark = level.mark(j) as u64;
        let begin = offsets[j];
        let end = offsets[j + 1];
        let size = (end - begin) * mark;
        starts[j] = start_at(to, size);
        lengths[j] = size;
        to += size;
    }
}

// The same by level, each loop compiled for its own: in a function of their own, so that their pointers stay in registers.
#[inline(never)]
pub fn put_places(starts: &mut [u64], lengths: &mut [u64], places: LiveOffsets)
    requires { (places.live.level.cells ≤ length starts.old) × (places.live.level.cells ≤ length lengths.old) }
    ensures starts { starts.new ≡ over (starts_of places.entry) starts.old }
    ensures lengths { lengths.new ≡ over (lengths_of places.entry) lengths.old }
{
    match places.live.level.depth {
        0 => put_cell_places(starts, lengths, places.at_depth(0)),
        1 => put_cell_places(starts, lengths, places.at_depth(1)),
        2 => put_cell_places(starts, lengths, places.at_depth(2)),
        3 => put_cell_places(starts, lengths, places.at_depth(3)),
        4 => put_cell_places(starts, lengths, places.at_depth(4)),
        _ => put_cell_places(starts, lengths, places),
    }
}
