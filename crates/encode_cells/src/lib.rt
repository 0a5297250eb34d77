// Layer 2, gathering: of values of one size those of the cells that a level counts, end to end.
#![tactic(auto)]

ghost use Rattle.std.specs.Prelude.{◌≡◌, true, map, ◌+◌, ◌*◌, ◌≤◌, length};
ghost use Rattle.array.specs.Buffers.{over_at};
ghost use Rattle.array.specs.Kind.{fixed, ordered};
ghost use Rattle.array.specs.Limits.{most_cells};
ghost use Rattle.array.specs.Lists.{joined, pieces};
ghost use Rattle.array.specs.Meaning.{order_of};
ghost use Rattle.array.specs.Places.{fixed_at, values_at};
ghost use Rattle.codec.specs.Values.{put_values};
ghost use Rattle.live_cells.specs.Levels.{live_in};
ghost use Rattle.word.specs.Word.{word_test};

use array::kind::ByteOrder;
use buffer::copy;
use endian::cells;
use live_cells::{Counted, Level};
use word::WordSize;

// All cells of values with no mask: as endian's copy_cells, which with one more caller would be a call of its own everywhere.
pub fn put_all(out: &mut [u8], s: &[u8], size: usize, order: ByteOrder, cells: usize)
    requires { (cells * size ≤ length out.old) × (cells * size ≤ length s.now) }
    ensures { out.new ≡ over_at 0 (joined (map (ordered (order_of order)) (pieces size cells s.now))) out.old }
{
    match order {
        ByteOrder::Little => copy::copy_many(out, 0, s, 0, cells * size),
        ByteOrder::Big => cells::copy_cells_reversed(out, 0, s, 0, size, cells),
    }
}

// Of cells of one size, those that the level counts. Neighbours go as one run.
#[inline(always)]
#[tactic(auto, using(crate::proofs::Gathering::storing_laws), unfolding(array::specs::Limits::most_cells))]
fn put_live_runs(out: &mut [u8], to: usize, s: &[u8], size: usize, order: ByteOrder, level: Level)
    requires { (level.cells ≤ most_cells) × (level.cells * size ≤ length s.now)
        × (to + length (put_values (fixed size (order_of order)) (values_at (fixed_at 0 size) s.now (live_in level))) ≤ length out.old) }
    ensures { out.new ≡ over_at to (put_values (fixed size (order_of order)) (values_at (fixed_at 0 size) s.now (live_in level.entry))) out.old }
{
    let mut i = 0;
    let mut done = 0;
    // a turn takes a run and the cell behind it, so a range of cells has no turn for it
    while i < level.cells {
        let run = level.run(i);
        cells::copy_cells(out, to + done, s, i * size, size, order, run);
        done += run * size;
        i += run + 1;
    }
}

// The same by level: where the level is a constant, the loop is compiled for it and does not ask for it at each cell. A function of its own,
// since a loop within a large one has its pointers in memory.
#[inline(never)]
fn put_level_runs(out: &mut [u8], to: usize, s: &[u8], size: usize, order: ByteOrder, level: Level)
    requires { (level.cells ≤ most_cells) × (level.cells * size ≤ length s.now)
        × (to + length (put_values (fixed size (order_of order)) (values_at (fixed_at 0 size) s.now (live_in level))) ≤ length out.old) }
    ensures { out.new ≡ over_at to (put_values (fixed size (order_of order)) (values_at (fixed_at 0 size) s.now (live_in level.entry))) out.old }
{
    match level.depth {
        1 => put_live_runs(out, to, s, size, order, level.at_depth(1)),
        2 => put_live_runs(out, to, s, size, order, level.at_depth(2)),
        3 => put_live_runs(out, to, s, size, order, level.at_depth(3)),
        4 => put_live_runs(out, to, s, size, order, level.at_depth(4)),
        _ => put_live_runs(out, to, s, size, order, level),
    }
}

// The same of cells of a word's size, without a branch: a cell that the level does not count is written too, and the next is written over it.
#[inline(always)]
fn put_live_words(
    out: &mut [u8],
    to: usize,
    s: &[u8],
    size: WordSize,
    order: ByteOrder,
    live: Counted,
)
    requires { (live.level.cells * size.bytes ≤ length s.now)
        × (to + length (put_values (fixed size.bytes (order_of order)) (values_at (fixed_at 0 size.bytes) s.now (live_in live.level))) ≤ length out.old) }
    ensures { out.new
        ≡ over_at to (put_values (fixed size.bytes (order_of order)) (values_at (fixed_at 0 size.bytes) s.now (live_in live.entry.level))) out.old }
{
    let mut i = 0;
    let mut done = 0;
    // over a range of cells the last that counts would be a second test in each turn
    while done < live.count {
        let v = word::word_at(s, i * size.bytes, size, order);
        word::put_word(out, to + done * size.bytes, size, v);
        done += live.level.mark(i) as usize;
        i += 1;
    }
}

// The same by level, and each size has a loop of its own: it is a const parameter, so that the fact about it is asked and not carried.
#[inline(never)]
fn put_level_words<const SIZE: usize>(
    out: &mut [u8],
    to: usize,
    s: &[u8],
    order: ByteOrder,
    live: Counted,
)
    requires { (word_test SIZE ≡ true) × (live.level.cells * SIZE ≤ length s.now)
        × (to + length (put_values (fixed SIZE (order_of order)) (values_at (fixed_at 0 SIZE) s.now (live_in live.level))) ≤ length out.old) }
    ensures { out.new ≡ over_at to (put_values (fixed SIZE (order_of order)) (values_at (fixed_at 0 SIZE) s.now (live_in live.entry.level))) out.old }
{
    let size = WordSize { bytes: SIZE };
    match live.level.depth {
        1 => put_live_words(out, to, s, size, order, live.at_depth(1)),
        2 => put_live_words(out, to, s, size, order, live.at_depth(2)),
        3 => put_live_words(out, to, s, size, order, live.at_depth(3)),
        4 => put_live_words(out, to, s, size, order, live.at_depth(4)),
        _ => put_live_words(out, to, s, size, order, live),
    }
}

// Of cells of one size, those that the level counts.
pub fn put_live(out: &mut [u8], to: usize, s: &[u8], size: usize, order: ByteOrder, live: Counted)
    requires { (live.level.cells ≤ most_cells) × (live.level.cells * size ≤ length s.now)
        × (to + length (put_values (fixed size (order_of order)) (values_at (fixed_at 0 size) s.now (live_in live.level))) ≤ length out.old) }
    ensures { out.new ≡ over_at to (put_values (fixed size (order_of order)) (values_at (fixed_at 0 size) s.now (live_in live.entry.level))) out.old }
{
    if live.count == live.level.cells {
        cells::copy_cells(out, to, s, 0, size, order, live.level.cells);
    } else {
        match size {
            1 => put_level_words::<1>(out, to, s, order, live),
            2 => put_level_words::<2>(out, to, s, order, live),
            4 => put_level_words::<4>(out, to, s, order, live),
            8 => put_level_words::<8>(out, to, s, order, live),
            _ => put_level_runs(out, to, s, size, order, live.level),
        }
    }
}
