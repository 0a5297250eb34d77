// Cells of one size copied in their stored order: in little order as one run, in big order each reversed.
ghost use Rattle.std.specs.Prelude.{◌≡◌, true, map, reverse, ◌+◌, ◌*◌, ◌/◌, ◌%◌, ◌≤◌, length, take, drop};
ghost use Rattle.array.specs.Buffers.{over_at};
ghost use Rattle.array.specs.Kind.{ordered};
ghost use Rattle.array.specs.Lists.{joined, pieces};
ghost use Rattle.array.specs.Meaning.{order_of};
ghost use Rattle.array.specs.Calls.{reversed_cells};

use crate::{in_place, turned};
use array::kind::ByteOrder;
use buffer::{copy, field};
use word::WordSize;

pub fn copy_cells(
    out: &mut [u8],
    to: usize,
    s: &[u8],
    at: usize,
    size: usize,
    order: ByteOrder,
    cells: usize,
)
    requires { (to + cells * size ≤ length «out».old) × (at + cells * size ≤ length s.now) }
    ensures { «out».new ≡ over_at to (joined (map (ordered (order_of order)) (pieces size cells (drop at s.now)))) «out».old }
{
    match order {
        ByteOrder::Little => copy::copy_many(out, to, s, at, cells * size),
        ByteOrder::Big => copy_cells_reversed(out, to, s, at, size, cells),
    }
}

// The size is a constant where it is one that most types have, so that each has loops of its own. Two tests and then few
// sizes each, so that no table of jumps stands before them.
pub fn copy_cells_reversed(
    out: &mut [u8],
    to: usize,
    s: &[u8],
    at: usize,
    size: usize,
    cells: usize,
)
    requires { (to + cells * size ≤ length «out».old) × (at + cells * size ≤ length s.now) }
    ensures { «out».new ≡ over_at to (reversed_cells size cells (drop at s.now)) «out».old }
{
    if size < 4 {
        match size {
            1 => copy::copy_many(out, to, s, at, cells),
            2 => copy_words(out, to, s, at, WordSize::TWO, cells),
            _ => copy_any(out, to, s, at, size, cells),
        }
    } else {
        match size {
            4 => copy_words(out, to, s, at, WordSize::FOUR, cells),
            8 => copy_words(out, to, s, at, WordSize::EIGHT, cells),
            _ => copy_others(out, to, s, at, size, cells),
        }
    }
}

// Two matches, so that no table of jumps stands before the sizes that most types have; a constant size in each arm.
fn copy_others(out: &mut [u8], to: usize, s: &[u8], at: usize, size: usize, cells: usize)
    requires { (to + cells * size ≤ length «out».old) × (at + cells * size ≤ length s.now) }
    ensures { «out».new ≡ over_at to (reversed_cells size cells (drop at s.now)) «out».old }
{
    match size {
        16 => copy_large(out, to, s, at, 16, cells),
        64 => copy_large(out, to, s, at, 64, cells),
        _ => copy_any(out, to, s, at, size, cells),
    }
}

// Cells of two, four or eight bytes: 64 bytes a turn, then cell by cell.
fn copy_words(out: &mut [u8], to: usize, s: &[u8], at: usize, size: WordSize, cells: usize)
    requires { (to + cells * size.bytes ≤ length «out».old) × (at + cells * size.bytes ≤ length s.now) }
    ensures { «out».new ≡ over_at to (reversed_cells size.bytes cells (drop at s.now)) «out».old }
{
    let line = 64 / size.bytes;
    let lines = cells / line;
    for i in 0..lines {
        let k = i * 64;
        copy_block(out, to + k, s, at + k, size);
        copy_block(out, to + (k + 32), s, at + (k + 32), size);
    }
    for j in lines * line..cells {
        let k = j * size.bytes;
        copy_word(out, to + k, s, at + k, size);
    }
}

// Cells of sixteen bytes or a multiple.
fn copy_large(out: &mut [u8], to: usize, s: &[u8], at: usize, size: usize, cells: usize)
    requires { (size % 16 ≡ 0) × (to + cells * size ≤ length «out».old) × (at + cells * size ≤ length s.now) }
    ensures { «out».new ≡ over_at to (reversed_cells size cells (drop at s.now)) «out».old }
{
    for i in 0..cells {
        let k = i * size;
        copy_cell(out, to + k, s, at + k, size);
    }
}

// Cells of any size: copied, and then reversed where they lie.
fn copy_any(out: &mut [u8], to: usize, s: &[u8], at: usize, size: usize, cells: usize)
    requires { (to + cells * size ≤ length «out».old) × (at + cells * size ≤ length s.now) }
    ensures { «out».new ≡ over_at to (reversed_cells size cells (drop at s.now)) «out».old }
{
    copy::copy_bytes(out, to, s, at, cells * size);
    in_place::reverse_any(out, to, size, cells);
}

// The cells of 32 bytes. All are read before the first is written.
fn copy_block(out: &mut [u8], to: usize, s: &[u8], at: usize, size: WordSize)
    requires { (to + 32 ≤ length «out».old) × (at + 32 ≤ length s.now) }
    ensures { «out».new ≡ over_at to (reversed_cells size.bytes (32 / size.bytes) (drop at s.now)) «out».old }
{
    out[to..to + 32].copy_from_slice(&turned::block_at(s, at, size));
}

fn copy_word(out: &mut [u8], to: usize, s: &[u8], at: usize, size: WordSize)
    requires { (to + size.bytes ≤ length «out».old) × (at + size.bytes ≤ length s.now) }
    ensures { «out».new ≡ over_at to (reverse (take size.bytes (drop at s.now))) «out».old }
{
    word::put_word(out, to, size, word::big_at(s, at, size));
}

// A cell of sixteen bytes or a multiple, the last bytes first.
fn copy_cell(out: &mut [u8], to: usize, s: &[u8], at: usize, size: usize)
    requires { (size % 16 ≡ 0) × (to + size ≤ length «out».old) × (at + size ≤ length s.now) }
    ensures { «out».new ≡ over_at to (reverse (take size (drop at s.now))) «out».old }
{
    for i in 0..size / 16 {
        let k = i * 16;
        copy_cell_16(out, to + k, s, at + (size - k - 16));
    }
}

fn copy_cell_16(out: &mut [u8], to: usize, s: &[u8], at: usize)
    requires { (to + 16 ≤ length «out».old) × (at + 16 ≤ length s.now) }
    ensures { «out».new ≡ over_at to (reverse (take 16 (drop at s.now))) «out».old }
{
    let low = word::be8_at(s, at);
    let high = word::be8_at(s, at + 8);
    field::put_u64(out, to, high);
    field::put_u64(out, to + 8, low);
}
