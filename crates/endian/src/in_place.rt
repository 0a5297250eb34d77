// Cells of one size reversed in place.
ghost use Rattle.std.specs.Prelude.{◌≡◌, true, reverse, ◌+◌, ◌*◌, ◌/◌, ◌≤◌, length, take, drop};
ghost use Rattle.array.specs.Buffers.{over_at};
ghost use Rattle.array.specs.Calls.{reversed_cells, whole_cells};

use crate::turned;
use buffer::field;
use word::WordSize;

// Reverses each whole cell of two, four or eight bytes and says how many bytes these are: 64 bytes a turn, then cell by cell.
// The size is a constant where it is called, so that each size has loops of its own.
pub fn reverse_words(bytes: &mut [u8], size: WordSize) -> usize
    ensures whole { result ≡ whole_cells size.bytes bytes.old }
    ensures bytes { bytes.new ≡ over_at 0 (reversed_cells size.bytes (length bytes.old / size.bytes) bytes.old) bytes.old }
{
    let all = bytes.len();
    let line = 64 / size.bytes;
    let lines = all / 64;
    for i in 0..lines {
        let k = i * 64;
        reverse_block(bytes, k, size);
        reverse_block(bytes, k + 32, size);
    }
    let cells = all / size.bytes;
    for j in lines * line..cells {
        reverse_word(bytes, j * size.bytes, size);
    }
    cells * size.bytes
}

// Cells of a size that no other function has. It is called from two places and is long, so that it stays a function of its own:
// its registers are not saved where other sizes are reversed. The size of 32 is a constant, as some types have it.
pub fn reverse_any(bytes: &mut [u8], at: usize, size: usize, cells: usize) -> usize
    requires { at + cells * size ≤ length bytes.old }
    ensures whole { result ≡ cells * size }
    ensures bytes { bytes.new ≡ over_at at (reversed_cells size cells (drop at bytes.old)) bytes.old }
{
    match size {
        32 => reverse_cells(bytes, at, 32, cells),
        _ => reverse_cells(bytes, at, size, cells),
    }
}

// Reverses the cells that begin at `at`, each by its ends, and says how many bytes these are.
pub fn reverse_cells(bytes: &mut [u8], at: usize, size: usize, cells: usize) -> usize
    requires { at + cells * size ≤ length bytes.old }
    ensures whole { result ≡ cells * size }
    ensures bytes { bytes.new ≡ over_at at (reversed_cells size cells (drop at bytes.old)) bytes.old }
{
    for i in 0..cells {
        reverse_cell(bytes, at + i * size, size);
    }
    cells * size
}

// The cells of 32 bytes. All are read before the first is written.
fn reverse_block(bytes: &mut [u8], at: usize, size: WordSize)
    requires { at + 32 ≤ length bytes.old }
    ensures { bytes.new ≡ over_at at (reversed_cells size.bytes (32 / size.bytes) (drop at bytes.old)) bytes.old }
{
    let block = turned::block_at(bytes, at, size);
    bytes[at..at + 32].copy_from_slice(&block);
}

fn reverse_word(bytes: &mut [u8], at: usize, size: WordSize)
    requires { at + size.bytes ≤ length bytes.old }
    ensures { bytes.new ≡ over_at at (reverse (take size.bytes (drop at bytes.old))) bytes.old }
{
    let v = word::big_at(bytes, at, size);
    word::put_word(bytes, at, size, v);
}

// Each word goes to the other's place, reversed.
fn swap_words(bytes: &mut [u8], low: usize, high: usize)
    requires { (low + 8 ≤ length bytes.old) × (high + 8 ≤ length bytes.old) }
    ensures { bytes.new ≡ over_at high (reverse (take 8 (drop low bytes.old))) (over_at low (reverse (take 8 (drop high bytes.old))) bytes.old) }
{
    let a = word::be8_at(bytes, low);
    let b = word::be8_at(bytes, high);
    field::put_u64(bytes, low, b);
    field::put_u64(bytes, high, a);
}

// Reverses the size bytes at `at`: the ends are swapped, words and then bytes. By `reverse` of the slice 16 bytes took 9 times as long and
// 17 took 1.8; by words and then `reverse`, 12 took 1.7.
fn reverse_cell(bytes: &mut [u8], at: usize, size: usize)
    requires { at + size ≤ length bytes.old }
    ensures { bytes.new ≡ over_at at (reverse (take size (drop at bytes.old))) bytes.old }
{
    let pairs = size / 16;
    for i in 0..pairs {
        let low = at + i * 8;
        let left = size - i * 16;
        swap_words(bytes, low, low + (left - 8));
    }
    let low = at + pairs * 8;
    let left = size - pairs * 16;
    for j in 0..left / 2 {
        let high = low + (left - 1 - j);
        let a = bytes[low + j];
        let b = bytes[high];
        bytes[low + j] = b;
        bytes[high] = a;
    }
}
