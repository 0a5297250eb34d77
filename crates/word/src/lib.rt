// Cells of a machine word's size, as numbers: read in either byte order, and written.
#![tactic(auto)]

ghost use Rattle.std.specs.Prelude.{◌≡◌, true, ◌++◌, reverse, ◌+◌, ◌≤◌, length, take, drop};
ghost use Rattle.array.specs.Bytes.{le, unle};
ghost use Rattle.array.specs.Buffers.{over_at};
ghost use Rattle.array.specs.Kind.{ordered};
ghost use Rattle.array.specs.Meaning.{order_of};
ghost use Rattle.word.specs.Word.{word_test};

use array::kind::ByteOrder;
use buffer::field;

// The size of a machine word, in bytes: 1, 2, 4 or 8.
#[derive(Clone, Copy)]
pub struct WordSize {
    pub bytes: usize,
    pub ghost word: { word_test bytes ≡ true },
}

impl WordSize {
    pub const ONE: WordSize = WordSize { bytes: 1 };

    pub const TWO: WordSize = WordSize { bytes: 2 };

    pub const FOUR: WordSize = WordSize { bytes: 4 };

    pub const EIGHT: WordSize = WordSize { bytes: 8 };
}

// The number of the N bytes at `at`, the highest first. N is a constant, so that it compiles to a load and a byte swap.
fn big_number_at<const N: usize>(s: &[u8], at: usize) -> u64
    requires { (N ≤ 8) × (at + N ≤ length s.now) }
    ensures { result ≡ unle (reverse (take N (drop at s.now))) }
{
    let mut bytes = [0; 8];
    bytes[8 - N..].copy_from_slice(&s[at..at + N]);
    u64::from_be_bytes(bytes)
}

// Taken from the number and not from the bytes, it compiles to one byte swap.
pub fn be8_at(s: &[u8], at: usize) -> u64
    requires { at + 8 ≤ length s.now }
    ensures { result ≡ unle (reverse (take 8 (drop at s.now))) }
{
    field::le8_at(s, at).swap_bytes()
}

// Here and below each size is a constant of its own, so that a cell is one load or one store.
fn little_at(s: &[u8], at: usize, size: WordSize) -> u64
    requires { at + size.bytes ≤ length s.now }
    ensures { result ≡ unle (take size.bytes (drop at s.now)) }
{
    match size.bytes {
        1 => field::number_at::<1>(s, at),
        2 => field::number_at::<2>(s, at),
        4 => field::number_at::<4>(s, at),
        _ => field::number_at::<8>(s, at),
    }
}

pub fn big_at(s: &[u8], at: usize, size: WordSize) -> u64
    requires { at + size.bytes ≤ length s.now }
    ensures { result ≡ unle (reverse (take size.bytes (drop at s.now))) }
{
    match size.bytes {
        1 => big_number_at::<1>(s, at),
        2 => big_number_at::<2>(s, at),
        4 => big_number_at::<4>(s, at),
        _ => be8_at(s, at),
    }
}

// The cell at `at` as a number, whose bytes are the cell's in the order told.
pub fn word_at(s: &[u8], at: usize, size: WordSize, order: ByteOrder) -> u64
    requires { at + size.bytes ≤ length s.now }
    ensures { le size.bytes result ≡ ordered (order_of order) (take size.bytes (drop at s.now)) }
{
    match order {
        ByteOrder::Little => little_at(s, at, size),
        ByteOrder::Big => big_at(s, at, size),
    }
}

// Writes the lowest bytes of v, as many as the size.
pub fn put_word(out: &mut [u8], at: usize, size: WordSize, v: u64)
    requires { at + size.bytes ≤ length «out».old }
    ensures { «out».new ≡ over_at at (le size.bytes v) «out».old }
{
    match size.bytes {
        1 => field::put_number::<1>(out, at, v),
        2 => field::put_number::<2>(out, at, v),
        4 => field::put_number::<4>(out, at, v),
        _ => field::put_number::<8>(out, at, v),
    }
}
