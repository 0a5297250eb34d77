// Little-endian numbers in bytes: read with a test, read where the room is known, and written.
ghost use Rattle.std.specs.Prelude.{◌≡◌, ◌+◌, ◌≤◌, length, take, drop};
ghost use Rattle.array.specs.Bytes.{le, unle};
ghost use Rattle.array.specs.Buffers.{over_at};
ghost use Rattle.buffer.specs.Field.{field_at};
ghost use Rattle.array.specs.Meaning.{number_of, width_of, told};

use array::kind::IndexWidth;
use array::refusal::Refusal;

// The number of the N bytes at `at`, or a refusal where the bytes end before it does.
pub fn read<const N: usize>(s: &[u8], at: usize, short: Refusal) -> Result<u64, Refusal>
    requires { (1 ≤ N) × (N ≤ 8) }
    ensures { told result ≡ field_at N (number_of short) s.now at }
{
    if s.len() < at {
        return Err(short);
    }
    if s.len() - at < N {
        return Err(short);
    }
    Ok(number_at::<N>(s, at))
}

// The 8-byte number at `at`, or refusal 7.
pub fn read_u64(s: &[u8], at: usize) -> Result<u64, Refusal>
    ensures { told result ≡ field_at 8 7 s.now at }
{
    read::<8>(s, at, Refusal::Short)
}

// The 4-byte number at `at`, a length in the older form, or refusal 11.
pub fn read_u32(s: &[u8], at: usize) -> Result<u64, Refusal>
    ensures { told result ≡ field_at 4 11 s.now at }
{
    read::<4>(s, at, Refusal::PastEnd)
}

// The number of the N bytes at `at`, the lowest first. N is a constant, so that it compiles to one load.
pub fn number_at<const N: usize>(s: &[u8], at: usize) -> u64
    requires { (N ≤ 8) × (at + N ≤ length s.now) }
    ensures { result ≡ unle (take N (drop at s.now)) }
{
    let mut bytes = [0; 8];
    bytes[..N].copy_from_slice(&s[at..at + N]);
    u64::from_le_bytes(bytes)
}

// Writes the lowest N bytes of v: one store.
pub fn put_number<const N: usize>(out: &mut [u8], at: usize, v: u64)
    requires { (N ≤ 8) × (at + N ≤ length «out».old) }
    ensures { «out».new ≡ over_at at (le N v) «out».old }
{
    out[at..at + N].copy_from_slice(&v.to_le_bytes()[..N]);
}

pub fn le4_at(s: &[u8], at: usize) -> u64
    requires { at + 4 ≤ length s.now }
    ensures { result ≡ unle (take 4 (drop at s.now)) }
{
    number_at::<4>(s, at)
}

pub fn le8_at(s: &[u8], at: usize) -> u64
    requires { at + 8 ≤ length s.now }
    ensures { result ≡ unle (take 8 (drop at s.now)) }
{
    number_at::<8>(s, at)
}

// The offset of an index, by its width: a match, so that each width is one load.
pub fn le_at(s: &[u8], at: usize, width: IndexWidth) -> u64
    requires { at + width_of width ≤ length s.now }
    ensures { result ≡ unle (take (width_of width) (drop at s.now)) }
{
    match width {
        IndexWidth::Four => le4_at(s, at),
        IndexWidth::Eight => le8_at(s, at),
    }
}

pub fn put_u32(out: &mut [u8], at: usize, v: u64)
    requires { at + 4 ≤ length «out».old }
    ensures { «out».new ≡ over_at at (le 4 v) «out».old }
{
    put_number::<4>(out, at, v);
}

pub fn put_u64(out: &mut [u8], at: usize, v: u64)
    requires { at + 8 ≤ length «out».old }
    ensures { «out».new ≡ over_at at (le 8 v) «out».old }
{
    put_number::<8>(out, at, v);
}
