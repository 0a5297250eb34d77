// Layer 2, packed masks read into a plane: eight cells a step.
#![tactic(auto)]

ghost use Rattle.std.specs.Prelude.{◌≡◌, true, ℕ, ◌+◌, ◌*◌, ◌≤◌, ◌<◌, length, take, drop, replicate};
ghost use Rattle.array.specs.Buffers.{over_at};
ghost use Rattle.array.specs.Bytes.{digits, le, unle};
ghost use Rattle.codec.specs.Mask.{bytes_for, bits_of, packed_mask};
ghost use Rattle.codec.specs.MaskAt.{said_mask};

use buffer::{copy, field};

// The eight mask bytes that b says, as the number whose bytes they are: byte i of the product keeps bit i of b, and becomes 1 where that is set.
fn eight_bytes(b: u8) -> u64
    ensures { le 8 result ≡ digits 2 8 b }
{
    let bits = b as u64 * 72340172838076673 & 9241421688590303745;
    (bits + 9187201950435737471) / 128 & 72340172838076673
}

// The cells of whole bytes.
fn unpack_whole(planes: &mut [u8], to: usize, s: &[u8], at: usize, whole: usize)
    requires { (to + whole * 8 ≤ length planes.old) × (at + whole ≤ length s.now) }
    ensures { planes.new ≡ over_at to (bits_of (take whole (drop at s.now))) planes.old }
{
    for i in 0..whole {
        field::put_u64(planes, to + i * 8, eight_bytes(s[at + i]));
    }
}

// Whether the `count` numbers of eight bytes from `at` on are all `word`.
fn all_words(s: &[u8], at: usize, count: usize, word: u64) -> bool
    requires { at + count * 8 ≤ length s.now }
    ensures { result ≡ true → (i : ℕ) → i < count → unle (take 8 (drop (at + i * 8) s.now)) ≡ word }
{
    for i in 0..count {
        if field::le8_at(s, at + i * 8) != word {
            return false;
        }
    }
    true
}

// The cells of whole bytes, of which the first `words` times eight say `mark` alone.
fn unpack_run(
    planes: &mut [u8],
    to: usize,
    s: &[u8],
    at: usize,
    whole: usize,
    words: usize,
    mark: u8,
)
    requires { (to + whole * 8 ≤ length planes.old) × (at + whole ≤ length s.now) × (words * 8 ≤ whole)
        × (bits_of (take (words * 8) (drop at s.now)) ≡ replicate (words * 64) mark) }
    ensures { planes.new ≡ over_at to (bits_of (take whole (drop at s.now))) planes.old }
{
    copy::fill_bytes(planes, to, words * 64, mark);
    unpack_whole(
        planes,
        to + words * 64,
        s,
        at + words * 8,
        whole - words * 8,
    );
}

// The cells of whole bytes. Bytes that are all 00 or all FF go as one run.
fn unpack_bytes(planes: &mut [u8], to: usize, s: &[u8], at: usize, whole: usize)
    requires { (to + whole * 8 ≤ length planes.old) × (at + whole ≤ length s.now) }
    ensures { planes.new ≡ over_at to (bits_of (take whole (drop at s.now))) planes.old }
{
    let words = whole / 8;
    if all_words(s, at, words, 0) {
        unpack_run(planes, to, s, at, whole, words, 0);
        return;
    }
    if all_words(s, at, words, 18446744073709551615) {
        unpack_run(planes, to, s, at, whole, words, 1);
        return;
    }
    unpack_whole(planes, to, s, at, whole);
}

// The first `count` cells of a byte.
fn unpack_some(planes: &mut [u8], to: usize, b: u8, count: usize)
    requires { (to + count ≤ length planes.old) × (count ≤ 8) }
    ensures { planes.new ≡ over_at to (take count (digits 2 8 b)) planes.old }
{
    let mut cells = [0u8; 8];
    field::put_u64(&mut cells, 0, eight_bytes(b));
    copy::copy_bytes(planes, to, &cells, 0, count);
}

// Writes the mask bytes of the n cells of the packed mask at `at` into the plane at `to`: 01 where the bit is set.
pub fn unpack(planes: &mut [u8], to: usize, s: &[u8], at: usize, n: usize)
    requires { (to + n ≤ length planes.old) × (at + bytes_for n ≤ length s.now) }
    ensures { planes.new ≡ over_at to (said_mask packed_mask s.now at n) planes.old }
{
    let whole = n / 8;
    unpack_bytes(planes, to, s, at, whole);
    let rest = n % 8;
    if 0 < rest {
        unpack_some(planes, to + whole * 8, s[at + whole], rest);
    }
}
