// Layer 2, packed masks written from a plane: a block holds each mask byte as its bit, and is packed eight cells a step.
#![tactic(auto)]

ghost use Rattle.std.specs.Prelude.{◌≡◌, map, ◌+◌, ◌*◌, ◌≤◌, ◌<◌, min, length, take, drop};
ghost use Rattle.array.specs.Buffers.{over_at};
ghost use Rattle.array.specs.Bytes.{number};
ghost use Rattle.array.specs.Cells.{bit_of};
ghost use Rattle.array.specs.Lists.{All, pieces};
ghost use Rattle.codec.specs.Mask.{bytes_for, pack_bits};
ghost use Rattle.mask_pack.specs.PackedWord.{packed_word};

use buffer::field;
use mask_bits::packed::bytes_for;
use mask_marks::one_if_set;

// The byte whose bits are the eight bytes of two halves, each of them 0 or 1. A byte of `low` and one of `high` share a byte of the sum,
// and one product brings the four together. Halves, since the compiler reads eight bytes in five loads here.
fn packed_word(low: u64, high: u64) -> u8
    ensures { result ≡ packed_word low high }
{
    let pairs = low % 4294967296 + 16 * (high % 4294967296);
    (pairs * 16909320 / 16777216 % 256) as u8
}

// Each of the `count` mask bytes at `at` as its bit: the product above needs 0 or 1, and `pack` asks nothing of the plane.
fn put_bits(block: &mut [u8], planes: &[u8], at: usize, count: usize)
    requires { (at + count ≤ length planes.now) × (count ≤ length block.old) }
    ensures { block.new ≡ over_at 0 (map bit_of (take count (drop at planes.now))) block.old }
{
    for i in 0..count {
        block[i] = one_if_set(planes[at + i]);
    }
}

// Packs eight bytes 00 and 01 at a time, into `count` bytes.
fn pack_words(out: &mut [u8], to: usize, block: &[u8], count: usize)
    requires { (to + count ≤ length out.old) × (count * 8 ≤ length block.now) × All (λ b. b < 2) block.now }
    ensures { out.new ≡ over_at to (map (number 2) (pieces 8 count block.now)) out.old }
{
    for i in 0..count {
        let low = field::le4_at(block, i * 8);
        let high = field::le4_at(block, i * 8 + 4);
        out[to + i] = packed_word(low, high);
    }
}

// Writes the packed mask of `count` cells of the plane at `at`, as many as a block holds at most.
fn pack_block(out: &mut [u8], to: usize, planes: &[u8], at: usize, count: usize)
    requires { (to + bytes_for count ≤ length out.old) × (at + count ≤ length planes.now) × (count ≤ 256) }
    ensures { out.new ≡ over_at to (pack_bits (map bit_of (take count (drop at planes.now)))) out.old }
{
    let mut block = [0u8; 256];
    put_bits(&mut block, planes, at, count);
    pack_words(out, to, &block, bytes_for(count));
}

// Writes the packed mask of the n cells of the plane at `at`. Every block but the last fills whole bytes.
pub fn pack(out: &mut [u8], to: usize, planes: &[u8], at: usize, n: usize)
    requires { (to + bytes_for n ≤ length out.old) × (at + n ≤ length planes.now) }
    ensures { out.new ≡ over_at to (pack_bits (map bit_of (take n (drop at planes.now)))) out.old }
{
    for done in (0..n).step_by(256) {
        let count = (n - done).min(256);
        pack_block(out, to + done / 8, planes, at + done, count);
    }
}
