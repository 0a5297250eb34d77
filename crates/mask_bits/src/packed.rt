// Packed masks, checked and counted: cell i is bit i mod 8 of byte i / 8, the lowest bit first. Bits after the last cell are 0.
ghost use Rattle.std.specs.Prelude.{◌≡◌, true, ◌+◌, ◌≤◌, length};
ghost use Rattle.codec.specs.Mask.{bytes_for, packed_mask};
ghost use Rattle.codec.specs.Frame.{count_set};
ghost use Rattle.codec.specs.MaskAt.{stored_mask, said_mask};

use crate::bits::count_bits;

// Bytes that n bits take.
pub fn bytes_for(n: usize) -> usize
    ensures { result ≡ bytes_for n }
{
    n.div_ceil(8)
}

// Whether the bits after the n cells of the mask at `at` are 0. Only its last byte can have any.
pub fn unused_clear(s: &[u8], at: usize, n: usize) -> bool
    requires { at + bytes_for n ≤ length s.now }
    ensures { result ≡ packed_mask.test (stored_mask packed_mask s.now at n) n }
{
    let used = n % 8;
    used == 0 || s[at + n / 8] >> used == 0
}

// How many bits of the mask of n cells at `at` are set, none of the unused ones being so.
pub fn count_packed(s: &[u8], at: usize, n: usize) -> usize
    requires { (at + bytes_for n ≤ length s.now) × (packed_mask.test (stored_mask packed_mask s.now at n) n ≡ true) }
    ensures { result ≡ count_set (said_mask packed_mask s.now at n) }
{
    count_bits(s, at, bytes_for(n))
}
