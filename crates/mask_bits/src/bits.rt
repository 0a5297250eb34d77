// How many bits of bytes are set: the count of ones, of eight bytes at a time.
ghost use Rattle.std.specs.Prelude.{◌≡◌, ◌+◌, ◌*◌, ◌≤◌, ◌<◌, ◌%◌, length, take, drop};
ghost use Rattle.mask_bits.specs.Bits.{bits_in};

use buffer::field;

// The set bits of whole words.
fn count_words(bytes: &[u8]) -> usize
    requires { (length bytes.now % 8 ≡ 0) × (bits_in bytes.now < 18446744073709551616) }
    ensures { result ≡ bits_in bytes.now }
{
    let mut set: usize = 0;
    for word in bytes.chunks_exact(8) {
        set += field::le8_at(word, 0).count_ones() as usize;
    }
    set
}

// The set bits of bytes, byte by byte.
fn count_bytes(bytes: &[u8]) -> usize
    requires { bits_in bytes.now < 18446744073709551616 }
    ensures { result ≡ bits_in bytes.now }
{
    let mut set: usize = 0;
    for b in bytes {
        set += b.count_ones() as usize;
    }
    set
}

// How many bits of `size` bytes from `at` on are set.
pub fn count_bits(s: &[u8], at: usize, size: usize) -> usize
    requires { (at + size ≤ length s.now) × (bits_in (take size (drop at s.now)) < 18446744073709551616) }
    ensures { result ≡ bits_in (take size (drop at s.now)) }
{
    let bytes = &s[at..at + size];
    let (words, rest) = bytes.split_at(size / 8 * 8);
    count_words(words) + count_bytes(rest)
}
