// Copying and filling. What lies outside the place written is kept.
ghost use Rattle.std.specs.Prelude.{◌≡◌, ◌+◌, ◌≤◌, length, take, drop, replicate};
ghost use Rattle.array.specs.Buffers.{over_at};

// Copies the k bytes of s that begin at `at` to the place `to`. A loop: a call of the library's costs more than the few bytes that most
// copies have (docs/DECISIONS.md, part (k)).
pub fn copy_bytes(out: &mut [u8], to: usize, s: &[u8], at: usize, k: usize)
    requires { (to + k ≤ length out.old) × (at + k ≤ length s.now) }
    ensures { out.new ≡ over_at to (take k (drop at s.now)) out.old }
{
    for i in 0..k {
        out[to + i] = s[at + i];
    }
}

// The same where many bytes are likely. Above what a call costs, memmove is faster, as it knows the widest stores of the machine;
// above a mebibyte both wait for memory.
pub fn copy_many(out: &mut [u8], to: usize, s: &[u8], at: usize, k: usize)
    requires { (to + k ≤ length out.old) × (at + k ≤ length s.now) }
    ensures { out.new ≡ over_at to (take k (drop at s.now)) out.old }
{
    if k > 256 && k <= 1048576 {
        out[to..to + k].copy_from_slice(&s[at..at + k]);
    } else {
        copy_bytes(out, to, s, at, k);
    }
}

// Writes the byte b, k times, from the place `to` on. Not one function with the next: `over_at` lays numbers over numbers, so that a
// generic one would promise it of a type's numbers, and each caller would say which they are.
pub fn fill_bytes(out: &mut [u8], to: usize, k: usize, b: u8)
    requires { to + k ≤ length out.old }
    ensures { out.new ≡ over_at to (replicate k b) out.old }
{
    out[to..to + k].fill(b);
}

// The same for a 64-bit number.
pub fn fill_numbers(out: &mut [u64], to: usize, k: usize, v: u64)
    requires { to + k ≤ length out.old }
    ensures { out.new ≡ over_at to (replicate k v) out.old }
{
    out[to..to + k].fill(v);
}
