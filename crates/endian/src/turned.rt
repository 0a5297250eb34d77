// Cells of two, four or eight bytes reversed, 32 bytes at a time.
ghost use Rattle.std.specs.Prelude.{◌≡◌, ◌+◌, ◌/◌, ◌≤◌, length, drop};
ghost use Rattle.array.specs.Calls.{reversed_cells};

use word::WordSize;

// The cells of the 32 bytes at `at`, each reversed. They are read before any is written where they go, so that the compiler
// makes vectors of them.
pub fn block_at(s: &[u8], at: usize, size: WordSize) -> [u8; 32]
    requires { at + 32 ≤ length s.now }
    ensures { result ≡ reversed_cells size.bytes (32 / size.bytes) (drop at s.now) }
{
    let mut block = [0; 32];
    for i in 0..32 / size.bytes {
        let k = i * size.bytes;
        word::put_word(&mut block, k, size, word::big_at(s, at + k, size));
    }
    block
}
