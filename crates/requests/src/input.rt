// Standard input, or what else is read, and rooms of fixed sizes to read it into.
ghost use Rattle.std.specs.Prelude.{◌≡◌, ◌≤◌, ◌<◌, length, take, IfOk};
ghost use Rattle.std.specs.Io.KnownBytes.{Consumes, IsAtEnd};

use std::io;
use std::io::Read;

// A room of so many elements, all of them `blank`.
pub fn room<T: Copy, const N: usize>(blank: T) -> [T; N]
    ensures { N ≡ length result }
{
    [blank; N]
}

// Reads until the room is full or the input ends; how many bytes were read.
// A loop over `read`: std's `read_exact` does not say what a short input had, and its `read_to_end` takes a heap.
pub fn read_full<R: Read>(input: &mut R, room: &mut [u8]) -> io::Result<usize>
    ensures within { IfOk result (λ n. n ≤ length room.new) }
    ensures read { IfOk result (λ n. Consumes (R.remaining input.old) (R.remaining input.new) (take n room.new)) }
    ensures whole { IfOk result (λ n. n < length room.new → IsAtEnd (R.remaining input.new)) }
{
    let mut done = 0;
    while done < room.len() {
        let n = input.read(&mut room[done..])?;
        if n == 0 {
            break;
        }
        done += n;
    }
    Ok(done)
}
