// One cell of a plane, by its mark: a set cell takes the next stored one.
#![tactic(auto)]

ghost use Rattle.std.specs.Prelude.{◌≡◌, ◌<◌};
ghost use Rattle.array.specs.Meaning.{told_mark};
ghost use Rattle.decode_marks.specs.Next.{if_set, next_at};

use array::mark::Mark;

// Where the next stored one is, each having `size` bytes.
pub fn skip(mark: Mark, at: usize, size: usize) -> usize
    requires { next_at (told_mark mark) at size < 18446744073709551616 }
    ensures { result ≡ next_at (told_mark mark) at size }
{
    match mark {
        Mark::Set => at + size,
        Mark::Null | Mark::Other => at,
    }
}

// x for a set cell, and z for any other.
pub fn if_set<T: Copy>(mark: Mark, x: T, z: T) -> T
    ensures { result ≡ if_set (told_mark mark) x z }
{
    match mark {
        Mark::Set => x,
        Mark::Null | Mark::Other => z,
    }
}
