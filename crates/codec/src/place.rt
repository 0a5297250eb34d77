// Where the parts of stored ragged values lie.
// Place start: 8-byte index length, index, data. Place end: data, index, index length.
ghost use Rattle.std.specs.Prelude.{◌≡◌, ◌+◌, ◌≤◌, ◌<◌};
ghost use Rattle.array.specs.Meaning.{place_of};
ghost use Rattle.codec.specs.Ragged.{length_at, index_at, data_at};

use array::kind::IndexPlace;

// Where the index length lies, in so many stored bytes.
pub fn length_at(place: IndexPlace, stored: usize) -> usize
    requires { 8 ≤ stored }
    ensures { result ≡ length_at (place_of place) stored }
{
    match place {
        IndexPlace::Start => 0,
        IndexPlace::End => stored - 8,
    }
}

// Where the index lies, `size` bytes of it, in so many stored bytes.
pub fn index_at(place: IndexPlace, stored: usize, size: usize) -> usize
    requires { 8 + size ≤ stored }
    ensures { result ≡ index_at (place_of place) stored size }
{
    match place {
        IndexPlace::Start => 8,
        IndexPlace::End => stored - 8 - size,
    }
}

// Where the data lies.
pub fn data_at(place: IndexPlace, size: usize) -> usize
    requires { 8 + size < 18446744073709551616 }
    ensures { result ≡ data_at (place_of place) size }
{
    match place {
        IndexPlace::Start => 8 + size,
        IndexPlace::End => 0,
    }
}
