// Ragged values: their bytes, their index and the index's length, each at its place.
#![tactic(auto)]

ghost use Rattle.std.specs.Prelude.{◌≡◌, map, ◌+◌, ◌≤◌, length};
ghost use Rattle.array.specs.Buffers.{over, over_at};
ghost use Rattle.array.specs.Kind.{ragged};
ghost use Rattle.array.specs.Meaning.{width_of, place_of};
ghost use Rattle.codec.specs.Ragged.{put_ragged};
ghost use Rattle.codec.specs.Values.{put_values};
ghost use Rattle.encode_data.specs.Values.{live_values};

use array::kind;
use array::kind::{IndexPlace, IndexWidth};
use buffer::{copy, field};
use codec::place;
use encode_data::LiveValues;

// Ragged values of the cells that the level counts, end to end from offset 0; says how many bytes it wrote.
#[tactic(auto, using(crate::proofs::Parts::count_below, crate::proofs::Parts::index_long, crate::proofs::Parts::stored_long))]
pub fn put_ragged(
    out: &mut [u8],
    at: usize,
    width: IndexWidth,
    place: IndexPlace,
    values: LiveValues,
) -> usize
    requires { at + length (put_values (ragged (width_of width) (place_of place)) (live_values values)) ≤ length out.old }
    ensures wrote { result ≡ length (put_values (ragged (width_of width) (place_of place)) (live_values values.entry)) }
    ensures bytes { out.new ≡ over_at at (put_values (ragged (width_of width) (place_of place)) (live_values values.entry)) out.old }
{
    let places = values.places;
    let index = kind::width_bytes(width) * (places.live.count + 1);
    let data = at + place::data_at(place, index);
    let bytes = values.put(out, data);
    let stored = 8 + index + bytes;
    let start = at + place::index_at(place, stored, index);
    encode_index::put_live_index(out, start, width, places);
    let field = at + place::length_at(place, stored);
    field::put_u64(out, field, index as u64);
    stored
}

// The same with no mask, in one go: all cells count, so values and offsets go as they lie.
#[tactic(auto, using(crate::proofs::Parts::plain_long, codec::proofs::Ragged::length_index))]
pub fn put_plain(
    out: &mut [u8],
    width: IndexWidth,
    place: IndexPlace,
    values: &[u8],
    offsets: &[u64],
)
    requires { length (put_ragged (width_of width) (place_of place) (record { values = values.now; offsets = offsets.now })) ≤ length out.old }
    ensures { out.new ≡ over (put_ragged (width_of width) (place_of place) (record { values = values.entry.now; offsets = offsets.now })) out.old }
{
    let bytes = values.len();
    let index = kind::width_bytes(width) * offsets.len();
    let data = place::data_at(place, index);
    copy::copy_many(out, data, values, 0, bytes);
    let stored = 8 + index + bytes;
    let start = place::index_at(place, stored, index);
    encode_index::put_index(out, start, width, offsets);
    let field = place::length_at(place, stored);
    field::put_u64(out, field, index as u64);
}
