// Values of a machine word's size.
#![tactic(auto)]

ghost use Rattle.std.specs.Prelude.{◌≡◌, true, ◌+◌, ◌*◌, ◌≤◌, length, drop};
ghost use Rattle.array.specs.Bytes.{le};
ghost use Rattle.array.specs.Buffers.{over};
ghost use Rattle.array.specs.Meaning.{order_of};
ghost use Rattle.decode_marks.specs.Next.{word_at};
ghost use Rattle.decode_words.specs.Values.{values_over, ValuesWithin};

use array::kind::ByteOrder;
use array::mark::mark_of;
use buffer::copy::fill_bytes;
use decode_marks::{if_set, skip};
use word::{WordSize, put_word, word_at};

// The stored word k, of `cells` words from `at` on, or 0 behind them.
pub fn next_word(
    s: &[u8],
    at: usize,
    k: usize,
    cells: usize,
    size: WordSize,
    order: ByteOrder,
) -> u64
    requires { at + cells * size.bytes ≤ length s.now }
    ensures { le size.bytes result ≡ word_at size.bytes (order_of order) s.now at k cells }
{
    if k < cells {
        word_at(s, at + k * size.bytes, size, order)
    } else {
        0
    }
}

// A word is at hand for every cell until all are placed, so that no branch goes by the plane. The next is read before the store, or it
// would be read behind a branch again. `spread_pairs`, `spread_laid` and `spread_offsets` have the like loop with what they read and put: one for all
// would be a trait with an impl for each.
pub fn spread_words(
    values: &mut [u8],
    plane: &[u8],
    s: &[u8],
    at: usize,
    size: WordSize,
    order: ByteOrder,
    cells: usize,
)
    requires { ValuesWithin values.old plane.now s.now at size.bytes cells }
    ensures { values.new ≡ over (values_over size.bytes (order_of order) plane.now (drop at s.now)) values.old }
{
    let mut i = 0;
    let mut k = 0;
    let mut v = next_word(s, at, k, cells, size, order);
    // it ends with the last stored one and not with the last cell: a `for` over the cells would test for both
    while k < cells {
        let mark = mark_of(plane[i]);
        let w = if_set(mark, v, 0);
        k = skip(mark, k, 1);
        v = next_word(s, at, k, cells, size, order);
        put_word(values, i * size.bytes, size, w);
        i += 1;
    }
    fill_bytes(values, i * size.bytes, (plane.len() - i) * size.bytes, 0);
}
