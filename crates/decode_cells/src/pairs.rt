// Values of two machine words.
ghost use Rattle.std.specs.Prelude.{◌≡◌, ◌++◌, ◌+◌, ◌*◌, ◌≤◌, length, take, drop};
ghost use Rattle.array.specs.Bytes.{le};
ghost use Rattle.array.specs.Buffers.{over, over_at};
ghost use Rattle.array.specs.Meaning.{order_of};
ghost use Rattle.decode_marks.specs.Next.{word_at, first_word};
ghost use Rattle.decode_words.specs.Values.{values_over, ValuesWithin};

use array::kind::ByteOrder;
use array::mark::mark_of;
use buffer::copy::fill_bytes;
use decode_marks::{if_set, skip};
use decode_words::next_word;
use word::{WordSize, put_word};

// Which of a cell's two words is its first, in the array's byte order.
fn first_word(order: ByteOrder) -> usize
    ensures { result ≡ first_word (order_of order) }
{
    match order {
        ByteOrder::Little => 0,
        ByteOrder::Big => 1,
    }
}

// A word of the stored value k.
fn pair_word(s: &[u8], at: usize, k: usize, word: usize, cells: usize, order: ByteOrder) -> u64
    requires { (k ≤ cells) × (word ≤ 1) × (at + cells * 16 ≤ length s.now) }
    ensures { le 8 result ≡ word_at 8 (order_of order) s.now at (2 * k + word) (2 * cells) }
{
    next_word(s, at, 2 * k + word, 2 * cells, WordSize::EIGHT, order)
}

fn put_pair(out: &mut [u8], at: usize, x: u64, y: u64)
    requires { at + 16 ≤ length «out».old }
    ensures { «out».new ≡ over_at at (le 8 x ++ le 8 y) «out».old }
{
    let size = WordSize::EIGHT;
    put_word(out, at, size, x);
    put_word(out, at + 8, size, y);
}

// As for one word: the next two are at hand for every cell until all are placed.
pub fn spread_pairs(
    values: &mut [u8],
    plane: &[u8],
    s: &[u8],
    at: usize,
    order: ByteOrder,
    cells: usize,
)
    requires { ValuesWithin values.old plane.now s.now at 16 cells }
    ensures { values.new ≡ over (values_over 16 (order_of order) plane.now (drop at s.now)) values.old }
{
    let a = first_word(order);
    let b = 1 - a;
    let mut i = 0;
    let mut k = 0;
    let mut v = pair_word(s, at, k, a, cells, order);
    let mut u = pair_word(s, at, k, b, cells, order);
    // it ends with the last stored one and not with the last cell: a `for` over the cells would test for both
    while k < cells {
        let mark = mark_of(plane[i]);
        let x = if_set(mark, v, 0);
        let y = if_set(mark, u, 0);
        k = skip(mark, k, 1);
        v = pair_word(s, at, k, a, cells, order);
        u = pair_word(s, at, k, b, cells, order);
        put_pair(values, i * 16, x, y);
        i += 1;
    }
    fill_bytes(values, i * 16, (plane.len() - i) * 16, 0);
}
