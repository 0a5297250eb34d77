// Fixed values below masks, in the array's byte order. Those of the set cells are stored end to end.
ghost use Rattle.std.specs.Prelude.{◌≡◌, drop};
ghost use Rattle.array.specs.Buffers.{over};
ghost use Rattle.array.specs.Meaning.{order_of};
ghost use Rattle.decode_words.specs.Values.{values_over, ValuesWithin};

use crate::pairs::spread_pairs;
use crate::runs::run_length;
use array::kind::ByteOrder;
use buffer::copy::fill_bytes;
use decode_words::spread_words;
use endian::cells::copy_cells;
use word::WordSize;

// Writes the values of the cells of the plane, of which `cells` are set: these from `at` on, the others as zero bytes.
pub fn spread_values(
    values: &mut [u8],
    plane: &[u8],
    s: &[u8],
    at: usize,
    size: usize,
    order: ByteOrder,
    cells: usize,
)
    requires { ValuesWithin values.old plane.now s.now at size cells }
    ensures { values.new ≡ over (values_over size (order_of order) plane.now (drop at s.now)) values.old }
{
    if cells == plane.len() {
        copy_cells(values, 0, s, at, size, order, cells);
        return;
    }
    // the size is a constant in each loop, so that it compiles to plain loads and stores
    match size {
        1 => spread_words(values, plane, s, at, WordSize::ONE, order, cells),
        2 => spread_words(values, plane, s, at, WordSize::TWO, order, cells),
        4 => spread_words(values, plane, s, at, WordSize::FOUR, order, cells),
        8 => spread_words(values, plane, s, at, WordSize::EIGHT, order, cells),
        16 => spread_pairs(values, plane, s, at, order, cells),
        _ => spread_runs(values, plane, s, at, size, order, cells),
    }
}

// Neighbours that are all null are filled at once, and those that are all set are copied at once.
fn spread_runs(
    values: &mut [u8],
    plane: &[u8],
    s: &[u8],
    at: usize,
    size: usize,
    order: ByteOrder,
    cells: usize,
)
    requires { ValuesWithin values.old plane.now s.now at size cells }
    ensures { values.new ≡ over (values_over size (order_of order) plane.now (drop at s.now)) values.old }
{
    let mut i = 0;
    let mut k = 0;
    // a turn takes as many cells as two runs have, so it has no step that a `for` could take; `chunk_by` over the masks would give the runs,
    // and where they begin would still be counted
    while k < cells {
        let nulls = run_length(plane, i, false);
        fill_bytes(values, i * size, nulls * size, 0);
        i += nulls;
        let sets = run_length(plane, i, true);
        copy_cells(values, i * size, s, at + k * size, size, order, sets);
        i += sets;
        k += sets;
    }
    fill_bytes(values, i * size, (plane.len() - i) * size, 0);
}
