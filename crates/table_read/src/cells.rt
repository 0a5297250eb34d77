// The bytes of a table's cells, copied end to end.
ghost use Rattle.std.specs.Prelude.{◌≡◌, ◌||◌, eqb};
ghost use Rattle.array.specs.Lists.{joined};
ghost use Rattle.array.specs.Offsets.{offsets_of};
ghost use Rattle.array.specs.Buffers.{over};
ghost use Rattle.table.specs.Meaning.{lent_table};
ghost use Rattle.table_read.specs.Read.{values_of, CellsAsked};

use buffer::copy;
use table::lent::Table;

// Whether a cell goes on where the bytes before it end. One with none goes anywhere. A rule, and no equality of two values.
fn goes_on(start: usize, size: usize, end: usize) -> bool
    ensures { result ≡ eqb size 0 || eqb start end }
{
    size == 0 || start == end
}

// Copies the bytes of each cell, end to end, and stores where each begins and the last one ends. Cells that also lie one behind another
// in the store are copied at once: so many bytes of it from `first` on wait for the place `to`.
pub fn copy_values(cells: usize, table: Table, out_values: &mut [u8], out_offsets: &mut [u64])
    requires { CellsAsked cells (lent_table table) out_values.old out_offsets.old }
    ensures values { out_values.new ≡ over (joined (values_of cells (lent_table table.entry))) out_values.old }
    ensures offsets { out_offsets.new ≡ over (offsets_of (values_of cells (lent_table table.entry))) out_offsets.old }
{
    let Table {
        starts,
        lengths,
        store,
        ..
    } = table;
    let mut to: usize = 0;
    let mut first: usize = 0;
    let mut waiting: usize = 0;
    for at in 0..cells {
        let start = starts[at] as usize;
        let size = lengths[at] as usize;
        if !goes_on(start, size, first + waiting) {
            copy::copy_many(out_values, to, store, first, waiting);
            to += waiting;
            first = start;
            waiting = 0;
        }
        out_offsets[at] = (to + waiting) as u64;
        waiting += size;
    }
    copy::copy_many(out_values, to, store, first, waiting);
    out_offsets[cells] = (to + waiting) as u64;
}
