// Bytes put into the store, right after the highest-lying cell.
#![tactic(auto)]

ghost use Rattle.std.specs.Prelude.{◌≡◌, [], ◌+◌, ◌≤◌, ◌<◌, length};
ghost use Rattle.array.specs.Limits.{most_cells};
ghost use Rattle.array.specs.Places.{sum};
ghost use Rattle.table.specs.Table.{TableOk, most_store};
ghost use Rattle.table.specs.Meaning.{table_by};
ghost use Rattle.table_place.specs.Place.{Roomy, Put};

use buffer::copy;
use table::lent::Setting;
use table_sums as sums;

// Where so many bytes go. Where too little remains behind the highest-lying cell, all cells are packed.
fn room_for(
    starts: &mut [u64],
    lengths: &[u64],
    store: &mut [u8],
    order: &mut [u16],
    size: usize,
) -> usize
    requires { TableOk 0 (length starts.old) (table_by [] starts.old lengths.now store.old) × (length starts.old ≤ most_cells)
        × (length starts.old ≤ length order.old) × (length store.old ≤ most_store) }
    ensures { Roomy size (length starts.old) starts.old lengths.now store.old result starts.new store.new }
{
    let n = starts.len();
    let end = store.len();
    let top = sums::top_of(starts, lengths, n, end);
    if size <= end - top {
        return top;
    }
    let count = table_order::lie(starts, lengths, n, order);
    table_move::move_cells(starts, lengths, store, &order[..count], n);
    sums::sum_of(lengths)
}

// Puts the bytes of a setting into the store, for a cell that has none.
pub fn put_bytes(
    starts: &mut [u64],
    lengths: &mut [u64],
    store: &mut [u8],
    order: &mut [u16],
    setting: Setting,
)
    requires { TableOk 0 (length starts.old) (table_by [] starts.old lengths.old store.old) × (length starts.old ≤ most_cells)
        × (length starts.old ≤ length order.old) × (length store.old ≤ most_store) × (setting.cell < length starts.old)
        × (sum lengths.old + length setting.value.now ≤ length store.old) × (0 < length setting.value.now) }
    ensures { Put (length starts.old) setting.entry.cell setting.entry.value.now starts.old lengths.old store.old
        starts.new lengths.new store.new }
{
    let Setting { cell, value, .. } = setting;
    let size = value.len();
    let place = room_for(starts, lengths, store, order, size);
    copy::copy_many(store, place, value, 0, size);
    starts[cell] = place as u64;
    lengths[cell] = size as u64;
}
