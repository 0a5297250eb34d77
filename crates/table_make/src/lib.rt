// A working table made of a valid array's rest form, packed in cell order.
#![tactic(auto)]

mod put;

ghost use Rattle.std.specs.Prelude.{◌≡◌};
ghost use Rattle.array.specs.Meaning.{kind_of, lent};
ghost use Rattle.encode_data.specs.Values.{live_bytes};
ghost use Rattle.table.specs.Calls.{made};
ghost use Rattle.table.specs.Meaning.{table_by, outcome_table};
ghost use Rattle.table_make.specs.Rested.{rest_of, put_table};

use crate::put::put_places;
use array::content::ArrayBytes;
use array::kind::Kind;
use array::refusal::Refusal;
use buffer::room::has_room;
use encode_data::{LiveOffsets, LiveValues};
use live_cells::Level;
use rest_masks::put_planes;
use table::answer::TableLengths;
use table_kind::{count_ok, is_table_kind, store_ok};
use valid::array_bytes;

// The table of an array that keeps its rules: refusal 6, or all is stored.
fn make_valid(
    array: LiveValues,
    out_masks: &mut [u8],
    out_starts: &mut [u64],
    out_lengths: &mut [u64],
    store: &mut [u8],
) -> Result<TableLengths, Refusal>
    ensures { outcome_table result out_masks.new out_starts.new out_lengths.new store.new
        ≡ put_table (rest_of array.entry) (table_by out_masks.old out_starts.old out_lengths.old store.old) }
{
    let places = array.places;
    let level = places.live.level;
    let planes = level.depth * level.cells;
    if out_masks.len() < planes {
        return Err(Refusal::Output);
    }
    if out_starts.len() < level.cells {
        return Err(Refusal::Output);
    }
    if out_lengths.len() < level.cells {
        return Err(Refusal::Output);
    }
    let count = || -> usize
        ensures { result ≡ live_bytes places.entry }
    { places.bytes() };
    if !has_room(array.values.len(), store.len(), count) {
        return Err(Refusal::Output);
    }
    put_planes(out_masks, None, level);
    put_places(out_starts, out_lengths, places);
    let bytes = array.put(store, 0);
    Ok(TableLengths {
        masks: planes,
        starts: level.cells,
        lengths: level.cells,
        store: bytes,
    })
}

// Makes a working table of an array's rest form, packed in cell order. Refusals 1, 2, 4, 5 and 6, in this order; nothing is stored before
// the last check.
pub fn make_table(
    kind: Kind,
    cells: usize,
    array: ArrayBytes,
    out_masks: &mut [u8],
    out_starts: &mut [u64],
    out_lengths: &mut [u64],
    store: &mut [u8],
) -> Result<TableLengths, Refusal>
    ensures { outcome_table result out_masks.new out_starts.new out_lengths.new store.new
        ≡ made (kind_of kind) cells (lent array.entry) (table_by out_masks.old out_starts.old out_lengths.old store.old) }
{
    if !is_table_kind(kind) {
        return Err(Refusal::Kind);
    }
    if !count_ok(cells) {
        return Err(Refusal::Shape);
    }
    array_bytes::check_array(kind, cells, array)?;
    if !store_ok(store.len()) {
        return Err(Refusal::Size);
    }
    let level = Level {
        masks: array.masks,
        cells,
        depth: kind.depth as usize,
    };
    let places = LiveOffsets {
        offsets: array.offsets,
        live: level.counted(),
    };
    let values = LiveValues {
        values: array.values,
        places,
    };
    make_valid(values, out_masks, out_starts, out_lengths, store)
}
