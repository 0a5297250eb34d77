// A cell of a working table set to other masks and bytes, in place.
#![tactic(auto)]

ghost use Rattle.std.specs.Prelude.{◌≡◌, ◌≤◌, length};
ghost use Rattle.array.specs.Meaning.{kind_of};
ghost use Rattle.table.specs.Calls.{cell_set};
ghost use Rattle.table.specs.Meaning.{table_by, outcome_settled};
ghost use Rattle.table_setting.specs.Settle.{Sound, Ready, settled_by};
ghost use Rattle.table_set.specs.Settle.{setting_by};

use array::kind::Kind;
use array::refusal::Refusal;
use table::lent::{Setting, Table};
use table_check::check_cells;
use table_kind::TableShape;
use table_order::{FEW, MANY};
use table_setting::fit::fit;
use table_setting::masks::put_masks;
use valid::masks::are_strict;

// The setting made, in a table that has room for it: the old bytes are given up, and `size` new ones put in.
// The four slices stay beside each other: they are written to, and a contract would name those of a struct `table.exit.0.now` and so on.
fn settle(
    masks: &mut [u8],
    starts: &mut [u64],
    lengths: &mut [u64],
    store: &mut [u8],
    order: &mut [u16],
    setting: Setting,
    size: usize,
)
    requires { Ready (length order.old) (table_by masks.old starts.old lengths.old store.old) setting.cell setting.masks.now setting.value.now size }
    ensures { table_by masks.new starts.new lengths.new store.new
        ≡ settled_by setting.entry.cell setting.entry.masks.now setting.entry.value.now (table_by masks.old starts.old lengths.old store.old) }
{
    let cell = setting.cell;
    put_masks(masks, starts.len(), setting);
    starts[cell] = 0;
    lengths[cell] = 0;
    let some = 0 < size;
    if some {
        table_place::put_bytes(starts, lengths, store, order, setting);
    }
}

// A setting of a table that keeps its rules, with masks that keep theirs: 5, 15 and 16, or it is made.
fn set_sound(
    masks: &mut [u8],
    starts: &mut [u64],
    lengths: &mut [u64],
    store: &mut [u8],
    order: &mut [u16],
    setting: Setting,
) -> Result<(), Refusal>
    requires { Sound (length order.old) (table_by masks.old starts.old lengths.old store.old) setting.masks.now }
    ensures { outcome_settled result masks.new starts.new lengths.new store.new
        ≡ setting_by setting.entry.cell setting.entry.masks.now setting.entry.value.now (table_by masks.old starts.old lengths.old store.old) }
{
    let length = setting.value.len();
    let fitting = fit(lengths, store.len(), setting.cell, setting.masks, length)?;
    settle(masks, starts, lengths, store, order, setting, fitting.size);
    Ok(())
}

// The same of a table and a setting of which nothing is known: 4 before them. `order` has room for the cells as they lie.
fn set_with(
    shape: TableShape,
    masks: &mut [u8],
    starts: &mut [u64],
    lengths: &mut [u64],
    store: &mut [u8],
    setting: Setting,
    order: &mut [u16],
) -> Result<(), Refusal>
    requires { shape.cells ≤ length order.old }
    ensures { outcome_settled result masks.new starts.new lengths.new store.new
        ≡ cell_set (kind_of shape.kind) shape.cells (table_by masks.old starts.old lengths.old store.old)
        setting.entry.cell setting.entry.masks.now setting.entry.value.now }
{
    let depth = shape.kind.depth as usize;
    let table = Table {
        masks,
        starts,
        lengths,
        store,
    };
    let Some(_) = check_cells(depth, shape.cells, table, order) else {
        return Err(Refusal::Content);
    };
    if !are_strict(setting.masks, depth) {
        return Err(Refusal::Content);
    }
    set_sound(masks, starts, lengths, store, order, setting)
}

// The same with room for the order of so many cells: little is cleared for a small table. As `read_in` of `table_read`.
#[inline(never)]
fn set_in<const ROOM: usize>(
    shape: TableShape,
    masks: &mut [u8],
    starts: &mut [u64],
    lengths: &mut [u64],
    store: &mut [u8],
    setting: Setting,
) -> Result<(), Refusal>
    requires { (shape.cells ≤ ROOM) × (ROOM ≤ 65536) }
    ensures { outcome_settled result masks.new starts.new lengths.new store.new
        ≡ cell_set (kind_of shape.kind) shape.cells (table_by masks.old starts.old lengths.old store.old)
        setting.entry.cell setting.entry.masks.now setting.entry.value.now }
{
    let mut order = [0u16; ROOM];
    set_with(shape, masks, starts, lengths, store, setting, &mut order)
}

// Sets a cell of a working table to other masks and bytes. Refusals 1, 2, 4, 5, 15 and 16, in this order; nothing changes before the last
// check, also no cell is packed.
#[tactic(auto, unfolding(array::specs::Limits::most_cells))]
pub fn set_cell(
    kind: Kind,
    cells: usize,
    masks: &mut [u8],
    starts: &mut [u64],
    lengths: &mut [u64],
    store: &mut [u8],
    setting: Setting,
) -> Result<(), Refusal>
    ensures { outcome_settled result masks.new starts.new lengths.new store.new
        ≡ cell_set (kind_of kind) cells (table_by masks.old starts.old lengths.old store.old)
        setting.entry.cell setting.entry.masks.now setting.entry.value.now }
{
    let shape = TableShape::new(kind, cells)?;
    if cells <= FEW {
        return set_in::<FEW>(shape, masks, starts, lengths, store, setting);
    }
    set_in::<MANY>(shape, masks, starts, lengths, store, setting)
}
