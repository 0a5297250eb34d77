// What a setting would do to a working table, which stays as it is.
#![tactic(auto)]

ghost use Rattle.std.specs.Prelude.{◌≡◌, ◌+◌, ◌≤◌, ◌<◌, ◌^◌, length};
ghost use Rattle.array.specs.Answer.{map_answer};
ghost use Rattle.array.specs.Meaning.{kind_of, told};
ghost use Rattle.table.specs.Calls.{looked_at, previewed};
ghost use Rattle.table.specs.Meaning.{lent_table};
ghost use Rattle.table.specs.Walk.{InOrder, unpacked_by};
ghost use Rattle.table_setting.specs.Settle.{Sound, setting_answer};

use array::kind::Kind;
use array::refusal::Refusal;
use table::answer::Preview;
use table::lent::{Setting, Table};
use table_check::check_cells;
use table_kind::TableShape;
use table_order::{FEW, MANY};
use table_setting::fit::fit;
use valid::masks::are_strict;

pub mod others;

// How many cells start elsewhere after a setting of `size` bytes: of the others, which end at `top` and have `total` bytes, so many do.
fn unpacked_after(unpacked: usize, top: usize, total: usize, size: usize, room: usize) -> usize
    requires { (unpacked + 1 < 2 ^ 64) × (top ≤ room) }
    ensures { result ≡ unpacked_by unpacked top total size room }
{
    if size == 0 {
        return unpacked;
    }
    // too little remains: all are packed, and the new bytes go right behind them
    if room - top < size {
        return 0;
    }
    others::counted(unpacked, top, total)
}

// A setting of a table that keeps its rules, with masks that keep theirs: 5, 15 and 16, or what is there after it. The order is of the
// cells as they lie.
fn preview_sound(table: Table, order: &[u16], setting: Setting) -> Result<Preview, Refusal>
    requires { Sound (length table.starts.now) (lent_table table) setting.masks.now
        × InOrder (length table.starts.now) (lent_table table) order.now }
    ensures { told result ≡ map_answer (looked_at (length table.entry.starts.now))
        (setting_answer setting.entry.cell setting.entry.masks.now setting.entry.value.now (lent_table table.entry)) }
{
    let room = table.store.len();
    let length = setting.value.len();
    let fitting = fit(table.lengths, room, setting.cell, setting.masks, length)?;
    let size = fitting.size;
    let total = fitting.others;
    let found = others::look_at(table.starts, table.lengths, order, setting.cell);
    let unpacked = unpacked_after(found.unpacked, found.top, total, size, room);
    Ok(Preview {
        total: total + size,
        unpacked,
    })
}

// The same of a table and a setting of which nothing is known: 4 before them. `order` has room for the cells as they lie.
fn preview_with(
    shape: TableShape,
    table: Table,
    setting: Setting,
    order: &mut [u16],
) -> Result<Preview, Refusal>
    requires { shape.cells ≤ length order.old }
    ensures { told result ≡ previewed (kind_of shape.kind) shape.cells (lent_table table.entry)
        setting.entry.cell setting.entry.masks.now setting.entry.value.now }
{
    let depth = shape.kind.depth as usize;
    let Some(count) = check_cells(depth, shape.cells, table, order) else {
        return Err(Refusal::Content);
    };
    if !are_strict(setting.masks, depth) {
        return Err(Refusal::Content);
    }
    preview_sound(table, &order[..count], setting)
}

// The same with room for the order of so many cells: little is cleared for a small table. As `read_in` of `table_read`.
#[inline(never)]
fn preview_in<const ROOM: usize>(
    shape: TableShape,
    table: Table,
    setting: Setting,
) -> Result<Preview, Refusal>
    requires { (shape.cells ≤ ROOM) × (ROOM ≤ 65536) }
    ensures { told result ≡ previewed (kind_of shape.kind) shape.cells (lent_table table.entry)
        setting.entry.cell setting.entry.masks.now setting.entry.value.now }
{
    let mut order = [0u16; ROOM];
    preview_with(shape, table, setting, &mut order)
}

// Says what a setting of a cell would do: the sum of lengths after it, and how many cells then start elsewhere than where they are packed.
// Refusals 1, 2, 4, 5, 15 and 16, in this order, as of the setting itself.
#[tactic(auto, unfolding(array::specs::Limits::most_cells))]
pub fn preview_cell(
    kind: Kind,
    cells: usize,
    table: Table,
    setting: Setting,
) -> Result<Preview, Refusal>
    ensures { told result ≡ previewed (kind_of kind) cells (lent_table table.entry)
        setting.entry.cell setting.entry.masks.now setting.entry.value.now }
{
    let shape = TableShape::new(kind, cells)?;
    if cells <= FEW {
        return preview_in::<FEW>(shape, table, setting);
    }
    preview_in::<MANY>(shape, table, setting)
}
