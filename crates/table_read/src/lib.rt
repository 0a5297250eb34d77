// The working table read out, in rest form.
#![tactic(auto)]

mod cells;

ghost use Rattle.std.specs.Prelude.{◌≡◌, ◌≤◌, length};
ghost use Rattle.array.specs.Buffers.{put_into};
ghost use Rattle.array.specs.Meaning.{kind_of};
ghost use Rattle.array.specs.Outcome.{content_array, outcome_array};
ghost use Rattle.table.specs.Calls.{read_out};
ghost use Rattle.table.specs.Meaning.{lent_table};
ghost use Rattle.table_read.specs.Read.{read_by, ReadAsked};

use crate::cells::copy_values;
use array::answer::Lengths;
use array::kind::Kind;
use array::refusal::Refusal;
use buffer::copy;
use table::lent::Table;
use table_check::check_cells;
use table_kind::{TableShape, store_ok};
use table_order::{FEW, MANY};
use table_sums::sum_of;

// The cells of a table that keeps the rules: 6, or the masks as they are, the values end to end and the offsets.
fn read_checked(
    cells: usize,
    table: Table,
    out_masks: &mut [u8],
    out_values: &mut [u8],
    out_offsets: &mut [u64],
) -> Result<Lengths, Refusal>
    requires { ReadAsked cells (lent_table table) }
    ensures { outcome_array result out_masks.new out_values.new out_offsets.new
        ≡ put_into (read_by cells (lent_table table.entry)) (content_array out_masks.old out_values.old out_offsets.old) }
{
    let planes = table.masks.len();
    let bytes = sum_of(table.lengths);
    let count = cells + 1;
    if out_masks.len() < planes {
        return Err(Refusal::Output);
    }
    if out_values.len() < bytes {
        return Err(Refusal::Output);
    }
    if out_offsets.len() < count {
        return Err(Refusal::Output);
    }
    copy::copy_many(out_masks, 0, table.masks, 0, planes);
    copy_values(cells, table, out_values, out_offsets);
    Ok(Lengths {
        masks: planes,
        values: bytes,
        offsets: count,
    })
}

// The same of a table of which nothing is known: 4, 5, and then 6. The lying order is found in `order`, which nobody reads here.
fn read_with(
    shape: TableShape,
    table: Table,
    out_masks: &mut [u8],
    out_values: &mut [u8],
    out_offsets: &mut [u64],
    order: &mut [u16],
) -> Result<Lengths, Refusal>
    requires { shape.cells ≤ length order.old }
    ensures { outcome_array result out_masks.new out_values.new out_offsets.new
        ≡ read_out (kind_of shape.kind) shape.cells (lent_table table.entry) (content_array out_masks.old out_values.old out_offsets.old) }
{
    let depth = shape.kind.depth as usize;
    let Some(_) = check_cells(depth, shape.cells, table, order) else {
        return Err(Refusal::Content);
    };
    if !store_ok(table.store.len()) {
        return Err(Refusal::Size);
    }
    read_checked(shape.cells, table, out_masks, out_values, out_offsets)
}

// The same with room for the order of so many cells: little is cleared for a small table. Those of the other calls
// on tables hand on other parameters; one function that takes the call as a closure would say its promise a second time. Never inlined: in one frame with
// the other size, a small table would have all pages of a large one's stack touched.
#[inline(never)]
fn read_in<const ROOM: usize>(
    shape: TableShape,
    table: Table,
    out_masks: &mut [u8],
    out_values: &mut [u8],
    out_offsets: &mut [u64],
) -> Result<Lengths, Refusal>
    requires { (shape.cells ≤ ROOM) × (ROOM ≤ 65536) }
    ensures { outcome_array result out_masks.new out_values.new out_offsets.new
        ≡ read_out (kind_of shape.kind) shape.cells (lent_table table.entry) (content_array out_masks.old out_values.old out_offsets.old) }
{
    let mut order = [0u16; ROOM];
    read_with(shape, table, out_masks, out_values, out_offsets, &mut order)
}

// Reads a working table out, in rest form. Refusals 1, 2, 4, 5 and 6, in this order; nothing is stored before the last check.
#[tactic(auto, unfolding(array::specs::Limits::most_cells))]
pub fn read_table(
    kind: Kind,
    cells: usize,
    table: Table,
    out_masks: &mut [u8],
    out_values: &mut [u8],
    out_offsets: &mut [u64],
) -> Result<Lengths, Refusal>
    ensures { outcome_array result out_masks.new out_values.new out_offsets.new
        ≡ read_out (kind_of kind) cells (lent_table table.entry) (content_array out_masks.old out_values.old out_offsets.old) }
{
    let shape = TableShape::new(kind, cells)?;
    if cells <= FEW {
        return read_in::<FEW>(shape, table, out_masks, out_values, out_offsets);
    }
    read_in::<MANY>(shape, table, out_masks, out_values, out_offsets)
}
