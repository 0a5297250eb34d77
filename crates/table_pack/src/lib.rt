// A working table packed.
#![tactic(auto)]

ghost use Rattle.std.specs.Prelude.{◌≡◌, true, ◌≤◌, length};
ghost use Rattle.array.specs.Meaning.{kind_of};
ghost use Rattle.table.specs.Calls.{most_test, cells_packed};
ghost use Rattle.table.specs.Meaning.{table_by, outcome_packed};

use array::kind::Kind;
use array::refusal::Refusal;
use table::lent::Table;
use table_check::check_cells;
use table_kind::{TableShape, store_ok};
use table_move::move_cells;
use table_order::{FEW, MANY};

// Most cells that a call may be asked to move.
const MOST_MOVED: usize = 256;

// Whether a call may be asked to move so many.
fn most_ok(most: usize) -> bool
    ensures { result ≡ most_test most }
{
    1 <= most && most <= MOST_MOVED
}

// Packs a table of which nothing is known: 4, and 5. `order` has room for the cells as they lie.
// The four slices stay beside each other: two are written to, and a contract would name those of a struct `table.exit.0.now` and so on.
fn pack_with(
    shape: TableShape,
    masks: &[u8],
    starts: &mut [u64],
    lengths: &[u64],
    store: &mut [u8],
    most: usize,
    order: &mut [u16],
) -> Result<usize, Refusal>
    requires { (most_test most ≡ true) × (shape.cells ≤ length order.old) }
    ensures { outcome_packed result masks.now starts.new lengths.now store.new
        ≡ cells_packed (kind_of shape.kind) shape.cells (table_by masks.now starts.old lengths.now store.old) most }
{
    let depth = shape.kind.depth as usize;
    let table = Table {
        masks,
        starts,
        lengths,
        store,
    };
    let Some(count) = check_cells(depth, shape.cells, table, order) else {
        return Err(Refusal::Content);
    };
    if !store_ok(store.len()) {
        return Err(Refusal::Size);
    }
    Ok(move_cells(starts, lengths, store, &order[..count], most))
}

// The same with room for the order of so many cells: little is cleared for a small table. As `read_in` of `table_read`.
#[inline(never)]
fn pack_in<const ROOM: usize>(
    shape: TableShape,
    masks: &[u8],
    starts: &mut [u64],
    lengths: &[u64],
    store: &mut [u8],
    most: usize,
) -> Result<usize, Refusal>
    requires { (most_test most ≡ true) × (shape.cells ≤ ROOM) × (ROOM ≤ 65536) }
    ensures { outcome_packed result masks.now starts.new lengths.now store.new
        ≡ cells_packed (kind_of shape.kind) shape.cells (table_by masks.now starts.old lengths.now store.old) most }
{
    let mut order = [0u16; ROOM];
    pack_with(shape, masks, starts, lengths, store, most, &mut order)
}

// Packs a working table: moves at most so many cells, the lowest-lying first, each to its packed start. Refusals 1, 2, 4 and 5, in this
// order; nothing is moved before the last check. Answers how many were moved.
#[tactic(auto, unfolding(array::specs::Limits::most_cells))]
pub fn pack_table(
    kind: Kind,
    cells: usize,
    masks: &[u8],
    starts: &mut [u64],
    lengths: &[u64],
    store: &mut [u8],
    most: usize,
) -> Result<usize, Refusal>
    ensures { outcome_packed result masks.now starts.new lengths.now store.new
        ≡ cells_packed (kind_of kind) cells (table_by masks.now starts.old lengths.now store.old) most }
{
    if !most_ok(most) {
        return Err(Refusal::Kind);
    }
    let shape = TableShape::new(kind, cells)?;
    if cells <= FEW {
        return pack_in::<FEW>(shape, masks, starts, lengths, store, most);
    }
    pack_in::<MANY>(shape, masks, starts, lengths, store, most)
}
