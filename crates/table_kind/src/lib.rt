// What every call on a working table asks first: the kind, the count of cells, and the store's length.
#![tactic(auto)]

ghost use Rattle.std.specs.Prelude.{◌≡◌, true, leb};
ghost use Rattle.array.specs.Meaning.{kind_of};
ghost use Rattle.table.specs.Table.{table_kind_test, count_test, most_store};

use array::kind::{Kind, Values};
use array::refusal::Refusal;
use valid::shape::MOST_CELLS;

// Bytes of a store at most.
pub const MOST_STORE: usize = 16777216;

// Whether tables of this kind exist: ragged values of any depth. Width, place and mask form say nothing of it.
pub fn is_table_kind(kind: Kind) -> bool
    ensures { result ≡ table_kind_test (kind_of kind) }
{
    if !valid::kind::check_kind(kind) {
        return false;
    }
    let values = kind.values;
    match values {
        Values::Fixed(_, _) => false,
        Values::Ragged(_, _) => true,
    }
}

// Whether a table may have so many cells: some, and no more than a shape has.
#[tactic(auto, using(std::proofs::lemmas::Bool::Decides::nat_tests), unfolding(array::specs::Limits::most_cells))]
pub fn count_ok(cells: usize) -> bool
    ensures { result ≡ count_test cells }
{
    1 <= cells && cells as u64 <= MOST_CELLS
}

// A kind of which there are working tables, and a count of cells that one may have.
#[derive(Clone, Copy)]
pub struct TableShape {
    pub kind: Kind,
    pub cells: usize,
    pub ghost sound: { table_kind_test (kind_of kind) ≡ true },
    pub ghost counted: { count_test cells ≡ true },
}

impl TableShape {
    ghost use Rattle.table_kind.specs.Shape.{Shaped};

    // The kind and the count that a call is handed: 1, or 2.
    pub fn new(kind: Kind, cells: usize) -> Result<TableShape, Refusal>
        ensures { Shaped kind cells result }
    {
        if !is_table_kind(kind) {
            return Err(Refusal::Kind);
        }
        if !count_ok(cells) {
            return Err(Refusal::Shape);
        }
        Ok(TableShape { kind, cells })
    }
}

// Whether a store may have so many bytes.
#[tactic(auto, unfolding(table::specs::Table::most_store))]
pub fn store_ok(bytes: usize) -> bool
    ensures { result ≡ leb bytes most_store }
{
    bytes <= MOST_STORE
}
