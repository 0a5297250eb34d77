// The cells of a stored chunk, one after another, in either form: where the bytes of each lie.
ghost use Rattle.std.specs.Prelude.{◌≡◌, ℕ, suc, ◌+◌, ◌-◌, ◌*◌, ◌<◌, ◌≤◌, List, length, take, drop};
ghost use Rattle.array.specs.Limits.{most_cells};
ghost use Rattle.array.specs.Bytes.{unle};
ghost use Rattle.array.specs.Cells.{Value};
ghost use Rattle.migrate_check.specs.Chunks.{stored_of};
ghost use Rattle.migrate_cells.specs.Reading.{bytes_of, begins_at, offset_in, CellsLeft, MoreCells, NextCell};

use buffer::field;
use migrate_check::stored::Stored;

// So many bytes from `begin` on.
#[derive(Clone, Copy)]
pub struct Cell {
    pub begin: usize,
    pub size: usize,
}

pub fn bytes_of<'a>(stored: Stored<'a>) -> &'a [u8]
    ensures { result.now ≡ bytes_of (stored_of stored.entry) }
{
    match stored {
        Stored::Older(bytes) => bytes,
        Stored::Newer(bytes) => bytes,
    }
}

// Where what is read of the first cell begins: its length field, or in the new form its bytes.
pub fn begin_of(stored: Stored, cells: usize) -> usize
    requires { cells ≤ most_cells }
    ensures { result ≡ begins_at (stored_of stored.entry) cells }
{
    match stored {
        Stored::Older(_) => 4,
        Stored::Newer(_) => 16 + cells * 8,
    }
}

// In the older form: a length field of 4 bytes, and the bytes behind it.
fn older_cell(bytes: &[u8], at: usize) -> Cell
    requires { at + 4 ≤ length bytes.now }
    ensures begin { result.begin ≡ at + 4 }
    ensures size { result.size ≡ unle (take 4 (drop at bytes.now)) }
{
    Cell {
        size: field::le4_at(bytes, at) as usize,
        begin: at + 4,
    }
}

// In the new form: its bytes, as many as the offsets of cells i and i + 1 are apart.
#[tactic(auto, unfolding(cut_ragged::specs::Source::stored_at))]
fn newer_cell(bytes: &[u8], i: usize, at: usize) -> Cell
    requires room { 8 + (8 + suc i * 8) ≤ length bytes.now }
    requires rises { offset_in bytes.now i ≤ offset_in bytes.now (suc i) }
    ensures begin { result.begin ≡ at }
    ensures size { result.size ≡ offset_in bytes.now (suc i) - offset_in bytes.now i }
{
    let first = field::le8_at(bytes, 8 + i * 8);
    let end = field::le8_at(bytes, 8 + (i + 1) * 8);
    Cell {
        size: (end - first) as usize,
        begin: at,
    }
}

// Cell i, where the cell before it ends at `at`.
pub fn cell_of(stored: Stored, i: usize, at: usize) -> Cell
    requires { MoreCells (stored_of stored) i at }
    ensures { (n : ℕ) (vs : List Value) → i < n → CellsLeft (stored_of stored.entry) n i at vs
        → NextCell (stored_of stored.entry) n i result.begin result.size vs }
{
    match stored {
        Stored::Older(bytes) => older_cell(bytes, at),
        Stored::Newer(bytes) => newer_cell(bytes, i, at),
    }
}
