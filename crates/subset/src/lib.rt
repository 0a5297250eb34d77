// Subsets of a shape: whether numbers are some, and which cells they have, row by row.
#![tactic(auto)]

ghost use Rattle.std.specs.Prelude.{◌≡◌, ◌+◌, ◌-◌, ◌≤◌, ◌<◌, length, get_or, leb};
ghost use Rattle.array.specs.Limits.{most_cells};
ghost use Rattle.array.specs.Lists.{from, every};
ghost use Rattle.array.specs.Shape.{volume, ShapeOk};
ghost use Rattle.array.specs.Subset.{pairs, subset_test, full_test, numbers_test, many_test, cells_in};
ghost use Rattle.array.specs.Buffers.{over, over_at};
ghost use Rattle.array.specs.Rows.{Within, FewCells};
ghost use Rattle.array.specs.Outcome.{outcome};
ghost use Rattle.array.specs.Calls.{subset_cells};
ghost use Rattle.subset.specs.Cells.{cells_of};

use array::refusal::Refusal;
use walk::Subset;

pub mod walk;

// Whether a start leaves room for the length in its side. The length is taken off the side, since a sum could wrap.
fn leaves_room(side: u64, start: u64, len: u64) -> bool
    requires { len ≤ side }
    ensures { result ≡ leb start (side - len) }
{
    start <= side - len
}

// Whether each start and length lies within its side.
#[tactic(auto, using(crate::proofs::Fitting::fits_over))]
fn lies_within(shape: &[u64], starts: &[u64], lens: &[u64]) -> bool
    requires { (length starts.now ≡ length shape.now) × (length lens.now ≡ length shape.now) }
    ensures { result ≡ subset_test shape.now (pairs starts.now lens.now) }
{
    for i in 0..shape.len() {
        let side = shape[i];
        let len = lens[i];
        if side < len {
            return false;
        }
        if !leaves_room(side, starts[i], len) {
            return false;
        }
    }
    true
}

// Whether no length is 0.
fn has_cells(lens: &[u64]) -> bool
    ensures { result ≡ every (leb 1) lens.now }
{
    for len in lens {
        if *len < 1 {
            return false;
        }
    }
    true
}

// Whether a subset lies within the shape and holds a cell.
#[tactic(auto, using(crate::proofs::Fitting::full_by_lengths))]
fn full_within(shape: &[u64], starts: &[u64], lens: &[u64]) -> bool
    requires { (length starts.now ≡ length shape.now) × (length lens.now ≡ length shape.now) }
    ensures { result ≡ full_test shape.now (pairs starts.now lens.now) }
{
    if !lies_within(shape, starts, lens) {
        return false;
    }
    has_cells(lens)
}

// Whether the numbers are one start and one length a side, and within the shape.
pub fn subset_fits(shape: &[u64], numbers: &[u64]) -> bool
    ensures { result ≡ numbers_test shape.now numbers.now }
{
    let sides = shape.len();
    if numbers.len() != 2 * sides {
        return false;
    }
    lies_within(shape, &numbers[0..sides], &numbers[sides..])
}

// Whether the numbers are subsets laid end to end that each lie within the shape and hold a cell.
#[tactic(auto, using(crate::proofs::Fitting::fitting_laws))]
pub fn subsets_fit(shape: &[u64], numbers: &[u64]) -> bool
    requires { 1 ≤ length shape.now }
    ensures { result ≡ many_test shape.now numbers.now }
{
    let sides = shape.len();
    if numbers.len() % (2 * sides) != 0 {
        return false;
    }
    for subset in numbers.chunks_exact(2 * sides) {
        let (starts, lens) = subset.split_at(sides);
        if !full_within(shape, starts, lens) {
            return false;
        }
    }
    true
}

// The product of sides or lengths, which the caller keeps small.
#[tactic(auto, using(crate::proofs::Index::volume_fits))]
pub fn volume_of(sides: &[u64]) -> u64
    requires { FewCells sides.now }
    ensures { result ≡ volume sides.now }
{
    let mut v: u64 = 1;
    for k in (0..sides.len()).rev() {
        v = sides[k] * v;
    }
    v
}

// Cell i of a subset.
pub fn cell_at(shape: &[u64], starts: &[u64], lens: &[u64], i: u64) -> u64
    requires { ShapeOk shape.now × Within shape.now starts.now lens.now × (i < volume lens.now) }
    ensures { result ≡ get_or (cells_in shape.now (pairs starts.now lens.now)) i 0 }
{
    let mut v: u64 = 1;
    let mut cell: u64 = 0;
    let mut q = i;
    for k in (0..shape.len()).rev() {
        let n = lens[k];
        let row = starts[k] + q % n;
        cell = row * v + cell;
        q = q / n;
        v = shape[k] * v;
    }
    cell
}

// Stores n cells that are neighbours, from the cell `first` on.
#[tactic(auto, unfolding(array::specs::Limits::most_cells))]
fn store_run(cells: &mut [u64], at: usize, first: u64, n: usize)
    requires { (at + n ≤ length cells.old) × (first + n ≤ most_cells) }
    ensures { cells.new ≡ over_at at (from first n) cells.old }
{
    for i in 0..n {
        cells[at + i] = first + i as u64;
    }
}

// Stores the cells of a subset, row by row.
fn store_rows(cells: &mut [u64], subset: Subset)
    requires { subset.count ≤ length cells.old }
    ensures { cells.new ≡ over (cells_of subset.entry) cells.old }
{
    for row in subset.rows() {
        store_run(cells, row.at, row.first as u64, row.cells);
    }
}

// The numbers of the cells of a subset, in row order.
#[tactic(auto, using(crate::proofs::StoringCells::cells_laws))]
pub fn subset_cells(shape: &[u64], numbers: &[u64], cells: &mut [u64]) -> Result<usize, Refusal>
    ensures { outcome result cells.new ≡ subset_cells shape.now numbers.now cells.old }
{
    valid::shape::shape_cells(shape)?;
    if !subset_fits(shape, numbers) {
        return Err(Refusal::Subset);
    }
    let subset = Subset::new(shape, numbers);
    if cells.len() < subset.count {
        return Err(Refusal::Output);
    }
    store_rows(cells, subset);
    Ok(subset.count)
}
