// Layer 3: the cells of a live table's chunks, one by one: where each lies in its string, and where it stands among those that a cut asks for.
#![tactic(auto)]

ghost use Rattle.std.specs.Prelude.{◌≡◌, ◌<◌, get_or};
ghost use Rattle.array.specs.Shape.{volume};
ghost use Rattle.array.specs.Subset.{pairs};
ghost use Rattle.subset.specs.Cells.{cells_of};
ghost use Rattle.migrate_cells.specs.Place.{place_in, apart_test};

use subset::walk::Subset;

pub mod cell;

// Where a cell of the shape stands among the cells of a subset, where it is one of them. Side by side from the first: what is left of the
// cell's number counts in the sides behind.
pub fn place_of(subset: Subset, cell: u64) -> Option<usize>
    requires { cell < volume subset.shape.now }
    ensures { result ≡ place_in (cells_of subset.entry) cell }
{
    let mut inner = subset::volume_of(subset.shape);
    let mut left = cell;
    let mut place: u64 = 0;
    for k in 0..subset.shape.len() {
        inner = inner / subset.shape[k];
        let row = left / inner;
        left = left % inner;
        let start = subset.starts[k];
        let len = subset.lens[k];
        if row < start {
            return None;
        }
        if len <= row - start {
            return None;
        }
        place = place * len + (row - start);
    }
    Some(place as usize)
}

// Where cell i of a chunk stands among the cells that are asked for, where it is one of them.
pub fn asked_place(asked: Subset, part: Subset, i: usize) -> Option<usize>
    requires shape { asked.shape.now ≡ part.shape.now }
    requires cell { i < part.count }
    ensures { result ≡ place_in (cells_of asked.entry) (get_or (cells_of part.entry) i 0) }
{
    let cell = subset::cell_at(part.shape, part.starts, part.lens, i as u64);
    place_of(asked, cell)
}

// Whether two subsets of a shape do not meet: on some side one ends before the other begins.
pub fn apart(one: Subset, other: Subset) -> bool
    requires { one.shape.now ≡ other.shape.now }
    ensures { result ≡ apart_test (pairs one.entry.starts.now one.entry.lens.now)
        (pairs other.entry.starts.now other.entry.lens.now) }
{
    for k in 0..one.starts.len() {
        if one.starts[k] + one.lens[k] <= other.starts[k] {
            return true;
        }
        if other.starts[k] + other.lens[k] <= one.starts[k] {
            return true;
        }
    }
    false
}
