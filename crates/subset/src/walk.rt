// A subset of a shape, its rows, and the subsets of a list: what each loop over cells or chunks walks along.
ghost use Rattle.std.specs.Prelude.{◌≡◌, length, drop};
ghost use Rattle.array.specs.Shape.{volume, ShapeOk};
ghost use Rattle.array.specs.Subset.{NumbersOk, pairs, subset_of};
ghost use Rattle.subset.specs.Walk.{SubsetAsked, SubsetAsked-prop, row_of};
ghost use Rattle.subset.specs.Subsets.{SubsetsOk, SubsetsOk-prop};

use crate::{cell_at, volume_of};

// A subset that lies within its shape, of so many cells.
#[derive(Clone, Copy)]
pub struct Subset<'a> {
    pub shape: &'a [u64],
    pub starts: &'a [u64],
    pub lens: &'a [u64],
    pub count: usize,
    pub ghost asked: { SubsetAsked shape.now starts.now lens.now count } by { SubsetAsked-prop shape.now starts.now lens.now count },
}

impl<'a> Subset<'a> {
    ghost use Rattle.subset.specs.Cells.{RowsLeft};

    // The subset that the numbers say, all starts and then all lengths.
    pub fn new(shape: &'a [u64], numbers: &'a [u64]) -> Subset<'a>
        requires { ShapeOk shape.now × NumbersOk shape.now numbers.now }
        ensures shape { result.shape.now ≡ shape.now }
        ensures said { pairs result.starts.now result.lens.now ≡ subset_of (length shape.now) numbers.now }
        ensures count { result.count ≡ volume (drop (length shape.now) numbers.now) }
    {
        let (starts, lens) = numbers.split_at(shape.len());
        let count = volume_of(lens) as usize;
        Subset {
            shape,
            starts,
            lens,
            count,
        }
    }

    // Its rows, from the first on.
    pub fn rows(self) -> Rows<'a>
        ensures begin { result.at ≡ 0 }
        ensures of { result.subset ≡ self.entry }
        ensures left { RowsLeft result }
    {
        let last = self.lens.len() - 1;
        let cells = self.lens[last] as usize;
        Rows {
            subset: self,
            cells,
            at: 0,
        }
    }
}

// A row of a subset: so many neighbours from the cell `first` on, before which the subset has `at` cells.
#[derive(Clone, Copy)]
pub struct Row {
    pub at: usize,
    pub first: usize,
    pub cells: usize,
}

// The rows of a subset from its cell `at` on. All have as many cells.
#[derive(Drop)]
pub struct Rows<'a> {
    subset: Subset<'a>,
    cells: usize,
    at: usize,
    ghost as_long: { cells ≡ row_of subset.lens.now },
}

impl<'a> Iterator for Rows<'a> {
    ghost use Rattle.std.specs.Prelude.{◌-◌};
    ghost use Rattle.std.specs.Iterator.{at_most};
    ghost use Rattle.subset.specs.Cells.{RowsLeft, GivesRow};

    type Item = Row;

    ghost can_next = { RowsLeft };

    ghost next_gives = { GivesRow };

    ghost remaining = { λ rows. at_most (rows.subset.count - rows.at) };

    #[inline(always)]
    fn next(&mut self) -> Option<Row> {
        let Subset {
            shape,
            starts,
            lens,
            count,
        } = self.subset;
        let at = self.at;
        if count <= at {
            return None;
        }
        let first = cell_at(shape, starts, lens, at as u64) as usize;
        let cells = self.cells;
        self.at = at + cells;
        Some(Row { at, first, cells })
    }
}

// The subsets of a list, whose numbers lie end to end. Each lies within the shape and holds a cell.
#[derive(Clone, Copy)]
pub struct Subsets<'a> {
    pub shape: &'a [u64],
    pub numbers: &'a [u64],
    pub ghost each: { SubsetsOk shape.now numbers.now } by { SubsetsOk-prop shape.now numbers.now },
}

impl<'a> Subsets<'a> {
    // A list that was looked at: what is asked here, the struct carries on.
    pub fn new(shape: &'a [u64], numbers: &'a [u64]) -> Subsets<'a>
        requires { SubsetsOk shape.now numbers.now }
        ensures shape { result.shape.now ≡ shape.now }
        ensures numbers { result.numbers.now ≡ numbers.now }
    {
        Subsets { shape, numbers }
    }

    // Its subsets, from the first on.
    pub fn parts(self) -> Parts<'a>
        ensures { result.left ≡ self.entry }
    {
        Parts { left: self }
    }
}

// The subsets of a list that are left.
#[derive(Drop)]
pub struct Parts<'a> {
    left: Subsets<'a>,
}

impl<'a> Iterator for Parts<'a> {
    ghost use Rattle.std.specs.Iterator.{at_most};
    ghost use Rattle.subset.specs.Cells.{GivesPart};

    type Item = Subset<'a>;

    ghost next_gives = { GivesPart };

    ghost remaining = { λ parts. at_most (length parts.left.numbers.now) };

    #[inline(always)]
    fn next(&mut self) -> Option<Subset<'a>> {
        let Subsets { shape, numbers } = self.left;
        if numbers.is_empty() {
            return None;
        }
        let (starts, rest) = numbers.split_at(shape.len());
        let (lens, rest) = rest.split_at(shape.len());
        self.left = Subsets {
            shape,
            numbers: rest,
        };
        let cells = volume_of(lens) as usize;
        Some(Subset {
            shape,
            starts,
            lens,
            count: cells,
        })
    }
}
