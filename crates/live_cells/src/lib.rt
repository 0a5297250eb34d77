// Layer 2, the cells that a level counts: those whose masks are set at every level above it.
#![tactic(auto)]

ghost use Rattle.std.specs.Prelude.{◌≡◌, ◌+◌, ◌-◌, ◌*◌, ◌<◌, ◌≤◌, length};
ghost use Rattle.array.specs.Limits.{most_depth};
ghost use Rattle.array.specs.Places.{mask_at};
ghost use Rattle.live_cells.specs.Live.{set_one, live_one, live_at, live_from, run_of};

use array::mark::block_end;

// A level of masks, one behind the other, each of `cells` bytes: `depth` of them lie above it.
#[derive(Clone, Copy)]
pub struct Level<'a> {
    pub masks: &'a [u8],
    pub cells: usize,
    pub depth: usize,
    pub ghost shallow: { depth ≤ most_depth },
    pub ghost planes: { depth * cells ≤ length masks.now },
}

impl<'a> Level<'a> {
    ghost use Rattle.live_cells.specs.Levels.{live_in, shown_in};

    // 1 where the byte of cell i at level l is set, else 0.
    #[inline(always)]
    fn mark_at(self, l: usize, i: usize) -> u8
        requires { l * self.cells + i < length self.masks.now }
        ensures { result ≡ set_one (mask_at self.entry.cells self.entry.masks.now l i) }
    {
        mask_marks::one_if_set(self.masks[l * self.cells + i])
    }

    // 1 where the level counts cell i, else 0: a product, so that what goes by it has no branch. By depth, so that a constant one leaves one arm.
    #[inline(always)]
    pub fn mark(self, i: usize) -> u8
        requires { i < self.cells }
        ensures { result ≡ live_one self.entry.cells self.entry.masks.now self.entry.depth i }
    {
        match self.depth {
            0 => 1,
            1 => self.mark_at(0, i),
            2 => self.mark_at(0, i) * self.mark_at(1, i),
            3 => self.mark_at(0, i) * self.mark_at(1, i) * self.mark_at(2, i),
            _ => {
                self.mark_at(0, i) * self.mark_at(1, i) * self.mark_at(2, i) * self.mark_at(3, i)
            }
        }
    }

    // How many cells from i on are live before the first that is not. Level 0 counts every cell.
    #[inline(always)]
    pub fn run(self, i: usize) -> usize
        requires { i ≤ self.cells }
        ensures { result ≡ run_of (shown_in self.entry) i (self.entry.cells - i) }
    {
        if self.depth == 0 {
            return self.cells - i;
        }
        for j in i..self.cells {
            if self.mark(j) == 0 {
                return j - i;
            }
        }
        self.cells - i
    }

    // The live cells from `start` to `end`, few enough for a byte: a narrow counter is what makes counting fast.
    #[inline(always)]
    fn count_block(self, start: usize, end: usize) -> u8
        requires { (start ≤ end) × (end ≤ start + 240) × (end ≤ self.cells) }
        ensures { result + length (live_from self.entry.cells self.entry.masks.now self.entry.depth end)
            ≡ length (live_from self.entry.cells self.entry.masks.now self.entry.depth start) }
    {
        let mut n: u8 = 0;
        for i in start..end {
            n += self.mark(i);
        }
        n
    }

    #[inline(always)]
    fn count_blocks(self) -> usize
        ensures { result ≡ length (live_in self.entry) }
    {
        let mut n: usize = 0;
        for at in (0..self.cells).step_by(240) {
            n += self.count_block(at, block_end(at, self.cells)) as usize;
        }
        n
    }

    // How many cells the level counts. Level 1 counts the set bytes of the first mask, with no product.
    #[inline(always)]
    pub fn count(self) -> usize
        ensures { result ≡ length (live_in self.entry) }
    {
        match self.depth {
            0 => self.cells,
            1 => mask_marks::count_set(&self.masks[0..self.cells]),
            _ => self.count_blocks(),
        }
    }

    // The same, with the depth as the caller writes it: where that is a constant, what goes by the level is compiled for it.
    // Each caller matches on the depth itself: one match for all would take the call as a closure and its output beside it, and save no line.
    #[inline(always)]
    pub fn at_depth(self, depth: usize) -> Level<'a>
        requires { depth ≡ self.depth }
        ensures { result ≡ self.entry }
    {
        let Level { masks, cells, .. } = self;
        Level {
            masks,
            cells,
            depth,
        }
    }

    // The same, with the number of its cells.
    #[inline(always)]
    pub fn counted(self) -> Counted<'a>
        ensures { result.level ≡ self.entry }
    {
        Counted {
            level: self,
            count: self.count(),
        }
    }
}

// A level with the number of cells that it counts.
#[derive(Clone, Copy)]
pub struct Counted<'a> {
    pub level: Level<'a>,
    pub count: usize,
    pub ghost counted: { count ≡ length (live_at level.cells level.masks.now level.depth) },
}

impl<'a> Counted<'a> {
    // The same of its level.
    #[inline(always)]
    pub fn at_depth(self, depth: usize) -> Counted<'a>
        requires { depth ≡ self.level.depth }
        ensures { result ≡ self.entry }
    {
        Counted {
            level: self.level.at_depth(depth),
            count: self.count,
        }
    }
}
