// A guest before an array: what its rights plane shows of the cells.
ghost use Rattle.std.specs.Prelude.{◌≡◌, ◌*◌, ◌≤◌, ◌<◌, length};
ghost use Rattle.array.specs.Buffers.{over};
ghost use Rattle.array.specs.Lists.{pick};
ghost use Rattle.encode_data.specs.Offsets.{Offsets};
ghost use Rattle.rest_masks.specs.Rested.{rest_planes};

use live_cells::Level;
use mask_marks::one_if_set;
use rest_masks::put_planes;

// A plane with a byte for each cell, and the cells' own masks, of one level at least.
#[derive(Clone, Copy)]
pub struct Guest<'r, 'a> {
    pub rights: &'r [u8],
    pub level: Level<'a>,
    pub ghost masked: { 0 < level.depth },
    pub ghost counted: { length rights.now ≡ level.cells },
}

impl<'r, 'a> Guest<'r, 'a> {
    ghost use Rattle.guest_read.specs.Seen.{sees, masks_seen, bytes_seen};

    // 1 where the plane and all masks show cell i, else 0: a product, so that what goes by it has no branch.
    #[inline(always)]
    fn mark(self, i: usize) -> u8
        requires { i < self.level.cells }
        ensures { result ≡ pick (sees self.entry i) 1 0 }
    {
        one_if_set(self.rights[i]) * self.level.mark(i)
    }

    // The same, with the depth of the level as the caller writes it.
    #[inline(always)]
    fn at_depth(self, depth: usize) -> Guest<'r, 'a>
        requires { depth ≡ self.level.depth }
        ensures { result ≡ self.entry }
    {
        Guest {
            rights: self.rights,
            level: self.level.at_depth(depth),
        }
    }

    // Value bytes of the cells that are seen. Their offsets are no field: plane, masks and offsets are borrowed for three lifetimes, and a struct
    // of them would name all three for this one loop. As sum of `encode_data`, by another mark: one loop for both would take the mark as a
    // closure, and its law in each contract, and save no line.
    #[inline(always)]
    fn sum(self, offsets: &[u64]) -> usize
        requires { Offsets self.level.cells offsets.now }
        ensures { result ≡ bytes_seen self.entry offsets.now }
    {
        let mut total: usize = 0;
        for i in 0..self.level.cells {
            let mark = self.mark(i) as u64;
            let start = offsets[i];
            let end = offsets[i + 1];
            total += ((end - start) * mark) as usize;
        }
        total
    }

    // The same by level, each loop compiled for its own: in a function of their own, so that their pointers stay in registers.
    #[inline(never)]
    pub fn bytes(self, offsets: &[u64]) -> usize
        requires { Offsets self.level.cells offsets.now }
        ensures { result ≡ bytes_seen self.entry offsets.now }
    {
        match self.level.depth {
            1 => self.at_depth(1).sum(offsets),
            2 => self.at_depth(2).sum(offsets),
            3 => self.at_depth(3).sum(offsets),
            _ => self.at_depth(4).sum(offsets),
        }
    }

    // The masks of what is seen: the outermost one cleared where the plane hides a cell, and those below it in rest form.
    pub fn put_masks(self, out: &mut [u8])
        requires { self.level.depth * self.level.cells ≤ length out.old }
        ensures { out.new ≡ over (rest_planes self.entry.level.cells (masks_seen self.entry) self.entry.level.depth) out.old }
    {
        put_planes(out, Some(self.rights), self.level);
    }
}
