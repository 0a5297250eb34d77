// Masks and fixed values of the cells of a subset, copied row by row: a row of neighbours is one run of bytes.
ghost use Rattle.std.specs.Prelude.{◌≡◌, ◌*◌};
ghost use Rattle.array.specs.Lists.{joined};
ghost use Rattle.array.specs.Buffers.{over, over_at};
ghost use Rattle.array.specs.Places.{fixed_at, values_at, planes_at};
ghost use Rattle.subset.specs.Cells.{cells_of};
ghost use Rattle.extract.specs.Asked.{CellsAsked, PlanesAsked};

use buffer::copy;
use subset::walk::Subset;

// Copies the cells of a subset, `size` bytes each, to the place `to`. The array's lie in `src` from `base` on.
pub fn copy_cells(out: &mut [u8], to: usize, src: &[u8], base: usize, size: usize, subset: Subset)
    requires { CellsAsked «out».old to src.now base size subset.shape.now subset.count }
    ensures { «out».new ≡ over_at to (joined (values_at (fixed_at base size) src.now (cells_of subset.entry))) «out».old }
{
    for row in subset.rows() {
        let place = to + row.at * size;
        let first = base + row.first * size;
        copy::copy_bytes(out, place, src, first, row.cells * size);
    }
}

// Copies the mask bytes of a subset's cells, level by level. The array has planes of `cells` bytes.
pub fn copy_masks(out: &mut [u8], src: &[u8], depth: usize, cells: usize, subset: Subset)
    requires { PlanesAsked «out».old src.now depth cells subset.shape.now subset.count }
    ensures { «out».new ≡ over (planes_at depth 0 cells src.now (cells_of subset.entry)) «out».old }
{
    for level in 0..depth {
        copy_cells(out, level * subset.count, src, level * cells, 1, subset);
    }
}
