// How many cells a shape has, and whether it is one.
ghost use Rattle.std.specs.Prelude.{◌≡◌};
ghost use Rattle.array.specs.Meaning.{told};
ghost use Rattle.valid.specs.ShapeCells.{shape_answer};

use array::refusal::Refusal;

// Sides of a shape at most.
pub const MOST_SIDES: usize = 4;

// Cells of a shape at most.
pub const MOST_CELLS: u64 = 65536;

// The number of cells of a shape. Each side is limited before it is multiplied, so that no product wraps.
pub fn shape_cells(shape: &[u64]) -> Result<usize, Refusal>
    ensures { told result ≡ shape_answer shape.now }
{
    if shape.len() < 1 {
        return Err(Refusal::Shape);
    }
    if MOST_SIDES < shape.len() {
        return Err(Refusal::Shape);
    }
    let mut cells: u64 = 1;
    for k in (0..shape.len()).rev() {
        let side = shape[k];
        if side < 1 {
            return Err(Refusal::Shape);
        }
        if MOST_CELLS < side {
            return Err(Refusal::Shape);
        }
        if MOST_CELLS < side * cells {
            return Err(Refusal::Shape);
        }
        cells = side * cells;
    }
    Ok(cells as usize)
}
