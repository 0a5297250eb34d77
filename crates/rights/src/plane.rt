// A rights plane: one byte a cell, 01 where the guest may see it.
ghost use Rattle.std.specs.Prelude.{◌≡◌, ◌&&◌, not, length, ltb};
ghost use Rattle.rights.specs.Rights.{permits};

use mask_marks::is_set;

// Whether a plane has this cell and hides it.
pub fn hides(rights: &[u8], cell: usize) -> bool
    ensures { result ≡ ltb cell (length rights.now) && not (permits rights.now cell) }
{
    if rights.len() <= cell {
        return false;
    }
    !is_set(rights, cell)
}
