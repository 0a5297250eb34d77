// Runs of cells that are all set, or all not.
ghost use Rattle.std.specs.Prelude.{◌≡◌, ◌≤◌, length, drop};
ghost use Rattle.decode_cells.specs.Runs.{mark_run};

use mask_marks::is_set;

// How many cells of the plane from i on are all set, or all not.
pub fn run_length(plane: &[u8], i: usize, set: bool) -> usize
    requires { i ≤ length plane.now }
    ensures { result ≡ mark_run set (drop i plane.now) }
{
    for e in i..plane.len() {
        if is_set(plane, e) != set {
            return e - i;
        }
    }
    plane.len() - i
}
