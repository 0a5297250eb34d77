// The rules for a table, but that its cells share no byte: lengths that agree with the count and the levels, mask bytes 00 and 01, rest form,
// cells within the store.
ghost use Rattle.std.specs.Prelude.{◌≡◌, true, ◌&&◌, ◌+◌, ◌*◌, ◌<◌, ◌≤◌, length, leb, ltb};
ghost use Rattle.array.specs.Limits.{most_cells};
ghost use Rattle.array.specs.Lists.{every};
ghost use Rattle.array.specs.Cells.{strict_test};
ghost use Rattle.table.specs.Table.{or_zero_test, placed_test, fit_test, rests_test};
ghost use Rattle.table.specs.Meaning.{lent_table};
ghost use Rattle.table_check.specs.Check.{falls_test, nulls_test, placed_in, cells_test};

use table::lent::Table;
use valid::masks::masks_strict;

// Whether the lists are as long as n cells of so many levels ask.
fn lists_fit(depth: usize, n: usize, table: Table) -> bool
    requires { (n ≤ most_cells) × (depth ≤ 4) }
    ensures { result ≡ fit_test depth n (lent_table table.entry) }
{
    if table.masks.len() != depth * n {
        return false;
    }
    if table.starts.len() != n {
        return false;
    }
    table.lengths.len() == n
}

// Whether no byte was over its other so far, nor is a over b.
fn still_falls(falling: bool, a: u8, b: u8) -> bool
    ensures { result ≡ falling && leb a b }
{
    falling && a <= b
}

// Whether no mask byte is over the one a plane before it: of bytes 00 and 01, that none is set below a null. All are looked at, so that no
// turn waits for a branch.
fn masks_fall(n: usize, masks: &[u8]) -> bool
    ensures { result ≡ falls_test n masks.now }
{
    let mut falling = true;
    for i in n..masks.len() {
        falling = still_falls(falling, masks[i], masks[i - n]);
    }
    falling
}

// Whether no null had bytes so far, nor has this cell.
fn still_empty(empty: bool, mask: u8, len: u64) -> bool
    ensures { result ≡ empty && or_zero_test (ltb 0 mask) len }
{
    empty && (0 < mask || len == 0)
}

// Whether the cells whose mask byte, from a place on, is 0 have no bytes.
fn nulls_empty(n: usize, at: usize, masks: &[u8], lengths: &[u64]) -> bool
    requires { (at + n ≤ length masks.now) × (n ≤ length lengths.now) }
    ensures { result ≡ nulls_test n at masks.now lengths.now }
{
    let mut empty = true;
    for j in 0..n {
        empty = still_empty(empty, masks[at + j], lengths[j]);
    }
    empty
}

// Whether a cell lies within so many bytes, and starts at 0 where it has none. No end is added up, as it could wrap.
fn cell_placed(size: u64, start: u64, len: u64) -> bool
    ensures { result ≡ placed_test size start len }
{
    if size < start {
        return false;
    }
    if size - start < len {
        return false;
    }
    0 < len || start == 0
}

// Whether the n cells are placed so. A function of its own: within what calls it the loop has a branch for each cell with no bytes.
#[inline(never)]
fn cells_placed(size: u64, n: usize, starts: &[u64], lengths: &[u64]) -> bool
    requires { (n ≤ length starts.now) × (n ≤ length lengths.now) }
    ensures { result ≡ placed_in size n starts.now lengths.now }
{
    for j in 0..n {
        if !cell_placed(size, starts[j], lengths[j]) {
            return false;
        }
    }
    true
}

// Whether strict masks and lengths are in rest form: below a null no level is set, and there are no bytes.
fn cells_rest(depth: usize, n: usize, table: Table) -> bool
    requires { (0 < n) × (length table.masks.now ≡ depth * n) × (n ≤ length table.lengths.now) × (every strict_test table.masks.now ≡ true) }
    ensures { result ≡ rests_test depth n (lent_table table.entry) }
{
    if depth == 0 {
        return true;
    }
    let innermost = table.masks.len() - n;
    masks_fall(n, table.masks) && nulls_empty(n, innermost, table.masks, table.lengths)
}

// Whether a table keeps all rules but that its cells share no byte.
pub fn keep_rules(depth: usize, n: usize, table: Table) -> bool
    requires { (n ≤ most_cells) × (0 < n) × (depth ≤ 4) }
    ensures { result ≡ cells_test depth n (lent_table table.entry) }
{
    if !lists_fit(depth, n, table) {
        return false;
    }
    if !masks_strict(table.masks) {
        return false;
    }
    if !cells_rest(depth, n, table) {
        return false;
    }
    cells_placed(table.store.len() as u64, n, table.starts, table.lengths)
}
