// A working table's rules (refusal 4), and the order in which its cells lie.
#![tactic(auto)]

ghost use Rattle.std.specs.Prelude.{◌≡◌, ◌<◌, ◌≤◌, length};
ghost use Rattle.array.specs.Limits.{most_cells};
ghost use Rattle.array.specs.Lists.{All};
ghost use Rattle.array.specs.Places.{offset_at};
ghost use Rattle.table.specs.Order.{follow_test};
ghost use Rattle.table.specs.Meaning.{lent_table};
ghost use Rattle.table_check.specs.Check.{Reached};
ghost use Rattle.table_check.specs.Told.{ToldOrder};

use table::lent::Table;
use table_order::lie;

pub mod rules;

// Whether each cell of the order starts no lower than the one before it ends.
fn follow(starts: &[u64], lengths: &[u64], order: &[u16]) -> bool
    requires { All (Reached starts.now lengths.now) order.now }
    ensures { result ≡ follow_test (offset_at starts.now) (offset_at lengths.now) 0 order.now }
{
    let mut end: u64 = 0;
    for number in order {
        let cell = *number as usize;
        let start = starts[cell];
        if start < end {
            return false;
        }
        end = start + lengths[cell];
    }
    true
}

// The rules for a table of n cells: how many of them have bytes, whose numbers the order then begins with, as they lie; none where a rule
// is broken.
pub fn check_cells(depth: usize, n: usize, table: Table, order: &mut [u16]) -> Option<usize>
    requires { (n ≤ most_cells) × (1 ≤ n) × (depth ≤ 4) × (n ≤ length order.old) }
    ensures { ToldOrder depth n (lent_table table.entry) order.new result }
{
    if !rules::keep_rules(depth, n, table) {
        return None;
    }
    let count = lie(table.starts, table.lengths, n, order);
    if !follow(table.starts, table.lengths, &order[..count]) {
        return None;
    }
    Some(count)
}
