// Sums and ends of the cells of a table that keeps its rules.
#![tactic(auto)]

ghost use Rattle.std.specs.Prelude.{◌≡◌, ◌≤◌, length};
ghost use Rattle.array.specs.Lists.{All, from};
ghost use Rattle.array.specs.Places.{sum, offset_at};
ghost use Rattle.table.specs.Table.{most_store, filled_by, Placed};
ghost use Rattle.table.specs.Lying.{top_by};

// The sum of the lengths.
pub fn sum_of(lengths: &[u64]) -> usize
    requires { sum lengths.now ≤ most_store }
    ensures { result ≡ sum lengths.now }
{
    lengths.iter().sum::<u64>() as usize
}

// Where the highest-lying of the first n cells ends, or 0.
pub fn top_of(starts: &[u64], lengths: &[u64], n: usize, size: usize) -> usize
    requires { (length starts.now ≡ n) × (length lengths.now ≡ n) × (size ≤ most_store)
        × All (λ j. Placed size (offset_at starts.now j) (offset_at lengths.now j)) (from 0 n) }
    ensures { (result ≡ top_by (offset_at starts.now) (offset_at lengths.now) (filled_by (offset_at starts.now) (offset_at lengths.now) n))
        × (result ≤ size) }
{
    let mut top: usize = 0;
    for j in 0..n {
        top = top.max((starts[j] + lengths[j]) as usize);
    }
    top
}
