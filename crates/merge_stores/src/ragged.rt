// Ragged values: their lengths, the offsets that these add up to, and their bytes at those offsets.
ghost use Rattle.std.specs.Prelude.{◌≡◌, ◌∷◌, ◌++◌, ◌+◌, ◌<◌, ◌≤◌, length, take, drop};
ghost use Rattle.array.specs.Limits.{most_bytes};
ghost use Rattle.array.specs.Lists.{from};
ghost use Rattle.array.specs.Buffers.{over_at};
ghost use Rattle.array.specs.Places.{fixed_at, offset_at, Rises, sum, sums, steps_at};
ghost use Rattle.subset.specs.Cells.{cells_of, subsets_in, cells_of_each};
ghost use Rattle.merge_stores.specs.Scatter.{scatter, places};
ghost use Rattle.merge_stores.specs.Ragged.{step_parts, offsets_merged};
ghost use Rattle.merge_stores.specs.Ragged.{LengthsAsked, LengthsAllAsked, RaggedAsked, RaggedAllAsked, RaggedMergeAsked};

use subset::walk::{Subset, Subsets};

// The lengths of n neighbours, from their offsets.
fn store_steps(out: &mut [u64], at: usize, src: &[u64], first: usize, n: usize)
    requires { (at + n ≤ length out.old) × (first + n < length src.now) × Rises (λ i. offset_at src.now (first + i)) n }
    ensures { out.new ≡ over_at at (steps_at (offset_at src.now) (from first n)) out.old }
{
    for i in 0..n {
        out[at + i] = src[first + i + 1] - src[first + i];
    }
}

// Stores the lengths of a chunk's values at their cells' places, where cell 0 lies at 1.
fn store_lengths(out: &mut [u64], src: &[u64], first: usize, subset: Subset)
    requires { LengthsAsked subset.shape.now out.old src.now first subset.count }
    ensures { out.new ≡ scatter out.old (places (fixed_at 1 1) (cells_of subset.entry))
        (steps_at (offset_at src.now) (from first subset.entry.count)) }
{
    for row in subset.rows() {
        store_steps(out, 1 + row.first, src, first + row.at, row.cells);
    }
}

// Stores the lengths of the values of all chunks.
fn store_lengths_all(out: &mut [u64], src: &[u64], subsets: Subsets)
    requires { LengthsAllAsked subsets.shape.now (subsets_in subsets) out.old src.now }
    ensures { out.new ≡ scatter out.old (places (fixed_at 1 1) (cells_of_each subsets.entry)) (step_parts (subsets_in subsets.entry) src.now) }
{
    let mut first: usize = 0;
    for part in subsets.parts() {
        let m = part.count;
        store_lengths(out, src, first, part);
        first += m + 1;
    }
}

// Lengths become offsets, in place: 0, and after it each of the n lengths added to those before it.
#[tactic(auto, using(crate::proofs::Summing::sum_laws), unfolding(array::specs::Limits::most_bytes))]
pub fn sum_up(out: &mut [u64], n: usize)
    requires { (n < length out.old) × (sum (take n (drop 1 out.old)) ≤ most_bytes) }
    ensures { out.new ≡ (0 ∷ sums 0 (take n (drop 1 out.old))) ++ drop (n + 1) out.old }
{
    out[0] = 0;
    for i in 0..n {
        out[i + 1] += out[i];
    }
}

// Stores a chunk's values row by row: they lie in `values` from `base` on, by the offsets in `src` from `first` on; `begins` says
// where each cell of the output begins.
fn store_ragged(
    out: &mut [u8],
    begins: &[u64],
    values: &[u8],
    base: usize,
    src: &[u64],
    first: usize,
    subset: Subset,
)
    requires { RaggedAsked subset.shape.now out.old begins.now values.now base src.now first (cells_of subset) }
    ensures { out.new ≡ scatter out.old (places (offset_at begins.now) (cells_of subset.entry)) (drop base values.now) }
{
    for row in subset.rows() {
        let to = begins[row.first] as usize;
        let i = first + row.at;
        let begin = src[i] as usize;
        let end = src[i + row.cells] as usize;
        buffer::copy::copy_bytes(out, to, values, base + begin, end - begin);
    }
}

// Stores the values of all chunks.
fn store_ragged_all(out: &mut [u8], begins: &[u64], values: &[u8], src: &[u64], subsets: Subsets)
    requires { RaggedAllAsked subsets.shape.now (subsets_in subsets) out.old begins.now values.now src.now }
    ensures { out.new ≡ scatter out.old (places (offset_at begins.now) (cells_of_each subsets.entry)) values.now }
{
    let mut base: usize = 0;
    let mut first: usize = 0;
    for part in subsets.parts() {
        let last = first + part.count;
        store_ragged(out, begins, values, base, src, first, part);
        base += src[last] as usize;
        first = last + 1;
    }
}

// The ragged values of all chunks: lengths, then offsets in place, then the value bytes.
pub fn merge_ragged(
    outv: &mut [u8],
    outo: &mut [u64],
    values: &[u8],
    src: &[u64],
    subsets: Subsets,
    n: usize,
)
    requires { RaggedMergeAsked subsets.shape.now (subsets_in subsets) outv.old outo.old values.now src.now n }
    ensures offsets { outo.new ≡ offsets_merged subsets.entry.shape.now (subsets_in subsets.entry) src.now ++ drop (n + 1) outo.old }
    ensures bytes { outv.new ≡ scatter outv.old (places (offset_at outo.new) (cells_of_each subsets.entry)) values.now }
{
    store_lengths_all(outo, src, subsets);
    sum_up(outo, n);
    store_ragged_all(outv, outo, values, src, subsets);
}
