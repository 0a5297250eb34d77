// Whether each cell of a shape lies in exactly one subset of a list. Marks are bits, so that those of all cells take 8 KiB.
#![tactic(auto)]

ghost use Rattle.std.specs.Prelude.{◌≡◌, ◌+◌, ◌-◌, ◌%◌, ◌^◌, ◌≤◌, ◌<◌, min, length};
ghost use Rattle.array.specs.Answer.{gives};
ghost use Rattle.array.specs.Lists.{from};
ghost use Rattle.array.specs.Shape.{volume};
ghost use Rattle.subset.specs.Cells.{cells_of, cells_of_each};
ghost use Rattle.chunks.specs.Gather.{once_test};
ghost use Rattle.merge_cover.specs.Marks.{marking, told_marks};
ghost use Rattle.merge_cover.specs.Bits.{marks_of, bits_at, no_words};

use subset::walk::{Subset, Subsets};

// No cell is marked.
#[tactic(auto, unfolding(crate::specs::Bits::no_words))]
fn no_marks() -> [u64; 1024]
    ensures { result ≡ no_words }
{
    [0u64; 1024]
}

// How many cells from i on, and before `end`, have their marks in one word: a name for it, as laws are about it.
fn in_word(i: usize, end: usize) -> usize
    requires { i < end }
    ensures { result ≡ min (64 - i % 64) (end - i) }
{
    (64 - i % 64).min(end - i)
}

// n bits, all of them set.
#[tactic(auto, using(crate::proofs::RunBits::ones_is))]
fn ones(n: usize) -> u64
    requires { (1 ≤ n) × (n ≤ 64) }
    ensures { result ≡ 2 ^ n - 1 }
{
    let s = (64 - n) as u64;
    18446744073709551615u64 >> s
}

// The marks of n cells from i on, which lie in one word, as a number.
#[tactic(auto, using(crate::proofs::RunBits::low_bits), unfolding(crate::specs::Bits::bits_at))]
fn marks_at(words: &[u64; 1024], i: usize, n: usize) -> u64
    requires { (i < 65536) × (1 ≤ n) × (i % 64 + n ≤ 64) }
    ensures { result ≡ bits_at words.now i n }
{
    let k = i / 64;
    let b = (i % 64) as u64;
    let s = (64 - n) as u64;
    let w = words[k];
    ((w >> b) << s) >> s
}

// Marks n cells from i on, which lie in one word and are not marked: so their bits are added.
#[tactic(auto, using(crate::proofs::RunBits::run_fits, crate::proofs::RunBits::run_marked))]
fn set_marks(words: &mut [u64; 1024], i: usize, n: usize)
    requires { (i < 65536) × (1 ≤ n) × (i % 64 + n ≤ 64) × (bits_at words.old i n ≡ 0) }
    ensures { gives (marks_of words.new) ≡ marking (marks_of words.old) (from i n) }
{
    let k = i / 64;
    let b = (i % 64) as u64;
    let v = ones(n);
    let w = words[k];
    words[k] = w + (v << b);
}

// Marks cells that are neighbours, a word at a time; whether none was marked already.
#[tactic(auto, using(crate::proofs::MarkRuns::run_ends))]
fn mark_run(words: &mut [u64; 1024], start: usize, len: usize) -> bool
    requires { start + len ≤ 65536 }
    ensures { told_marks result (marks_of words.new) ≡ marking (marks_of words.old) (from start len) }
{
    let mut i = start;
    let end = start + len;
    // No range has these steps: a turn takes as many cells as one word has left.
    while i < end {
        let n = in_word(i, end);
        if marks_at(words, i, n) != 0 {
            return false;
        }
        set_marks(words, i, n);
        i += n;
    }
    true
}

// Marks the cells of a subset, row by row; whether none was marked already.
#[tactic(auto, using(crate::proofs::Marking::marked_ends), unfolding(array::specs::Limits::most_cells))]
fn mark_subset(words: &mut [u64; 1024], subset: Subset) -> bool
    ensures { told_marks result (marks_of words.new) ≡ marking (marks_of words.old) (cells_of subset.entry) }
{
    for row in subset.rows() {
        if !mark_run(words, row.first, row.cells) {
            return false;
        }
    }
    true
}

// Whether each cell of the shape lies in exactly one of the subsets: the subsets have as many cells as the shape, and none is marked
// twice. What is left is counted down, so that no sum wraps.
#[tactic(auto, using(crate::proofs::Marking::cover_ends, subset::proofs::Index::few_shape))]
pub fn covers(subsets: Subsets) -> bool
    ensures { result ≡ once_test (volume subsets.entry.shape.now) (cells_of_each subsets.entry) }
{
    let mut words = no_marks();
    let mut left = subset::volume_of(subsets.shape) as usize;
    for part in subsets.parts() {
        if left < part.count {
            return false;
        }
        if !mark_subset(&mut words, part) {
            return false;
        }
        left -= part.count;
    }
    left == 0
}
