// Values of one size, of which a plane shows some: each at its place, and zero bytes where it shows none.
#![tactic(auto)]

ghost use Rattle.std.specs.Prelude.{◌≡◌, true, ◌+◌, ◌≤◌, ◌<◌, length, take, drop, get_or, replicate};
ghost use Rattle.array.specs.Buffers.{over, over_at};
ghost use Rattle.array.specs.Cells.{set_test};
ghost use Rattle.array.specs.Lists.{pick};
ghost use Rattle.shown_cells.specs.Shown.{shown_values, ShownWithin, Alike};

use array::kind::ByteOrder;
use array::mark::mark_of;
use buffer::copy::fill_bytes;
use decode_marks::if_set;
use mask_marks::is_set;
use word::{WordSize, put_word, word_at};

// Values, size and plane are no struct: each loop is compiled for the size that its call names, so that each call would make one anew with that
// size and prove its field again, and what it asks of the output would stay.

// Values of one byte: with no call and no branch in it, the loop becomes one over vectors.
fn put_bytes(out: &mut [u8], values: &[u8], plane: &[u8])
    requires { ShownWithin out.old values.now 1 plane.now }
    ensures { out.new ≡ over (shown_values 1 values.now plane.now) out.old }
{
    for j in 0..plane.len() {
        out[j] = if_set(mark_of(plane[j]), values[j], 0);
    }
}

// Values of a word's size: the word or 0, chosen without a branch.
#[tactic(auto, using(crate::proofs::Showing::cell_source, crate::proofs::Showing::cell_room, crate::proofs::Showing::showing_same))]
fn put_words(out: &mut [u8], values: &[u8], size: WordSize, plane: &[u8])
    requires { ShownWithin out.old values.now size.bytes plane.now }
    ensures { out.new ≡ over (shown_values size.bytes values.now plane.now) out.old }
{
    for j in 0..plane.len() {
        let v = word_at(values, j * size.bytes, size, ByteOrder::Little);
        let w = if_set(mark_of(plane[j]), v, 0);
        put_word(out, j * size.bytes, size, w);
    }
}

// Values of at least a word and at most two: the first word of each and the last, which share the bytes that both have.
#[tactic(auto, using(crate::proofs::Showing::cell_source, crate::proofs::Showing::cell_room, crate::proofs::Showing::showing_same))]
fn put_ends(out: &mut [u8], values: &[u8], size: usize, word: WordSize, plane: &[u8])
    requires { ShownWithin out.old values.now size plane.now × (word.bytes ≤ size) × (size ≤ word.bytes + word.bytes) }
    ensures { out.new ≡ over (shown_values size values.now plane.now) out.old }
{
    let behind = size - word.bytes;
    for j in 0..plane.len() {
        let mark = mark_of(plane[j]);
        let x = word_at(values, j * size, word, ByteOrder::Little);
        let y = word_at(values, j * size + behind, word, ByteOrder::Little);
        let first = if_set(mark, x, 0);
        let last = if_set(mark, y, 0);
        put_word(out, j * size, word, first);
        put_word(out, j * size + behind, word, last);
    }
}

// Where the neighbours of cell i end that are shown as it is, or not shown as it is not. `run_length` of `decode_cells`
// counts the cells of one sort; here a run's sort is that of its first cell.
fn run_end(plane: &[u8], i: usize, shown: bool) -> usize
    requires { (i < length plane.now) × (set_test (get_or plane.now i 0) ≡ shown) }
    ensures { Alike plane.now shown i result }
{
    for e in i + 1..plane.len() {
        if is_set(plane, e) != shown {
            return e;
        }
    }
    plane.len()
}

// The k bytes at `at` of cells that are all shown, or all not: of over 16 bytes, so that a call of memmove is worth its cost.
fn put_run(out: &mut [u8], values: &[u8], at: usize, k: usize, shown: bool)
    requires { (at + k ≤ length out.old) × (at + k ≤ length values.now) }
    ensures { out.new ≡ over_at at (pick shown (take k (drop at values.now)) (replicate k 0)) out.old }
{
    if shown {
        out[at..at + k].copy_from_slice(&values[at..at + k]);
    } else {
        fill_bytes(out, at, k, 0);
    }
}

// Values of any size by runs: neighbours that are shown are one copy, and those that are not are one fill.
fn put_runs(out: &mut [u8], values: &[u8], size: usize, plane: &[u8])
    requires { ShownWithin out.old values.now size plane.now }
    ensures { out.new ≡ over (shown_values size values.now plane.now) out.old }
{
    let mut i: usize = 0;
    // the next turn begins where this run ends, which no range counts
    while i < plane.len() {
        let shown = is_set(plane, i);
        let end = run_end(plane, i, shown);
        put_run(out, values, i * size, (end - i) * size, shown);
        i = end;
    }
}

// The values of the cells that the plane shows, each at its place, and zero bytes elsewhere. Each size of a word has a loop of its own. Above
// two words a branch guessed wrong costs less than reading what is hidden: these go by runs.
pub fn put_shown(out: &mut [u8], values: &[u8], size: usize, plane: &[u8])
    requires { ShownWithin out.old values.now size plane.now }
    ensures { out.new ≡ over (shown_values size values.now plane.now) out.old }
{
    match size {
        1 => put_bytes(out, values, plane),
        2 => put_words(out, values, WordSize::TWO, plane),
        3 => put_ends(out, values, 3, WordSize::TWO, plane),
        4 => put_words(out, values, WordSize::FOUR, plane),
        5..=7 => put_ends(out, values, size, WordSize::FOUR, plane),
        8 => put_words(out, values, WordSize::EIGHT, plane),
        9..=16 => put_ends(out, values, size, WordSize::EIGHT, plane),
        _ => put_runs(out, values, size, plane),
    }
}
