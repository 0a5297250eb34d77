// The array's rules: lengths that agree with the kind and the count of cells, offsets that begin at 0 and never fall, mask bytes 00 and 01,
// few enough value bytes.
ghost use Rattle.std.specs.Prelude.{◌≡◌, ◌&&◌, suc, ◌≤◌, ◌<◌, length, take, leb};
ghost use Rattle.array.specs.Limits.{most_cells};
ghost use Rattle.array.specs.Offsets.{rising_test};
ghost use Rattle.array.specs.Content.{content_test, array_test};
ghost use Rattle.array.specs.Meaning.{kind_of, lent, told};
ghost use Rattle.valid.specs.Check.{check_of};

use crate::masks::masks_strict;
use array::content::ArrayBytes;
use array::kind::{Kind, Values};
use array::refusal::Refusal;

// Value bytes of an array at most.
pub const MOST_BYTES: usize = 8589934592;

// Whether none of four steps falls.
fn four_rise(a: u64, b: u64, c: u64, d: u64, e: u64) -> bool
    ensures { result ≡ leb a b && leb b c && leb c d && leb d e }
{
    a <= b && b <= c && c <= d && d <= e
}

// Whether the first n + 1 offsets begin at 0 and never fall. Four at a time, as a turn of the loop costs more than a test.
// `stored_index` has the like for the fields of stored bytes, two a turn: it reads them by their width.
fn rise_from_zero(offsets: &[u64], n: usize) -> bool
    requires { n < length offsets.now }
    ensures { result ≡ rising_test (take (suc n) offsets.now) }
{
    if offsets[0] > 0 {
        return false;
    }
    let (fours, rest) = offsets[1..n + 1].split_at(n / 4 * 4);
    let mut last: u64 = 0;
    for four in fours.chunks_exact(4) {
        if !four_rise(last, four[0], four[1], four[2], four[3]) {
            return false;
        }
        last = four[3];
    }
    for next in rest {
        if *next < last {
            return false;
        }
        last = *next;
    }
    true
}

// Whether an array or a chunk of so many cells has the lengths and offsets of its kind.
fn content_fits(kind: Kind, cells: usize, array: ArrayBytes) -> bool
    requires { cells ≤ most_cells }
    ensures { result ≡ content_test (kind_of kind) cells (lent array.entry) }
{
    let depth = kind.depth as usize;
    if array.masks.len() != depth * cells {
        return false;
    }
    let form = kind.values;
    match form {
        Values::Fixed(size, _) => {
            if array.values.len() != cells * (size as usize) {
                return false;
            }
            array.offsets.len() == 0
        }
        Values::Ragged(_, _) => {
            if array.offsets.len() != cells + 1 {
                return false;
            }
            if !rise_from_zero(array.offsets, cells) {
                return false;
            }
            let last = array.offsets[cells] as usize;
            last == array.values.len()
        }
    }
}

// Whether an array or a chunk of so many cells keeps the rules of its kind: else it is 4.
pub fn keeps_rules(kind: Kind, cells: usize, array: ArrayBytes) -> bool
    requires { cells ≤ most_cells }
    ensures { result ≡ array_test (kind_of kind) cells (lent array.entry) }
{
    content_fits(kind, cells, array) && masks_strict(array.masks)
}

// The rules of an array whose kind and shape are sound: 4, and then 5.
pub fn check_array(kind: Kind, cells: usize, array: ArrayBytes) -> Result<(), Refusal>
    requires { cells ≤ most_cells }
    ensures { told result ≡ check_of (kind_of kind) cells (lent array.entry) }
{
    if !keeps_rules(kind, cells, array) {
        return Err(Refusal::Content);
    }
    if array.values.len() > MOST_BYTES {
        return Err(Refusal::Size);
    }
    Ok(())
}
