// The older interleaved form of ragged values, read: a 4-byte count, then for each cell a 4-byte length and its bytes.
// A checking walk comes before the first store; the walk that copies cannot fail.
ghost use Rattle.std.specs.Prelude.{◌≡◌, ◌+◌, ◌≤◌, length};
ghost use Rattle.array.specs.Lists.{joined};
ghost use Rattle.array.specs.Offsets.{offsets_of};
ghost use Rattle.array.specs.Limits.{most_cells};
ghost use Rattle.array.specs.Buffers.{over, ragged_outcome, ragged_lengths_of};
ghost use Rattle.array.specs.Outcome.{content_ragged, outcome_ragged};
ghost use Rattle.codec.specs.Calls.{interleaved_decoded};
ghost use Rattle.decode_interleaved.specs.Walk.{walk_answer, read_answer, total_of, found, Found, Walked, found_answer};
ghost use Rattle.array.specs.Meaning.{told};

use array::answer::RaggedLengths;
use array::refusal::Refusal;
use buffer::{copy, field};
use valid::{array_bytes, shape};

// Each length is held against what is left, so that no position wraps; the sum stays below the position.
// An empty cell, and one as long as the one before, has a branch of its own: there the next place does not wait for the length.
fn walk_cells(bytes: &[u8], cells: usize) -> Result<usize, Refusal>
    ensures { told result ≡ walk_answer cells bytes.now }
{
    let mut at: usize = 4;
    let mut sum: usize = 0;
    let mut last: usize = 0;
    for _ in 0..cells {
        let Ok(field) = field::read_u32(bytes, at) else {
            return Err(Refusal::PastEnd);
        };
        let length = field as usize;
        at += 4;
        if 0 < length {
            if length == last {
                if bytes.len() - at < last {
                    return Err(Refusal::PastEnd);
                }
                at += last;
                sum += last;
            } else {
                if bytes.len() - at < length {
                    return Err(Refusal::PastEnd);
                }
                at += length;
                sum += length;
                last = length;
            }
        }
    }
    Ok(sum)
}

// The bytes of all cells, `sum` of them, end to end; where each cell begins, and where the last one ends.
// What is copied beyond a cell, the cells after it write over.
fn copy_cells(values: &mut [u8], offsets: &mut [u64], bytes: &[u8], cells: usize, sum: usize)
    requires { Found cells bytes.now × (sum ≡ total_of (found cells bytes.now)) × (sum ≤ length values.old) × (cells + 1 ≤ length offsets.old) }
    ensures joins { values.new ≡ over (joined (found cells bytes.now)) values.old }
    ensures places { offsets.new ≡ over (offsets_of (found cells bytes.now)) offsets.old }
{
    let mut at: usize = 4;
    let mut to: usize = 0;
    for i in 0..cells {
        let length = field::le4_at(bytes, at) as usize;
        offsets[i] = to as u64;
        at += 4;
        if 0 < length {
            interleaved_cells::copy_cell(values, to, bytes, at, length, sum - to);
            at += length;
            to += length;
        }
    }
    offsets[cells] = to as u64;
}

// How many value bytes `cells` cells have, or what is refused of them. Bytes after the last cell are ignored.
#[tactic(auto, using(crate::proofs::Outcomes::few_bytes), unfolding(array::specs::Limits::most_cells))]
pub fn read_cells(bytes: &[u8], cells: usize) -> Result<usize, Refusal>
    requires { cells ≤ most_cells }
    ensures { told result ≡ read_answer cells bytes.now }
{
    if bytes.len() < 4 * (1 + cells) {
        return Err(Refusal::Short);
    }
    if field::le4_at(bytes, 0) != cells as u64 {
        return Err(Refusal::Count);
    }
    let sum = walk_cells(bytes, cells)?;
    if sum > array_bytes::MOST_BYTES {
        return Err(Refusal::Size);
    }
    Ok(sum)
}

// Cells that were read, `sum` bytes in all: 6, and then the copying.
fn write_cells(
    cells: usize,
    bytes: &[u8],
    sum: usize,
    values: &mut [u8],
    offsets: &mut [u64],
) -> Result<RaggedLengths, Refusal>
    requires { Walked cells bytes.now sum }
    ensures { outcome_ragged result values.new offsets.new
        ≡ ragged_outcome (found_answer (found cells bytes.now) (ragged_lengths_of (content_ragged values.old offsets.old)))
        (content_ragged values.old offsets.old) }
{
    if values.len() < sum {
        return Err(Refusal::Output);
    }
    let count = cells + 1;
    if offsets.len() < count {
        return Err(Refusal::Output);
    }
    if sum == 0 {
        // no cell has a byte: each begins and ends at 0
        copy::fill_numbers(offsets, 0, count, 0);
        return Ok(RaggedLengths {
            values: sum,
            offsets: count,
        });
    }
    copy_cells(values, offsets, bytes, cells, sum);
    Ok(RaggedLengths {
        values: sum,
        offsets: count,
    })
}

// Reads `cells` cells of the older form: their bytes end to end, and their offsets from 0.
#[tactic(auto, using(crate::proofs::Outcomes::call_laws), unfolding(array::specs::Limits::most_cells))]
pub fn decode_interleaved(
    cells: u64,
    bytes: &[u8],
    values: &mut [u8],
    offsets: &mut [u64],
) -> Result<RaggedLengths, Refusal>
    ensures { outcome_ragged result values.new offsets.new
        ≡ interleaved_decoded cells bytes.now (content_ragged values.old offsets.old) }
{
    if cells > shape::MOST_CELLS {
        return Err(Refusal::Shape);
    }
    let n = cells as usize;
    let sum = read_cells(bytes, n)?;
    write_cells(n, bytes, sum, values, offsets)
}
