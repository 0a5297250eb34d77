// Layer 3: live tables, whose chunks leave the interleaved form one by one: the check that each call begins with. It stores nothing.
#![tactic(auto)]

ghost use Rattle.std.specs.Prelude.{◌≡◌, ◌+◌, ◌<◌, ◌≤◌, length, MatchOption};
ghost use Rattle.array.specs.Answer.{map_answer};
ghost use Rattle.array.specs.Meaning.{told};
ghost use Rattle.array.specs.Places.{sum};
ghost use Rattle.subset.specs.Cells.{subsets_in};
ghost use Rattle.migrate.specs.Live.{read_chunks, lists_test, chunk_values};
ghost use Rattle.migrate_check.specs.Chunks.{chunks_in, bytes_at};
ghost use Rattle.migrate_check.specs.Meaning.{live_of};

use array::refusal::Refusal;
use stored::{LiveTable, StoredChunks};
use subset::walk::Subsets;

pub mod stored;

// How many bytes parts of these lengths leave of so many, or none where they are more. What is left is counted down, so that no sum wraps.
fn left_behind(lengths: &[u64], size: usize) -> Option<usize>
    ensures { MatchOption result (size < sum lengths.now) (λ left. left + sum lengths.now ≡ size) }
{
    let mut left = size;
    for length in lengths {
        if (left as u64) < *length {
            return None;
        }
        left -= *length as usize;
    }
    Some(left)
}

// Whether both lists have a length for each chunk, the old strings are all of the old bytes, and those moved lie in the area.
pub fn lists_fit(table: LiveTable, moved: u64, moved_lengths: &[u64], area: &[u8]) -> bool
    requires { 1 ≤ length table.shape.now }
    ensures { result ≡ lists_test (live_of table.entry moved moved_lengths.now area.now) }
{
    let chunks = table.subsets.len() / (2 * table.shape.len());
    if table.old_lengths.len() != chunks {
        return false;
    }
    if moved_lengths.len() != chunks {
        return false;
    }
    let Some(left) = left_behind(table.old_lengths, table.old.len()) else {
        return false;
    };
    if left > 0 {
        return false;
    }
    if (chunks as u64) < moved {
        return false;
    }
    left_behind(&moved_lengths[..moved as usize], area.len()).is_some()
}

// Every chunk by its own reader, in the list's order: how many value bytes that of this number has, 0 where there is none, or the first
// refusal.
fn check_chunks(subsets: Subsets, stored: StoredChunks, number: u64) -> Result<usize, Refusal>
    requires { length (subsets_in subsets) ≡ length stored.old_lengths.now }
    ensures { told result
        ≡ map_answer (bytes_at number)
        (read_chunks (subsets_in subsets.entry) (chunks_in stored.entry)) }
{
    let mut left = stored;
    let mut read: u64 = 0;
    let mut bytes: usize = 0;
    for part in subsets.parts() {
        let (first, others) = left.split_first();
        let found = first.read(part.count)?;
        if read == number {
            bytes = found;
        }
        read += 1;
        left = others;
    }
    Ok(bytes)
}

// All that is asked of a live table, in the order of the refusals: 2, 3, 4, 12, and then the readers'. `asked` says whether the subset is one
// that is to be cut. How many value bytes the first chunk has that is still old, 0 where none is.
#[tactic(auto, using(valid::proofs::ShapeLaws::counted))]
pub fn check_table(
    table: LiveTable,
    moved: u64,
    moved_lengths: &[u64],
    area: &[u8],
    asked: bool,
) -> Result<usize, Refusal>
    ensures { told result
        ≡ map_answer (bytes_at moved)
        (chunk_values asked (live_of table.entry moved moved_lengths.now area.now)) }
{
    valid::shape::shape_cells(table.shape)?;
    if !subset::subsets_fit(table.shape, table.subsets) {
        return Err(Refusal::Subset);
    }
    if !asked {
        return Err(Refusal::Subset);
    }
    if !lists_fit(table, moved, moved_lengths, area) {
        return Err(Refusal::Content);
    }
    let subsets = Subsets::new(table.shape, table.subsets);
    if !merge_cover::covers(subsets) {
        return Err(Refusal::Cover);
    }
    let stored = StoredChunks::new(table, moved, moved_lengths, area);
    check_chunks(subsets, stored, moved)
}
