// Layer 3: a cut of a live table: the cells of a subset, each from the chunk that holds it. Chunks are walked in their order, and each cell
// goes to its place.
#![tactic(auto)]

ghost use Rattle.std.specs.Prelude.{◌≡◌, length};
ghost use Rattle.array.specs.Buffers.{ragged_outcome, ragged_lengths_of};
ghost use Rattle.array.specs.Outcome.{content_ragged, outcome_ragged};
ghost use Rattle.decode_interleaved.specs.Walk.{found_answer};
ghost use Rattle.migrate.specs.Calls.{migrate_extract};
ghost use Rattle.migrate_check.specs.Chunks.{chunks_in};
ghost use Rattle.migrate_check.specs.Meaning.{live_of};
ghost use Rattle.migrate_extract.specs.Chunks.{CutAsked, cut_of};

use array::answer::RaggedLengths;
use array::refusal::Refusal;
use merge_stores::ragged::sum_up;
use migrate_check::stored::{LiveTable, StoredChunks};
use subset::walk::{Subset, Subsets};

pub mod chunk;
pub mod walk;

// The cut of chunks that are read, `sum` bytes in all: 6, and then the stores. Lengths are added up to offsets where they lie.
fn write_cut(
    asked: Subset,
    subsets: Subsets,
    stored: StoredChunks,
    sum: usize,
    values: &mut [u8],
    offsets: &mut [u64],
) -> Result<RaggedLengths, Refusal>
    requires { CutAsked asked subsets (chunks_in stored) (length stored.old_lengths.now) sum }
    ensures { outcome_ragged result values.new offsets.new
        ≡ ragged_outcome (found_answer (cut_of asked.entry subsets.entry (chunks_in stored.entry))
        (ragged_lengths_of (content_ragged values.old offsets.old)))
        (content_ragged values.old offsets.old) }
{
    if values.len() < sum {
        return Err(Refusal::Output);
    }
    let count = asked.count + 1;
    if offsets.len() < count {
        return Err(Refusal::Output);
    }
    walk::store_lengths(offsets, asked, subsets, stored);
    sum_up(offsets, asked.count);
    walk::store_bytes(values, offsets, asked, subsets, stored);
    Ok(RaggedLengths {
        values: sum,
        offsets: count,
    })
}

// The cells of a subset, in row order, where every chunk of the table is readable: their bytes end to end, and their offsets from 0.
pub fn migrate_extract(
    table: LiveTable,
    subset: &[u64],
    moved: u64,
    moved_lengths: &[u64],
    area: &[u8],
    values: &mut [u8],
    offsets: &mut [u64],
) -> Result<RaggedLengths, Refusal>
    ensures { outcome_ragged result values.new offsets.new
        ≡ migrate_extract (live_of table.entry moved moved_lengths.now area.now) subset.now
        (content_ragged values.old offsets.old) }
{
    let within = subset::subset_fits(table.shape, subset);
    migrate_check::check_table(table, moved, moved_lengths, area, within)?;
    let asked = Subset::new(table.shape, subset);
    let subsets = Subsets::new(table.shape, table.subsets);
    let stored = StoredChunks::new(table, moved, moved_lengths, area);
    let sum = walk::count_bytes(asked, subsets, stored)?;
    write_cut(asked, subsets, stored, sum, values, offsets)
}
