// What a cut takes of all chunks, in their order.
ghost use Rattle.std.specs.Prelude.{◌≡◌, ◌<◌, map, length};
ghost use Rattle.array.specs.Lists.{joined};
ghost use Rattle.array.specs.Meaning.{told};
ghost use Rattle.array.specs.Places.{fixed_at, offset_at};
ghost use Rattle.decode_interleaved.specs.Walk.{total_of};
ghost use Rattle.merge_stores.specs.Scatter.{scatter, places};
ghost use Rattle.migrate_check.specs.Chunks.{chunks_in};
ghost use Rattle.migrate_extract.specs.Asked.{Each};
ghost use Rattle.migrate_extract.specs.Chunks.{AllRead, all_places, all_asked, few_or_refused, Placed};

use crate::chunk;
use array::refusal::Refusal;
use migrate_check::stored::StoredChunks;
use subset::walk::{Subset, Subsets};
use valid::array_bytes::MOST_BYTES;

// How many bytes the cells have that are asked for, or 5 where they are too many. It is looked at chunk by chunk, so that no sum wraps.
pub fn count_bytes(asked: Subset, subsets: Subsets, stored: StoredChunks) -> Result<usize, Refusal>
    requires { AllRead asked subsets (chunks_in stored) (length stored.old_lengths.now) }
    ensures { told result
        ≡ few_or_refused (total_of (all_asked asked.entry subsets.entry (chunks_in stored.entry))) }
{
    let mut left = stored;
    let mut sum: usize = 0;
    for part in subsets.parts() {
        let (first, others) = left.split_first();
        sum += chunk::count_bytes(asked, part, first);
        if sum > MOST_BYTES {
            return Err(Refusal::Size);
        }
        left = others;
    }
    Ok(sum)
}

// Stores their lengths at their places, where the cut's first cell lies at 1.
pub fn store_lengths(offsets: &mut [u64], asked: Subset, subsets: Subsets, stored: StoredChunks)
    requires read { AllRead asked subsets (chunks_in stored) (length stored.old_lengths.now) }
    requires room { asked.count < length offsets.old }
    ensures { offsets.new
        ≡ scatter offsets.old (places (fixed_at 1 1) (all_places asked.entry subsets.entry))
        (map length (all_asked asked.entry subsets.entry (chunks_in stored.entry))) }
{
    let mut left = stored;
    for part in subsets.parts() {
        let (first, others) = left.split_first();
        chunk::store_lengths(offsets, asked, part, first);
        left = others;
    }
}

// Stores their bytes, where `begins` says where each cell of the cut begins.
pub fn store_bytes(
    values: &mut [u8],
    begins: &[u64],
    asked: Subset,
    subsets: Subsets,
    stored: StoredChunks,
)
    requires read { AllRead asked subsets (chunks_in stored) (length stored.old_lengths.now) }
    requires room { asked.count < length begins.now }
    requires placed { Each (Placed begins.now (length values.old))
        (all_places asked subsets) (all_asked asked subsets (chunks_in stored)) }
    ensures { values.new ≡ scatter values.old
        (places (offset_at begins.now) (all_places asked.entry subsets.entry))
        (joined (all_asked asked.entry subsets.entry (chunks_in stored.entry))) }
{
    let mut left = stored;
    for part in subsets.parts() {
        let (first, others) = left.split_first();
        chunk::store_bytes(values, begins, asked, part, first);
        left = others;
    }
}
