// What a cut takes of one chunk: how many bytes, how long its cells are, and the cells. A chunk that holds no cell that is asked for is not
// walked through.
ghost use Rattle.std.specs.Prelude.{◌≡◌, ◌<◌, map, length};
ghost use Rattle.array.specs.Lists.{joined};
ghost use Rattle.array.specs.Places.{fixed_at, offset_at};
ghost use Rattle.decode_interleaved.specs.Walk.{total_of};
ghost use Rattle.merge_stores.specs.Scatter.{scatter, places};
ghost use Rattle.migrate_check.specs.Chunks.{stored_of};
ghost use Rattle.migrate_extract.specs.Asked.{Each};
ghost use Rattle.migrate_extract.specs.Chunks.{ChunkRead, chunk_places, chunk_asked, Placed};

use migrate_cells::cell::{begin_of, bytes_of, cell_of};
use migrate_cells::{apart, asked_place};
use migrate_check::stored::Stored;
use subset::walk::Subset;

// How many bytes the cells have that are asked for.
pub fn count_bytes(asked: Subset, part: Subset, stored: Stored) -> usize
    requires { ChunkRead asked part (stored_of stored) }
    ensures { result ≡ total_of (chunk_asked asked.entry part.entry (stored_of stored.entry)) }
{
    if apart(asked, part) {
        return 0;
    }
    let mut at = begin_of(stored, part.count);
    let mut sum: usize = 0;
    for i in 0..part.count {
        let cell = cell_of(stored, i, at);
        if asked_place(asked, part, i).is_some() {
            sum += cell.size;
        }
        at = cell.begin + cell.size;
    }
    sum
}

// Stores their lengths at their places, where the cut's first cell lies at 1.
pub fn store_lengths(offsets: &mut [u64], asked: Subset, part: Subset, stored: Stored)
    requires read { ChunkRead asked part (stored_of stored) }
    requires room { asked.count < length offsets.old }
    ensures { offsets.new ≡ scatter offsets.old
        (places (fixed_at 1 1) (chunk_places asked.entry part.entry))
        (map length (chunk_asked asked.entry part.entry (stored_of stored.entry))) }
{
    if apart(asked, part) {
        return;
    }
    let mut at = begin_of(stored, part.count);
    for i in 0..part.count {
        let cell = cell_of(stored, i, at);
        if let Some(place) = asked_place(asked, part, i) {
            offsets[1 + place] = cell.size as u64;
        }
        at = cell.begin + cell.size;
    }
}

// Stores their bytes, where `begins` says where each cell of the cut begins.
pub fn store_bytes(values: &mut [u8], begins: &[u64], asked: Subset, part: Subset, stored: Stored)
    requires read { ChunkRead asked part (stored_of stored) }
    requires room { asked.count < length begins.now }
    requires placed { Each (Placed begins.now (length values.old))
        (chunk_places asked part) (chunk_asked asked part (stored_of stored)) }
    ensures { values.new ≡ scatter values.old
        (places (offset_at begins.now) (chunk_places asked.entry part.entry))
        (joined (chunk_asked asked.entry part.entry (stored_of stored.entry))) }
{
    if apart(asked, part) {
        return;
    }
    let bytes = bytes_of(stored);
    let mut at = begin_of(stored, part.count);
    for i in 0..part.count {
        let cell = cell_of(stored, i, at);
        if let Some(place) = asked_place(asked, part, i) {
            let to = begins[place] as usize;
            interleaved_cells::copy_exactly(values, to, bytes, cell.begin, cell.size);
        }
        at = cell.begin + cell.size;
    }
}
