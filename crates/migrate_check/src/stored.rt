// A live table as it is lent, and the strings of its chunks, one after another.
ghost use Rattle.std.specs.Prelude.{◌≡◌, suc, ◌≤◌, ◌∷◌, length};
ghost use Rattle.array.specs.Limits.{most_cells};
ghost use Rattle.array.specs.Answer.{map_answer};
ghost use Rattle.array.specs.Meaning.{told};
ghost use Rattle.decode_interleaved.specs.Walk.{total_of};
ghost use Rattle.migrate.specs.Live.{ListsOk, read_stored, stored_chunks};
ghost use Rattle.migrate_check.specs.Lying.{Lying, Lying-prop};

use array::kind::{IndexPlace, IndexWidth};
use array::refusal::Refusal;
use decode_interleaved::vlen_v2::read_cells;
use stored_index::check_ragged;

// Its shape, the subsets of its chunks as numbers laid end to end, and the old strings, which lie end to end too. What is moved is lent beside
// it, since a step writes there: the number moved, a list of lengths and an area.
#[derive(Clone, Copy)]
pub struct LiveTable<'a> {
    pub shape: &'a [u64],
    pub subsets: &'a [u64],
    pub old_lengths: &'a [u64],
    pub old: &'a [u8],
}

// The string of a chunk.
#[derive(Clone, Copy)]
pub enum Stored<'a> {
    Older(&'a [u8]),
    Newer(&'a [u8]),
}

impl<'a> Stored<'a> {
    ghost use Rattle.migrate_check.specs.Chunks.{stored_of};

    // How many value bytes its cells have, by its own reader.
    pub fn read(self, cells: usize) -> Result<usize, Refusal>
        requires { cells ≤ most_cells }
        ensures { told result ≡ map_answer total_of (read_stored (stored_of self.entry) cells) }
    {
        match self {
            Stored::Older(bytes) => read_cells(bytes, cells),
            Stored::Newer(bytes) => {
                let index = check_ragged(bytes, 0, cells, IndexWidth::Eight, IndexPlace::Start)?;
                Ok(index.last as usize)
            }
        }
    }
}

// The strings of the chunks that are left: all have an old one, the first of them a new one too, as far as lengths of those are left.
#[derive(Clone, Copy)]
pub struct StoredChunks<'a> {
    pub old_lengths: &'a [u64],
    pub old: &'a [u8],
    pub new_lengths: &'a [u64],
    pub area: &'a [u8],
    pub ghost lying: { Lying old_lengths.now old.now new_lengths.now area.now } by { Lying-prop old_lengths.now old.now new_lengths.now area.now },
}

impl<'a> StoredChunks<'a> {
    ghost use Rattle.migrate_check.specs.Chunks.{stored_of, chunks_in};
    ghost use Rattle.migrate_check.specs.Meaning.{live_of};

    // Those of a table whose lists were looked at.
    pub fn new(
        table: LiveTable<'a>,
        moved: u64,
        moved_lengths: &'a [u64],
        area: &'a [u8],
    ) -> StoredChunks<'a>
        requires { ListsOk (live_of table moved moved_lengths.now area.now) }
        ensures all { chunks_in result
            ≡ stored_chunks (live_of table.entry moved moved_lengths.now area.now) }
        ensures counted { result.old_lengths.now ≡ table.entry.old_lengths.now }
    {
        StoredChunks {
            old_lengths: table.old_lengths,
            old: table.old,
            new_lengths: &moved_lengths[..moved as usize],
            area,
        }
    }

    // The first of them, and the others.
    pub fn split_first(self) -> (Stored<'a>, StoredChunks<'a>)
        requires { 1 ≤ length self.old_lengths.now }
        ensures first { chunks_in self.entry ≡ stored_of result.0 ∷ chunks_in result.1 }
        ensures counted { length self.entry.old_lengths.now
            ≡ suc (length result.1.old_lengths.now) }
    {
        let (old, others) = self.old.split_at(self.old_lengths[0] as usize);
        if self.new_lengths.is_empty() {
            let left = StoredChunks {
                old_lengths: &self.old_lengths[1..],
                old: others,
                new_lengths: self.new_lengths,
                area: self.area,
            };
            return (Stored::Older(old), left);
        }
        let (new, area) = self.area.split_at(self.new_lengths[0] as usize);
        let left = StoredChunks {
            old_lengths: &self.old_lengths[1..],
            old: others,
            new_lengths: &self.new_lengths[1..],
            area,
        };
        (Stored::Newer(new), left)
    }
}
