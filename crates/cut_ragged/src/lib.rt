// Layer 3: the ragged values of the cells of a subset. A row of neighbours is copied as one run of bytes, and where its cells end is
// written as the run now lies. Offsets are numbers, or are read where they are stored, so that no other memory is needed.
#![tactic(auto)]

ghost use Rattle.std.specs.Prelude.{◌≡◌, map, ℕ, suc, ◌+◌, ◌-◌, ◌*◌, ◌≤◌, length};
ghost use Rattle.array.specs.Lists.{from, joined};
ghost use Rattle.array.specs.Shape.{volume};
ghost use Rattle.array.specs.Offsets.{ends, offsets_of};
ghost use Rattle.array.specs.Content.{end_to_end};
ghost use Rattle.array.specs.Buffers.{over, over_at};
ghost use Rattle.array.specs.Meaning.{width_of};
ghost use Rattle.array.specs.Outcome.{content_ragged, outcome_ragged};
ghost use Rattle.array.specs.Places.{bytes_at};
ghost use Rattle.subset.specs.Cells.{cells_of};
ghost use Rattle.cut_ragged.specs.Source.{stored_at, begins_in, values_in, There, Holds, RowAsked, CutAsked, put_ragged};

use array::answer::RaggedLengths;
use array::kind;
use array::kind::IndexWidth;
use array::refusal::Refusal;
use buffer::{copy, field};
use subset::walk::{Row, Subset};

// How offsets lie: as numbers, or as little-endian fields of so many bytes. Where these begin is a number beside it, since a variant
// that holds numbers goes through memory, which takes longer than a small cut.
#[derive(Clone, Copy)]
pub enum Source {
    Numbers,
    Four,
    Eight,
}

// Offset j of an index.
#[tactic(auto, unfolding(crate::specs::Source::stored_at))]
fn stored_at(bytes: &[u8], index: usize, width: IndexWidth, j: usize) -> u64
    requires { index + (width_of width + j * width_of width) ≤ length bytes.now }
    ensures { result ≡ stored_at (width_of width) bytes.now index j }
{
    let w = kind::width_bytes(width);
    field::le_at(bytes, index + j * w, width)
}

// Ragged values: their data begins at `base` of the bytes. Fields of offsets begin at `index` of them.
#[derive(Clone, Copy)]
pub struct RaggedValues<'a> {
    pub source: Source,
    pub index: usize,
    pub base: usize,
    pub numbers: &'a [u64],
    pub bytes: &'a [u8],
}

impl<'a> RaggedValues<'a> {
    // Where cell j begins, counted from the data's begin.
    fn offset_at(self, j: usize) -> u64
        requires { There self.source self.index self.numbers.now self.bytes.now j }
        ensures { result ≡ begins_in self.entry j }
    {
        match self.source {
            Source::Numbers => self.numbers[j],
            Source::Four => stored_at(self.bytes, self.index, IndexWidth::Four, j),
            Source::Eight => stored_at(self.bytes, self.index, IndexWidth::Eight, j),
        }
    }
}

// How many bytes the cells of a subset have.
#[tactic(auto, unfolding(array::specs::Limits::most_cells))]
fn count_bytes(src: RaggedValues, subset: Subset) -> usize
    requires { Holds src (volume subset.shape.now) }
    ensures { result ≡ bytes_at (begins_in src.entry) (cells_of subset.entry) }
{
    let mut total: usize = 0;
    for row in subset.rows() {
        let begin = src.offset_at(row.first) as usize;
        let end = src.offset_at(row.first + row.cells) as usize;
        total += end - begin;
    }
    total
}

// Writes where the cells of a row end, the first of which begins at `begin`, where `total` bytes lie before them.
#[tactic(auto, using(crate::proofs::Ragged::images_more), unfolding(array::specs::Limits::most_cells))]
fn store_ends(out: &mut [u64], src: RaggedValues, row: Row, begin: u64, total: u64)
    requires { (row.at + 1 + row.cells ≤ length «out».old)
        × RowAsked src.source src.index src.numbers.now src.bytes.now row.first row.cells begin total }
    ensures { «out».new ≡ over_at (row.at + 1) (map (λ j. total + (begins_in src.entry (suc j) - begin))
        (from row.first row.cells)) «out».old }
{
    for i in 0..row.cells {
        let end = src.offset_at(row.first + i + 1);
        out[row.at + 1 + i] = total + (end - begin);
    }
}

// Copies the values of a subset's cells, and writes where each ends from the place 1 on.
#[tactic(auto, unfolding(array::specs::Limits::most_cells))]
fn copy_rows(values: &mut [u8], offsets: &mut [u64], src: RaggedValues, subset: Subset) -> usize
    requires { CutAsked values.old offsets.old src subset.shape.now (cells_of subset) }
    ensures values { values.new ≡ over (joined (values_in src.entry (cells_of subset.entry))) values.old }
    ensures offsets { offsets.new ≡ over_at 1 (ends 0 (values_in src.entry (cells_of subset.entry))) offsets.old }
    ensures total { result ≡ length (joined (values_in src.entry (cells_of subset.entry))) }
{
    let mut total: usize = 0;
    for row in subset.rows() {
        let begin = src.offset_at(row.first) as usize;
        let end = src.offset_at(row.first + row.cells) as usize;
        let size = end - begin;
        copy::copy_bytes(values, total, src.bytes, src.base + begin, size);
        store_ends(offsets, src, row, begin as u64, total as u64);
        total += size;
    }
    total
}

// The values of a subset's cells end to end, with their offsets, the first of which is 0; or 6. Nothing is stored before the last check.
// An output as long as the source has room for any cut, so that the bytes need not be counted first.
#[tactic(auto, using(crate::proofs::Outcomes::cut_laws))]
pub fn cut(
    src: RaggedValues,
    subset: Subset,
    values: &mut [u8],
    offsets: &mut [u64],
) -> Result<RaggedLengths, Refusal>
    requires { Holds src (volume subset.shape.now) }
    ensures { outcome_ragged result values.new offsets.new
        ≡ put_ragged (end_to_end (values_in src.entry (cells_of subset.entry))) (content_ragged values.old offsets.old) }
{
    let short = values.len() < src.bytes.len();
    if short {
        let need = count_bytes(src, subset);
        if values.len() < need {
            return Err(Refusal::Output);
        }
    }
    let many = subset.count + 1;
    if offsets.len() < many {
        return Err(Refusal::Output);
    }
    offsets[0] = 0;
    let total = copy_rows(values, offsets, src, subset);
    Ok(RaggedLengths {
        values: total,
        offsets: many,
    })
}
