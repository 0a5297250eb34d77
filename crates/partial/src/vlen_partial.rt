// Stored ragged values of depth 0, of which the cells of a subset are handed out. Offsets are read where they are stored, so that
// no other memory is needed; nothing is stored before the last check.
ghost use Rattle.std.specs.Prelude.{◌≡◌};
ghost use Rattle.array.specs.Shape.{volume};
ghost use Rattle.array.specs.Buffers.{ragged_outcome, ragged_lengths_of};
ghost use Rattle.array.specs.Meaning.{width_of, place_of};
ghost use Rattle.array.specs.Outcome.{content_ragged, outcome_ragged};
ghost use Rattle.chunks.specs.Calls.{partially_decoded};
ghost use Rattle.subset.specs.Cells.{cells_of};
ghost use Rattle.partial.specs.Stored.{source_of, stored_values, cut_answer, StoredAsked};

use array::answer::RaggedLengths;
use array::kind::{IndexPlace, IndexWidth};
use array::refusal::Refusal;
use cut_ragged::{RaggedValues, Source};
use stored_index::Index;
use subset::walk::Subset;

// How the offsets of an index lie.
fn source_of(width: IndexWidth) -> Source
    ensures { result ≡ source_of width }
{
    match width {
        IndexWidth::Four => Source::Four,
        IndexWidth::Eight => Source::Eight,
    }
}

// The cut of stored values whose index was found: 5, 6, or the values and offsets of the subset's cells. 5 goes by the last stored
// offset, not by what is cut.
fn cut_stored(
    bytes: &[u8],
    found: Index,
    width: IndexWidth,
    subset: Subset,
    values: &mut [u8],
    offsets: &mut [u64],
) -> Result<RaggedLengths, Refusal>
    requires { StoredAsked width bytes.now found (volume subset.shape.now) }
    ensures { outcome_ragged result values.new offsets.new
        ≡ ragged_outcome (cut_answer found.last (stored_values width bytes.now found (cells_of subset.entry))
        (ragged_lengths_of (content_ragged values.old offsets.old))) (content_ragged values.old offsets.old) }
{
    let last = found.last;
    if stored_index::too_large(last) {
        return Err(Refusal::Size);
    }
    let source = source_of(width);
    // No offset is a number by itself: all are read where they are stored.
    let src = RaggedValues {
        source,
        index: found.index,
        base: found.from,
        numbers: &subset.shape[0..0],
        bytes,
    };
    cut_ragged::cut(src, subset, values, offsets)
}

// The values and offsets of the cells of a subset, from the stored ragged values of an array of this shape.
#[tactic(auto, using(crate::proofs::Outcomes::partial_laws), unfolding(array::specs::Limits::most_cells))]
pub fn partial_decode(
    width: IndexWidth,
    place: IndexPlace,
    shape: &[u64],
    subset: &[u64],
    bytes: &[u8],
    values: &mut [u8],
    offsets: &mut [u64],
) -> Result<RaggedLengths, Refusal>
    ensures { outcome_ragged result values.new offsets.new
        ≡ partially_decoded (width_of width) (place_of place) shape.now subset.now bytes.now (content_ragged values.old offsets.old) }
{
    let cells = valid::shape::shape_cells(shape)?;
    if !subset::subset_fits(shape, subset) {
        return Err(Refusal::Subset);
    }
    let index = stored_index::find_index(bytes, 0, cells, width, place)?;
    cut_stored(
        bytes,
        index,
        width,
        Subset::new(shape, subset),
        values,
        offsets,
    )
}
