// Layer 3: a subset cut from an array.
#![tactic(auto)]

ghost use Rattle.std.specs.Prelude.{◌≡◌};
ghost use Rattle.array.specs.Subset.{pairs};
ghost use Rattle.array.specs.Buffers.{put_into};
ghost use Rattle.array.specs.Outcome.{content_ragged, outcome_ragged, content_array, outcome_array};
ghost use Rattle.array.specs.Meaning.{form_of, kind_of, lent};
ghost use Rattle.chunks.specs.Cut.{cut_of};
ghost use Rattle.chunks.specs.Calls.{extracted};
ghost use Rattle.subset.specs.Cells.{cells_of};
ghost use Rattle.cut_ragged.specs.Source.{put_ragged};
ghost use Rattle.extract.specs.Asked.{values_cut, ValuesAsked, ArrayAsked};

use array::answer::{Lengths, RaggedLengths};
use array::content::ArrayBytes;
use array::kind::{Kind, Values};
use array::refusal::Refusal;
use cut_ragged::{RaggedValues, Source};
use subset::walk::Subset;

pub mod cells;

// The values of a subset's cells, with the offsets of ragged ones; or 6. Nothing is stored before the last check.
#[tactic(auto, using(valid::proofs::CheckLaws::small_product, subset::proofs::Rows::asked_few), unfolding(array::specs::Limits::most_cells))]
fn cut_values(
    form: Values,
    out_values: &mut [u8],
    out_offsets: &mut [u64],
    values: &[u8],
    offsets: &[u64],
    subset: Subset,
) -> Result<RaggedLengths, Refusal>
    requires { ValuesAsked (form_of form) values.now offsets.now subset.shape.now }
    ensures { outcome_ragged result out_values.new out_offsets.new
        ≡ put_ragged (values_cut (form_of form) values.now offsets.now (cells_of subset.entry)) (content_ragged out_values.old out_offsets.old) }
{
    match form {
        Values::Fixed(size, _) => {
            let bytes = subset.count * (size as usize);
            if out_values.len() < bytes {
                Err(Refusal::Output)
            } else {
                cells::copy_cells(out_values, 0, values, 0, size as usize, subset);
                Ok(RaggedLengths {
                    values: bytes,
                    offsets: 0,
                })
            }
        }
        Values::Ragged(_, _) => {
            let src = RaggedValues {
                source: Source::Numbers,
                index: 0,
                base: 0,
                numbers: offsets,
                bytes: values,
            };
            cut_ragged::cut(src, subset, out_values, out_offsets)
        }
    }
}

// The cut of an array that keeps the rules: 6, or the masks, values and offsets of the subset's cells. Masks come last, as the room for
// them is known before that for values.
#[tactic(auto, using(valid::proofs::CheckLaws::small_product, subset::proofs::Rows::asked_few), unfolding(array::specs::Limits::most_cells))]
fn cut_valid(
    kind: Kind,
    cells: usize,
    subset: Subset,
    array: ArrayBytes,
    out_masks: &mut [u8],
    out_values: &mut [u8],
    out_offsets: &mut [u64],
) -> Result<Lengths, Refusal>
    requires { ArrayAsked (kind_of kind) cells subset.shape.now (lent array) }
    ensures { outcome_array result out_masks.new out_values.new out_offsets.new
        ≡ put_into (cut_of (kind_of kind) subset.entry.shape.now (lent array.entry)
        (pairs subset.entry.starts.now subset.entry.lens.now)) (content_array out_masks.old out_values.old out_offsets.old) }
{
    let depth = kind.depth as usize;
    let mask_bytes = depth * subset.count;
    if out_masks.len() < mask_bytes {
        return Err(Refusal::Output);
    }
    let written = cut_values(
        kind.values,
        out_values,
        out_offsets,
        array.values,
        array.offsets,
        subset,
    )?;
    cells::copy_masks(out_masks, array.masks, depth, cells, subset);
    Ok(Lengths {
        masks: mask_bytes,
        values: written.values,
        offsets: written.offsets,
    })
}

// The masks, values and offsets of the cells of a subset, cut from an array. Nothing is stored before the last check.
#[tactic(auto, using(crate::proofs::Outcomes::extract_laws), unfolding(array::specs::Limits::most_cells))]
pub fn extract(
    kind: Kind,
    shape: &[u64],
    subset: &[u64],
    array: ArrayBytes,
    out_masks: &mut [u8],
    out_values: &mut [u8],
    out_offsets: &mut [u64],
) -> Result<Lengths, Refusal>
    ensures { outcome_array result out_masks.new out_values.new out_offsets.new
        ≡ extracted (kind_of kind) shape.now subset.now (lent array.entry)
        (content_array out_masks.old out_values.old out_offsets.old) }
{
    if !valid::kind::check_kind(kind) {
        return Err(Refusal::Kind);
    }
    let cells = valid::shape::shape_cells(shape)?;
    if !subset::subset_fits(shape, subset) {
        return Err(Refusal::Subset);
    }
    valid::array_bytes::check_array(kind, cells, array)?;
    cut_valid(
        kind,
        cells,
        Subset::new(shape, subset),
        array,
        out_masks,
        out_values,
        out_offsets,
    )
}
