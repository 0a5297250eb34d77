// The stores of a merge whose checks passed.
#![tactic(auto)]

ghost use Rattle.std.specs.Prelude.{◌≡◌};
ghost use Rattle.array.specs.Meaning.{kind_of, lent};
ghost use Rattle.array.specs.Buffers.{lengths_of, content_outcome};
ghost use Rattle.array.specs.Outcome.{content_array, outcome_array};
ghost use Rattle.subset.specs.Cells.{subsets_in};
ghost use Rattle.merge_output.specs.Stores.{store_answer, MergeAsked};

use array::answer::Lengths;
use array::content::ArrayBytes;
use array::kind::{Kind, Values};
use array::refusal::Refusal;
use subset::walk::Subsets;

// Stores chunks that passed the checks and cover the shape, where the outputs are long enough.
pub fn store_chunks(
    kind: Kind,
    cells: usize,
    subsets: Subsets,
    array: ArrayBytes,
    out_masks: &mut [u8],
    out_values: &mut [u8],
    out_offsets: &mut [u64],
) -> Result<Lengths, Refusal>
    requires { MergeAsked (kind_of kind) subsets.shape.now (subsets_in subsets) (lent array) cells }
    ensures { outcome_array result out_masks.new out_values.new out_offsets.new
        ≡ content_outcome (store_answer (kind_of kind) subsets.entry.shape.now (subsets_in subsets.entry) (lent array.entry)
        (lengths_of (content_array out_masks.old out_values.old out_offsets.old)))
        (content_array out_masks.old out_values.old out_offsets.old) }
{
    let depth = kind.depth as usize;
    let mask_bytes = depth * cells;
    let bytes = array.values.len();
    if out_masks.len() < mask_bytes {
        return Err(Refusal::Output);
    }
    if out_values.len() < bytes {
        return Err(Refusal::Output);
    }
    let form = kind.values;
    match form {
        Values::Fixed(size, _) => {
            let wide = size as usize;
            merge_stores::cells::store_masks(out_masks, array.masks, depth, cells, subsets);
            merge_stores::cells::store_parts(out_values, 0, wide, array.values, 0, wide, subsets);
            Ok(Lengths {
                masks: mask_bytes,
                values: bytes,
                offsets: 0,
            })
        }
        Values::Ragged(_, _) => {
            if out_offsets.len() <= cells {
                return Err(Refusal::Output);
            }
            merge_stores::cells::store_masks(out_masks, array.masks, depth, cells, subsets);
            merge_stores::ragged::merge_ragged(
                out_values,
                out_offsets,
                array.values,
                array.offsets,
                subsets,
                cells,
            );
            Ok(Lengths {
                masks: mask_bytes,
                values: bytes,
                offsets: cells + 1,
            })
        }
    }
}
