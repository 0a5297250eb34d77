// Merging chunks: everything is checked before the first byte is stored.
#![tactic(auto)]

ghost use Rattle.std.specs.Prelude.{◌≡◌};
ghost use Rattle.array.specs.Meaning.{kind_of, lent};
ghost use Rattle.array.specs.Buffers.{lengths_of, content_outcome};
ghost use Rattle.array.specs.Outcome.{content_array, outcome_array};
ghost use Rattle.subset.specs.Cells.{subsets_in};
ghost use Rattle.chunks.specs.Calls.{merged};
ghost use Rattle.merge_rules.specs.Checks.{MergeChecked};
ghost use Rattle.merge.specs.Merge.{cover_answer};

use array::answer::Lengths;
use array::content::ArrayBytes;
use array::kind::Kind;
use array::refusal::Refusal;
use subset::walk::Subsets;

// Stores chunks that passed the other checks, where their subsets cover the shape.
#[tactic(auto, using(chunks::proofs::Gather::once_ok))]
fn store_covering(
    kind: Kind,
    cells: usize,
    subsets: Subsets,
    array: ArrayBytes,
    out_masks: &mut [u8],
    out_values: &mut [u8],
    out_offsets: &mut [u64],
) -> Result<Lengths, Refusal>
    requires { MergeChecked (kind_of kind) subsets.shape.now (subsets_in subsets) (lent array) cells }
    ensures { outcome_array result out_masks.new out_values.new out_offsets.new
        ≡ content_outcome (cover_answer (kind_of kind) subsets.entry.shape.now (subsets_in subsets.entry) (lent array.entry)
        (lengths_of (content_array out_masks.old out_values.old out_offsets.old)))
        (content_array out_masks.old out_values.old out_offsets.old) }
{
    if !merge_cover::covers(subsets) {
        return Err(Refusal::Cover);
    }
    merge_output::store_chunks(
        kind,
        cells,
        subsets,
        array,
        out_masks,
        out_values,
        out_offsets,
    )
}

// Merges chunks, given by the numbers of their subsets and by their masks, values and offsets laid end to end in the list's order.
// Ragged values come out end to end from offset 0; hidden values are kept.
#[tactic(auto, using(crate::proofs::Steps::merge_refused))]
pub fn merge(
    kind: Kind,
    shape: &[u64],
    subsets: &[u64],
    array: ArrayBytes,
    out_masks: &mut [u8],
    out_values: &mut [u8],
    out_offsets: &mut [u64],
) -> Result<Lengths, Refusal>
    ensures { outcome_array result out_masks.new out_values.new out_offsets.new
        ≡ merged (kind_of kind) shape.now subsets.now (lent array.entry)
        (content_array out_masks.old out_values.old out_offsets.old) }
{
    let cells = merge_rules::check_merge(kind, shape, subsets, array)?;
    store_covering(
        kind,
        cells,
        Subsets::new(shape, subsets),
        array,
        out_masks,
        out_values,
        out_offsets,
    )
}
