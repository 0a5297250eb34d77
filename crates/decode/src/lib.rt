// Reading a stored array into lent masks, values and offsets: the public call `decode`.
#![tactic(auto)]

ghost use Rattle.std.specs.Prelude.{◌≡◌};
ghost use Rattle.array.specs.Meaning.{kind_of};
ghost use Rattle.codec.specs.Calls.{decoded};
ghost use Rattle.array.specs.Outcome.{content_array, outcome_array};

use array::answer::Lengths;
use array::kind::{Kind, Values};
use array::refusal::Refusal;
use valid::kind::check_kind;
use valid::shape::shape_cells;

// Reads the stored array of a kind and shape. Nothing is stored before the last check; success names the three lengths.
// Here and in other calls outputs stand beside one another: of a struct of them a clause would say `out.exit.0.now`, by places and not by names.
pub fn decode(
    kind: Kind,
    shape: &[u64],
    bytes: &[u8],
    masks: &mut [u8],
    values: &mut [u8],
    offsets: &mut [u64],
) -> Result<Lengths, Refusal>
    ensures { outcome_array result masks.new values.new offsets.new
        ≡ decoded (kind_of kind) shape.now bytes.now (content_array masks.old values.old offsets.old) }
{
    if !check_kind(kind) {
        return Err(Refusal::Kind);
    }
    let n = shape_cells(shape)?;
    match kind.values {
        Values::Fixed(size, order) => {
            decode_fixed::decode_fixed(kind, size as usize, order, n, bytes, masks, values)
        }
        Values::Ragged(width, place) => {
            decode_ragged::decode_ragged(kind, width, place, n, bytes, masks, values, offsets)
        }
    }
}
