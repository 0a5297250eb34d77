// Every answer told as three lengths, masks before values before offsets, 0 for an output that the call has not.
ghost use Rattle.std.specs.Prelude.{◌≡◌};
ghost use Rattle.array.specs.Answer.{map_answer};
ghost use Rattle.array.specs.Meaning.{told};
ghost use Rattle.responses.specs.Told.{only_values, only_offsets, no_masks};

use array::answer::{Lengths, RaggedLengths};
use array::refusal::Refusal;

pub fn values_told(answer: Result<usize, Refusal>) -> Result<Lengths, Refusal>
    ensures { told result ≡ map_answer only_values (told answer) }
{
    let values = answer?;
    Ok(Lengths {
        masks: 0,
        values,
        offsets: 0,
    })
}

// As `values_told`, of another field.
pub fn offsets_told(answer: Result<usize, Refusal>) -> Result<Lengths, Refusal>
    ensures { told result ≡ map_answer only_offsets (told answer) }
{
    let offsets = answer?;
    Ok(Lengths {
        masks: 0,
        values: 0,
        offsets,
    })
}

pub fn ragged_told(answer: Result<RaggedLengths, Refusal>) -> Result<Lengths, Refusal>
    ensures { told result ≡ map_answer no_masks (told answer) }
{
    let RaggedLengths { values, offsets } = answer?;
    Ok(Lengths {
        masks: 0,
        values,
        offsets,
    })
}
