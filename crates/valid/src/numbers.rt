// Kinds read from numbers.
ghost use Rattle.std.specs.Prelude.{◌≡◌};
ghost use Rattle.array.specs.Answer.{and_then, map_answer};
ghost use Rattle.array.specs.Meaning.{kind_of, form_of, told};
ghost use Rattle.valid.specs.Numbers.{fixed_of, form_numbered, within, masked_by, told_kind, numbered_byte_kind, numbered_kind, told_form, numbered_index};

use crate::kind::{MOST_DEPTH, MOST_SIZE};
use array::kind;
use array::kind::{ByteOrder, IndexPlace, IndexWidth, Kind, MaskForm, Values};
use array::refusal::Refusal;

// The kind that the numbers say: form 0 fixed or 1 ragged; cell size or index width; order 0 little or start, 1 big or end;
// masks 0 a byte a cell, 1 packed.
pub fn kind_from_numbers(
    depth: u64,
    form: u64,
    size: u64,
    order: u64,
    mask: u64,
) -> Result<Kind, Refusal>
    ensures { told_kind result ≡ numbered_kind depth form size order mask }
{
    let kind = byte_kind_from_numbers(depth, form, size, order)?;
    masked_from_number(kind, mask)
}

// The kind as it is, or packed. No `TryFrom`: a number alone says no kind.
pub fn masked_from_number(kind: Kind, mask: u64) -> Result<Kind, Refusal>
    ensures { told_kind result ≡ masked_by mask (kind_of kind) }
{
    match mask {
        0 => Ok(kind),
        1 => Ok(kind::packed(kind)),
        _ => Err(Refusal::Kind),
    }
}

// Masks of one byte a cell. No `TryFrom` here and above: a kind's numbers come from C and from text, and stand together in no type of this crate.
fn byte_kind_from_numbers(depth: u64, form: u64, size: u64, order: u64) -> Result<Kind, Refusal>
    ensures { told_kind result ≡ numbered_byte_kind depth form size order }
{
    if depth > MOST_DEPTH as u64 {
        return Err(Refusal::Kind);
    }
    let values = values_from_numbers(form, size, order)?;
    Ok(Kind {
        depth: depth as u8,
        masks: MaskForm::Bytes,
        values,
    })
}

// No `TryFrom` here and below: one number says no values, it takes three.
fn values_from_numbers(form: u64, size: u64, order: u64) -> Result<Values, Refusal>
    ensures { map_answer form_of (told result) ≡ and_then (form_numbered form size order) within }
{
    match form {
        0 => fixed_from_numbers(size, order),
        1 => {
            let (width, place) = index_from_numbers(size, order)?;
            Ok(Values::Ragged(width, place))
        }
        _ => Err(Refusal::Kind),
    }
}

fn fixed_from_numbers(size: u64, order: u64) -> Result<Values, Refusal>
    ensures { map_answer form_of (told result) ≡ and_then (fixed_of size order) within }
{
    if size == 0 {
        return Err(Refusal::Kind);
    }
    if size > MOST_SIZE as u64 {
        return Err(Refusal::Kind);
    }
    let order = ByteOrder::try_from(order)?;
    Ok(Values::Fixed(size as u8, order))
}

// The index that the numbers say: width 4 or 8; place 0 start, 1 end.
pub fn index_from_numbers(width: u64, place: u64) -> Result<(IndexWidth, IndexPlace), Refusal>
    ensures { told_form result ≡ numbered_index width place }
{
    let width = IndexWidth::try_from(width)?;
    let place = IndexPlace::try_from(place)?;
    Ok((width, place))
}
