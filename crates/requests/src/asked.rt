// The kind that a request asks for by numbers.
ghost use Rattle.valid.specs.Numbers.{numbered_kind};
ghost use Rattle.requests.specs.Asked.{Beyond, Asked};

use array::kind;
use array::kind::{ByteOrder, Kind};
use array::refusal::Refusal;
use text::scan::number_at;
use valid::numbers;

// The kind, where it is out of range.
fn out_of_range(kind: Kind, e: Refusal) -> Result<Kind, Refusal>
    ensures { Beyond result e }
{
    if valid::kind::check_kind(kind) {
        return Err(e);
    }
    Ok(kind)
}

// The same with the mask form that a number says.
fn masked_out_of_range(kind: Kind, mask: u64, e: Refusal) -> Result<Kind, Refusal>
    ensures { Beyond result e }
{
    match numbers::masked_from_number(kind, mask) {
        Ok(kind) => out_of_range(kind, e),
        Err(_) => Err(e),
    }
}

// Numbers that say no kind may still make one that is out of range. It is handed over, so that the call itself is seen to refuse it.
fn kind_beyond(
    depth: u64,
    form: u64,
    size: u64,
    order: u64,
    mask: u64,
    e: Refusal,
) -> Result<Kind, Refusal>
    ensures { Beyond result e }
{
    if depth > 255 {
        return Err(e);
    }
    if form == 1 {
        let Ok((width, place)) = numbers::index_from_numbers(size, order) else {
            return Err(e);
        };
        return masked_out_of_range(kind::ragged(depth as u8, width, place), mask, e);
    }
    if size > 255 {
        return Err(e);
    }
    masked_out_of_range(
        kind::fixed(depth as u8, size as u8, ByteOrder::Little),
        mask,
        e,
    )
}

// The kind that five numbers say.
fn kind_of(depth: u64, form: u64, size: u64, order: u64, mask: u64) -> Result<Kind, Refusal>
    ensures { Asked (numbered_kind depth form size order mask) result }
{
    match numbers::kind_from_numbers(depth, form, size, order, mask) {
        Ok(kind) => Ok(kind),
        Err(e) => kind_beyond(depth, form, size, order, mask, e),
    }
}

// The kind that a head of four or five numbers says: without a mask form its masks are bytes.
pub fn head_kind(head: &[u64]) -> Result<Kind, Refusal> {
    kind_of(
        number_at(head, 0),
        number_at(head, 1),
        number_at(head, 2),
        number_at(head, 3),
        number_at(head, 4),
    )
}
