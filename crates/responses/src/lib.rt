// Answers as text: `refused N`, or `ok LENGTHS: LISTS` with the outputs up to those lengths, masks before values before offsets;
// ` spoilt` where a byte beyond the lengths, or any after a refusal, has changed.
#![tactic(auto)]

pub mod lent;
pub mod show;
pub mod tables;
pub mod told;

ghost use Rattle.std.specs.Prelude.{◌≤◌, IfSome};

use crate::lent::LentArray;
use crate::show::write_shown_line;
use array::answer::Lengths;
use array::refusal::Refusal;
use print::Listed;
use requests::call::Call;
use std::io;
use std::io::Write;

// The outputs that a call has.
#[derive(Clone, Copy)]
pub enum Outputs {
    Values,
    Offsets,
    Ragged,
    Array,
}

pub fn outputs_of(call: Call) -> Outputs {
    match call {
        Call::Encode | Call::EncodeInterleaved | Call::ReverseEndianness => Outputs::Values,
        Call::DecodeInterleaved | Call::PartialDecode => Outputs::Ragged,
        Call::SubsetCells => Outputs::Offsets,
        _ => Outputs::Array,
    }
}

// The lengths of the outputs to lend, as a request names them; none where it does not name one for each output of the call, or one is
// beyond what there is. A call that works in place is lent the bytes of the request.
pub fn rooms_of(
    call: Call,
    rooms: &[u64],
    bytes: usize,
    masks: usize,
    values: usize,
    offsets: usize,
) -> Option<Lengths>
    ensures { IfSome result (λ r. (r.masks ≤ masks) × (r.values ≤ values) × (r.offsets ≤ offsets)) }
{
    if matches!(call, Call::ReverseEndianness) {
        return lent::rooms_of(0, bytes as u64, 0, masks, values, offsets);
    }
    match (outputs_of(call), rooms) {
        (Outputs::Values, [v]) => lent::rooms_of(0, *v, 0, masks, values, offsets),
        (Outputs::Offsets, [o]) => lent::rooms_of(0, 0, *o, masks, values, offsets),
        (Outputs::Ragged, [v, o]) => lent::rooms_of(0, *v, *o, masks, values, offsets),
        (Outputs::Array, [m, v, o]) => lent::rooms_of(*m, *v, *o, masks, values, offsets),
        _ => None,
    }
}

// The lengths that success names, and the outputs up to those; the end of a text that is too long for its line is cut off.
fn write_ok(
    out: &mut impl Write,
    shown: Outputs,
    lengths: Lengths,
    outputs: &LentArray<'_>,
    kept: bool,
) -> io::Result<()> {
    let m = lengths.masks;
    let v = lengths.values;
    let o = lengths.offsets;
    let array = show::first_of(outputs.now(), lengths);
    let masks = Listed(array.masks);
    let values = Listed(array.values);
    let offsets = Listed(array.offsets);
    let end = if kept { "" } else { " spoilt" };
    match shown {
        Outputs::Values => write_shown_line(out, format_args!("ok {v}: {values}{end}")),
        Outputs::Offsets => write_shown_line(out, format_args!("ok {o}: {offsets}{end}")),
        Outputs::Ragged => {
            write_shown_line(out, format_args!("ok {v},{o}: {values} {offsets}{end}"))
        }
        Outputs::Array => write_shown_line(
            out,
            format_args!("ok {m},{v},{o}: {masks} {values} {offsets}{end}"),
        ),
    }
}

// Writes the answer of a call, its outputs up to the lengths that it names, and whether they are as they were lent beyond.
pub fn write_answer(
    out: &mut impl Write,
    shown: Outputs,
    answer: Result<Lengths, Refusal>,
    in_place: Option<&[u8]>,
    outputs: &LentArray<'_>,
) -> io::Result<()> {
    let kept = outputs.kept(in_place, answer);
    match answer {
        Ok(lengths) => write_ok(out, shown, lengths, outputs, kept),
        Err(e) => {
            show::write_refused(out, e)?;
            show::write_end(out, kept)
        }
    }
}
