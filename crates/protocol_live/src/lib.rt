// Requests of calls on live tables, answered.
#![tactic(auto)]

use array::answer::Lengths;
use array::refusal::Refusal;
use migrate_check::stored::LiveTable;
use migrate_step::Step;
use print::Listed;
use requests::input::room;
use requests::live::{LiveCall, LiveRequest, read_live_line};
use responses::lent::LentArray;
use responses::told::ragged_told;
use responses::{Outputs, lent, show};
use std::io;
use std::io::Write;

// Room for the strings of a table, old or moved, and for a cut's bytes. Tables are small, so that all of one takes little of the stack.
const BYTES: usize = 32768;

// Room for a request's numbers, for the lengths of moved strings, and for a cut's offsets.
const NUMBERS: usize = 8192;

fn table_of<'a>(q: LiveRequest<'a>) -> LiveTable<'a> {
    LiveTable {
        shape: q.shape,
        subsets: q.subsets,
        old_lengths: q.old_lengths,
        old: q.old,
    }
}

// The bytes that were entered and the number moved, and both lists whole; of a refusal whether they are as they were handed over.
fn write_step(
    out: &mut impl Write,
    answer: Result<Step, Refusal>,
    q: LiveRequest<'_>,
    moved_lengths: &[u64],
    area: &[u8],
) -> io::Result<()> {
    let (bytes, moved) = match answer {
        Err(e) => {
            show::write_refused(out, e)?;
            return show::write_end(out, moved_lengths == q.moved_lengths && area == q.area);
        }
        Ok(Step::NoneLeft) => (0, q.moved),
        Ok(Step::Moved { bytes, moved }) => (bytes, moved),
    };
    let moved_lengths = Listed(moved_lengths);
    let area = Listed(area);
    show::write_shown_line(
        out,
        format_args!("ok {bytes},{moved}: {moved_lengths} {area}"),
    )
}

fn respond_step(out: &mut impl Write, q: LiveRequest<'_>) -> io::Result<()> {
    let mut numbers = room::<u64, NUMBERS>(0);
    let mut bytes = room::<u8, BYTES>(0);
    let Some(moved_lengths) = numbers.get_mut(..q.moved_lengths.len()) else {
        return show::write_line(out, b"bad line");
    };
    let Some(area) = bytes.get_mut(..q.area.len()) else {
        return show::write_line(out, b"bad line");
    };
    moved_lengths.copy_from_slice(q.moved_lengths);
    area.copy_from_slice(q.area);
    let answer = migrate_step::migrate_step(table_of(q), q.moved, moved_lengths, area);
    write_step(out, answer, q, moved_lengths, area)
}

fn extract(q: LiveRequest<'_>, outputs: &mut LentArray<'_>) -> Result<Lengths, Refusal> {
    ragged_told(migrate_extract::migrate_extract(
        table_of(q),
        q.subset,
        q.moved,
        q.moved_lengths,
        q.area,
        outputs.values,
        outputs.offsets,
    ))
}

fn respond_extract(out: &mut impl Write, q: LiveRequest<'_>) -> io::Result<()> {
    let [v, o] = q.rooms else {
        return show::write_line(out, b"bad line");
    };
    let Some(rooms) = lent::rooms_of(0, *v, *o, 0, BYTES, NUMBERS) else {
        return show::write_line(out, b"bad line");
    };
    let mut values = room::<u8, BYTES>(0);
    let mut offsets = room::<u64, NUMBERS>(0);
    let mut outputs = LentArray {
        masks: &mut [],
        values: &mut values[..rooms.values],
        offsets: &mut offsets[..rooms.offsets],
    };
    outputs.lend(None);
    let answer = extract(q, &mut outputs);
    responses::write_answer(out, Outputs::Ragged, answer, None, &outputs)
}

// Answers a line that hands a live table over.
pub fn answer_live(out: &mut impl Write, line: &[u8]) -> io::Result<()> {
    let mut numbers = room::<u64, NUMBERS>(0);
    let mut bytes = room::<u8, BYTES>(0);
    match read_live_line(line, &mut numbers, &mut bytes) {
        Some((LiveCall::Step, q)) => respond_step(out, q),
        Some((LiveCall::Extract, q)) => respond_extract(out, q),
        None => show::write_line(out, b"bad line"),
    }
}
