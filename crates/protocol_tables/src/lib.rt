// Requests of calls on working tables, answered.
#![tactic(auto)]

use array::answer::Lengths;
use array::refusal::Refusal;
use requests::Request;
use requests::asked::head_kind;
use requests::input::room;
use requests::tables::{TableCall, TableRequest, read_table_line};
use responses::lent::{LentArray, LentTable};
use responses::{Outputs, lent, show, tables};
use std::io;
use std::io::Write;
use table::answer::{Preview, TableLengths};
use text::scan::number_at;

// Room for the masks or the store of a table. Tables are small, so that all of one takes little of the stack.
const BYTES: usize = 32768;

// Room for its starts and lengths, and for what else a request has in numbers.
const NUMBERS: usize = 8192;

fn make(q: Request<'_>, table: &mut LentTable<'_>) -> Result<TableLengths, Refusal> {
    let kind = head_kind(q.head)?;
    table_make::make_table(
        kind,
        number_at(q.shape, 0) as usize,
        q.array,
        table.masks,
        table.starts,
        table.lengths,
        table.store,
    )
}

pub fn respond_make(out: &mut impl Write, q: Request<'_>) -> io::Result<()> {
    let [m, s, l, b] = q.rooms else {
        return show::write_line(out, b"bad line");
    };
    let Some(rooms) = lent::table_rooms(*m, *s, *l, *b, BYTES, NUMBERS) else {
        return show::write_line(out, b"bad line");
    };
    let mut masks = room::<u8, BYTES>(0);
    let mut starts = room::<u64, NUMBERS>(0);
    let mut lengths = room::<u64, NUMBERS>(0);
    let mut store = room::<u8, BYTES>(0);
    let mut table = LentTable {
        masks: &mut masks[..rooms.masks],
        starts: &mut starts[..rooms.starts],
        lengths: &mut lengths[..rooms.lengths],
        store: &mut store[..rooms.store],
    };
    table.lend_blank();
    let answer = make(q, &mut table);
    tables::write_made(out, answer, &table)
}

fn read(q: TableRequest<'_>, outputs: &mut LentArray<'_>) -> Result<Lengths, Refusal> {
    let kind = head_kind(q.head)?;
    table_read::read_table(
        kind,
        q.cells,
        q.table,
        outputs.masks,
        outputs.values,
        outputs.offsets,
    )
}

fn respond_read(out: &mut impl Write, q: TableRequest<'_>) -> io::Result<()> {
    let [m, v, o] = q.more else {
        return show::write_line(out, b"bad line");
    };
    let Some(rooms) = lent::rooms_of(*m, *v, *o, BYTES, BYTES, NUMBERS) else {
        return show::write_line(out, b"bad line");
    };
    let mut masks = room::<u8, BYTES>(0);
    let mut values = room::<u8, BYTES>(0);
    let mut offsets = room::<u64, NUMBERS>(0);
    let mut outputs = LentArray {
        masks: &mut masks[..rooms.masks],
        values: &mut values[..rooms.values],
        offsets: &mut offsets[..rooms.offsets],
    };
    outputs.lend(None);
    let answer = read(q, &mut outputs);
    responses::write_answer(out, Outputs::Array, answer, None, &outputs)
}

// Sets a cell, or a guest does.
fn set(
    call: TableCall,
    q: TableRequest<'_>,
    cell: u64,
    table: &mut LentTable<'_>,
) -> Result<(), Refusal> {
    let kind = head_kind(q.head)?;
    match call {
        TableCall::GuestEdit => guest_edit::guest_edit(
            kind,
            q.cells,
            q.rights,
            table.masks,
            table.starts,
            table.lengths,
            table.store,
            q.setting(cell),
        ),
        _ => table_set::set_cell(
            kind,
            q.cells,
            table.masks,
            table.starts,
            table.lengths,
            table.store,
            q.setting(cell),
        ),
    }
}

// The masks and the lengths, which the call only reads, are the request's own.
fn pack(q: TableRequest<'_>, most: u64, table: &mut LentTable<'_>) -> Result<usize, Refusal> {
    let kind = head_kind(q.head)?;
    table_pack::pack_table(
        kind,
        q.cells,
        q.table.masks,
        table.starts,
        q.table.lengths,
        table.store,
        most as usize,
    )
}

fn preview(q: TableRequest<'_>, cell: u64) -> Result<Preview, Refusal> {
    let kind = head_kind(q.head)?;
    table_preview::preview_cell(kind, q.cells, q.table, q.setting(cell))
}

// Sets a cell or packs, in a table that is lent, and writes the answer.
fn run_in_place(
    out: &mut impl Write,
    call: TableCall,
    q: TableRequest<'_>,
    number: u64,
    table: &mut LentTable<'_>,
) -> io::Result<()> {
    table.lend(q.table);
    if matches!(call, TableCall::Pack) {
        let answer = pack(q, number, table);
        return tables::write_packed(out, answer, table.is(q.table), table);
    }
    let answer = set(call, q, number, table);
    tables::write_settled(out, answer, table.is(q.table), table)
}

fn respond_in_place(
    out: &mut impl Write,
    call: TableCall,
    q: TableRequest<'_>,
    number: u64,
) -> io::Result<()> {
    let m = q.table.masks.len() as u64;
    let s = q.table.starts.len() as u64;
    let l = q.table.lengths.len() as u64;
    let b = q.table.store.len() as u64;
    let Some(rooms) = lent::table_rooms(m, s, l, b, BYTES, NUMBERS) else {
        return show::write_line(out, b"bad line");
    };
    let mut masks = room::<u8, BYTES>(0);
    let mut starts = room::<u64, NUMBERS>(0);
    let mut lengths = room::<u64, NUMBERS>(0);
    let mut store = room::<u8, BYTES>(0);
    let mut table = LentTable {
        masks: &mut masks[..rooms.masks],
        starts: &mut starts[..rooms.starts],
        lengths: &mut lengths[..rooms.lengths],
        store: &mut store[..rooms.store],
    };
    run_in_place(out, call, q, number, &mut table)
}

// Answers a line that hands a table over.
pub fn answer_table(out: &mut impl Write, line: &[u8]) -> io::Result<()> {
    let mut numbers = room::<u64, NUMBERS>(0);
    let mut bytes = room::<u8, BYTES>(0);
    let Some((call, q)) = read_table_line(line, &mut numbers, &mut bytes) else {
        return show::write_line(out, b"bad line");
    };
    match (call, q.more) {
        (TableCall::Read, _) => respond_read(out, q),
        (TableCall::Preview, [cell]) => tables::write_previewed(out, preview(q, *cell)),
        (TableCall::Set | TableCall::GuestEdit | TableCall::Pack, [number]) => {
            respond_in_place(out, call, q, *number)
        }
        _ => show::write_line(out, b"bad line"),
    }
}
