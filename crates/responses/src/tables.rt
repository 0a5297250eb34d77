// Answers of the calls on a working table as text: `refused N`; `ok LENGTHS: LISTS` where a table is made, its lists up to those lengths;
// `ok: LISTS` where a cell is set and `ok MOVED: LISTS` where cells are packed, the lists whole; `ok SUM,UNPACKED` where a setting is
// previewed. Masks before starts before lengths before store; ` spoilt` where a byte beyond the lengths, or any after a refusal, has changed.
use crate::lent::LentTable;
use crate::show;
use crate::show::{write_end, write_list, write_shown, write_text};
use array::refusal::Refusal;
use std::io;
use std::io::Write;
use table::answer::{Preview, TableLengths};
use text::scan::part_of;

fn write_refused(out: &mut impl Write, e: Refusal, kept: bool) -> io::Result<()> {
    show::write_refused(out, e)?;
    write_end(out, kept)
}

// The lists of a table up to some lengths, behind what is said of it.
fn write_lists(
    out: &mut impl Write,
    lengths: TableLengths,
    table: &LentTable<'_>,
) -> io::Result<()> {
    write_text(out, b": ")?;
    write_list(out, part_of(table.masks, 0, lengths.masks))?;
    write_text(out, b" ")?;
    write_list(out, part_of(table.starts, 0, lengths.starts))?;
    write_text(out, b" ")?;
    write_list(out, part_of(table.lengths, 0, lengths.lengths))?;
    write_text(out, b" ")?;
    write_list(out, part_of(table.store, 0, lengths.store))
}

// The whole table, and the end of its line.
fn write_whole(out: &mut impl Write, table: &LentTable<'_>) -> io::Result<()> {
    let whole = TableLengths {
        masks: table.masks.len(),
        starts: table.starts.len(),
        lengths: table.lengths.len(),
        store: table.store.len(),
    };
    write_lists(out, whole, table)?;
    write_end(out, true)
}

// The answer of make_table, and the table up to the lengths that it names.
pub fn write_made(
    out: &mut impl Write,
    answer: Result<TableLengths, Refusal>,
    table: &LentTable<'_>,
) -> io::Result<()> {
    match answer {
        Ok(lengths) => {
            let m = lengths.masks;
            let s = lengths.starts;
            let l = lengths.lengths;
            let b = lengths.store;
            write_shown(out, format_args!("ok {m},{s},{l},{b}"))?;
            write_lists(out, lengths, table)?;
            write_end(out, table.is_blank_beyond(lengths))
        }
        Err(e) => {
            let none = TableLengths {
                masks: 0,
                starts: 0,
                lengths: 0,
                store: 0,
            };
            write_refused(out, e, table.is_blank_beyond(none))
        }
    }
}

// The answer of set_cell and of guest_edit, and the table; whether it is as it was handed over is asked where the call refuses.
pub fn write_settled(
    out: &mut impl Write,
    answer: Result<(), Refusal>,
    kept: bool,
    table: &LentTable<'_>,
) -> io::Result<()> {
    match answer {
        Ok(()) => {
            write_text(out, b"ok")?;
            write_whole(out, table)
        }
        Err(e) => write_refused(out, e, kept),
    }
}

// The answer of pack_table, and the table, likewise: it names a number.
pub fn write_packed(
    out: &mut impl Write,
    answer: Result<usize, Refusal>,
    kept: bool,
    table: &LentTable<'_>,
) -> io::Result<()> {
    match answer {
        Ok(moved) => {
            write_shown(out, format_args!("ok {moved}"))?;
            write_whole(out, table)
        }
        Err(e) => write_refused(out, e, kept),
    }
}

// The answer of preview_cell, which is lent nothing that it could change.
pub fn write_previewed(out: &mut impl Write, answer: Result<Preview, Refusal>) -> io::Result<()> {
    match answer {
        Ok(Preview { total, unpacked }) => {
            write_shown(out, format_args!("ok {total},{unpacked}\n"))
        }
        Err(e) => write_refused(out, e, true),
    }
}
