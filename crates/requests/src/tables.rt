// A request on a working table that is handed over, behind the rights plane of a guest who edits it. Behind the table are the lengths of the
// outputs to read it into, or the cell to set or to preview, its masks and its value, or the most cells to move.
ghost use Rattle.std.specs.Prelude.{◌≡◌};

use crate::call::Head;
use crate::lists::Lists;
use table::lent::{Setting, Table};

#[derive(Clone, Copy)]
pub enum TableCall {
    Read,
    Set,
    Preview,
    Pack,
    GuestEdit,
}

// By the letter that a line begins with.
impl TryFrom<u8> for TableCall {
    type Error = ();

    fn try_from(letter: u8) -> Result<TableCall, ()> {
        match letter {
            b'R' => Ok(TableCall::Read),
            b'S' => Ok(TableCall::Set),
            b'V' => Ok(TableCall::Preview),
            b'P' => Ok(TableCall::Pack),
            b'E' => Ok(TableCall::GuestEdit),
            _ => Err(()),
        }
    }
}

impl TableCall {
    // Whether a line has a setting, made or previewed.
    fn has_setting(self) -> bool {
        matches!(
            self,
            TableCall::Set | TableCall::Preview | TableCall::GuestEdit
        )
    }
}

// The kind's numbers, the count of cells, a guest's rights plane, the table, the numbers behind it, and the masks and the value of a cell, where
// one is set.
#[derive(Clone, Copy)]
pub struct TableRequest<'a> {
    pub head: &'a [u64],
    pub cells: usize,
    pub rights: &'a [u8],
    pub table: Table<'a>,
    pub more: &'a [u64],
    pub cell_masks: &'a [u8],
    pub value: &'a [u8],
}

impl<'a> TableRequest<'a> {
    // The setting of a cell, which is one of the numbers behind the table.
    pub fn setting(self, cell: u64) -> Setting<'a>
        ensures cell { result.cell ≡ cell }
        ensures masks { result.masks.now ≡ self.entry.cell_masks.now }
        ensures value { result.value.now ≡ self.entry.value.now }
    {
        Setting {
            cell: cell as usize,
            masks: self.cell_masks,
            value: self.value,
        }
    }
}

// The four lists of a table.
fn read_table<'a>(lists: &mut Lists<'a, '_>) -> Option<Table<'a>> {
    let masks = lists.bytes(true)?;
    let starts = lists.numbers(true)?;
    let lengths = lists.numbers(true)?;
    let store = lists.bytes(true)?;
    Some(Table {
        masks,
        starts,
        lengths,
        store,
    })
}

// All lists up to the end of a line, if the head has as many numbers as a kind, and one is the count of cells.
fn read_request<'a>(call: TableCall, lists: &mut Lists<'a, '_>) -> Option<TableRequest<'a>> {
    let head = lists.numbers(true)?;
    let [cells] = lists.numbers(true)? else {
        return None;
    };
    let rights = lists.bytes(matches!(call, TableCall::GuestEdit))?;
    let table = read_table(lists)?;
    let more = lists.numbers(true)?;
    let cell_masks = lists.bytes(call.has_setting())?;
    let value = lists.bytes(call.has_setting())?;
    if !lists.are_all() || !Head::Kind.has(head.len()) {
        return None;
    }
    Some(TableRequest {
        head,
        cells: *cells as usize,
        rights,
        table,
        more,
        cell_masks,
        value,
    })
}

// Reads a line that hands a table over, for what its letter says. As `read_line`, with the lists of a table.
pub fn read_table_line<'a>(
    line: &[u8],
    numbers: &'a mut [u64],
    bytes: &'a mut [u8],
) -> Option<(TableCall, TableRequest<'a>)> {
    let (letter, line) = line.split_first()?;
    let call = TableCall::try_from(*letter).ok()?;
    let mut lists = Lists {
        line,
        numbers,
        bytes,
    };
    let request = read_request(call, &mut lists)?;
    Some((call, request))
}
