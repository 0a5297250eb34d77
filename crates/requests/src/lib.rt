// A request: what its line calls for, and its lists.
#![tactic(auto)]

pub mod asked;
pub mod call;
pub mod input;
mod lists;
pub mod live;
pub mod tables;

ghost use Rattle.std.specs.Prelude.{◌≡◌, ◌^◌, nat_lt, get_or, if◌then◌else◌};

use crate::call::{Call, Fields};
use crate::lists::Lists;
use array::content::ArrayBytes;
use text::scan::number_at;

// The lists of a line; one that the line has not is empty. The array's values are stored bytes where the call takes these.
#[derive(Clone, Copy)]
pub struct Request<'a> {
    pub head: &'a [u64],
    pub shape: &'a [u64],
    pub subset: &'a [u64],
    pub rights: &'a [u8],
    pub array: ArrayBytes<'a>,
    pub rooms: &'a [u64],
}

// All lists up to the end of a line, if the head has as many numbers as are wanted.
fn read_request<'a>(f: Fields, lists: &mut Lists<'a, '_>) -> Option<Request<'a>> {
    let head = lists.numbers(f.head.is_list())?;
    let shape = lists.numbers(f.shape)?;
    let subset = lists.numbers(f.subset)?;
    let rights = lists.bytes(f.rights)?;
    let masks = lists.bytes(f.masks)?;
    let values = lists.bytes(f.values)?;
    let offsets = lists.numbers(f.offsets)?;
    let rooms = lists.numbers(f.rooms)?;
    if !lists.are_all() || !f.head.has(head.len()) {
        return None;
    }
    Some(Request {
        head,
        shape,
        subset,
        rights,
        array: ArrayBytes {
            masks,
            values,
            offsets,
        },
        rooms,
    })
}

// The start number of a load, in the subset's place; 0 where the first number there has more than 32 bits, or there is none.
pub fn start_of(subset: &[u64]) -> u32
    ensures { result ≡ (if nat_lt (get_or subset.now 0 0) (2 ^ 32)
        then get_or subset.now 0 0 else 0) }
{
    u32::try_from(number_at(subset, 0)).unwrap_or(0)
}

// Whether there is one start number, of 32 bits.
fn has_start(subset: &[u64]) -> bool {
    let [start] = subset else {
        return false;
    };
    u32::try_from(*start).is_ok()
}

// Whether a request for a load has its start number, and one for a working table one count of cells in the shape's place.
fn is_complete(call: Call, request: Request<'_>) -> bool {
    match call {
        Call::Generate => has_start(request.subset),
        Call::MakeTable => request.shape.len() == 1,
        _ => true,
    }
}

// Reads a line that calls for what its letter says.
pub fn read_line<'a>(
    line: &[u8],
    numbers: &'a mut [u64],
    bytes: &'a mut [u8],
) -> Option<(Call, Request<'a>)> {
    let (letter, line) = line.split_first()?;
    let call = Call::try_from(*letter).ok()?;
    let mut lists = Lists {
        line,
        numbers,
        bytes,
    };
    let request = read_request(call.fields(), &mut lists)?;
    if !is_complete(call, request) {
        return None;
    }
    Some((call, request))
}

// Reads a table and, behind a semicolon, one more list of numbers.
pub fn read_table<'a>(
    line: &[u8],
    numbers: &'a mut [u64],
    bytes: &'a mut [u8],
) -> Option<(Request<'a>, &'a [u64])> {
    let end = line.iter().position(|b| *b == b';')?;
    let (_, table) = line[..end].split_first()?;
    let mut lists = Lists {
        line: table,
        numbers,
        bytes,
    };
    let request = read_request(call::of_table(), &mut lists)?;
    lists.line = &line[end + 1..];
    let more = lists.numbers(true)?;
    if !lists.are_all() {
        return None;
    }
    Some((request, more))
}
