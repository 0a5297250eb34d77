// Requests from standard input, one a line, answered by the library's calls, one answer a line: for programs that show what the calls
// do, or compare it.
//
//     e KIND SHAPE MASKS VALUES OFFSETS ROOM            encode
//     d KIND SHAPE BYTES ROOMS                          decode
//     i CELLS BYTES ROOMS                               decode_interleaved
//     o KIND SHAPE MASKS VALUES OFFSETS ROOM            encode_interleaved
//     g KIND SHAPE START ROOMS                          generate
//     a DEPTH,CELLS,NUMBER ROOMS                        arrangement
//     x KIND SHAPE SUBSET MASKS VALUES OFFSETS ROOMS    extract
//     m KIND SHAPE SUBSETS MASKS VALUES OFFSETS ROOMS   merge
//     p WIDTH,PLACE SHAPE SUBSET BYTES ROOMS            partial_decode
//     r SIZE BYTES                                      reverse_endianness
//     s SHAPE SUBSET ROOM                               subset_cells
//     M KIND CELLS MASKS VALUES OFFSETS ROOMS           make_table
//     R KIND CELLS TABLE ROOMS                          read_table
//     S KIND CELLS TABLE CELL MASKS VALUE               set_cell
//     V KIND CELLS TABLE CELL MASKS VALUE               preview_cell
//     P KIND CELLS TABLE MOST                           pack_table
//     G KIND SHAPE RIGHTS MASKS VALUES OFFSETS ROOMS    guest_read
//     E KIND CELLS RIGHTS TABLE CELL MASKS VALUE        guest_edit
//     L SHAPE SUBSETS LIVE                              migrate_step
//     X SHAPE SUBSETS SUBSET LIVE ROOMS                 migrate_extract
//     # a comment is printed as it is
//
// A list is `-` where it is empty; numbers are decimal and joined by commas, bytes hexadecimal; COUNT*X is a run, and `+` joins runs
// and plain parts. KIND is depth,form,size,order, and the mask form where it is named: form 0 is fixed and 1 ragged, masks 0 bytes
// and 1 packed. RIGHTS are the bytes of a plane, one a cell. TABLE is MASKS STARTS LENGTHS STORE, and LIVE is
// OLD_LENGTHS OLD MOVED MOVED_LENGTHS AREA. ROOMS are the lengths of the outputs to lend.
// An answer is `refused N`, or `ok LENGTHS: LISTS` with the outputs up to those lengths, masks before values before offsets, or masks
// before starts before lengths before store. A table that a call works on in place is shown whole, behind `ok:` where a cell was set and
// behind `ok MOVED:` where it was packed; behind `ok BYTES,MOVED:` are the moved lengths and the area after a step. `ok SUM,UNPACKED` is
// that of a preview.
// Outputs are filled with EE beforehand; `spoilt` says that a byte beyond the lengths, or any after a refusal, has changed.
#![tactic(auto)]

ghost use Rattle.std.specs.Prelude.{◌≤◌};

mod calls;

use array::answer::Lengths;
use requests::call::Call;
use requests::input::room;
use requests::{Request, input};
use responses::lent::LentArray;
use responses::show;
use std::io;
use std::io::{Input, Print, Write};

// Room for all requests.
const INPUT: usize = 524288;

// Room for 65,536 cells of one byte with four mask levels, stored.
const BYTES: usize = 393216;

// Room for the offsets of 65,536 cells, and for what else a request has in numbers.
const NUMBERS: usize = 66560;

// Lends outputs of these lengths, makes the call, and writes its answer. A function of its own, so that its rooms are cleared where they are
// needed, and once.
#[inline(never)]
fn respond_in(out: &mut impl Write, call: Call, q: Request<'_>, rooms: Lengths) -> io::Result<()>
    requires { (rooms.masks ≤ 393216) × (rooms.values ≤ 393216) × (rooms.offsets ≤ 66560) }
{
    let mut masks = room::<u8, BYTES>(0);
    let mut values = room::<u8, BYTES>(0);
    let mut offsets = room::<u64, NUMBERS>(0);
    let mut lent = LentArray {
        masks: &mut masks[..rooms.masks],
        values: &mut values[..rooms.values],
        offsets: &mut offsets[..rooms.offsets],
    };
    let in_place = matches!(call, Call::ReverseEndianness).then_some(q.array.values);
    lent.lend(in_place);
    let answer = calls::run(call, q, &mut lent);
    responses::write_answer(out, responses::outputs_of(call), answer, in_place, &lent)
}

// The same of a request that names the lengths itself; beyond the rooms it is no request.
fn respond(out: &mut impl Write, call: Call, q: Request<'_>) -> io::Result<()> {
    let bytes = q.array.values.len();
    match responses::rooms_of(call, q.rooms, bytes, BYTES, BYTES, NUMBERS) {
        Some(rooms) => respond_in(out, call, q, rooms),
        None => show::write_line(out, b"bad line"),
    }
}

// Answers a line that hands no table over.
fn answer_request(out: &mut impl Write, line: &[u8]) -> io::Result<()> {
    let mut numbers = room::<u64, NUMBERS>(0);
    let mut bytes = room::<u8, BYTES>(0);
    match requests::read_line(line, &mut numbers, &mut bytes) {
        Some((Call::MakeTable, q)) => protocol_tables::respond_make(out, q),
        Some((call, q)) => respond(out, call, q),
        None => show::write_line(out, b"bad line"),
    }
}

// Answers one line.
fn answer_line(out: &mut impl Write, line: &[u8]) -> io::Result<()> {
    match line {
        [b'#', ..] => show::write_line(out, line),
        [b'R' | b'S' | b'V' | b'P' | b'E', ..] => protocol_tables::answer_table(out, line),
        [b'L' | b'X', ..] => protocol_live::answer_live(out, line),
        _ => answer_request(out, line),
    }
}

// Each line, as `run_all` of `whole_way`, which counts the tables before it.
fn answer_all(out: &mut impl Write, input: &[u8]) -> io::Result<()> {
    for line in input.split_inclusive(|b| *b == b'\n') {
        answer_line(out, line.strip_suffix(b"\n").unwrap_or(line))?;
    }
    Ok(())
}

// Answers all of standard input.
pub fn answer_input(rt: &(impl Input + Print)) -> io::Result<()> {
    let mut input = room::<u8, INPUT>(0);
    let n = input::read_full(&mut rt.reader(), &mut input)?;
    answer_all(&mut io::writer(rt), &input[..n])
}
