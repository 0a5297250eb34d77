// The whole way of demand 3, run on tables of every kind: cut into subsets, each cut written and read back, all merged, and subsets
// cut from the outcome. oracle/data/whole_way.py makes stdin and stdout.
//
//     w KIND SHAPE SUBSETS MASKS VALUES OFFSETS; CUTS
//     # a comment is printed as it is
//
// The lists are those of crate requests. SUBSETS cover the table, CUTS are cut from the outcome; either is a list of subsets, all
// starts and then all lengths of each.
#![tactic(auto)]

mod line;
mod way;

use requests::input;
use requests::input::room;
use responses::show;
use std::io;
use std::io::Write;

// Room for all tables.
const INPUT: usize = 524288;

// A comment, or the table behind `number` others; how many tables there are now.
fn run_line(out: &mut impl Write, number: u64, line: &[u8]) -> io::Result<u64> {
    match line {
        [] => Ok(number),
        [b'#', ..] => {
            show::write_line(out, line)?;
            Ok(number)
        }
        _ => {
            let next = number.saturating_add(1);
            line::run_table(out, next, line)?;
            Ok(next)
        }
    }
}

// Each line, as `answer_all` of `protocol`, with the tables counted.
fn run_all(out: &mut impl Write, input: &[u8]) -> io::Result<()> {
    let mut number: u64 = 0;
    for line in input.split_inclusive(|b| *b == b'\n') {
        number = run_line(out, number, line.strip_suffix(b"\n").unwrap_or(line))?;
    }
    Ok(())
}

fn main(rt: HostRuntime) -> io::Result<()> {
    let mut input = room::<u8, INPUT>(0);
    let n = input::read_full(&mut rt.reader(), &mut input)?;
    run_all(&mut io::writer(&rt), &input[..n])
}
