// A table as a line of text, and what is run on it.
use crate::way;
use crate::way::Rooms;
use array::content::ArrayBytes;
use array::kind::Kind;
use requests::Request;
use requests::asked::head_kind;
use requests::input::room;
use responses::show;
use std::io;
use std::io::Write;

// Cuts a subset from an outcome.
fn cut(
    out: &mut impl Write,
    kind: Kind,
    shape: &[u64],
    subset: &[u64],
    array: ArrayBytes<'_>,
) -> io::Result<()> {
    let mut lent = Rooms::new();
    let answer = extract::extract(
        kind,
        shape,
        subset,
        array,
        &mut lent.masks,
        &mut lent.values,
        &mut lent.offsets,
    );
    show::write_cut(out, subset)?;
    match answer {
        Ok(lengths) => show::write_lists(out, lent.first(lengths)),
        Err(e) => show::write_refusal(out, e),
    }
}

// The outcome shown, and each subset of a list cut from it.
fn show_outcome(
    out: &mut impl Write,
    kind: Kind,
    shape: &[u64],
    cuts: &[u64],
    array: ArrayBytes<'_>,
) -> io::Result<()> {
    show::write_lists(out, array)?;
    let numbers = way::numbers_of_subset(shape);
    for subset in cuts.chunks(numbers) {
        cut(out, kind, shape, way::whole(subset, numbers), array)?;
    }
    Ok(())
}

// All that was read, merged, and the cuts from the outcome.
fn run_merge(
    out: &mut impl Write,
    kind: Kind,
    q: Request<'_>,
    chunks: ArrayBytes<'_>,
    cuts: &[u64],
) -> io::Result<()> {
    let mut lent = Rooms::new();
    let answer = merge::merge(
        kind,
        q.shape,
        q.subset,
        chunks,
        &mut lent.masks,
        &mut lent.values,
        &mut lent.offsets,
    );
    match answer {
        Err(e) => show::write_refusal(out, e),
        Ok(lengths) => { show_outcome(out, kind, q.shape, cuts, lent.first(lengths)) }
    }
}

// The whole way of a table, and the cuts from its outcome.
fn run_way(out: &mut impl Write, kind: Kind, q: Request<'_>, cuts: &[u64]) -> io::Result<()> {
    let mut lent = Rooms::new();
    let reach = way::read_chunks(
        kind,
        q.shape,
        q.subset,
        q.array,
        &mut lent.masks,
        &mut lent.values,
        &mut lent.offsets,
    );
    show::write_text(out, b"outcome: ")?;
    match reach {
        Err(e) => show::write_refusal(out, e),
        Ok(lengths) => { run_merge(out, kind, q, lent.first(lengths), cuts) }
    }
}

// Reads the table of a line, and runs the whole way of it behind its title.
pub fn run_table(out: &mut impl Write, number: u64, line: &[u8]) -> io::Result<()> {
    let mut numbers = room::<u64, 1024>(0);
    let mut bytes = room::<u8, 8192>(0);
    let Some((q, cuts)) = requests::read_table(line, &mut numbers, &mut bytes) else {
        return show::write_text(out, b"bad line\n");
    };
    show::write_title(out, number, q.head)?;
    match head_kind(q.head) {
        Err(_) => show::write_text(out, b"bad kind\n"),
        Ok(kind) => run_way(out, kind, q, cuts),
    }
}
