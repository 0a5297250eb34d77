// Answers and lists written to a writer.
ghost use Rattle.std.specs.Prelude.{[], ◌∷◌, ◌++◌, ◌≡◌, take, codes, eqb, IfSome, OnOk};
ghost use Rattle.std.specs.Fmt.{decimal};
ghost use Rattle.std.specs.Io.KnownBytes.{Appends};
ghost use Rattle.array.specs.Meaning.{lent};
ghost use Rattle.print.specs.Print.{list_text};
ghost use Rattle.responses.specs.Told.{up_to};

use array::answer::Lengths;
use array::content::ArrayBytes;
use array::refusal::Refusal;
use print::cut::Cut;
use print::{Element, Listed};
use std::fmt::Display;
use std::io;
use std::io::Write;
use text::scan::part_of;

// Room for the text of a part of a line, as of a list, and of a whole line. What is beyond is cut off.
const PART: usize = 16384;

const LINE: usize = 262144;

// Room for a title and the like, which are short. What is beyond is written all the same.
const SHORT: usize = 256;

pub fn write_text<W: Write>(out: &mut W, text: &[u8]) -> io::Result<()>
    ensures { OnOk result (Appends (W.contents out.old) (W.contents out.new) text.now) }
{
    out.write_all(text)
}

pub fn write_line<W: Write>(out: &mut W, line: &[u8]) -> io::Result<()>
    ensures { OnOk result (Appends (W.contents out.old) (W.contents out.new) (line.now ++ 10 ∷ [])) }
{
    write_text(out, line)?;
    write_text(out, b"\n")
}

// What a value shows as: a part of a line, cut off where its room is full.
pub fn write_shown<W: Write, D: Display + Drop>(out: &mut W, shown: D) -> io::Result<()>
    ensures { OnOk result (IfSome (D.output shown) (λ text.
        Appends (W.contents out.old) (W.contents out.new) (take 16384 text))) }
{
    let mut text = Cut::<PART>::new();
    text.show(shown)?;
    write_text(out, text.as_bytes())
}

// The same of a whole line, which has more room; its end is not cut off.
pub fn write_shown_line<W: Write, D: Display + Drop>(out: &mut W, shown: D) -> io::Result<()>
    ensures { OnOk result (IfSome (D.output shown) (λ text.
        Appends (W.contents out.old) (W.contents out.new) (take 262144 text ++ 10 ∷ []))) }
{
    let mut text = Cut::<LINE>::new();
    text.show(shown)?;
    write_line(out, text.as_bytes())
}

// The text of a list, as a part of a line.
pub fn write_list<W: Write, T: Element>(out: &mut W, list: &[T]) -> io::Result<()>
    ensures { OnOk result (Appends (W.contents out.old) (W.contents out.new)
        (take 16384 (list_text T.eq T.joint T.text list.now))) }
{
    write_shown(out, Listed(list))
}

// The end of an answer's line: whether all is kept that should be.
pub fn write_end(out: &mut impl Write, kept: bool) -> io::Result<()> {
    let end = if kept { "\n" } else { " spoilt\n" };
    write_text(out, end.as_bytes())
}

pub fn write_lists(out: &mut impl Write, array: ArrayBytes<'_>) -> io::Result<()> {
    write_list(out, array.masks)?;
    write_text(out, b" ")?;
    write_list(out, array.values)?;
    write_text(out, b" ")?;
    write_list(out, array.offsets)?;
    write_text(out, b"\n")
}

// The lists up to the lengths that an answer names.
pub fn first_of<'a>(array: ArrayBytes<'a>, lengths: Lengths) -> ArrayBytes<'a>
    ensures { lent result ≡ up_to lengths (lent array.entry) }
{
    ArrayBytes {
        masks: part_of(array.masks, 0, lengths.masks),
        values: part_of(array.values, 0, lengths.values),
        offsets: part_of(array.offsets, 0, lengths.offsets),
    }
}

pub fn write_refused(out: &mut impl Write, e: Refusal) -> io::Result<()> {
    let e = e.number();
    write_shown(out, format_args!("refused {e}"))
}

pub fn write_refusal(out: &mut impl Write, e: Refusal) -> io::Result<()> {
    write_refused(out, e)?;
    write_text(out, b"\n")
}

// What a value shows as, whole: at once where it is short, and else piece by piece.
fn write_uncut<W: Write, D: Display + Drop>(out: &mut W, shown: D) -> io::Result<()>
    ensures { OnOk result (IfSome (D.output shown)
        (Appends (W.contents out.old) (W.contents out.new))) }
{
    let mut text = Cut::<SHORT>::new();
    text.show(format_args!("{shown}"))?;
    let bytes = text.as_bytes();
    if bytes.len() < SHORT {
        return write_text(out, bytes);
    }
    out.write_fmt(shown)
}

// The number of a table and the numbers of its kind.
pub fn write_title<W: Write>(out: &mut W, number: u64, kind: &[u64]) -> io::Result<()>
    ensures { OnOk result (Appends (W.contents out.old) (W.contents out.new)
        (decimal number ++ (codes ": kind "
        ++ (list_text eqb (codes ",") decimal kind.now ++ 10 ∷ [])))) }
{
    let kind = Listed(kind);
    write_uncut(out, format_args!("{number}: kind {kind}\n"))
}

// What a cut is of.
pub fn write_cut<W: Write>(out: &mut W, subset: &[u64]) -> io::Result<()>
    ensures { OnOk result (Appends (W.contents out.old) (W.contents out.new)
        (codes "cut " ++ (list_text eqb (codes ",") decimal subset.now ++ codes ": "))) }
{
    let subset = Listed(subset);
    write_uncut(out, format_args!("cut {subset}: "))
}

#[cfg(test)]
mod tests {
    use super::*;
    use std::test::Fail;

    // 4,000 numbers of five digits: 23,999 bytes with what joins them.
    fn long_list() -> [u64; 4000] {
        let mut list = [0; 4000];
        for i in 0..4000 {
            list[i] = 10000 + i as u64;
        }
        list
    }

    #[test]
    fn short_title_and_cut(rt: HostRuntime) -> Result<(), Fail> {
        let mut out = Vec::new(rt.alloc());
        write_title(&mut out, 12, &[1, 0, 4, 1, 0])?;
        write_cut(&mut out, &[0, 2])?;
        assert!(rt; out.as_slice() == b"12: kind 1,0,4,1,0\ncut 0,2: ".as_slice());
        Ok(())
    }

    #[test]
    fn long_title_is_whole(rt: HostRuntime) -> Result<(), Fail> {
        let mut out = Vec::new(rt.alloc());
        write_title(&mut out, 7, &long_list())?;
        assert_eq!(rt; out.len(), 24008);
        assert!(rt; out.starts_with(b"7: kind 10000,10001,"));
        assert!(rt; out.ends_with(b",13998,13999\n"));
        Ok(())
    }

    #[test]
    fn long_cut_is_whole(rt: HostRuntime) -> Result<(), Fail> {
        let mut out = Vec::new(rt.alloc());
        write_cut(&mut out, &long_list())?;
        assert_eq!(rt; out.len(), 24005);
        assert!(rt; out.starts_with(b"cut 10000,10001,"));
        assert!(rt; out.ends_with(b",13998,13999: "));
        Ok(())
    }
}
