// Lists of numbers and of bytes as text, `-` where they are empty: numbers are decimal and joined by commas, bytes pairs of hexadecimal
// digits; COUNT*X is a run of equal ones, and `+` joins runs and plain parts.
#![tactic(auto)]

pub mod cut;

ghost use Rattle.std.specs.Prelude.{◌≡◌, ◌↔◌, ◌<◌, ◌≤◌, ℕ, true, List, [], ◌∷◌, Some, codes, length, IfOk};
ghost use Rattle.std.specs.Fn.{ComputesOnPairs};
ghost use Rattle.std.specs.Slice.Iter.{chunk_by_callee, chunk_by_rest};
ghost use Rattle.std.specs.Fmt.{WritesOnOk, IsPlainFormatter, HasWritten, decimal};
ghost use Rattle.std.proofs.Common.{eqb-true, eq-eqb};
ghost use Rattle.print.specs.declared.Last.TheVariants.{Nothing, Plain};
ghost use Rattle.print.specs.Print.{glyph_of, octet_text, list_text, each_text, equal_text, joint_of, last_of, text_after};

use itoa::Buffer;
use std::fmt;
use std::fmt::{Formatter, Write};
use std::slice::ChunkBy;

// From so many equal ones on a list shows a run.
const LONG_RUN: usize = 5;

// What a list is of.
pub trait Element: Copy + PartialEq + Drop {
    // The text of what joins two of them in a plain part, and of one of them.
    ghost joint: { List ℕ };

    ghost text: { Self → List ℕ };

    // What joins two of them in a plain part.
    fn joint() -> &'static str
        ensures { result.now ≡ joint };

    // One of them.
    fn show<W: Write>(self, f: &mut Formatter<W>) -> fmt::Result
        ensures { WritesOnOk W.write_str_gives f.old result (text self) f.new };

    // Equal ones are one.
    ghost same: { (x y : Self) → (Self.eq x y ≡ true) ↔ (x ≡ y) };
}

// A hexadecimal digit, in upper case.
#[tactic(auto, unfolding(crate::specs::Print::glyph_of))]
#[inline(always)]
fn glyph(d: u8) -> &'static str
    requires { d ≤ 15 }
    ensures { result.now ≡ glyph_of d ∷ [] }
{
    match d {
        0 => "0",
        1 => "1",
        2 => "2",
        3 => "3",
        4 => "4",
        5 => "5",
        6 => "6",
        7 => "7",
        8 => "8",
        9 => "9",
        10 => "A",
        11 => "B",
        12 => "C",
        13 => "D",
        14 => "E",
        _ => "F",
    }
}

impl Element for u8 {
    ghost joint = { [] };

    ghost text = { octet_text };

    ghost same = { λ x y. (eqb-true x y, eq-eqb x y) };

    fn joint() -> &'static str {
        ""
    }

    #[inline(always)]
    fn show<W: Write>(self, f: &mut Formatter<W>) -> fmt::Result {
        f.write_str(glyph(self / 16))?;
        f.write_str(glyph(self % 16))
    }
}

impl Element for u64 {
    ghost joint = { codes "," };

    ghost text = { decimal };

    ghost same = { λ x y. (eqb-true x y, eq-eqb x y) };

    fn joint() -> &'static str {
        ","
    }

    #[inline(always)]
    fn show<W: Write>(self, f: &mut Formatter<W>) -> fmt::Result {
        f.write_str(Buffer::new().format(self))
    }
}

// What stands last in the text so far.
#[derive(Clone, Copy)]
enum Last {
    Nothing,
    Plain,
    Run,
}

// What joins an element to it.
#[inline(always)]
fn write_joint<W: Write, T: Element>(f: &mut Formatter<W>, last: Last) -> fmt::Result
    ensures { WritesOnOk W.write_str_gives f.old result (joint_of T.joint last Plain) f.new }
{
    match last {
        Last::Nothing => Ok(()),
        Last::Plain => f.write_str(T::joint()),
        Last::Run => f.write_str("+"),
    }
}

// Elements one by one.
fn show_each<W: Write, T: Element>(f: &mut Formatter<W>, list: &[T], last: Last) -> fmt::Result
    ensures { WritesOnOk W.write_str_gives f.old result (each_text T.joint T.text (joint_of T.joint last Plain) list.now) f.new }
{
    let mut before = last;
    for x in list {
        write_joint::<W, T>(f, before)?;
        x.show(f)?;
        before = Last::Plain;
    }
    Ok(())
}

// Equal elements, as a run where they are many; what stands last then.
fn show_equal<W: Write, T: Element>(
    f: &mut Formatter<W>,
    list: &[T],
    last: Last,
) -> Result<Last, fmt::Error>
    requires { 0 < length list.now }
    ensures { IfOk result (λ next. (next ≡ last_of (length list.now))
        × (IsPlainFormatter f.old → HasWritten W.write_str_gives f.old (equal_text T.joint T.text last list.now) f.new)) }
{
    if let [x] = list {
        write_joint::<W, T>(f, last)?;
        x.show(f)?;
        return Ok(Last::Plain);
    }
    let n = list.len();
    if n < LONG_RUN {
        show_each(f, list, last)?;
        return Ok(Last::Plain);
    }
    if !matches!(last, Last::Nothing) {
        write!(f, "+")?;
    }
    write!(f, "{n}*")?;
    list[0].show(f)?;
    Ok(Last::Run)
}

// The elements of a list, group by group of equal ones. Whoever calls it makes the closure: a loop with an invariant can't run over one that names T.
fn show_groups<W: Write, T: Element, F: FnMut(&T, &T) -> bool + Drop>(
    f: &mut Formatter<W>,
    groups: ChunkBy<'_, T, F>,
) -> fmt::Result
    requires callable { F.IsAlwaysCallable (chunk_by_callee groups) }
    requires equal { ComputesOnPairs F.FnMut T.eq (chunk_by_callee groups) }
    ensures { WritesOnOk W.write_str_gives f.old result (text_after T.eq T.joint T.text Nothing 0 (chunk_by_rest groups.entry)) f.new }
{
    let mut last = Last::Nothing;
    for equal in groups {
        last = show_equal(f, equal, last)?;
    }
    Ok(())
}

// A list that shows as text.
#[derive(Clone, Copy)]
pub struct Listed<'a, T>(pub &'a [T]);

impl<T: Element> fmt::Display for Listed<'_, T> {
    ghost output = { λ l. Some (list_text T.eq T.joint T.text l.0.now) };

    fn fmt<W: Write>(&self, f: &mut Formatter<W>) -> fmt::Result {
        if self.0.is_empty() {
            return write!(f, "-");
        }
        show_groups(f, self.0.chunk_by(|a, b| a == b))
    }
}
