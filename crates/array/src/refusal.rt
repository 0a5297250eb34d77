// The refusals, each named once, by who causes it, and their numbers.
ghost use Rattle.std.specs.Prelude.{◌≡◌};
ghost use Rattle.array.specs.Meaning.{number_of};

use std::error::Error;
use std::fmt;

#[derive(Clone, Copy, Debug, PartialEq, Eq, Hash)]
pub enum Refusal {
    // Whoever describes the table.

    // Depth, size, or another kind field outside its range.
    Kind,
    // Sides outside the rules, or over 65,536 cells.
    Shape,
    // A subset past its shape, or numbers that are not one start and one length a side; when merging, an empty subset too.
    Subset,
    // A kind without masks: nothing could be hidden in it.
    NoMasks,

    // Whoever hands over an array or a chunk list.

    // Mask, value, offset or chunk lengths disagree, offsets break their rule, or a mask byte is over 01.
    Content,
    // Over 8,589,934,592 value bytes; of a working table a store over 16,777,216 bytes.
    Size,
    // The subsets miss a cell or hold one twice.
    Cover,

    // Whoever chooses the form that is written.

    // An offset for an index of width 4, or a cell's length in the older form, over 4,294,967,295.
    Field,

    // Whoever lends the output.

    // An output shorter than the result needs.
    Output,

    // Whoever stored the bytes.

    // Fewer bytes than the fields of a frame, of ragged values or of the older form take.
    Short,
    // A length that disagrees: frame total, mask, content where nothing is set, index or data.
    Length,
    // The older form's count differs.
    Count,
    // Offsets fall, or the first is above 0.
    Falling,
    // In the older form a length field or a cell runs past the end.
    PastEnd,
    // A packed mask with an unused bit that is not 0.
    UnusedBits,
    // A stored mask byte over 01.
    MaskByte,

    // Whoever sets a cell.

    // A cell number at or past the count.
    Cell,
    // Lengths that would sum to more than the store holds.
    Full,
    // A cell that a rights plane hides from the guest that sets it.
    Hidden,

    // Whoever asks for an arrangement by its number.

    // A number at or past the count of arrangements.
    Arrangement,
}

impl Refusal {
    // The number that names it in C and in text.
    pub fn number(self) -> u8
        ensures { result ≡ number_of self }
    {
        match self {
            Refusal::Kind => 1,
            Refusal::Shape => 2,
            Refusal::Subset => 3,
            Refusal::Content => 4,
            Refusal::Size => 5,
            Refusal::Output => 6,
            Refusal::Short => 7,
            Refusal::Length => 8,
            Refusal::Count => 9,
            Refusal::Falling => 10,
            Refusal::PastEnd => 11,
            Refusal::Cover => 12,
            Refusal::UnusedBits => 13,
            Refusal::MaskByte => 14,
            Refusal::Cell => 15,
            Refusal::Full => 16,
            Refusal::NoMasks => 17,
            Refusal::Hidden => 18,
            Refusal::Arrangement => 19,
            Refusal::Field => 20,
        }
    }
}

impl fmt::Display for Refusal {
    fn fmt<W: fmt::Write>(&self, f: &mut fmt::Formatter<W>) -> fmt::Result {
        f.write_str(match self {
            Refusal::Kind => "a field of the kind is outside its range",
            Refusal::Shape => "the shape is outside the rules",
            Refusal::Subset => "a subset does not lie within the shape",
            Refusal::NoMasks => "the kind has no masks",
            Refusal::Content => "masks, values, offsets or chunks do not keep the rules",
            Refusal::Size => "there are too many value bytes",
            Refusal::Cover => "the subsets do not cover the shape once",
            Refusal::Field => "an offset or a length does not fit its field",
            Refusal::Output => "an output is shorter than the result",
            Refusal::Short => "the stored bytes are too few for their fields",
            Refusal::Length => "a stored length disagrees",
            Refusal::Count => "the stored count differs",
            Refusal::Falling => "the stored offsets fall, or begin above 0",
            Refusal::PastEnd => "a stored length or cell runs past the end",
            Refusal::UnusedBits => "an unused bit of a stored mask is set",
            Refusal::MaskByte => "a stored mask byte is over 01",
            Refusal::Cell => "the table has no such cell",
            Refusal::Full => "the store is full",
            Refusal::Hidden => "the cell is hidden",
            Refusal::Arrangement => "there is no arrangement of that number",
        })
    }
}

impl Error for Refusal {}
