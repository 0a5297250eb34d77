// The kind of an array: its depth, how its stored masks lie, and whether values are fixed or ragged.
ghost use Rattle.std.specs.Prelude.{◌≡◌, ◌||◌, eqb};
ghost use Rattle.array.specs.Answer.{gives, map_answer, one_of, unless};
ghost use Rattle.array.specs.Kind.{fixed, ragged, byte_kind, as_bits, little, big, at_start, at_end};
ghost use Rattle.array.specs.Meaning.{kind_of, order_of, width_of, place_of, told};

use crate::refusal::Refusal;

// Byte order of a stored fixed cell.
#[derive(Clone, Copy, Debug, PartialEq, Eq, Hash)]
pub enum ByteOrder {
    Little,
    Big,
}

// Bytes of an offset in a stored index.
#[derive(Clone, Copy, Debug, PartialEq, Eq, Hash)]
pub enum IndexWidth {
    Four,
    Eight,
}

// Where the index of stored ragged values lies.
#[derive(Clone, Copy, Debug, PartialEq, Eq, Hash)]
pub enum IndexPlace {
    Start,
    End,
}

#[derive(Clone, Copy, Debug, PartialEq, Eq, Hash)]
pub enum Values {
    // Cell size in bytes.
    Fixed(u8, ByteOrder),
    Ragged(IndexWidth, IndexPlace),
}

// How a stored mask lies: a byte or a bit for each cell.
#[derive(Clone, Copy, Debug, PartialEq, Eq, Hash)]
pub enum MaskForm {
    Bytes,
    Packed,
}

#[derive(Clone, Copy, Debug, PartialEq, Eq, Hash)]
pub struct Kind {
    // Mask levels.
    pub depth: u8,
    pub masks: MaskForm,
    pub values: Values,
}

// The numbers that say an order, a width, a place: any other is refused.
impl TryFrom<u64> for ByteOrder {
    type Error = Refusal;

    ghost try_from_gives = { λ n r. map_answer order_of (told r) ≡ one_of little big n };

    fn try_from(number: u64) -> Result<Self, Refusal> {
        match number {
            0 => Ok(ByteOrder::Little),
            1 => Ok(ByteOrder::Big),
            _ => Err(Refusal::Kind),
        }
    }
}

impl TryFrom<u64> for IndexWidth {
    type Error = Refusal;

    ghost try_from_gives = { λ n r. map_answer width_of (told r) ≡ unless (eqb n 4 || eqb n 8) 1 (gives n) };

    fn try_from(number: u64) -> Result<Self, Refusal> {
        match number {
            4 => Ok(IndexWidth::Four),
            8 => Ok(IndexWidth::Eight),
            _ => Err(Refusal::Kind),
        }
    }
}

impl TryFrom<u64> for IndexPlace {
    type Error = Refusal;

    ghost try_from_gives = { λ n r. map_answer place_of (told r) ≡ one_of at_start at_end n };

    fn try_from(number: u64) -> Result<Self, Refusal> {
        match number {
            0 => Ok(IndexPlace::Start),
            1 => Ok(IndexPlace::End),
            _ => Err(Refusal::Kind),
        }
    }
}

pub fn fixed(depth: u8, size: u8, order: ByteOrder) -> Kind
    ensures { kind_of result ≡ byte_kind depth (fixed size (order_of order)) }
{
    Kind {
        depth,
        masks: MaskForm::Bytes,
        values: Values::Fixed(size, order),
    }
}

pub fn ragged(depth: u8, width: IndexWidth, place: IndexPlace) -> Kind
    ensures { kind_of result ≡ byte_kind depth (ragged (width_of width) (place_of place)) }
{
    Kind {
        depth,
        masks: MaskForm::Bytes,
        values: Values::Ragged(width, place),
    }
}

// The same kind with its stored masks packed.
pub fn packed(kind: Kind) -> Kind
    ensures { kind_of result ≡ record { depth = (kind_of kind).depth; masks = as_bits; form = (kind_of kind).form } }
{
    Kind {
        masks: MaskForm::Packed,
        ..kind
    }
}

pub fn width_bytes(width: IndexWidth) -> usize
    ensures { result ≡ width_of width }
{
    match width {
        IndexWidth::Four => 4,
        IndexWidth::Eight => 8,
    }
}
