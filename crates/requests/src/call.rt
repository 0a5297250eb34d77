// What a line calls for, and which lists it has behind its letter.

#[derive(Clone, Copy)]
pub enum Call {
    Encode,
    EncodeInterleaved,
    Decode,
    DecodeInterleaved,
    Generate,
    Extract,
    Merge,
    PartialDecode,
    ReverseEndianness,
    SubsetCells,
    MakeTable,
    GuestRead,
    Arrangement,
}

// The numbers at the head of a line: a kind, in four numbers, or five where its mask form is named; or so many others, or no list at all.
#[derive(Clone, Copy)]
pub(crate) enum Head {
    Kind,
    Numbers(usize),
    Nothing,
}

impl Head {
    pub(crate) fn is_list(self) -> bool {
        !matches!(self, Head::Nothing)
    }

    // Whether it has so many numbers.
    pub(crate) fn has(self, n: usize) -> bool {
        match self {
            Head::Kind => n == 4 || n == 5,
            Head::Numbers(k) => n == k,
            Head::Nothing => n == 0,
        }
    }
}

// The lists of a line, in their order; `rooms` are the lengths of outputs.
#[derive(Clone, Copy)]
pub(crate) struct Fields {
    pub(crate) head: Head,
    pub(crate) shape: bool,
    pub(crate) subset: bool,
    pub(crate) rights: bool,
    pub(crate) masks: bool,
    pub(crate) values: bool,
    pub(crate) offsets: bool,
    pub(crate) rooms: bool,
}

// Those of calls that take a kind, and an array or its stored bytes.
fn of_kind(subset: bool, array: bool) -> Fields {
    Fields {
        head: Head::Kind,
        shape: true,
        subset,
        rights: false,
        masks: array,
        values: true,
        offsets: array,
        rooms: true,
    }
}

// Those of a guest's read: an array behind a rights plane.
fn of_guest() -> Fields {
    Fields {
        rights: true,
        ..of_kind(false, true)
    }
}

// Those of a load: a kind, a shape and, where other calls have a subset, the start number.
fn of_load() -> Fields {
    Fields {
        head: Head::Kind,
        shape: true,
        subset: true,
        rights: false,
        masks: false,
        values: false,
        offsets: false,
        rooms: true,
    }
}

// Those of calls that take no kind, and no array.
fn of_numbers(head: Head, shape: bool, values: bool, rooms: bool) -> Fields {
    Fields {
        head,
        shape,
        subset: shape,
        rights: false,
        masks: false,
        values,
        offsets: false,
        rooms,
    }
}

// Those of a table, `w KIND SHAPE SUBSETS MASKS VALUES OFFSETS`.
pub(crate) fn of_table() -> Fields {
    Fields {
        head: Head::Kind,
        shape: true,
        subset: true,
        rights: false,
        masks: true,
        values: true,
        offsets: true,
        rooms: false,
    }
}

// By the letter that a line begins with.
impl TryFrom<u8> for Call {
    type Error = ();

    fn try_from(letter: u8) -> Result<Call, ()> {
        match letter {
            b'e' => Ok(Call::Encode),
            b'o' => Ok(Call::EncodeInterleaved),
            b'd' => Ok(Call::Decode),
            b'i' => Ok(Call::DecodeInterleaved),
            b'g' => Ok(Call::Generate),
            b'x' => Ok(Call::Extract),
            b'm' => Ok(Call::Merge),
            b'p' => Ok(Call::PartialDecode),
            b'r' => Ok(Call::ReverseEndianness),
            b's' => Ok(Call::SubsetCells),
            b'M' => Ok(Call::MakeTable),
            b'G' => Ok(Call::GuestRead),
            b'a' => Ok(Call::Arrangement),
            _ => Err(()),
        }
    }
}

impl Call {
    pub(crate) fn fields(self) -> Fields {
        match self {
            Call::Encode | Call::EncodeInterleaved | Call::MakeTable => of_kind(false, true),
            Call::Decode => of_kind(false, false),
            Call::Extract | Call::Merge => of_kind(true, true),
            Call::GuestRead => of_guest(),
            Call::Generate => of_load(),
            Call::DecodeInterleaved => of_numbers(Head::Numbers(1), false, true, true),
            Call::PartialDecode => of_numbers(Head::Numbers(2), true, true, true),
            Call::ReverseEndianness => of_numbers(Head::Numbers(1), false, true, false),
            Call::SubsetCells => of_numbers(Head::Nothing, true, false, true),
            Call::Arrangement => of_numbers(Head::Numbers(3), false, false, true),
        }
    }
}
