// A working table and a setting as a caller hands them over to be read.

// The masks of all cells, and for each cell a start and a length in the store.
#[derive(Clone, Copy, Debug)]
pub struct Table<'a> {
    pub masks: &'a [u8],
    pub starts: &'a [u64],
    pub lengths: &'a [u64],
    pub store: &'a [u8],
}

// What a cell is to be: its number, a mask byte for each level, and its value.
#[derive(Clone, Copy, Debug)]
pub struct Setting<'a> {
    pub cell: usize,
    pub masks: &'a [u8],
    pub value: &'a [u8],
}
