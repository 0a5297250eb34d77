// What success of a call on a working table names. A call answers it, or its refusal.

// The lengths of a table that was made.
#[derive(Clone, Copy, Debug, PartialEq, Eq, Hash)]
pub struct TableLengths {
    pub masks: usize,
    pub starts: usize,
    pub lengths: usize,
    pub store: usize,
}

// What would be there after a setting: the sum of lengths, and how many cells are not where they are packed.
#[derive(Clone, Copy, Debug, PartialEq, Eq, Hash)]
pub struct Preview {
    pub total: usize,
    pub unpacked: usize,
}
