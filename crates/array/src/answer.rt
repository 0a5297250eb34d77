// What success names: the lengths that a call wrote, masks before values before offsets. A call answers them, or its refusal.

// Of an array.
#[derive(Clone, Copy, Debug, PartialEq, Eq, Hash)]
pub struct Lengths {
    pub masks: usize,
    pub values: usize,
    pub offsets: usize,
}

// Of ragged values.
#[derive(Clone, Copy, Debug, PartialEq, Eq, Hash)]
pub struct RaggedLengths {
    pub values: usize,
    pub offsets: usize,
}
