// An arrangement by the states of its cells.
ghost use Rattle.arrange.specs.Calls.{SmallOk};
ghost use Rattle.arrangement.specs.Digits.{SmallOk-prop, Digits, Digits-prop};

// How many cells there may be.
pub const MOST_CELLS: usize = 4;

// The state of each cell, the first cell first, and how many value bytes they have. A state counts the levels that are set, and where all
// are the bytes.
#[derive(Clone, Copy)]
pub struct States {
    pub depth: usize,
    pub cells: usize,
    pub number: u64,
    pub each: [u8; MOST_CELLS],
    pub bytes: usize,
    pub ghost small: { SmallOk depth cells } by { SmallOk-prop depth cells },
    pub ghost digits: { Digits depth cells number each bytes } by { Digits-prop depth cells number each bytes },
}
