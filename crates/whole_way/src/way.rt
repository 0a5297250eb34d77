// The whole way of an array: cut into subsets, each cut written and read back, all merged. The outputs lent on the way are filled with
// EE beforehand, so that a byte which nobody wrote is seen.
ghost use Rattle.std.specs.Prelude.{◌≤◌};

use array::answer::Lengths;
use array::content::ArrayBytes;
use array::kind::Kind;
use array::refusal::Refusal;
use requests::input::room;
use responses::show;
use std::num;
use text::scan::part_of;

// What a call is lent: masks, values and offsets of a table.
#[derive(Drop)]
pub struct Rooms {
    pub masks: [u8; 512],
    pub values: [u8; 8192],
    pub offsets: [u64; 1024],
}

impl Rooms {
    pub fn new() -> Rooms {
        Rooms {
            masks: room(238),
            values: room(238),
            offsets: room(17216961135462248174),
        }
    }

    // What stands there, up to the lengths that an answer names.
    pub fn first(&self, lengths: Lengths) -> ArrayBytes<'_> {
        let all = ArrayBytes {
            masks: &self.masks,
            values: &self.values,
            offsets: &self.offsets,
        };
        show::first_of(all, lengths)
    }
}

// A subset cut, and written with its lengths as shape.
fn store_subset(
    kind: Kind,
    shape: &[u64],
    subset: &[u64],
    array: ArrayBytes<'_>,
    stored: &mut [u8],
) -> Result<usize, Refusal> {
    let mut lent = Rooms::new();
    let cut = extract::extract(
        kind,
        shape,
        subset,
        array,
        &mut lent.masks,
        &mut lent.values,
        &mut lent.offsets,
    )?;
    encode::encode(
        kind,
        part_of(subset, shape.len(), subset.len()),
        lent.first(cut),
        stored,
    )
}

// The way of one subset: cut and written, and exactly the bytes written read back. Into three slices, as each chunk has what is left of the rooms.
fn one_way(
    kind: Kind,
    shape: &[u64],
    subset: &[u64],
    array: ArrayBytes<'_>,
    masks: &mut [u8],
    values: &mut [u8],
    offsets: &mut [u64],
) -> Result<Lengths, Refusal> {
    let mut stored = room::<u8, 8192>(238);
    let n = store_subset(kind, shape, subset, array, &mut stored)?;
    decode::decode(
        kind,
        part_of(subset, shape.len(), subset.len()),
        part_of(&stored, 0, n),
        masks,
        values,
        offsets,
    )
}

// How many numbers a subset has: a start and a length a side. A shape outside the rules, which every call refuses, counts as one side.
pub fn numbers_of_subset(shape: &[u64]) -> usize
    ensures { 2 ≤ result × result ≤ 8 }
{
    match shape.len() {
        1..=4 => 2 * shape.len(),
        _ => 2,
    }
}

// A subset of a list of them; what is too short to be one counts as empty.
pub(crate) fn whole(subset: &[u64], numbers: usize) -> &[u64] {
    if subset.len() == numbers { subset } else { &[] }
}

// The way of each subset, in the list's order; the chunks end to end, and how far they reach, or the first refusal. Three slices, as above.
pub fn read_chunks(
    kind: Kind,
    shape: &[u64],
    subsets: &[u64],
    array: ArrayBytes<'_>,
    masks: &mut [u8],
    values: &mut [u8],
    offsets: &mut [u64],
) -> Result<Lengths, Refusal> {
    let numbers = numbers_of_subset(shape);
    let mut reach = Lengths {
        masks: 0,
        values: 0,
        offsets: 0,
    };
    for subset in subsets.chunks(numbers) {
        let chunk = one_way(
            kind,
            shape,
            whole(subset, numbers),
            array,
            masks.get_mut(reach.masks..).unwrap_or_default(),
            values.get_mut(reach.values..).unwrap_or_default(),
            offsets.get_mut(reach.offsets..).unwrap_or_default(),
        )?;
        reach.masks = num::wrapping_add_usize(reach.masks, chunk.masks);
        reach.values = num::wrapping_add_usize(reach.values, chunk.values);
        reach.offsets = num::wrapping_add_usize(reach.offsets, chunk.offsets);
    }
    Ok(reach)
}
