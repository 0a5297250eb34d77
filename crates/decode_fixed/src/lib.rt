// Reading stored arrays of fixed values: the walk, then the need, and then the copying. They have no offsets: what is lent for them stays.
#![tactic(auto)]

mod plain;

ghost use Rattle.std.specs.Prelude.{◌≡◌, List, ℕ, ◌≤◌};
ghost use Rattle.array.specs.Answer.{gives};
ghost use Rattle.array.specs.Limits.{most_size};
ghost use Rattle.array.specs.Kind.{fixed};
ghost use Rattle.array.specs.Meaning.{order_of, masks_of};
ghost use Rattle.array.specs.Outcome.{content_array, outcome_array};
ghost use Rattle.codec.specs.Mask.{mask_form};
ghost use Rattle.codec.specs.Calls.{read_in};
ghost use Rattle.decode_planes.specs.Limited.{Limited};
ghost use Rattle.decode_fixed.specs.Reads.{fixed_from, FixedFound, FixedWithin};
ghost use Rattle.array.specs.Buffers.{read_outcome};

use crate::plain::read_plain;
use array::answer::Lengths;
use array::kind::{ByteOrder, Kind};
use array::refusal::Refusal;
use decode_cells::values::spread_values;
use decode_planes::place_planes;
use stored_frames::walk_content;

// Values that the walk found: where they begin, and of how many cells.
#[derive(Clone, Copy)]
pub struct Found {
    at: usize,
    cells: usize,
}

// Writes what the walk found, for an array of n cells.
fn write_fixed(
    kind: Kind,
    size: usize,
    order: ByteOrder,
    n: usize,
    s: &[u8],
    found: Found,
    masks: &mut [u8],
    values: &mut [u8],
) -> Result<Lengths, Refusal>
    requires within { FixedWithin (masks_of kind.masks) size kind.depth s.now n found }
    requires deep { 1 ≤ kind.depth }
    ensures { (offsets : List ℕ) → outcome_array result masks.new values.new offsets
        ≡ read_outcome (content_array masks.old values.old offsets)
        (gives (fixed_from (mask_form (masks_of kind.masks)) size (order_of order) kind.depth s.now n found)) }
{
    let form = kind.masks;
    let depth = kind.depth as usize;
    let at = found.at;
    let cells = found.cells;
    let planes = depth * n;
    let bytes = n * size;
    if masks.len() < planes {
        return Err(Refusal::Output);
    }
    if values.len() < bytes {
        return Err(Refusal::Output);
    }
    place_planes(form, masks, n, depth, s);
    spread_values(
        values,
        &masks[planes - n..planes],
        s,
        at,
        size,
        order,
        cells,
    );
    Ok(Lengths {
        masks: planes,
        values: bytes,
        offsets: 0,
    })
}

// Writes the values that the walk found, if the stored bytes end with them.
fn write_found(
    kind: Kind,
    size: usize,
    order: ByteOrder,
    n: usize,
    s: &[u8],
    found: Found,
    masks: &mut [u8],
    values: &mut [u8],
) -> Result<Lengths, Refusal>
    requires found { FixedFound (masks_of kind.masks) size kind.depth s.now n found }
    requires deep { 1 ≤ kind.depth }
    ensures { (offsets : List ℕ) → outcome_array result masks.new values.new offsets
        ≡ read_outcome (content_array masks.old values.old offsets)
        (read_in (mask_form (masks_of kind.masks)) (fixed size (order_of order)) kind.depth n s.now) }
{
    if s.len() - found.at != found.cells * size {
        Err(Refusal::Length)
    } else {
        write_fixed(kind, size, order, n, s, found, masks, values)
    }
}

// Reads an array of n cells of a fixed size.
pub fn decode_fixed(
    kind: Kind,
    size: usize,
    order: ByteOrder,
    n: usize,
    s: &[u8],
    masks: &mut [u8],
    values: &mut [u8],
) -> Result<Lengths, Refusal>
    requires { Limited kind.depth n × (size ≤ most_size) }
    ensures { (offsets : List ℕ) → outcome_array result masks.new values.new offsets
        ≡ read_outcome (content_array masks.old values.old offsets)
        (read_in (mask_form (masks_of kind.masks)) (fixed size (order_of order)) kind.depth n s.now) }
{
    let form = kind.masks;
    let depth = kind.depth as usize;
    if depth == 0 {
        return read_plain(size, order, n, s, values);
    }
    let (at, cells) = walk_content(form, s, 0, n, depth)?;
    // no cell is set, and no value stored
    if cells == 0 {
        let none = Found { at: 0, cells: 0 };
        write_fixed(kind, size, order, n, s, none, masks, values)
    } else {
        let found = Found { at, cells };
        write_found(kind, size, order, n, s, found, masks, values)
    }
}
