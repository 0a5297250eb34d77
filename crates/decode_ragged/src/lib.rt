// Reading stored arrays of ragged values: the walk, the check of the index, then the need, and then the copying.
#![tactic(auto)]

ghost use Rattle.std.specs.Prelude.{◌≡◌, List, ℕ, ◌≤◌};
ghost use Rattle.array.specs.Answer.{gives};
ghost use Rattle.array.specs.Limits.{most_cells};
ghost use Rattle.array.specs.Kind.{Masks, ragged};
ghost use Rattle.array.specs.Content.{unmasked};
ghost use Rattle.array.specs.Meaning.{width_of, place_of, masks_of};
ghost use Rattle.array.specs.Outcome.{content_array, outcome_array};
ghost use Rattle.codec.specs.Mask.{mask_form};
ghost use Rattle.codec.specs.Calls.{read_in};
ghost use Rattle.stored_index.specs.Index.{ragged_at, IndexWithin};
ghost use Rattle.decode_planes.specs.Limited.{Limited};
ghost use Rattle.decode_ragged.specs.Nested.{nested_from, RaggedWithin};
ghost use Rattle.array.specs.Buffers.{read_outcome};

use array::answer::Lengths;
use array::kind::{IndexPlace, IndexWidth, Kind};
use array::refusal::Refusal;
use buffer::copy::copy_many;
use decode_offsets::{copy_offsets, spread_offsets};
use decode_planes::place_planes;
use stored_frames::walk_content;
use stored_index::{Index, check_ragged};

// Values with no mask: the stored offsets and bytes. What is lent for masks stays.
#[tactic(auto, using(crate::proofs::RaggedWritten::flat_written))]
fn write_flat(
    width: IndexWidth,
    s: &[u8],
    found: Index,
    values: &mut [u8],
    offsets: &mut [u64],
) -> Result<Lengths, Refusal>
    requires { (found.cells ≤ most_cells) × IndexWithin (width_of width) s.now found }
    ensures { (masks : List ℕ) → outcome_array result masks values.new offsets.new
        ≡ read_outcome (content_array masks values.old offsets.old) (gives (unmasked (ragged_at (width_of width) s.now found))) }
{
    let n = found.cells;
    let index = found.index;
    let from = found.from;
    let bytes = found.last as usize;
    let count = n + 1;
    if values.len() < bytes {
        return Err(Refusal::Output);
    }
    if offsets.len() < count {
        return Err(Refusal::Output);
    }
    copy_many(values, 0, s, from, bytes);
    copy_offsets(offsets, s, index, n, width);
    Ok(Lengths {
        masks: 0,
        values: bytes,
        offsets: count,
    })
}

// Values below masks: the stored bytes, and the ends of the set cells.
fn write_nested(
    kind: Kind,
    width: IndexWidth,
    n: usize,
    s: &[u8],
    found: Index,
    masks: &mut [u8],
    values: &mut [u8],
    offsets: &mut [u64],
) -> Result<Lengths, Refusal>
    requires within { RaggedWithin (masks_of kind.masks) (width_of width) kind.depth s.now n found }
    requires deep { 1 ≤ kind.depth }
    ensures { outcome_array result masks.new values.new offsets.new
        ≡ read_outcome (content_array masks.old values.old offsets.old)
        (gives (nested_from (mask_form (masks_of kind.masks)) (width_of width) kind.depth s.now n found)) }
{
    let form = kind.masks;
    let depth = kind.depth as usize;
    let cells = found.cells;
    let index = found.index;
    let from = found.from;
    let last = found.last;
    let planes = depth * n;
    let bytes = last as usize;
    let count = n + 1;
    if masks.len() < planes {
        return Err(Refusal::Output);
    }
    if values.len() < bytes {
        return Err(Refusal::Output);
    }
    if offsets.len() < count {
        return Err(Refusal::Output);
    }
    place_planes(form, masks, n, depth, s);
    copy_many(values, 0, s, from, bytes);
    spread_offsets(
        offsets,
        &masks[planes - n..planes],
        s,
        index,
        width,
        cells,
        last,
    );
    Ok(Lengths {
        masks: planes,
        values: bytes,
        offsets: count,
    })
}

// Reads n ragged values with no mask: there is nothing to walk.
fn read_flat(
    width: IndexWidth,
    place: IndexPlace,
    n: usize,
    s: &[u8],
    values: &mut [u8],
    offsets: &mut [u64],
) -> Result<Lengths, Refusal>
    requires { n ≤ most_cells }
    ensures { (x : Masks) (masks : List ℕ) → outcome_array result masks values.new offsets.new
        ≡ read_outcome (content_array masks values.old offsets.old) (read_in (mask_form x) (ragged (width_of width) (place_of place)) 0 n s.now) }
{
    let found = check_ragged(s, 0, n, width, place)?;
    write_flat(width, s, found, values, offsets)
}

// Reads an array of n cells with ragged values.
pub fn decode_ragged(
    kind: Kind,
    width: IndexWidth,
    place: IndexPlace,
    n: usize,
    s: &[u8],
    masks: &mut [u8],
    values: &mut [u8],
    offsets: &mut [u64],
) -> Result<Lengths, Refusal>
    requires { Limited kind.depth n }
    ensures { outcome_array result masks.new values.new offsets.new
        ≡ read_outcome (content_array masks.old values.old offsets.old)
        (read_in (mask_form (masks_of kind.masks)) (ragged (width_of width) (place_of place)) kind.depth n s.now) }
{
    let form = kind.masks;
    let depth = kind.depth as usize;
    if depth == 0 {
        return read_flat(width, place, n, s, values, offsets);
    }
    let (at, cells) = walk_content(form, s, 0, n, depth)?;
    // no cell is set, and no index stored
    if cells == 0 {
        let none = Index {
            cells: 0,
            index: 0,
            from: 0,
            last: 0,
        };
        write_nested(kind, width, n, s, none, masks, values, offsets)
    } else {
        let found = check_ragged(s, at, cells, width, place)?;
        write_nested(kind, width, n, s, found, masks, values, offsets)
    }
}
