// What a rights plane shows of an array, in rest form.
#![tactic(auto)]

mod guest;
mod ragged;

ghost use Rattle.std.specs.Prelude.{◌≡◌, ◌*◌, List, ℕ, [], length};
ghost use Rattle.array.specs.Buffers.{put_into};
ghost use Rattle.array.specs.Content.{ValuesOk};
ghost use Rattle.array.specs.Kind.{fixed, little};
ghost use Rattle.array.specs.Meaning.{kind_of, form_of, lent};
ghost use Rattle.array.specs.Outcome.{content_array, outcome_array};
ghost use Rattle.rights.specs.Calls.{guest_read};
ghost use Rattle.guest_read.specs.Seen.{seen_of};

use crate::guest::Guest;
use crate::ragged::read_ragged;
use array::answer::Lengths;
use array::content::ArrayBytes;
use array::kind::{Kind, Values};
use array::refusal::Refusal;
use live_cells::Level;
use shown_cells::put_shown;
use valid::masks::are_strict;

// What is shown of values of one size: 6, or all is stored. What the innermost plane shows, as it is written, is what is shown at all.
fn read_fixed(
    guest: Guest,
    size: usize,
    values: &[u8],
    out_masks: &mut [u8],
    out_values: &mut [u8],
) -> Result<Lengths, Refusal>
    requires { length values.now ≡ guest.level.cells * size }
    ensures { (offsets : List ℕ) → outcome_array result out_masks.new out_values.new offsets
        ≡ put_into (seen_of (fixed size little) guest.entry values.now []) (content_array out_masks.old out_values.old offsets) }
{
    let cells = guest.level.cells;
    let planes = guest.level.depth * cells;
    let bytes = values.len();
    if out_masks.len() < planes {
        return Err(Refusal::Output);
    }
    if out_values.len() < bytes {
        return Err(Refusal::Output);
    }
    guest.put_masks(out_masks);
    put_shown(out_values, values, size, &out_masks[planes - cells..planes]);
    Ok(Lengths {
        masks: planes,
        values: bytes,
        offsets: 0,
    })
}

// What is shown of an array whose values keep their rules: 6, or all is stored.
fn read_valid(
    form: Values,
    guest: Guest,
    array: ArrayBytes,
    out_masks: &mut [u8],
    out_values: &mut [u8],
    out_offsets: &mut [u64],
) -> Result<Lengths, Refusal>
    requires { ValuesOk (form_of form) guest.level.cells (lent array) }
    ensures { outcome_array result out_masks.new out_values.new out_offsets.new
        ≡ put_into (seen_of (form_of form) guest.entry array.entry.values.now array.entry.offsets.now)
        (content_array out_masks.old out_values.old out_offsets.old) }
{
    match form {
        Values::Fixed(size, _) => {
            read_fixed(guest, size as usize, array.values, out_masks, out_values)
        }
        Values::Ragged(_, _) => read_ragged(guest, array, out_masks, out_values, out_offsets),
    }
}

// What a guest with these rights sees of an array, in rest form. Refusals 1, 2, 17, 4, 5 and 6, in this order; 6 goes by what is shown.
// Nothing is stored before the last check.
pub fn guest_read(
    kind: Kind,
    shape: &[u64],
    rights: &[u8],
    array: ArrayBytes,
    out_masks: &mut [u8],
    out_values: &mut [u8],
    out_offsets: &mut [u64],
) -> Result<Lengths, Refusal>
    ensures { outcome_array result out_masks.new out_values.new out_offsets.new
        ≡ guest_read (kind_of kind) shape.now rights.now (lent array.entry) (content_array out_masks.old out_values.old out_offsets.old) }
{
    if !valid::kind::check_kind(kind) {
        return Err(Refusal::Kind);
    }
    let cells = valid::shape::shape_cells(shape)?;
    if kind.depth == 0 {
        return Err(Refusal::NoMasks);
    }
    if !are_strict(rights, cells) {
        return Err(Refusal::Content);
    }
    valid::array_bytes::check_array(kind, cells, array)?;
    let level = Level {
        masks: array.masks,
        cells,
        depth: kind.depth as usize,
    };
    let guest = Guest { rights, level };
    read_valid(
        kind.values,
        guest,
        array,
        out_masks,
        out_values,
        out_offsets,
    )
}
