// Layer 2, writing: an array into its stored form.
#![tactic(auto)]

ghost use Rattle.std.specs.Prelude.{◌≡◌, length};
ghost use Rattle.array.specs.Lists.{joined};
ghost use Rattle.array.specs.Meaning.{kind_of, form_of, lent};
ghost use Rattle.array.specs.Outcome.{outcome};
ghost use Rattle.codec.specs.Carried.{carried_test};
ghost use Rattle.codec.specs.Interleaved.{IsRagged};
ghost use Rattle.codec.specs.Calls.{stored_form, values_left, encoded};
ghost use Rattle.encode_values.specs.Ready.{Encodable};
ghost use Rattle.array.specs.Buffers.{put_list};

use array::content::ArrayBytes;
use array::kind::{IndexWidth, Kind, Values};
use array::refusal::Refusal;
use encode_data::LiveOffsets;
use live_cells::Level;
use valid::{array_bytes, shape};

// An offset that an index of width 4 carries at most.
const MOST_NARROW: usize = 4294967295;

// Writes an array into its stored form. Refusals 1, 2, 4, 5, 20 and 6, in this order; nothing is stored before the last check.
#[tactic(auto, using(crate::proofs::Encodes::encode_laws), unfolding(array::specs::Limits::most_cells))]
pub fn encode(
    kind: Kind,
    shape: &[u64],
    array: ArrayBytes,
    out: &mut [u8],
) -> Result<usize, Refusal>
    ensures { outcome result out.new ≡ encoded (kind_of kind) shape.now (lent array.entry) out.old }
{
    if !valid::kind::check_kind(kind) {
        return Err(Refusal::Kind);
    }
    let cells = shape::shape_cells(shape)?;
    array_bytes::check_array(kind, cells, array)?;
    if !is_carried(kind, cells, array) {
        return Err(Refusal::Field);
    }
    encode_valid(kind, cells, array, out)
}

// How many value bytes of ragged values are written: those of the cells that every level sets.
fn bytes_left(kind: Kind, cells: usize, array: ArrayBytes) -> usize
    requires ready { Encodable (kind_of kind) cells (lent array) }
    requires with_offsets { IsRagged (form_of kind.values) }
    ensures { result ≡ length (joined (values_left (kind_of kind) cells (lent array.entry))) }
{
    let live = Level {
        masks: array.masks,
        cells,
        depth: kind.depth as usize,
    }
    .counted();
    let places = LiveOffsets {
        offsets: array.offsets,
        live,
    };
    places.bytes()
}

// Whether the index carries each offset that is written: the last of them is the number of value bytes written. No array with fewer bytes than
// width 4 carries is walked.
fn is_carried(kind: Kind, cells: usize, array: ArrayBytes) -> bool
    requires { Encodable (kind_of kind) cells (lent array) }
    ensures { result ≡ carried_test (form_of kind.values) (values_left (kind_of kind) cells (lent array.entry)) }
{
    if array.values.len() <= MOST_NARROW {
        return true;
    }
    match kind.values {
        Values::Fixed(_, _) => true,
        Values::Ragged(width, _) => match width {
            IndexWidth::Four => bytes_left(kind, cells, array) <= MOST_NARROW,
            IndexWidth::Eight => true,
        },
    }
}

// The same of valid content of `cells` cells whose offsets are carried: refusal 6, or its stored form.
#[tactic(auto, using(crate::proofs::Encodes::written_laws))]
fn encode_valid(
    kind: Kind,
    cells: usize,
    array: ArrayBytes,
    out: &mut [u8],
) -> Result<usize, Refusal>
    requires { Encodable (kind_of kind) cells (lent array) }
    ensures { outcome result out.new ≡ put_list (stored_form (kind_of kind) cells (lent array.entry)) out.old }
{
    let need = encode_length::stored_length(kind, cells, array);
    if out.len() < need {
        return Err(Refusal::Output);
    }
    encode_frames::write_stored(out, kind, cells, array);
    Ok(need)
}
