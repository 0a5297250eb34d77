// The older interleaved form of ragged values, written: a 4-byte count, then for each cell a 4-byte length and its bytes.
// Its length is known from the counts of cells and of value bytes, so the one walk is the one that stores.
ghost use Rattle.std.specs.Prelude.{◌≡◌, ◌≤◌, length, true, [], ◌∷◌};
ghost use Rattle.array.specs.Limits.{most_bytes, most_cells};
ghost use Rattle.array.specs.Meaning.{kind_of, lent};
ghost use Rattle.array.specs.Outcome.{outcome};
ghost use Rattle.array.specs.Buffers.{over};
ghost use Rattle.array.specs.Offsets.{RisingFrom, slices};
ghost use Rattle.codec.specs.Carried.{fields_test};
ghost use Rattle.codec.specs.Interleaved.{interleaved_test};
ghost use Rattle.codec.specs.Calls.{interleaved_encoded};
ghost use Rattle.encode_interleaved.specs.Held.{Held, interleaved_of, steps_fit, put_fitting, encoded_cells};

use array::content::ArrayBytes;
use array::kind::{Kind, Values};
use array::refusal::Refusal;
use buffer::field;
use valid::{array_bytes, shape};

// A length that a field of 4 bytes holds at most.
const MOST_FIELD: usize = 4294967295;

// Whether arrays of this kind have an interleaved form: ragged values with no mask. Width, place and mask form say nothing of it.
fn is_interleaved(kind: Kind) -> bool
    ensures { result ≡ interleaved_test (kind_of kind) }
{
    valid::kind::check_kind(kind) && kind.depth == 0 && matches!(kind.values, Values::Ragged(_, _))
}

// The count, then each cell: its length and its bytes. What is copied beyond a cell, the cells after it write over.
#[tactic(auto, using(codec::proofs::Older::length_interleaved))]
fn put_cells(out: &mut [u8], values: &[u8], offsets: &[u64], cells: usize)
    requires held { Held cells values.now offsets.now }
    requires room { length (interleaved_of values.now offsets.now) ≤ length out.old }
    ensures { out.new ≡ over (interleaved_of values.now offsets.now) out.old }
{
    field::put_u32(out, 0, cells as u64);
    let mut start: usize = 0;
    let mut at: usize = 4;
    for end in &offsets[1..] {
        let end = *end as usize;
        let size = end - start;
        field::put_u32(out, at, size as u64);
        at += 4;
        if 0 < size {
            interleaved_cells::put_cell(out, at, values, start, size, values.len() - start);
            at += size;
            start = end;
        }
    }
}

// Whether each cell's length fits its field, by where the cells end. The first begins at 0.
fn lengths_fit(ends: &[u64]) -> bool
    requires { RisingFrom 0 ends.now }
    ensures { result ≡ steps_fit 0 ends.now }
{
    let mut start: u64 = 0;
    for end in ends {
        if *end - start > MOST_FIELD as u64 {
            return false;
        }
        start = *end;
    }
    true
}

// The same of the cells of a valid array: where it has no more bytes than a field holds, no cell has.
fn fields_fit(cells: usize, values: &[u8], offsets: &[u64]) -> bool
    requires { Held cells values.now offsets.now }
    ensures { result ≡ fields_test (slices offsets.now values.now) }
{
    if values.len() <= MOST_FIELD {
        return true;
    }
    lengths_fit(&offsets[1..])
}

// The cells of a valid array: refusals 20 and 6, or their interleaved form.
fn write_cells(
    cells: usize,
    values: &[u8],
    offsets: &[u64],
    out: &mut [u8],
) -> Result<usize, Refusal>
    requires { Held cells values.now offsets.now }
    ensures { outcome result out.new ≡ put_fitting (slices offsets.now values.now) out.old }
{
    if !fields_fit(cells, values, offsets) {
        return Err(Refusal::Field);
    }
    let need = 4 + 4 * cells + values.len();
    if out.len() < need {
        return Err(Refusal::Output);
    }
    put_cells(out, values, offsets, cells);
    Ok(need)
}

// The same of one cell, which has all the values.
#[tactic(auto, using(crate::proofs::Writes::one_laws))]
fn write_one(values: &[u8], out: &mut [u8]) -> Result<usize, Refusal>
    requires { length values.now ≤ most_bytes }
    ensures { outcome result out.new ≡ put_fitting (values.now ∷ []) out.old }
{
    let size = values.len();
    if size > MOST_FIELD {
        return Err(Refusal::Field);
    }
    let need = 8 + size;
    if out.len() < need {
        return Err(Refusal::Output);
    }
    field::put_u32(out, 0, 1);
    field::put_u32(out, 4, size as u64);
    if 0 < size {
        interleaved_cells::copy_exactly(out, 8, values, 0, size);
    }
    Ok(need)
}

// Kind and shape are sound: refusals 4, 5, 20 and 6, or the form.
fn encode_cells(
    kind: Kind,
    cells: usize,
    array: ArrayBytes,
    out: &mut [u8],
) -> Result<usize, Refusal>
    requires { (interleaved_test (kind_of kind) ≡ true) × (cells ≤ most_cells) }
    ensures { outcome result out.new ≡ encoded_cells (kind_of kind) cells (lent array.entry) out.old }
{
    array_bytes::check_array(kind, cells, array)?;
    write_cells(cells, array.values, array.offsets, out)
}

// The same of one cell. Here the compiler knows the count, and the walk over the offsets becomes one test.
fn encode_one(kind: Kind, array: ArrayBytes, out: &mut [u8]) -> Result<usize, Refusal>
    requires { interleaved_test (kind_of kind) ≡ true }
    ensures { outcome result out.new ≡ encoded_cells (kind_of kind) 1 (lent array.entry) out.old }
{
    array_bytes::check_array(kind, 1, array)?;
    write_one(array.values, out)
}

// Writes a ragged array of depth 0 in the interleaved form. Refusals 1, 2, 4, 5, 20 and 6, in this order; nothing is stored before the
// last check.
#[tactic(auto, using(crate::proofs::Writes::call_laws), unfolding(array::specs::Limits::most_cells))]
pub fn encode_interleaved(
    kind: Kind,
    shape: &[u64],
    array: ArrayBytes,
    out: &mut [u8],
) -> Result<usize, Refusal>
    ensures { outcome result out.new ≡ interleaved_encoded (kind_of kind) shape.now (lent array.entry) out.old }
{
    if !is_interleaved(kind) {
        return Err(Refusal::Kind);
    }
    let cells = shape::shape_cells(shape)?;
    if cells == 1 {
        return encode_one(kind, array, out);
    }
    encode_cells(kind, cells, array, out)
}
