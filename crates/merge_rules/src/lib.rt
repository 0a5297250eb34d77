// Whether chunks may be merged: each keeps the array's rules on its own masks, values and offsets.
#![tactic(auto)]

ghost use Rattle.std.specs.Prelude.{◌≡◌, ◌≤◌};
ghost use Rattle.array.specs.Limits.{most_cells};
ghost use Rattle.array.specs.Meaning.{form_of, kind_of, lent, told};
ghost use Rattle.subset.specs.Cells.{subsets_in};
ghost use Rattle.merge_rules.specs.Chunks.{size_answer, chunk_answer, chunks_test, told_chunk};
ghost use Rattle.merge_rules.specs.Checks.{check_answer};

use array::content::ArrayBytes;
use array::kind::{Kind, Values};
use array::refusal::Refusal;
use subset::walk::Subsets;
use valid::array_bytes::MOST_BYTES;

// What a chunk takes: its value bytes, its offsets.
#[derive(Clone, Copy)]
pub struct Chunk {
    pub bytes: usize,
    pub numbers: usize,
}

// What a chunk takes by the offsets that are left: a ragged one has as many value bytes as its last offset says.
#[tactic(auto, using(valid::proofs::CheckLaws::small_product))]
fn chunk_size(form: Values, cells: usize, offsets: &[u64]) -> Option<Chunk>
    requires { cells ≤ most_cells }
    ensures { told_chunk result ≡ size_answer (form_of form) cells offsets.now }
{
    match form {
        Values::Fixed(size, _) => Some(Chunk {
            bytes: cells * (size as usize),
            numbers: 0,
        }),
        Values::Ragged(_, _) => {
            if offsets.len() <= cells {
                return None;
            }
            Some(Chunk {
                bytes: offsets[cells] as usize,
                numbers: cells + 1,
            })
        }
    }
}

// The first of the chunks that are left, of `cells` cells: what it takes, where it keeps the array's rules.
#[tactic(auto, using(crate::proofs::OneChunk::chunk_laws))]
fn check_chunk(kind: Kind, cells: usize, left: ArrayBytes) -> Option<Chunk>
    requires { cells ≤ most_cells }
    ensures { told_chunk result ≡ chunk_answer (kind_of kind) cells (lent left.entry) }
{
    let depth = kind.depth as usize;
    let planes = depth * cells;
    if left.masks.len() < planes {
        return None;
    }
    let chunk = chunk_size(kind.values, cells, left.offsets)?;
    if left.values.len() < chunk.bytes {
        return None;
    }
    let own = ArrayBytes {
        masks: &left.masks[0..planes],
        values: &left.values[0..chunk.bytes],
        offsets: &left.offsets[0..chunk.numbers],
    };
    if !valid::array_bytes::keeps_rules(kind, cells, own) {
        return None;
    }
    Some(chunk)
}

// Whether all chunks of a list keep the array's rules, and nothing is left over.
pub fn check_chunks(kind: Kind, subsets: Subsets, array: ArrayBytes) -> bool
    ensures { result ≡ chunks_test (kind_of kind) (subsets_in subsets.entry) (lent array.entry) }
{
    let depth = kind.depth as usize;
    let mut p: usize = 0;
    let mut v: usize = 0;
    let mut o: usize = 0;
    for part in subsets.parts() {
        let m = part.count;
        let left = ArrayBytes {
            masks: &array.masks[p..],
            values: &array.values[v..],
            offsets: &array.offsets[o..],
        };
        let Some(taken) = check_chunk(kind, m, left) else {
            return false;
        };
        p += depth * m;
        v += taken.bytes;
        o += taken.numbers;
    }
    if p != array.masks.len() {
        return false;
    }
    if v != array.values.len() {
        return false;
    }
    o == array.offsets.len()
}

// All checks of a merge but those of its cover and its outputs, and how many cells the shape has. 5 goes by the value bytes, which are all
// in cells.
#[tactic(auto, using(crate::proofs::Passing::check_laws), unfolding(array::specs::Limits::most_bytes))]
pub fn check_merge(
    kind: Kind,
    shape: &[u64],
    subsets: &[u64],
    array: ArrayBytes,
) -> Result<usize, Refusal>
    ensures { told result ≡ check_answer (kind_of kind) shape.now subsets.now (lent array.entry) }
{
    if !valid::kind::check_kind(kind) {
        return Err(Refusal::Kind);
    }
    let cells = valid::shape::shape_cells(shape)?;
    if !subset::subsets_fit(shape, subsets) {
        return Err(Refusal::Subset);
    }
    if !check_chunks(kind, Subsets::new(shape, subsets), array) {
        return Err(Refusal::Content);
    }
    if array.values.len() > MOST_BYTES {
        return Err(Refusal::Size);
    }
    Ok(cells)
}
