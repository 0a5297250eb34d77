// Layer 2, writing: the written length, the sum over the levels, outermost first.
#![tactic(auto)]

ghost use Rattle.std.specs.Prelude.{◌≡◌, ◌≤◌};
ghost use Rattle.array.specs.Meaning.{kind_of};
ghost use Rattle.encode_values.specs.Ready.{Measured};
ghost use Rattle.encode_values.specs.Stored.{length_from};

use array::content::ArrayBytes;
use array::kind;
use array::kind::{Kind, Values};
use live_cells::Level;
use mask::form;

// With so many levels left: 16 + the stored mask of the cells that the level counts + what is below, or nothing where no cell is left.
#[tactic(auto, using(encode_values::proofs::Forms::length_laws), unfolding(array::specs::Limits::most_cells, array::specs::Limits::most_depth))]
pub fn content_length(kind: Kind, cells: usize, array: ArrayBytes, left: usize) -> usize
    requires ready { Measured (kind_of kind) cells array.masks.now array.offsets.now }
    requires within { left ≤ (kind_of kind).depth }
    ensures { result ≡ length_from (kind_of kind) cells array.entry.masks.now array.entry.offsets.now left }
{
    let depth = kind.depth as usize - left;
    let live = Level {
        masks: array.masks,
        cells,
        depth,
    }
    .counted();
    if live.count == 0 {
        return 0;
    }
    if left == 0 {
        return encode_values::values_length(kind, array.offsets, live);
    }
    let mask = form::mask_length(kind.masks, live.count);
    16 + mask + content_length(kind, cells, array, left - 1)
}

// The written length of valid content of `cells` cells. At depth 0 there is no level to go through, and all cells count.
#[tactic(auto, using(encode_values::proofs::Forms::flat_laws))]
pub fn stored_length(kind: Kind, cells: usize, array: ArrayBytes) -> usize
    requires { Measured (kind_of kind) cells array.masks.now array.offsets.now }
    ensures { result ≡ length_from (kind_of kind) cells array.entry.masks.now array.entry.offsets.now (kind_of kind).depth }
{
    let depth = kind.depth as usize;
    if 0 < depth {
        return content_length(kind, cells, array, depth);
    }
    match kind.values {
        Values::Fixed(size, _) => cells * (size as usize),
        Values::Ragged(width, _) => {
            8 + kind::width_bytes(width) * (cells + 1) + array.offsets[cells] as usize
        }
    }
}
