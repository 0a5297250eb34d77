// Layer 2, writing: the innermost content, values of one size or ragged values, of the cells that every level sets.
#![tactic(auto)]

ghost use Rattle.std.specs.Prelude.{◌≡◌, ◌+◌, ◌≤◌, length};
ghost use Rattle.array.specs.Buffers.{over_at};
ghost use Rattle.array.specs.Meaning.{kind_of};
ghost use Rattle.array.specs.Outcome.{content_array};
ghost use Rattle.live_cells.specs.Live.{live_at};
ghost use Rattle.encode_values.specs.Ready.{Measured, Encodable};
ghost use Rattle.encode_values.specs.Stored.{values_from, values_length_at};

use array::kind;
use array::kind::{Kind, Values};
use encode_data::{LiveOffsets, LiveValues};
use live_cells::Counted;

// How long these values are when written.
pub fn values_length(kind: Kind, offsets: &[u64], live: Counted) -> usize
    requires innermost { live.level.depth ≡ (kind_of kind).depth }
    requires ready { Measured (kind_of kind) live.level.cells live.level.masks.now offsets.now }
    ensures { result ≡ values_length_at (kind_of kind).form offsets.now (live_at live.entry.level.cells live.entry.level.masks.now (kind_of kind).depth) }
{
    match kind.values {
        Values::Fixed(size, _) => live.count * (size as usize),
        Values::Ragged(width, _) => {
            let index = kind::width_bytes(width) * (live.count + 1);
            8 + index + LiveOffsets { offsets, live }.bytes()
        }
    }
}

// Writes them; says how many bytes it wrote. With values and offsets alone, as the level has the masks.
pub fn put_values<'a>(
    out: &mut [u8],
    at: usize,
    kind: Kind,
    values: &'a [u8],
    offsets: &'a [u64],
    live: Counted<'a>,
) -> usize
    requires innermost { live.level.depth ≡ (kind_of kind).depth }
    requires ready { Encodable (kind_of kind) live.level.cells (content_array live.level.masks.now values.now offsets.now) }
    requires room { at + length (values_from (kind_of kind) live.level.cells (content_array live.level.masks.now values.now offsets.now)) ≤ length out.old }
    ensures wrote { result ≡ length (values_from (kind_of kind) live.entry.level.cells (content_array live.entry.level.masks.now values.now offsets.now)) }
    ensures bytes { out.new ≡ over_at at (values_from (kind_of kind) live.entry.level.cells (content_array live.entry.level.masks.now values.now offsets.now)) out.old }
{
    match kind.values {
        Values::Fixed(size, order) => {
            let k = size as usize;
            encode_cells::put_live(out, at, values, k, order, live);
            live.count * k
        }
        Values::Ragged(width, place) => {
            let places = LiveOffsets { offsets, live };
            encode_ragged::put_ragged(out, at, width, place, LiveValues { values, places })
        }
    }
}
