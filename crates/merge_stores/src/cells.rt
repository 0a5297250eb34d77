// Masks, and values of one width.
ghost use Rattle.std.specs.Prelude.{◌≡◌, ◌++◌, ◌*◌, drop};
ghost use Rattle.array.specs.Places.{fixed_at};
ghost use Rattle.subset.specs.Cells.{cells_of, subsets_in, cells_of_each};
ghost use Rattle.merge_stores.specs.Scatter.{scatter, places};
ghost use Rattle.merge_stores.specs.Store.{parts, masks_merged, StoreAsked, PartsAsked, MasksAsked};

use subset::walk::{Subset, Subsets};

// Stores a chunk's cells of `size` bytes, which lie in `src` from `first` on, at their places in `out`, where cell 0 lies at `base`.
pub fn store_subset(
    out: &mut [u8],
    base: usize,
    size: usize,
    src: &[u8],
    first: usize,
    subset: Subset,
)
    requires { StoreAsked subset.shape.now out.old base size src.now first subset.count }
    ensures { out.new ≡ scatter out.old (places (fixed_at base size) (cells_of subset.entry)) (drop first src.now) }
{
    for row in subset.rows() {
        let to = base + row.first * size;
        let take = first + row.at * size;
        let len = row.cells * size;
        buffer::copy::copy_bytes(out, to, src, take, len);
    }
}

// Stores one part of each chunk of a list: of m cells, m × lead bytes are passed over, m × size stored, and the next chunk
// begins m × step bytes on.
pub fn store_parts(
    out: &mut [u8],
    base: usize,
    size: usize,
    src: &[u8],
    lead: usize,
    step: usize,
    subsets: Subsets,
)
    requires { PartsAsked subsets.shape.now (subsets_in subsets) out.old base size src.now lead step }
    ensures { out.new ≡ scatter out.old (places (fixed_at base size) (cells_of_each subsets.entry))
        (parts lead step size (subsets_in subsets.entry) src.now) }
{
    let mut pos: usize = 0;
    for part in subsets.parts() {
        let m = part.count;
        store_subset(out, base, size, src, pos + m * lead, part);
        pos += m * step;
    }
}

// Stores the masks of all chunks, level by level.
pub fn store_masks(out: &mut [u8], src: &[u8], depth: usize, cells: usize, subsets: Subsets)
    requires { MasksAsked subsets.shape.now (subsets_in subsets) out.old src.now depth cells }
    ensures { out.new ≡ masks_merged subsets.entry.shape.now (subsets_in subsets.entry) depth src.now depth
        ++ drop (depth * cells) out.old }
{
    for l in 0..depth {
        store_parts(out, l * cells, 1, src, l, depth, subsets);
    }
}
