// The cells of a table but one, as they lie: how many start elsewhere than where they are packed, and where they end.
ghost use Rattle.std.specs.Prelude.{◌≡◌, ◌+◌, ◌<◌, ◌^◌, eqb};
ghost use Rattle.array.specs.Lists.{pick};
ghost use Rattle.array.specs.Places.{offset_at};
ghost use Rattle.table_preview.specs.Others.{Walkable, Found};

#[derive(Clone, Copy)]
pub struct Others {
    pub unpacked: usize,
    pub top: usize,
}

// One more that starts elsewhere, unless it starts at its packed start.
pub fn counted(unpacked: usize, start: usize, packed: usize) -> usize
    requires { unpacked + 1 < 2 ^ 64 }
    ensures { result ≡ unpacked + pick (eqb start packed) 0 1 }
{
    if start == packed {
        unpacked
    } else {
        unpacked + 1
    }
}

// Looks at the cells of the order, but for one. A function of its own, as `cells_placed` of `table_check`.
#[inline(never)]
pub fn look_at(starts: &[u64], lengths: &[u64], order: &[u16], cell: usize) -> Others
    requires { Walkable starts.now lengths.now order.now }
    ensures { Found (offset_at starts.now) (offset_at lengths.now) cell order.now result.unpacked result.top }
{
    let mut unpacked: usize = 0;
    let mut packed: usize = 0;
    let mut top: usize = 0;
    for number in order {
        let j = *number as usize;
        let other = j != cell;
        if other {
            let start = starts[j] as usize;
            let size = lengths[j] as usize;
            unpacked = counted(unpacked, start, packed);
            packed += size;
            top = top.max(start + size);
        }
    }
    Others { unpacked, top }
}
