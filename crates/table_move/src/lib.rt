// Cells of a working table moved towards the start of the store.
#![tactic(auto)]

ghost use Rattle.std.specs.Prelude.{◌≡◌, [], ◌+◌, ◌≤◌, length, take, drop};
ghost use Rattle.array.specs.Buffers.{over_at};
ghost use Rattle.table.specs.Meaning.{table_by};
ghost use Rattle.table.specs.Walk.{InOrder, Moved};

use buffer::copy;

fn block() -> [u8; 256] {
    [0; 256]
}

// Copies k bytes within the store, by way of an array of our own: all are read before the first is written, and the compiler makes one call
// of memmove of the two copies.
fn move_few(store: &mut [u8], to: usize, from: usize, k: usize)
    requires { (to + k ≤ length store.old) × (from + k ≤ length store.old) × (k ≤ 256) }
    ensures { store.new ≡ over_at to (take k (drop from store.old)) store.old }
{
    let mut between = block();
    copy::copy_bytes(&mut between, 0, store, from, k);
    copy::copy_bytes(store, to, &between, 0, k);
}

// Copies the n bytes that begin at `from` to the place `to`, which does not lie behind them. The first block goes first: where the two
// stretches overlap, what is written over has been read. The library's `copy_within` was tried: with it cells of 256 bytes and more took 1.2 to 1.4
// times as long to pack.
pub fn move_down(store: &mut [u8], to: usize, from: usize, n: usize)
    requires { (to ≤ from) × (from + n ≤ length store.old) }
    ensures { store.new ≡ over_at to (take n (drop from store.old)) store.old }
{
    let mut done: usize = 0;
    // a range in steps of 256 would take the last block too, whose size is its own: the others are of a size that the compiler knows
    while n - done > 256 {
        move_few(store, to + done, from + done, 256);
        done += 256;
    }
    move_few(store, to + done, from + done, n - done);
}

// Moves the lowest-lying `most` of the cells that start elsewhere than where they are packed. The order is of the cells as they lie. Answers
// how many were moved.
pub fn move_cells(
    starts: &mut [u64],
    lengths: &[u64],
    store: &mut [u8],
    order: &[u16],
    most: usize,
) -> usize
    requires { (length lengths.now ≡ length starts.old)
        × InOrder (length starts.old) (table_by [] starts.old lengths.now store.old) order.now }
    ensures { Moved most (length starts.old) starts.old lengths.now store.old result starts.new store.new }
{
    let mut to: usize = 0;
    let mut moved: usize = 0;
    for number in order {
        if moved == most {
            return moved;
        }
        let j = *number as usize;
        let start = starts[j] as usize;
        let n = lengths[j] as usize;
        if start != to {
            move_down(store, to, start, n);
            starts[j] = to as u64;
            moved += 1;
        }
        to += n;
    }
    moved
}
