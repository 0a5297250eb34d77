// What a cell draws: its levels from the outermost, up to the first null, and value bytes.
ghost use Rattle.std.specs.Prelude.{◌≡◌, ◌+◌, ◌≤◌, length, replicate};
ghost use Rattle.array.specs.Buffers.{over_at};
ghost use Rattle.load.specs.Generator.{draw_bytes};
ghost use Rattle.generate.specs.Cells.{set_levels, column};
ghost use Rattle.generate.specs.Room.{Column};
ghost use Rattle.generate.specs.Generator.{drew};

use crate::ahead::state_after;
use crate::generator::{Drawn, Generator};
use crate::loads::Load;

// Draws how many levels of the cell `at` are set, and stores 01 in their planes. A null ends it: nothing is drawn for the levels below,
// whose bytes are 00 already.
#[inline(always)]
pub fn mark_levels(load: Load, first: Generator, at: usize, masks: &mut [u8]) -> Drawn<usize>
    requires { Column load.n at load.depth masks.old }
    ensures draws { drew result ≡ set_levels load.depth first.state }
    ensures marks { masks.new ≡ column load.n at (replicate result.made 1) masks.old }
{
    let mut g = first;
    let mut place = at;
    for set in 0..load.depth {
        let drawn = g.draw();
        let next = drawn.next;
        if drawn.made % 4 == 0 {
            return Drawn { made: set, next };
        }
        masks[place] = 1;
        g = next;
        place += load.n;
    }
    Drawn {
        made: load.depth,
        next: g,
    }
}

// Draws n value bytes, one after another.
pub fn draw_few(first: Generator, values: &mut [u8], to: usize, n: usize) -> Generator
    requires { to + n ≤ length values.old }
    ensures draws { result.state ≡ (draw_bytes n first.state).state }
    ensures stores { values.new ≡ over_at to (draw_bytes n first.state).made values.old }
{
    let mut g = first;
    for i in 0..n {
        let drawn = g.draw();
        values[to + i] = (drawn.made % 256) as u8;
        g = drawn.next;
    }
    g
}

// Draws 1 to 16 value bytes, each from the first state.
fn draw_part(first: Generator, values: &mut [u8], to: usize, n: usize) -> Generator
    requires { (to + n ≤ length values.old) × (1 ≤ n) × (n ≤ 16) }
    ensures draws { result.state ≡ (draw_bytes n first.state).state }
    ensures stores { values.new ≡ over_at to (draw_bytes n first.state).made values.old }
{
    for i in 0..n {
        values[to + i] = (state_after(first, i) / 65536 % 256) as u8;
    }
    Generator {
        state: state_after(first, n - 1),
    }
}

// Draws n value bytes, sixteen at a time.
fn draw_parts(first: Generator, values: &mut [u8], to: usize, n: usize) -> Generator
    requires { to + n ≤ length values.old }
    ensures draws { result.state ≡ (draw_bytes n first.state).state }
    ensures stores { values.new ≡ over_at to (draw_bytes n first.state).made values.old }
{
    let mut g = first;
    let mut i: usize = 0;
    // `chunks_mut(16)` would hand each part over as a slice of its own, and a law would put what they leave together again
    while 16 <= n - i {
        g = draw_part(g, values, to + i, 16);
        i += 16;
    }
    if i == n {
        return g;
    }
    draw_part(g, values, to + i, n - i)
}

// Draws n value bytes.
pub fn draw_bytes(first: Generator, values: &mut [u8], to: usize, n: usize) -> Generator
    requires { to + n ≤ length values.old }
    ensures draws { result.state ≡ (draw_bytes n first.state).state }
    ensures stores { values.new ≡ over_at to (draw_bytes n first.state).made values.old }
{
    if n < 16 {
        return draw_few(first, values, to, n);
    }
    draw_parts(first, values, to, n)
}
