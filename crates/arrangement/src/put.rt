// An arrangement laid into the lent outputs.
ghost use Rattle.std.specs.Prelude.{◌≡◌, ◌+◌, ◌*◌, ◌≤◌, length, map};
ghost use Rattle.array.specs.Buffers.{over, over_at, put_into};
ghost use Rattle.array.specs.Lists.{from};
ghost use Rattle.array.specs.Outcome.{content_array, outcome_array};
ghost use Rattle.array.specs.Places.{planes_by};
ghost use Rattle.arrangement.specs.States.{mask_by, ends_of, stated};

use crate::states::States;
use array::answer::Lengths;
use array::refusal::Refusal;
use buffer::copy::fill_bytes;

// The plane of a level, at the place `to`.
fn put_plane(out: &mut [u8], to: usize, states: &States, level: usize)
    requires { to + states.now.cells ≤ length out.old }
    ensures { out.new ≡ over_at to (map (mask_by states.now level) (from 0 states.now.cells)) out.old }
{
    for j in 0..states.cells {
        out[to + j] = (level < states.each[j] as usize) as u8;
    }
}

// All planes, outermost first.
fn put_planes(out: &mut [u8], states: &States)
    requires { states.now.depth * states.now.cells ≤ length out.old }
    ensures { out.new ≡ over (planes_by (mask_by states.now) states.now.depth 0 (from 0 states.now.cells)) out.old }
{
    for level in 0..states.depth {
        put_plane(out, level * states.cells, states, level);
    }
}

// Where each value begins, and the last one ends.
fn put_offsets(out: &mut [u64], states: &States)
    requires { states.now.cells + 1 ≤ length out.old }
    ensures { out.new ≡ over (ends_of states.now) out.old }
{
    let mut to: u64 = 0;
    for j in 0..states.cells {
        out[j] = to;
        to += (states.each[j] as u64).saturating_sub(states.depth as u64);
    }
    out[states.cells] = to;
}

// Refusal 6, or all is stored.
pub fn put_arrangement(
    states: &States,
    masks: &mut [u8],
    values: &mut [u8],
    offsets: &mut [u64],
) -> Result<Lengths, Refusal>
    ensures { outcome_array result masks.new values.new offsets.new
        ≡ put_into (stated states.now) (content_array masks.old values.old offsets.old) }
{
    let planes = states.depth * states.cells;
    let count = states.cells + 1;
    if masks.len() < planes {
        return Err(Refusal::Output);
    }
    if values.len() < states.bytes {
        return Err(Refusal::Output);
    }
    if offsets.len() < count {
        return Err(Refusal::Output);
    }
    put_planes(masks, states);
    fill_bytes(values, 0, states.bytes, 0);
    put_offsets(offsets, states);
    Ok(Lengths {
        masks: planes,
        values: states.bytes,
        offsets: count,
    })
}
