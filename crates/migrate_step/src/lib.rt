// Layer 3: a step of a live table: the lowest-numbered chunk that is still old is written anew, behind those moved before.
#![tactic(auto)]

ghost use Rattle.std.specs.Prelude.{◌≡◌, ◌+◌, ◌*◌, ◌^◌, ◌<◌, ◌≤◌, [], length, get_or};
ghost use Rattle.array.specs.Lists.{joined};
ghost use Rattle.array.specs.Places.{sum};
ghost use Rattle.array.specs.Offsets.{offsets_of};
ghost use Rattle.array.specs.Buffers.{over_at};
ghost use Rattle.array.specs.Outcome.{outcome};
ghost use Rattle.codec.specs.Ragged.{index_of};
ghost use Rattle.codec.specs.Values.{put_values};
ghost use Rattle.decode_interleaved.specs.Walk.{total_of, found, Found};
ghost use Rattle.migrate.specs.Live.{new_form, strings};
ghost use Rattle.migrate.specs.Calls.{migrate_step};
ghost use Rattle.migrate_check.specs.Meaning.{live_of};
ghost use Rattle.migrate_step.specs.Strings.{cells_of, Counted, laid_at};
ghost use Rattle.migrate_step.specs.Meaning.{outcome_step};

use array::refusal::Refusal;
use buffer::field;
use migrate_check::stored::LiveTable;

// What a step tells: that no chunk is old, or how many bytes it wrote and how many chunks are moved now.
#[derive(Clone, Copy, Debug, PartialEq, Eq, Hash)]
pub enum Step {
    NoneLeft,
    Moved { bytes: usize, moved: u64 },
}

// The old string of this number.
fn old_string<'a>(table: LiveTable<'a>, number: usize) -> &'a [u8]
    requires room { sum table.old_lengths.now ≤ length table.old.now }
    requires there { number < length table.old_lengths.now }
    ensures { result.now
        ≡ get_or (strings table.entry.old_lengths.now table.entry.old.now) number [] }
{
    let mut left = table.old;
    for length in &table.old_lengths[..number] {
        left = &left[*length as usize..];
    }
    &left[..table.old_lengths[number] as usize]
}

// Where strings of these lengths end.
fn end_of(lengths: &[u64]) -> usize
    requires { sum lengths.now < 2 ^ 64 }
    ensures { result ≡ sum lengths.now }
{
    let mut end: usize = 0;
    for length in lengths {
        end += *length as usize;
    }
    end
}

// Where each cell ends when they lie end to end, and a 0 before, 8 bytes each: the index of the ragged form.
fn put_index(area: &mut [u8], at: usize, bytes: &[u8], cells: usize)
    requires found { Found cells bytes.now }
    requires room { at + 8 * (cells + 1) ≤ length area.old }
    ensures { area.new ≡ over_at at (index_of 8 (offsets_of (found cells bytes.now))) area.old }
{
    field::put_u64(area, at, 0);
    let mut from: usize = 4;
    let mut end: u64 = 0;
    for i in 0..cells {
        let length = field::le4_at(bytes, from);
        from += 4;
        end += length;
        field::put_u64(area, at + 8 * (i + 1), end);
        from += length as usize;
    }
}

// The bytes of all cells, end to end.
fn put_data(area: &mut [u8], at: usize, bytes: &[u8], cells: usize)
    requires found { Found cells bytes.now }
    requires room { at + total_of (found cells bytes.now) ≤ length area.old }
    ensures { area.new ≡ over_at at (joined (found cells bytes.now)) area.old }
{
    let mut from: usize = 4;
    let mut to: usize = 0;
    for _ in 0..cells {
        let length = field::le4_at(bytes, from) as usize;
        from += 4;
        interleaved_cells::copy_exactly(area, at + to, bytes, from, length);
        from += length;
        to += length;
    }
}

// An old string of so many value bytes, written anew from `at` on where there is room: its new length.
fn put_string(area: &mut [u8], at: usize, bytes: &[u8], sum: usize) -> Result<usize, Refusal>
    requires counted { Counted bytes.now sum }
    requires within { at ≤ length area.old }
    ensures { outcome result area.new
        ≡ laid_at at (put_values new_form (cells_of bytes.now)) area.old }
{
    let cells = field::le4_at(bytes, 0) as usize;
    let index = 8 * (cells + 1);
    let need = 8 + index + sum;
    if area.len() - at < need {
        return Err(Refusal::Output);
    }
    field::put_u64(area, at, index as u64);
    put_index(area, at + 8, bytes, cells);
    put_data(area, at + 8 + index, bytes, cells);
    Ok(need)
}

// Moves the lowest-numbered chunk that is still old, where every chunk is readable: its new string goes into the area, right behind those moved
// before, and its length into the list.
pub fn migrate_step(
    table: LiveTable,
    moved: u64,
    moved_lengths: &mut [u64],
    area: &mut [u8],
) -> Result<Step, Refusal>
    ensures { outcome_step result moved_lengths.new area.new
        ≡ migrate_step (live_of table.entry moved moved_lengths.old area.old) }
{
    let sum = migrate_check::check_table(table, moved, moved_lengths, area, true)?;
    let number = moved as usize;
    if number == table.old_lengths.len() {
        return Ok(Step::NoneLeft);
    }
    let at = end_of(&moved_lengths[..number]);
    let bytes = put_string(area, at, old_string(table, number), sum)?;
    moved_lengths[number] = bytes as u64;
    Ok(Step::Moved {
        bytes,
        moved: moved + 1,
    })
}
