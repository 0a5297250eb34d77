// Whether a setting fits: the store's length, the cell's number and the sum of lengths after it.
ghost use Rattle.std.specs.Prelude.{◌≡◌, ◌≤◌};
ghost use Rattle.array.specs.Lists.{pick};
ghost use Rattle.array.specs.Meaning.{told};
ghost use Rattle.array.specs.Places.{sum};
ghost use Rattle.table_setting.specs.Fit.{fitted};

use crate::masks::all_set;
use array::refusal::Refusal;
use table_kind::store_ok;
use table_sums::sum_of;

// How many bytes the setting has, and how many all other cells have.
#[derive(Clone, Copy, Debug, PartialEq, Eq, Hash)]
pub struct Fitting {
    pub size: usize,
    pub others: usize,
}

// A setting of `length` value bytes in a table with those lengths and a store of `room` bytes: 5, 15 and 16, or it fits.
pub fn fit(
    lengths: &[u64],
    room: usize,
    cell: usize,
    cell_masks: &[u8],
    length: usize,
) -> Result<Fitting, Refusal>
    requires { sum lengths.now ≤ room }
    ensures { told result ≡ fitted lengths.now room cell cell_masks.now length }
{
    if !store_ok(room) {
        return Err(Refusal::Size);
    }
    if lengths.len() <= cell {
        return Err(Refusal::Cell);
    }
    let shown = all_set(cell_masks);
    let size = if shown { length } else { 0 };
    let others = sum_of(lengths) - lengths[cell] as usize;
    if room - others < size {
        return Err(Refusal::Full);
    }
    Ok(Fitting { size, others })
}
