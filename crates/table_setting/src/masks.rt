// The masks of a setting: what an unset level hides is 00.
ghost use Rattle.std.specs.Prelude.{◌≡◌, ◌&&◌, ◌*◌, ◌≤◌, ◌<◌, length, get_or};
ghost use Rattle.array.specs.Limits.{most_cells};
ghost use Rattle.array.specs.Lists.{pick};
ghost use Rattle.array.specs.Cells.{set_test};
ghost use Rattle.array.specs.Places.{shown_by};
ghost use Rattle.table_setting.specs.Masks.{masked_by};

use array::mark;
use array::mark::Mark;
use table::lent::Setting;

// Whether what is below a level is shown: it is set, and so is all above it.
fn still_shown(shown: bool, b: u8) -> bool
    ensures { result ≡ shown && set_test b }
{
    let mark = mark::mark_of(b);
    match mark {
        Mark::Null => false,
        Mark::Set => shown,
        Mark::Other => false,
    }
}

// Whether a setting has all its levels set, so that its bytes are kept.
pub fn all_set(cell_masks: &[u8]) -> bool
    ensures { result ≡ shown_by (λ l. get_or cell_masks.now l 0) (length cell_masks.now) }
{
    let mut shown = true;
    for b in cell_masks {
        shown = still_shown(shown, *b);
    }
    shown
}

// Stores the mask bytes of a setting, one in each plane of n bytes: 00 where it is not shown.
pub fn put_masks(masks: &mut [u8], n: usize, setting: Setting)
    requires { (length masks.old ≡ length setting.masks.now * n) × (setting.cell < n) × (n ≤ most_cells) × (length setting.masks.now ≤ 4) }
    ensures { masks.new ≡ masked_by n setting.entry.cell (λ l. get_or setting.entry.masks.now l 0) (length setting.entry.masks.now) masks.old }
{
    let mut shown = true;
    let mut place = setting.cell;
    for b in setting.masks {
        masks[place] = if shown { *b } else { 0 };
        shown = still_shown(shown, *b);
        place += n;
    }
}
