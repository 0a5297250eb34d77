// A guest's edit: the setting of a cell that its rights plane shows.
#![tactic(auto)]

ghost use Rattle.std.specs.Prelude.{◌≡◌};
ghost use Rattle.array.specs.Meaning.{kind_of, number_of};
ghost use Rattle.table.specs.Calls.{previewed};
ghost use Rattle.table.specs.Meaning.{table_by, lent_table, outcome_settled};
ghost use Rattle.rights.specs.Calls.{guest_edit};
ghost use Rattle.guest_edit.specs.Hidden.{hidden_number};

use array::kind::Kind;
use array::refusal::Refusal;
use rights::plane::hides;
use table::lent::{Setting, Table};
use table_kind::TableShape;
use table_preview::preview_cell;
use table_set::set_cell;
use valid::masks::are_strict;

// What refuses the setting of a hidden cell, by a preview of it: what comes before 18, but not that the store is full, which comes behind it.
fn refuse_hidden(kind: Kind, cells: usize, table: Table, setting: Setting) -> Refusal
    ensures { number_of result
        ≡ hidden_number (previewed (kind_of kind) cells (lent_table table.entry) setting.entry.cell setting.entry.masks.now setting.entry.value.now) }
{
    match preview_cell(kind, cells, table, setting) {
        Ok(_) => Refusal::Hidden,
        Err(Refusal::Full) => Refusal::Hidden,
        Err(e) => e,
    }
}

// Sets a cell of a working table for a guest with these rights. Refusals 1, 2, 17, 4, 5, 15, 18 and 16, in this order; nothing changes before
// the last check. The four slices stay beside each other, as those of `set_cell` do.
pub fn guest_edit(
    kind: Kind,
    cells: usize,
    rights: &[u8],
    masks: &mut [u8],
    starts: &mut [u64],
    lengths: &mut [u64],
    store: &mut [u8],
    setting: Setting,
) -> Result<(), Refusal>
    ensures { outcome_settled result masks.new starts.new lengths.new store.new
        ≡ guest_edit (kind_of kind) cells rights.now (table_by masks.old starts.old lengths.old store.old)
        setting.entry.cell setting.entry.masks.now setting.entry.value.now }
{
    TableShape::new(kind, cells)?;
    if kind.depth == 0 {
        return Err(Refusal::NoMasks);
    }
    if !are_strict(rights, cells) {
        return Err(Refusal::Content);
    }
    if hides(rights, setting.cell) {
        let table = Table {
            masks,
            starts,
            lengths,
            store,
        };
        return Err(refuse_hidden(kind, cells, table, setting));
    }
    set_cell(kind, cells, masks, starts, lengths, store, setting)
}
