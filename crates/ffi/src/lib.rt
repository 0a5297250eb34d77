// The C interface: each public call as an exported function over numbers and slices. The result is the refusal number, 0 for
// success; lengths are written on success only, in the order of the lists. Nothing is asked of the numbers
// and bytes handed over; what holds of the pointers is in include/durpaxeta.h, under SLICES and MEMORY.
#![tactic(auto)]

ghost use Rattle.std.specs.Prelude.{◌≡◌, []};
ghost use Rattle.array.specs.Meaning.{told};
ghost use Rattle.valid.specs.Numbers.{told_kind, numbered_kind, numbered_index};
ghost use Rattle.array.specs.Outcome.{content_array, content_ragged};
ghost use Rattle.array.specs.Calls.{endianness_reversed};
ghost use Rattle.array.specs.Calls.{subset_cells};
ghost use Rattle.codec.specs.Calls.{encoded, decoded, interleaved_decoded, interleaved_encoded};
ghost use Rattle.load.specs.Calls.{generated};
ghost use Rattle.arrange.specs.Calls.{arranged};
ghost use Rattle.chunks.specs.Calls.{extracted, merged, partially_decoded};
ghost use Rattle.migrate.specs.Calls.{migrate_step, migrate_extract};
ghost use Rattle.migrate_check.specs.Meaning.{live_by};
ghost use Rattle.migrate_step.specs.Meaning.{told_step, lent_by};
ghost use Rattle.table.specs.Calls.{made, read_out, cell_set, previewed, answered, cells_packed};
ghost use Rattle.table.specs.Meaning.{table_by};
ghost use Rattle.rights.specs.Calls.{guest_read, guest_edit};
ghost use Rattle.ffi.specs.Exported.{handed, with_given, by_index, status_of, one_length, two_lengths, three_lengths, four_lengths, preview_lengths, export_one, export_two, export_three, export_four, export_moved, export_preview, export_set, step_lengths, export_step};

use array::answer::{Lengths, RaggedLengths};
use array::content::ArrayBytes;
use array::kind::Kind;
use array::refusal::Refusal;
use migrate_check::stored::LiveTable;
use migrate_step::Step;
use table::answer::{Preview, TableLengths};
use table::lent::{Setting, Table};

// A kind as numbers: form 0 fixed, 1 ragged; size is the cell size or the index width; order 0 little or start, 1 big or end; mask 0
// bytes, 1 packed.
#[repr(C)]
#[derive(Clone, Copy)]
pub struct DpxKind {
    pub depth: u64,
    pub form: u64,
    pub size: u64,
    pub order: u64,
    pub mask: u64,
}

// A kind that a caller hands over.
fn kind_of(kind: DpxKind) -> Result<Kind, Refusal>
    ensures { told_kind result ≡ numbered_kind kind.depth kind.form kind.size kind.order kind.mask }
{
    valid::numbers::kind_from_numbers(kind.depth, kind.form, kind.size, kind.order, kind.mask)
}

// ---- an answer, handed over: C is told a number, and lengths that stay where that is a refusal. A function for each answer, as each writes other
// fields; over a trait these bodies would be its impls.

fn put_length(answer: Result<usize, Refusal>, lengths: &mut [u64; 1]) -> u32
    ensures status { result ≡ status_of (told answer) }
    ensures lengths { lengths.new ≡ one_length (told answer) lengths.old }
{
    match answer {
        Err(e) => e.number() as u32,
        Ok(n) => {
            lengths[0] = n as u64;
            0
        }
    }
}

fn put_two_lengths(answer: Result<RaggedLengths, Refusal>, lengths: &mut [u64; 2]) -> u32
    ensures status { result ≡ status_of (told answer) }
    ensures lengths { lengths.new ≡ two_lengths (told answer) lengths.old }
{
    match answer {
        Err(e) => e.number() as u32,
        Ok(n) => {
            lengths[0] = n.values as u64;
            lengths[1] = n.offsets as u64;
            0
        }
    }
}

fn put_three_lengths(answer: Result<Lengths, Refusal>, lengths: &mut [u64; 3]) -> u32
    ensures status { result ≡ status_of (told answer) }
    ensures lengths { lengths.new ≡ three_lengths (told answer) lengths.old }
{
    match answer {
        Err(e) => e.number() as u32,
        Ok(n) => {
            lengths[0] = n.masks as u64;
            lengths[1] = n.values as u64;
            lengths[2] = n.offsets as u64;
            0
        }
    }
}

fn put_four_lengths(answer: Result<TableLengths, Refusal>, lengths: &mut [u64; 4]) -> u32
    ensures status { result ≡ status_of (told answer) }
    ensures lengths { lengths.new ≡ four_lengths (told answer) lengths.old }
{
    match answer {
        Err(e) => e.number() as u32,
        Ok(n) => {
            lengths[0] = n.masks as u64;
            lengths[1] = n.starts as u64;
            lengths[2] = n.lengths as u64;
            lengths[3] = n.store as u64;
            0
        }
    }
}

fn put_preview(answer: Result<Preview, Refusal>, lengths: &mut [u64; 2]) -> u32
    ensures status { result ≡ status_of (told answer) }
    ensures lengths { lengths.new ≡ preview_lengths (told answer) lengths.old }
{
    match answer {
        Err(e) => e.number() as u32,
        Ok(preview) => {
            lengths[0] = preview.total as u64;
            lengths[1] = preview.unpacked as u64;
            0
        }
    }
}

// Where no chunk was old, none is moved more than before.
fn put_step(answer: Result<Step, Refusal>, moved: u64, lengths: &mut [u64; 2]) -> u32
    ensures status { result ≡ status_of (told_step answer) }
    ensures lengths { lengths.new ≡ step_lengths moved (told_step answer) lengths.old }
{
    match answer {
        Err(e) => e.number() as u32,
        Ok(Step::NoneLeft) => {
            lengths[0] = 0;
            lengths[1] = moved;
            0
        }
        Ok(Step::Moved { bytes, moved }) => {
            lengths[0] = bytes as u64;
            lengths[1] = moved;
            0
        }
    }
}

// A setting names nothing.
fn status_of(answer: Result<(), Refusal>) -> u32
    ensures { result ≡ status_of (told answer) }
{
    match answer {
        Err(e) => e.number() as u32,
        Ok(()) => 0,
    }
}

// ---- the calls. Each matches on its kind: `?` returns a `Result`, and C is told a number.

#[unsafe(no_mangle)]
pub extern "C" fn dpx_encode(
    kind: DpxKind,
    shape: &[u64],
    masks: &[u8],
    values: &[u8],
    offsets: &[u64],
    out: &mut [u8],
    lengths: &mut [u64; 1],
) -> u32
    ensures { handed result lengths.new out.new
        ≡ export_one (with_given (numbered_kind kind.depth kind.form kind.size kind.order kind.mask) out.old
        (λ k. encoded k shape.now (content_array masks.now values.now offsets.now) out.old)) lengths.old }
{
    match kind_of(kind) {
        Err(e) => e.number() as u32,
        Ok(k) => {
            let array = ArrayBytes {
                masks,
                values,
                offsets,
            };
            let answer = encode::encode(k, shape, array, out);
            put_length(answer, lengths)
        }
    }
}

#[unsafe(no_mangle)]
pub extern "C" fn dpx_decode(
    kind: DpxKind,
    shape: &[u64],
    bytes: &[u8],
    masks: &mut [u8],
    values: &mut [u8],
    offsets: &mut [u64],
    lengths: &mut [u64; 3],
) -> u32
    ensures { handed result lengths.new (content_array masks.new values.new offsets.new)
        ≡ export_three (with_given (numbered_kind kind.depth kind.form kind.size kind.order kind.mask)
        (content_array masks.old values.old offsets.old)
        (λ k. decoded k shape.now bytes.now (content_array masks.old values.old offsets.old))) lengths.old }
{
    match kind_of(kind) {
        Err(e) => e.number() as u32,
        Ok(k) => {
            let answer = decode::decode(k, shape, bytes, masks, values, offsets);
            put_three_lengths(answer, lengths)
        }
    }
}

#[unsafe(no_mangle)]
pub extern "C" fn dpx_decode_interleaved(
    cells: u64,
    bytes: &[u8],
    values: &mut [u8],
    offsets: &mut [u64],
    lengths: &mut [u64; 2],
) -> u32
    ensures { handed result lengths.new (content_ragged values.new offsets.new)
        ≡ export_two (interleaved_decoded cells bytes.now (content_ragged values.old offsets.old)) lengths.old }
{
    let answer = decode_interleaved::vlen_v2::decode_interleaved(cells, bytes, values, offsets);
    put_two_lengths(answer, lengths)
}

#[unsafe(no_mangle)]
pub extern "C" fn dpx_encode_interleaved(
    kind: DpxKind,
    shape: &[u64],
    masks: &[u8],
    values: &[u8],
    offsets: &[u64],
    out: &mut [u8],
    lengths: &mut [u64; 1],
) -> u32
    ensures { handed result lengths.new out.new
        ≡ export_one (with_given (numbered_kind kind.depth kind.form kind.size kind.order kind.mask) out.old
        (λ k. interleaved_encoded k shape.now (content_array masks.now values.now offsets.now) out.old)) lengths.old }
{
    match kind_of(kind) {
        Err(e) => e.number() as u32,
        Ok(k) => {
            let array = ArrayBytes {
                masks,
                values,
                offsets,
            };
            let answer = encode_interleaved::write::encode_interleaved(k, shape, array, out);
            put_length(answer, lengths)
        }
    }
}

#[unsafe(no_mangle)]
pub extern "C" fn dpx_generate(
    kind: DpxKind,
    shape: &[u64],
    start: u32,
    masks: &mut [u8],
    values: &mut [u8],
    offsets: &mut [u64],
    lengths: &mut [u64; 3],
) -> u32
    ensures { handed result lengths.new (content_array masks.new values.new offsets.new)
        ≡ export_three (with_given (numbered_kind kind.depth kind.form kind.size kind.order kind.mask)
        (content_array masks.old values.old offsets.old)
        (λ k. generated k shape.now start (content_array masks.old values.old offsets.old))) lengths.old }
{
    match kind_of(kind) {
        Err(e) => e.number() as u32,
        Ok(k) => {
            let answer = generate::generate(k, shape, start, masks, values, offsets);
            put_three_lengths(answer, lengths)
        }
    }
}

#[unsafe(no_mangle)]
pub extern "C" fn dpx_arrangement(
    depth: u64,
    cells: u64,
    number: u64,
    masks: &mut [u8],
    values: &mut [u8],
    offsets: &mut [u64],
    lengths: &mut [u64; 3],
) -> u32
    ensures { handed result lengths.new (content_array masks.new values.new offsets.new)
        ≡ export_three (arranged depth cells number (content_array masks.old values.old offsets.old)) lengths.old }
{
    let answer = arrangement::arrangement(depth, cells, number, masks, values, offsets);
    put_three_lengths(answer, lengths)
}

// Ten parameters, as in C: each slice is a pointer and a count, and each lent buffer is its own.
#[unsafe(no_mangle)]
pub extern "C" fn dpx_extract(
    kind: DpxKind,
    shape: &[u64],
    subset: &[u64],
    masks: &[u8],
    values: &[u8],
    offsets: &[u64],
    out_masks: &mut [u8],
    out_values: &mut [u8],
    out_offsets: &mut [u64],
    lengths: &mut [u64; 3],
) -> u32
    ensures { handed result lengths.new (content_array out_masks.new out_values.new out_offsets.new)
        ≡ export_three (with_given (numbered_kind kind.depth kind.form kind.size kind.order kind.mask)
        (content_array out_masks.old out_values.old out_offsets.old)
        (λ k. extracted k shape.now subset.now (content_array masks.now values.now offsets.now)
        (content_array out_masks.old out_values.old out_offsets.old))) lengths.old }
{
    match kind_of(kind) {
        Err(e) => e.number() as u32,
        Ok(k) => {
            let array = ArrayBytes {
                masks,
                values,
                offsets,
            };
            let answer = extract::extract(
                k,
                shape,
                subset,
                array,
                out_masks,
                out_values,
                out_offsets,
            );
            put_three_lengths(answer, lengths)
        }
    }
}

// Ten parameters, as `dpx_extract`.
#[unsafe(no_mangle)]
pub extern "C" fn dpx_merge(
    kind: DpxKind,
    shape: &[u64],
    subsets: &[u64],
    masks: &[u8],
    values: &[u8],
    offsets: &[u64],
    out_masks: &mut [u8],
    out_values: &mut [u8],
    out_offsets: &mut [u64],
    lengths: &mut [u64; 3],
) -> u32
    ensures { handed result lengths.new (content_array out_masks.new out_values.new out_offsets.new)
        ≡ export_three (with_given (numbered_kind kind.depth kind.form kind.size kind.order kind.mask)
        (content_array out_masks.old out_values.old out_offsets.old)
        (λ k. merged k shape.now subsets.now (content_array masks.now values.now offsets.now)
        (content_array out_masks.old out_values.old out_offsets.old))) lengths.old }
{
    match kind_of(kind) {
        Err(e) => e.number() as u32,
        Ok(k) => {
            let array = ArrayBytes {
                masks,
                values,
                offsets,
            };
            let answer = merge::merge(k, shape, subsets, array, out_masks, out_values, out_offsets);
            put_three_lengths(answer, lengths)
        }
    }
}

#[unsafe(no_mangle)]
pub extern "C" fn dpx_partial_decode(
    width: u64,
    place: u64,
    shape: &[u64],
    subset: &[u64],
    bytes: &[u8],
    values: &mut [u8],
    offsets: &mut [u64],
    lengths: &mut [u64; 2],
) -> u32
    ensures { handed result lengths.new (content_ragged values.new offsets.new)
        ≡ export_two (with_given (numbered_index width place) (content_ragged values.old offsets.old)
        (by_index (content_ragged values.old offsets.old) (λ w p. partially_decoded w p shape.now subset.now bytes.now (content_ragged values.old offsets.old)))) lengths.old }
{
    match valid::numbers::index_from_numbers(width, place) {
        Err(e) => e.number() as u32,
        Ok((w, p)) => {
            let answer = partial::vlen_partial::partial_decode(
                w, p, shape, subset, bytes, values, offsets,
            );
            put_two_lengths(answer, lengths)
        }
    }
}

#[unsafe(no_mangle)]
pub extern "C" fn dpx_reverse_endianness(size: u64, bytes: &mut [u8], lengths: &mut [u64; 1]) -> u32
    ensures { handed result lengths.new bytes.new ≡ export_one (endianness_reversed size bytes.old) lengths.old }
{
    let answer = endian::reverse_endianness(size as usize, bytes);
    put_length(answer, lengths)
}

#[unsafe(no_mangle)]
pub extern "C" fn dpx_subset_cells(
    shape: &[u64],
    subset: &[u64],
    cells: &mut [u64],
    lengths: &mut [u64; 1],
) -> u32
    ensures { handed result lengths.new cells.new ≡ export_one (subset_cells shape.now subset.now cells.old) lengths.old }
{
    let answer = subset::subset_cells(shape, subset, cells);
    put_length(answer, lengths)
}

// ---- the calls on working tables

// Ten parameters, as `dpx_extract`.
#[unsafe(no_mangle)]
pub extern "C" fn dpx_table_make(
    kind: DpxKind,
    cells: u64,
    masks: &[u8],
    values: &[u8],
    offsets: &[u64],
    out_masks: &mut [u8],
    out_starts: &mut [u64],
    out_cell_lengths: &mut [u64],
    store: &mut [u8],
    lengths: &mut [u64; 4],
) -> u32
    ensures { handed result lengths.new (table_by out_masks.new out_starts.new out_cell_lengths.new store.new)
        ≡ export_four (with_given (numbered_kind kind.depth kind.form kind.size kind.order kind.mask)
        (table_by out_masks.old out_starts.old out_cell_lengths.old store.old)
        (λ k. made k cells (content_array masks.now values.now offsets.now)
        (table_by out_masks.old out_starts.old out_cell_lengths.old store.old))) lengths.old }
{
    match kind_of(kind) {
        Err(e) => e.number() as u32,
        Ok(k) => {
            let array = ArrayBytes {
                masks,
                values,
                offsets,
            };
            let answer = table_make::make_table(
                k,
                cells as usize,
                array,
                out_masks,
                out_starts,
                out_cell_lengths,
                store,
            );
            put_four_lengths(answer, lengths)
        }
    }
}

// Ten parameters, as `dpx_extract`.
#[unsafe(no_mangle)]
pub extern "C" fn dpx_table_read(
    kind: DpxKind,
    cells: u64,
    masks: &[u8],
    starts: &[u64],
    cell_lengths: &[u64],
    store: &[u8],
    out_masks: &mut [u8],
    out_values: &mut [u8],
    out_offsets: &mut [u64],
    lengths: &mut [u64; 3],
) -> u32
    ensures { handed result lengths.new (content_array out_masks.new out_values.new out_offsets.new)
        ≡ export_three (with_given (numbered_kind kind.depth kind.form kind.size kind.order kind.mask)
        (content_array out_masks.old out_values.old out_offsets.old)
        (λ k. read_out k cells (table_by masks.now starts.now cell_lengths.now store.now)
        (content_array out_masks.old out_values.old out_offsets.old))) lengths.old }
{
    match kind_of(kind) {
        Err(e) => e.number() as u32,
        Ok(k) => {
            let table = Table {
                masks,
                starts,
                lengths: cell_lengths,
                store,
            };
            let answer = table_read::read_table(
                k,
                cells as usize,
                table,
                out_masks,
                out_values,
                out_offsets,
            );
            put_three_lengths(answer, lengths)
        }
    }
}

// Nine parameters, as in C.
#[unsafe(no_mangle)]
pub extern "C" fn dpx_table_set(
    kind: DpxKind,
    cells: u64,
    masks: &mut [u8],
    starts: &mut [u64],
    cell_lengths: &mut [u64],
    store: &mut [u8],
    cell: u64,
    cell_masks: &[u8],
    value: &[u8],
) -> u32
    ensures { handed result [] (table_by masks.new starts.new cell_lengths.new store.new)
        ≡ export_set (with_given (numbered_kind kind.depth kind.form kind.size kind.order kind.mask)
        (table_by masks.old starts.old cell_lengths.old store.old)
        (λ k. cell_set k cells (table_by masks.old starts.old cell_lengths.old store.old)
        cell cell_masks.now value.now)) }
{
    match kind_of(kind) {
        Err(e) => e.number() as u32,
        Ok(k) => {
            let setting = Setting {
                cell: cell as usize,
                masks: cell_masks,
                value,
            };
            let answer = table_set::set_cell(
                k,
                cells as usize,
                masks,
                starts,
                cell_lengths,
                store,
                setting,
            );
            status_of(answer)
        }
    }
}

// The parameters of dpx_table_set, nothing in place, and the lengths.
#[unsafe(no_mangle)]
pub extern "C" fn dpx_table_preview(
    kind: DpxKind,
    cells: u64,
    masks: &[u8],
    starts: &[u64],
    cell_lengths: &[u64],
    store: &[u8],
    cell: u64,
    cell_masks: &[u8],
    value: &[u8],
    lengths: &mut [u64; 2],
) -> u32
    ensures { handed result lengths.new tt
        ≡ export_preview (with_given (numbered_kind kind.depth kind.form kind.size kind.order kind.mask) tt
        (λ k. answered (previewed k cells (table_by masks.now starts.now cell_lengths.now store.now)
        cell cell_masks.now value.now))) lengths.old }
{
    match kind_of(kind) {
        Err(e) => e.number() as u32,
        Ok(k) => {
            let table = Table {
                masks,
                starts,
                lengths: cell_lengths,
                store,
            };
            let setting = Setting {
                cell: cell as usize,
                masks: cell_masks,
                value,
            };
            let answer = table_preview::preview_cell(k, cells as usize, table, setting);
            put_preview(answer, lengths)
        }
    }
}

#[unsafe(no_mangle)]
pub extern "C" fn dpx_table_pack(
    kind: DpxKind,
    cells: u64,
    masks: &[u8],
    starts: &mut [u64],
    cell_lengths: &[u64],
    store: &mut [u8],
    most: u64,
    lengths: &mut [u64; 1],
) -> u32
    ensures { handed result lengths.new (table_by masks.now starts.new cell_lengths.now store.new)
        ≡ export_moved (with_given (numbered_kind kind.depth kind.form kind.size kind.order kind.mask)
        (table_by masks.now starts.old cell_lengths.now store.old)
        (λ k. cells_packed k cells (table_by masks.now starts.old cell_lengths.now store.old) most)) lengths.old }
{
    match kind_of(kind) {
        Err(e) => e.number() as u32,
        Ok(k) => {
            let answer = table_pack::pack_table(
                k,
                cells as usize,
                masks,
                starts,
                cell_lengths,
                store,
                most as usize,
            );
            put_length(answer, lengths)
        }
    }
}

#[unsafe(no_mangle)]
pub extern "C" fn dpx_guest_read(
    kind: DpxKind,
    shape: &[u64],
    rights: &[u8],
    masks: &[u8],
    values: &[u8],
    offsets: &[u64],
    out_masks: &mut [u8],
    out_values: &mut [u8],
    out_offsets: &mut [u64],
    lengths: &mut [u64; 3],
) -> u32
    ensures { handed result lengths.new (content_array out_masks.new out_values.new out_offsets.new)
        ≡ export_three (with_given (numbered_kind kind.depth kind.form kind.size kind.order kind.mask)
        (content_array out_masks.old out_values.old out_offsets.old)
        (λ k. guest_read k shape.now rights.now (content_array masks.now values.now offsets.now)
        (content_array out_masks.old out_values.old out_offsets.old))) lengths.old }
{
    match kind_of(kind) {
        Err(e) => e.number() as u32,
        Ok(k) => {
            let array = ArrayBytes {
                masks,
                values,
                offsets,
            };
            let answer = guest_read::guest_read(
                k,
                shape,
                rights,
                array,
                out_masks,
                out_values,
                out_offsets,
            );
            put_three_lengths(answer, lengths)
        }
    }
}

#[unsafe(no_mangle)]
pub extern "C" fn dpx_guest_edit(
    kind: DpxKind,
    cells: u64,
    rights: &[u8],
    masks: &mut [u8],
    starts: &mut [u64],
    cell_lengths: &mut [u64],
    store: &mut [u8],
    cell: u64,
    cell_masks: &[u8],
    value: &[u8],
) -> u32
    ensures { handed result [] (table_by masks.new starts.new cell_lengths.new store.new)
        ≡ export_set (with_given (numbered_kind kind.depth kind.form kind.size kind.order kind.mask)
        (table_by masks.old starts.old cell_lengths.old store.old)
        (λ k. guest_edit k cells rights.now (table_by masks.old starts.old cell_lengths.old store.old)
        cell cell_masks.now value.now)) }
{
    match kind_of(kind) {
        Err(e) => e.number() as u32,
        Ok(k) => {
            let setting = Setting {
                cell: cell as usize,
                masks: cell_masks,
                value,
            };
            let answer = guest_edit::guest_edit(
                k,
                cells as usize,
                rights,
                masks,
                starts,
                cell_lengths,
                store,
                setting,
            );
            status_of(answer)
        }
    }
}

// ---- the calls on live tables

#[unsafe(no_mangle)]
pub extern "C" fn dpx_migrate_step(
    shape: &[u64],
    subsets: &[u64],
    old_lengths: &[u64],
    old: &[u8],
    moved: u64,
    moved_lengths: &mut [u64],
    area: &mut [u8],
    lengths: &mut [u64; 2],
) -> u32
    ensures { handed result lengths.new (lent_by moved_lengths.new area.new)
        ≡ export_step moved (migrate_step
        (live_by shape.now subsets.now old_lengths.now old.now moved moved_lengths.old area.old)) lengths.old }
{
    let table = LiveTable {
        shape,
        subsets,
        old_lengths,
        old,
    };
    let answer = migrate_step::migrate_step(table, moved, moved_lengths, area);
    put_step(answer, moved, lengths)
}

// Ten parameters, as `dpx_extract`.
#[unsafe(no_mangle)]
pub extern "C" fn dpx_migrate_extract(
    shape: &[u64],
    subsets: &[u64],
    subset: &[u64],
    old_lengths: &[u64],
    old: &[u8],
    moved: u64,
    moved_lengths: &[u64],
    area: &[u8],
    values: &mut [u8],
    offsets: &mut [u64],
    lengths: &mut [u64; 2],
) -> u32
    ensures { handed result lengths.new (content_ragged values.new offsets.new)
        ≡ export_two (migrate_extract
        (live_by shape.now subsets.now old_lengths.now old.now moved moved_lengths.now area.now)
        subset.now (content_ragged values.old offsets.old)) lengths.old }
{
    let table = LiveTable {
        shape,
        subsets,
        old_lengths,
        old,
    };
    let answer = migrate_extract::migrate_extract(
        table,
        subset,
        moved,
        moved_lengths,
        area,
        values,
        offsets,
    );
    put_two_lengths(answer, lengths)
}
