// Outputs as they are lent: filled beforehand, and looked through afterwards.
ghost use Rattle.std.specs.Prelude.{◌≡◌, ◌&&◌, ◌≤◌, length, drop, eqb, leb, nat_le, if◌then◌else◌, None, Some, IfSome};
ghost use Rattle.std.specs.List.{list_all};

use array::answer::Lengths;
use array::content::ArrayBytes;
use array::refusal::Refusal;
use table::answer::TableLengths;
use table::lent::Table;

// What every byte and every number of a lent output is beforehand.
const BLANK: u8 = 238;

const BLANK_NUMBER: u64 = 17216961135462248174;

// Whether all elements are the same as one.
fn all_same<T: PartialEq>(out: &[T], blank: &T) -> bool
    ensures { result ≡ list_all (λ x. T.eq x blank.now) out.now }
{
    out.iter().all(|x| x == blank)
}

// Whether those from `from` on are.
fn all_from<T: PartialEq>(out: &[T], from: usize, blank: &T) -> bool
    ensures { result ≡ (leb from (length out.now) && list_all (λ x. T.eq x blank.now) (drop from out.now)) }
{
    from <= out.len() && all_same(&out[from..], blank)
}

// Whether the bytes from `from` on are as they were lent, blank each.
fn blank_bytes(out: &[u8], from: usize) -> bool
    ensures { result ≡ (leb from (length out.now)
        && list_all (λ x. eqb x 238) (drop from out.now)) }
{
    all_from(out, from, &BLANK)
}

fn blank_numbers(out: &[u64], from: usize) -> bool
    ensures { result ≡ (leb from (length out.now)
        && list_all (λ x. eqb x 17216961135462248174) (drop from out.now)) }
{
    all_from(out, from, &BLANK_NUMBER)
}

// The outputs of a call, as it is lent them.
#[derive(Drop)]
pub struct LentArray<'a> {
    pub masks: &'a mut [u8],
    pub values: &'a mut [u8],
    pub offsets: &'a mut [u64],
}

// Whether the lent values from `from` on are as they were lent: the bytes of the request where the call works in place, else blank.
fn kept_values(in_place: Option<&[u8]>, values: &[u8], from: usize) -> bool {
    let Some(bytes) = in_place else {
        return blank_bytes(values, from);
    };
    match (values.get(from..), bytes.get(from..)) {
        (Some(values), Some(bytes)) => values == bytes,
        _ => false,
    }
}

// What is lent in place: what the request has, or blank where it has another length.
fn lend_in_place<T: Copy + Drop>(out: &mut [T], list: &[T], blank: T) {
    if out.len() == list.len() {
        out.copy_from_slice(list);
        return;
    }
    // not `fill`, as in `text::scan::read_run`
    for x in out {
        *x = blank;
    }
}

impl LentArray<'_> {
    // The outputs as they are.
    pub(crate) fn now(&self) -> ArrayBytes<'_> {
        ArrayBytes {
            masks: self.masks,
            values: self.values,
            offsets: self.offsets,
        }
    }

    // The outputs before the call, with the bytes of the request in the values where the call works in place.
    pub fn lend(&mut self, in_place: Option<&[u8]>) {
        self.masks.fill(BLANK);
        lend_in_place(self.values, in_place.unwrap_or(&[]), BLANK);
        self.offsets.fill(BLANK_NUMBER);
    }

    // Whether the outputs beyond some lengths are as they were lent.
    fn kept_beyond(&self, in_place: Option<&[u8]>, lengths: Lengths) -> bool {
        blank_bytes(self.masks, lengths.masks)
            && kept_values(in_place, self.values, lengths.values)
            && blank_numbers(self.offsets, lengths.offsets)
    }

    // Whether the outputs are as they were lent beyond the lengths that an answer names; a refusal names none.
    pub fn kept(&self, in_place: Option<&[u8]>, answer: Result<Lengths, Refusal>) -> bool {
        let none = Lengths {
            masks: 0,
            values: 0,
            offsets: 0,
        };
        self.kept_beyond(in_place, answer.unwrap_or(none))
    }
}

// A working table, as a call is lent it.
#[derive(Drop)]
pub struct LentTable<'a> {
    pub masks: &'a mut [u8],
    pub starts: &'a mut [u64],
    pub lengths: &'a mut [u64],
    pub store: &'a mut [u8],
}

impl LentTable<'_> {
    // The outputs for a table before the call.
    pub fn lend_blank(&mut self) {
        self.masks.fill(BLANK);
        self.starts.fill(BLANK_NUMBER);
        self.lengths.fill(BLANK_NUMBER);
        self.store.fill(BLANK);
    }

    // A table in place before the call.
    pub fn lend(&mut self, table: Table<'_>) {
        lend_in_place(self.masks, table.masks, BLANK);
        lend_in_place(self.starts, table.starts, BLANK_NUMBER);
        lend_in_place(self.lengths, table.lengths, BLANK_NUMBER);
        lend_in_place(self.store, table.store, BLANK);
    }

    // Whether it is as it was handed over.
    pub fn is(&self, table: Table<'_>) -> bool {
        *self.masks == *table.masks
            && *self.starts == *table.starts
            && *self.lengths == *table.lengths
            && *self.store == *table.store
    }

    // Whether the outputs beyond some lengths are as they were lent.
    pub fn is_blank_beyond(&self, lengths: TableLengths) -> bool {
        blank_bytes(self.masks, lengths.masks)
            && blank_numbers(self.starts, lengths.starts)
            && blank_numbers(self.lengths, lengths.lengths)
            && blank_bytes(self.store, lengths.store)
    }
}

// A length of an output to lend, if there is as much.
fn within(n: u64, all: usize) -> Option<usize>
    ensures value { result ≡ (if nat_le n all then Some n else None) }
    ensures small { IfSome result (λ k. k ≤ all) }
{
    (n <= all as u64).then_some(n as usize)
}

// The lengths that a request names; none where one is beyond what there is.
pub fn rooms_of(
    m: u64,
    v: u64,
    o: u64,
    masks: usize,
    values: usize,
    offsets: usize,
) -> Option<Lengths>
    ensures { IfSome result (λ r. (r.masks ≤ masks) × (r.values ≤ values) × (r.offsets ≤ offsets)) }
{
    let masks = within(m, masks)?;
    let values = within(v, values)?;
    let offsets = within(o, offsets)?;
    Some(Lengths {
        masks,
        values,
        offsets,
    })
}

// The same of a working table: masks and store within so many bytes, starts and lengths within so many numbers.
pub fn table_rooms(
    m: u64,
    s: u64,
    l: u64,
    b: u64,
    bytes: usize,
    numbers: usize,
) -> Option<TableLengths>
    ensures { IfSome result (λ r. (r.masks ≤ bytes) × (r.starts ≤ numbers) × (r.lengths ≤ numbers) × (r.store ≤ bytes)) }
{
    let masks = within(m, bytes)?;
    let starts = within(s, numbers)?;
    let lengths = within(l, numbers)?;
    let store = within(b, bytes)?;
    Some(TableLengths {
        masks,
        starts,
        lengths,
        store,
    })
}
