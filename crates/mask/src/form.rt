// Stored masks, over their form: a byte a cell or a bit a cell. No other crate knows how a mask lies in stored bytes.
ghost use Rattle.std.specs.Prelude.{◌≡◌, true, ◌+◌, ◌≤◌, length, take, drop};
ghost use Rattle.array.specs.Buffers.{over_at};
ghost use Rattle.array.specs.Meaning.{masks_of, told};
ghost use Rattle.codec.specs.Mask.{mask_form};
ghost use Rattle.codec.specs.Frame.{count_set};
ghost use Rattle.codec.specs.MaskAt.{stored_mask, said_mask};
ghost use Rattle.mask.specs.Marks.{counted_in};

use crate::strict;
use array::kind::MaskForm;
use array::refusal::Refusal;
use buffer::copy;
use mask_bits::packed;
use mask_marks::count_set;

// Stored bytes of the mask of so many cells.
pub fn mask_length(form: MaskForm, cells: usize) -> usize
    ensures { result ≡ (mask_form (masks_of form)).size cells }
{
    match form {
        MaskForm::Bytes => cells,
        MaskForm::Packed => packed::bytes_for(cells),
    }
}

// Writes what the stored mask of n cells at `at` says of them into the plane at `to`.
pub fn copy_to_plane(form: MaskForm, planes: &mut [u8], to: usize, s: &[u8], at: usize, n: usize)
    requires { (to + n ≤ length planes.old) × (at + (mask_form (masks_of form)).size n ≤ length s.now) }
    ensures { planes.new ≡ over_at to (said_mask (mask_form (masks_of form)) s.now at n) planes.old }
{
    match form {
        MaskForm::Bytes => copy::copy_many(planes, to, s, at, n),
        MaskForm::Packed => mask_unpack::unpack(planes, to, s, at, n),
    }
}

// Writes the stored mask of the n cells of the plane at `at`.
pub fn put_plane(form: MaskForm, out: &mut [u8], to: usize, planes: &[u8], at: usize, n: usize)
    requires { (to + (mask_form (masks_of form)).size n ≤ length out.old) × (at + n ≤ length planes.now) }
    ensures { out.new ≡ over_at to ((mask_form (masks_of form)).put (take n (drop at planes.now))) out.old }
{
    match form {
        MaskForm::Bytes => copy::copy_many(out, to, planes, at, n),
        MaskForm::Packed => mask_pack::pack(out, to, planes, at, n),
    }
}

// How many cells the stored mask of n cells at `at` sets, which passed its check.
pub fn count_stored(form: MaskForm, s: &[u8], at: usize, n: usize) -> usize
    requires room { at + (mask_form (masks_of form)).size n ≤ length s.now }
    requires passed { (mask_form (masks_of form)).test (stored_mask (mask_form (masks_of form)) s.now at n) n ≡ true }
    ensures { result ≡ count_set (said_mask (mask_form (masks_of form)) s.now at n) }
{
    match form {
        MaskForm::Bytes => {
            let end = at + n;
            count_set(&s[at..end])
        }
        MaskForm::Packed => packed::count_packed(s, at, n),
    }
}

// Checks the stored mask of n cells at `at`, and counts those that it sets.
pub fn check_mask(form: MaskForm, s: &[u8], at: usize, n: usize) -> Result<usize, Refusal>
    requires { at + (mask_form (masks_of form)).size n ≤ length s.now }
    ensures { told result ≡ counted_in (mask_form (masks_of form)) (stored_mask (mask_form (masks_of form)) s.now at n) n }
{
    match form {
        MaskForm::Bytes => {
            let end = at + n;
            strict::count_strict(&s[at..end])
        }
        MaskForm::Packed => {
            if !packed::unused_clear(s, at, n) {
                return Err(Refusal::UnusedBits);
            }
            Ok(packed::count_packed(s, at, n))
        }
    }
}
