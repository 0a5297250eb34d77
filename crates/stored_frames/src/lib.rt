// Layer 2, frames read: the checking walk. It stores nothing, and tells where the innermost content lies.
// A frame: 8-byte mask length, 8-byte content length, the mask, the content.
#![tactic(auto)]

ghost use Rattle.std.specs.Prelude.{◌≡◌, ◌≤◌, length, drop};
ghost use Rattle.array.specs.Limits.{most_cells};
ghost use Rattle.array.specs.Meaning.{masks_of, told};
ghost use Rattle.codec.specs.Mask.{mask_form};
ghost use Rattle.stored_frames.specs.Walk.{opened, walked, walked_frame};

use array::kind::MaskForm;
use array::refusal::Refusal;
use buffer::field::read_u64;
use mask::form::{check_mask, mask_length};

// Opens the frame of so many cells at `at`: how many its content has. Its lengths are compared by what is left, so that no sum wraps.
pub fn open_frame(form: MaskForm, s: &[u8], at: usize, cells: usize) -> Result<usize, Refusal>
    requires { (at ≤ length s.now) × (cells ≤ most_cells) }
    ensures { told result ≡ opened (mask_form (masks_of form)) (drop at s.now) cells }
{
    let Ok(mask) = read_u64(s, at) else {
        return Err(Refusal::Short);
    };
    let Ok(content) = read_u64(s, at + 8) else {
        return Err(Refusal::Short);
    };
    let start = at + 16;
    let left = s.len() - start;
    let size = mask_length(form, cells);
    if mask != size as u64 {
        return Err(Refusal::Length);
    }
    if left < size {
        return Err(Refusal::Length);
    }
    if (left - size) as u64 != content {
        return Err(Refusal::Length);
    }
    check_mask(form, s, start, cells)
}

// Walks a content of so many cells: the values, or a frame again.
#[cycle(walk_content_walk_frame)]
pub fn walk_content(
    form: MaskForm,
    s: &[u8],
    at: usize,
    cells: usize,
    depth: usize,
) -> Result<(usize, usize), Refusal>
    requires { (at ≤ length s.now) × (cells ≤ most_cells) }
    ensures { told result ≡ walked (mask_form (masks_of form)) depth s.now at cells }
{
    if depth == 0 {
        Ok((at, cells))
    } else {
        walk_frame(form, s, at, cells, depth - 1)
    }
}

// Walks a frame of so many cells, with `below` levels in its content. Where none is set its content must be empty.
#[cycle(walk_content_walk_frame)]
#[tactic(auto, using(crate::proofs::Opening::frame_refused))]
pub fn walk_frame(
    form: MaskForm,
    s: &[u8],
    at: usize,
    cells: usize,
    below: usize,
) -> Result<(usize, usize), Refusal>
    requires { (at ≤ length s.now) × (cells ≤ most_cells) }
    ensures { told result ≡ walked_frame (mask_form (masks_of form)) below s.now at cells }
{
    let set = open_frame(form, s, at, cells)?;
    let content = at + (16 + mask_length(form, cells));
    if set > 0 {
        walk_content(form, s, content, set, below)
    } else if content != s.len() {
        Err(Refusal::Length)
    } else {
        Ok((content, 0))
    }
}
