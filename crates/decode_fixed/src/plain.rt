// Arrays of fixed values with no mask.
ghost use Rattle.std.specs.Prelude.{◌≡◌, List, ℕ, ◌≤◌};
ghost use Rattle.array.specs.Limits.{most_size};
ghost use Rattle.array.specs.Kind.{Masks, fixed};
ghost use Rattle.array.specs.Meaning.{order_of};
ghost use Rattle.array.specs.Outcome.{content_array, outcome_array};
ghost use Rattle.codec.specs.Mask.{mask_form};
ghost use Rattle.codec.specs.Calls.{read_in};
ghost use Rattle.decode_planes.specs.Limited.{Limited};
ghost use Rattle.array.specs.Buffers.{read_outcome};

use array::answer::Lengths;
use array::kind::ByteOrder;
use array::refusal::Refusal;
use endian::cells::copy_cells;

// Reads n of them: there is nothing to walk, and what is lent for masks stays.
pub fn read_plain(
    size: usize,
    order: ByteOrder,
    n: usize,
    s: &[u8],
    values: &mut [u8],
) -> Result<Lengths, Refusal>
    requires { Limited 0 n × (size ≤ most_size) }
    ensures { (x : Masks) (masks offsets : List ℕ) → outcome_array result masks values.new offsets
        ≡ read_outcome (content_array masks values.old offsets) (read_in (mask_form x) (fixed size (order_of order)) 0 n s.now) }
{
    let bytes = n * size;
    if s.len() != bytes {
        return Err(Refusal::Length);
    }
    if values.len() < bytes {
        return Err(Refusal::Output);
    }
    copy_cells(values, 0, s, 0, size, order, n);
    Ok(Lengths {
        masks: 0,
        values: bytes,
        offsets: 0,
    })
}
