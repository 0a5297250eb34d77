// Whether a kind lies in its ranges.
ghost use Rattle.std.specs.Prelude.{◌≡◌};
ghost use Rattle.array.specs.Kind.{kind_test};
ghost use Rattle.array.specs.Meaning.{kind_of};

use array::kind::{Kind, Values};

// Most mask levels.
pub const MOST_DEPTH: u8 = 4;

// Most bytes of a fixed cell.
pub const MOST_SIZE: u8 = 64;

// Whether the fields of a kind lie in their ranges.
pub fn check_kind(kind: Kind) -> bool
    ensures { result ≡ kind_test (kind_of kind) }
{
    let depth = kind.depth;
    if depth > MOST_DEPTH {
        return false;
    }
    let values = kind.values;
    match values {
        Values::Fixed(size, _) => 1 <= size && size <= MOST_SIZE,
        Values::Ragged(_, _) => true,
    }
}
