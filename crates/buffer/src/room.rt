// Whether an output is long enough.
ghost use Rattle.std.specs.Prelude.{◌≡◌, ◌≤◌, ℕ, leb};

// Whether as many bytes as `count` finds have room. They are at most `most`: where those have it, nothing need be counted.
#[inline(always)]
pub fn has_room<F: FnOnce() -> usize>(most: usize, room: usize, count: F) -> bool
    requires { F.IsAlwaysCallable count }
    ensures { (bytes : ℕ) → ((n : ℕ) → F.post count n → n ≡ bytes) → bytes ≤ most → result ≡ leb bytes room }
{
    most <= room || count() <= room
}
