// Text in a room of a fixed size, cut off where that is full.
ghost use Rattle.std.specs.Prelude.{◌≡◌, ◌≤◌, ◌+◌, ◌++◌, [], length, take, IfSome, OnOk};

use std::fmt;
use std::fmt::{Display, Write};
use std::marker::Model;

// What was written of a text, byte for byte, up to the N bytes that there is room for.
#[derive(Drop)]
pub struct Cut<const N: usize> {
    room: [u8; N],
    len: usize,
}

impl<const N: usize> Model for Cut<N> {
    ghost use Rattle.std.specs.Prelude.{ℕ, List, ◌≤◌, take};

    ghost Value = { List ℕ };

    ghost view = { λ s. take s.len s.room };

    ghost invariant = { λ s. s.len ≤ N };
}

impl<const N: usize> Cut<N> {
    pub fn new() -> Cut<N>
        ensures { result ≡ [] }
    {
        Cut {
            room: [0; N],
            len: 0,
        }
    }

    // What a value shows as, in place of what stood there.
    pub fn show<D: Display + Drop>(&mut self, shown: D) -> fmt::Result
        ensures { OnOk result (IfSome (D.output shown) (λ text. self.new ≡ take N text)) }
    {
        self.len = 0;
        self.write(shown)
    }

    // Bytes for which there is room.
    #[inline(always)]
    fn push(&mut self, bytes: &[u8])
        requires { length self.old + length bytes.now ≤ N }
        ensures { self.new ≡ self.old ++ bytes.now }
    {
        let end = self.len + bytes.len();
        let room = &mut self.room[..];
        room[self.len..end].copy_from_slice(bytes);
        self.len = end;
    }

    pub fn as_bytes(&self) -> &[u8]
        ensures { result.now ≡ self.now }
    {
        &self.room[..self.len]
    }
}

// What there is no room for is dropped, and nothing fails.
impl<const N: usize> Write for Cut<N> {
    ghost write_str_gives = { λ s text t. t ≡ take N (s ++ text) };

    #[inline(always)]
    fn write_str(&mut self, text: &str) -> fmt::Result {
        let bytes = text.as_bytes();
        let left = N - self.len;
        if bytes.len() <= left {
            self.push(bytes);
        } else {
            self.push(&bytes[..left]);
        }
        Ok(())
    }
}
