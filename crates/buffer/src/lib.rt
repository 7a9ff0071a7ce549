// Bytes in fixed memory: at most `N` of them, and how many there are. Nothing here allocates.
#![tactic(auto)]

ghost use Rattle.std.specs.Prelude.{◌≡◌, ℕ, ◌<◌, ◌≤◌, ◌↔◌, List, [], ◌∷◌, ◌++◌, length, IsTrue};
ghost use Rattle.buffer.specs.Held.{Fields, held, put_back};

use std::marker::Model;

#[derive(Clone, Copy)]
pub struct Buffer<const N: usize> {
    bytes: [u8; N],
    count: usize,
}

// Clauses see the bytes that are held. The places behind them are zero.
impl<const N: usize> Model for Buffer<N> {
    ghost Value = { List ℕ };

    ghost view = { λ b. held b.count b.bytes };

    ghost invariant = { λ b. Fields N b.count b.bytes };

    ghost inverse = { λ xs. record { bytes = put_back N xs; count = length xs } };
}

impl<const N: usize> Buffer<N> {
    // A buffer that holds nothing.
    pub fn new() -> Self
        ensures { result ≡ [] }
    {
        Buffer {
            bytes: [0; N],
            count: 0,
        }
    }

    // A buffer that holds a text.
    pub fn of(text: &[u8]) -> Self
        requires { length text.now ≤ N }
        ensures { result ≡ text.now }
    {
        let mut bytes = [0; N];
        bytes[..text.len()].copy_from_slice(text);
        Buffer {
            bytes,
            count: text.len(),
        }
    }

    pub fn len(&self) -> usize
        ensures len { result ≡ length self.now }
        ensures within { length self.now ≤ N }
    {
        self.count
    }

    pub fn is_full(&self) -> bool
        ensures full { IsTrue result ↔ (length self.now ≡ N) }
        ensures within { length self.now ≤ N }
    {
        self.len() == N
    }

    // Puts a byte behind those that are held.
    pub fn push(&mut self, byte: u8)
        requires { length self.old < N }
        ensures { self.new ≡ self.old ++ byte ∷ [] }
    {
        self.bytes[self.count] = byte;
        self.count += 1;
    }

    pub fn as_slice(&self) -> &[u8]
        ensures { result.now ≡ self.now }
    {
        &self.bytes[..self.count]
    }
}
