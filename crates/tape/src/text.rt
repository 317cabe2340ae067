ghost use Rattle.std.specs.Prelude.{◌≡◌, ◌+◌, ◌*◌, ◌<◌, ◌≤◌, [], ◌∷◌, ◌++◌, length};
ghost use Rattle.tape.specs.Hex.{hex_text};
ghost use Rattle.tape.specs.Views.{kept};

use crate::hex::encode;
use std::marker::Model;

// One byte more than the longest record, and enough for two numbers of three digits, two blanks and 64 bytes.
pub const CAPACITY: usize = 137;

// The text of a line or of an answer.
// An array and a count, since a text is `Copy` and the kit's `ArrayVec` is not.
#[derive(Clone, Copy)]
pub struct Text {
    bytes: [u8; CAPACITY],
    filled: usize,
}

impl Model for Text {
    ghost use Rattle.std.specs.Prelude.{ℕ, ◌-◌, List, ◌++◌, length, take, replicate};
    ghost use Rattle.tape.specs.Filled.{IsFilled, bytes_back, filled_back};

    ghost Value = { List ℕ };

    ghost view = { λ text. take text.filled text.bytes };

    ghost invariant = { λ text. IsFilled text.bytes text.filled };

    // The bytes past a text are 0, so a text gives its array back.
    ghost inverse = { λ xs. record { bytes = xs ++ replicate (137 - length xs) 0; filled = length xs } };

    ghost inverse_ok = { λ text h i. record {
      bytes = bytes_back text.bytes text.filled h i;
      filled = filled_back text.bytes text.filled h i;
    } };
}

impl Text {
    // An empty text.
    pub fn new() -> Text
        ensures { result ≡ [] }
    {
        Text {
            bytes: [0; CAPACITY],
            filled: 0,
        }
    }

    pub fn as_bytes(&self) -> &[u8]
        ensures bytes { result.now ≡ self.now }
        ensures bound { length result.now ≤ 137 }
    {
        &self.bytes[..self.filled]
    }

    // Adds a byte, if there is room for it.
    pub fn keep(&mut self, byte: u8)
        ensures { self.new ≡ kept self.old byte }
    {
        if self.filled < CAPACITY {
            self.push_byte(byte);
        }
    }

    // Adds a byte that there is room for.
    pub(crate) fn push_byte(&mut self, byte: u8)
        requires { length self.old < 137 }
        ensures { self.new ≡ self.old ++ (byte ∷ []) }
    {
        self.bytes[self.filled] = byte;
        self.filled += 1;
    }

    // Adds bytes that there is room for.
    pub(crate) fn push(&mut self, bytes: &[u8])
        requires { length self.old + length bytes.now ≤ 137 }
        ensures { self.new ≡ self.old ++ bytes.now }
    {
        let end = self.filled + bytes.len();
        self.bytes[self.filled..end].copy_from_slice(bytes);
        self.filled = end;
    }

    // Adds two digits for each of these bytes, that there is room for.
    pub(crate) fn push_hex(&mut self, bytes: &[u8])
        requires { length self.old + 2 * length bytes.now ≤ 137 }
        ensures { self.new ≡ self.old ++ hex_text bytes.now }
    {
        let end = self.filled + 2 * bytes.len();
        encode(bytes, &mut self.bytes[self.filled..end]);
        self.filled = end;
    }
}
