ghost use Rattle.std.specs.Prelude.{◌≡◌, ◌≤◌, T};
ghost use Rattle.frames.specs.Instructions.{allowed};
ghost use Rattle.frames.specs.Coverage.{least_sent};

use crate::frame::Flags;
use crate::instruction::{RowOperation, Simple};

// What a code asks for.
#[derive(Clone, Copy)]
pub enum Group {
    Plain(Simple),
    ReadRegister,
    WriteRegister,
    Swap,
    AtRow(RowOperation),
    LoadBuffer { refill: bool },
    ReadBuffer,
}

// How many bytes are sent, the code among them.
#[derive(Clone, Copy)]
pub enum Count {
    Exactly(usize),
    AtLeast(usize),
}

impl Count {
    pub(crate) fn allows(self, sent: usize) -> bool
        ensures answer { result ≡ allowed self sent }
        ensures least { T result → least_sent self ≤ sent }
    {
        match self {
            Count::Exactly(count) => sent == count,
            Count::AtLeast(count) => count <= sent,
        }
    }
}

// A line of the instruction table: the code, what it asks for, how many bytes are sent, and its flags.
#[derive(Clone, Copy)]
pub struct Line(pub u8, pub Group, pub Count, pub Flags);
