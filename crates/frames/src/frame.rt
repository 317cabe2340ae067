use crate::instruction::Instruction;

// What the /WP pin has to do with a code: it may forbid one that writes, and a quad one needs the pin as a data line.
#[derive(Clone, Copy, PartialEq, Eq, Debug)]
pub struct Flags {
    pub write: bool,
    pub quad: bool,
}

impl Flags {
    pub const NONE: Flags = Flags {
        write: false,
        quad: false,
    };

    pub const WRITE: Flags = Flags {
        write: true,
        quad: false,
    };

    pub const QUAD: Flags = Flags {
        write: false,
        quad: true,
    };
}

// An instruction and the flags of its code.
#[derive(Clone, Copy, PartialEq, Eq, Debug)]
pub struct Frame<'a> {
    pub instruction: Instruction<'a>,
    pub flags: Flags,
}
