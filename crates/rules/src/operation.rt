ghost use Rattle.std.specs.Prelude.{◌≡◌, Some};
ghost use Rattle.rules.specs.Operations.{steps, begun};

use crate::locks::Locks;

// A page that a row names.
#[derive(Clone, Copy, PartialEq, Eq, Debug)]
pub enum Place {
    // of the main array, by the block address
    Main { address: usize, page: usize },
    // of the OTP array's one block
    Otp { page: usize },
}

// What waits for its last step.
#[derive(Clone, Copy, PartialEq, Eq, Debug)]
pub enum Operation {
    // the page goes into the page buffer
    Load(Place),
    // the two addresses are linked
    Swap { first: u16, second: u16 },
    // the page buffer is programmed into the page
    Program(Place),
    // the block that the address reaches is erased
    Erase { address: usize },
    // these lock bits are set
    Lock(Locks),
}

// The counter: `left` steps of an operation are left, and the last one acts.
#[derive(Clone, Copy, PartialEq, Eq, Debug)]
pub struct Pending {
    pub operation: Operation,
    pub left: u8,
}

impl Operation {
    pub fn steps(self) -> u8
        ensures { result ≡ steps self }
    {
        match self {
            Operation::Load(_) => 1,
            Operation::Swap { .. } => 2,
            Operation::Program(_) | Operation::Lock(_) => 4,
            Operation::Erase { .. } => 16,
        }
    }

    // The counter when the operation is taken.
    pub fn begin(self) -> Pending
        ensures { Some result ≡ begun self }
    {
        Pending {
            operation: self,
            left: self.steps(),
        }
    }
}
