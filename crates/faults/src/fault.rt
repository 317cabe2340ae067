ghost use Rattle.std.specs.Prelude.{◌≡◌, Some};
ghost use Rattle.faults.specs.Faults.{fault_number, fault_place, fault_code, fault_column, place_word};

use rules::refusal::{Refusal, RefusalPlace};
use std::fmt;

// Why a deed of a job stopped.
#[derive(Clone, Copy, PartialEq, Eq, Debug)]
pub enum Cause {
    // the card refused the transaction with this code
    Refused { refusal: Refusal, code: u8 },
    // a byte string or a check area is not as long as a page
    WrongLength,
    // P-FAIL was read after a write
    Worn,
    // the page read differs, first at this column
    Differs { column: usize },
}

// Where a fault arose.
#[derive(Clone, Copy, PartialEq, Eq, Debug)]
pub enum FaultPlace {
    // in this part of the card
    Part(RefusalPlace),
    // in the job itself
    Job,
}

// The fault that a deed tells, with the row given to write or check, else 0.
#[derive(Clone, Copy, PartialEq, Eq, Debug)]
pub struct Fault {
    pub cause: Cause,
    pub row: u16,
}

impl Fault {
    // That of the refusal, or 16, 17 or 18.
    pub fn number(self) -> u8
        ensures { result ≡ fault_number self.cause }
    {
        match self.cause {
            Cause::Refused { refusal, .. } => refusal.number(),
            Cause::WrongLength => 16,
            Cause::Worn => 17,
            Cause::Differs { .. } => 18,
        }
    }

    pub fn place(self) -> FaultPlace
        ensures { result ≡ fault_place self.cause }
    {
        match self.cause {
            Cause::Refused { refusal, .. } => FaultPlace::Part(refusal.place()),
            Cause::WrongLength | Cause::Worn | Cause::Differs { .. } => FaultPlace::Job,
        }
    }

    // The code sent last, 0 if nothing was sent.
    pub fn code(self) -> u8
        ensures { result ≡ fault_code self.cause }
    {
        match self.cause {
            Cause::Refused { code, .. } => code,
            Cause::WrongLength => 0,
            Cause::Worn => 0x05,
            Cause::Differs { .. } => 0x03,
        }
    }

    // The first column that differs, else 0.
    pub fn column(self) -> usize
        ensures { result ≡ fault_column self.cause }
    {
        match self.cause {
            Cause::Differs { column } => column,
            Cause::Refused { .. } | Cause::WrongLength | Cause::Worn => 0,
        }
    }
}

impl FaultPlace {
    // The word for it.
    pub fn as_str(self) -> &'static str
        ensures { result.now ≡ place_word self }
    {
        match self {
            FaultPlace::Part(part) => part.as_str(),
            FaultPlace::Job => "job",
        }
    }
}

impl fmt::Display for FaultPlace {
    ghost output = { λ place. Some (place_word place) };

    fn fmt<W: fmt::Write>(&self, f: &mut fmt::Formatter<W>) -> fmt::Result {
        f.write_str(self.as_str())
    }
}
