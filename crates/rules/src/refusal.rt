ghost use Rattle.std.specs.Prelude.{◌≡◌, Some};
ghost use Rattle.rules.specs.Outcomes.{outcome_number, refusal_number, refusal_place, of_frame, of_swap, part_word};

use frames::refusal::FrameRefusal;
use links::swap::SwapError;
use std::fmt;

// Why a transaction is refused, in the order in which the reasons are tried, by which they are numbered.
#[derive(Clone, Copy, PartialEq, Eq, Debug)]
pub enum Refusal {
    Unfit = 1,
    UnlistedCode = 2,
    WrongCount = 3,
    Busy = 4,
    PinProtected = 5,
    UnknownRegister = 6,
    RegisterProtected = 7,
    LockForbidden = 8,
    LatchClear = 9,
    RowOutside = 10,
    RowProtected = 11,
    SwapOutside = 12,
    SwapLinked = 13,
    TableFull = 14,
    SwapSealed = 15,
}

// The part of the card that refuses.
#[derive(Clone, Copy, PartialEq, Eq, Debug)]
pub enum RefusalPlace {
    Card,
    Frame,
    Counter,
    Pin,
    Register,
    Latch,
    Address,
    Links,
}

impl Refusal {
    // 1 to 15.
    pub fn number(self) -> u8
        ensures { result ≡ refusal_number self }
    {
        self as u8
    }

    pub fn place(self) -> RefusalPlace
        ensures { result ≡ refusal_place self }
    {
        match self {
            Refusal::Unfit => RefusalPlace::Card,
            Refusal::UnlistedCode | Refusal::WrongCount => RefusalPlace::Frame,
            Refusal::Busy => RefusalPlace::Counter,
            Refusal::PinProtected => RefusalPlace::Pin,
            Refusal::UnknownRegister | Refusal::RegisterProtected | Refusal::LockForbidden =>
                RefusalPlace::Register,
            Refusal::LatchClear => RefusalPlace::Latch,
            Refusal::RowOutside | Refusal::RowProtected => RefusalPlace::Address,
            Refusal::SwapOutside | Refusal::SwapLinked | Refusal::TableFull | Refusal::SwapSealed =>
                RefusalPlace::Links,
        }
    }
}

// What becomes of a transaction, as a number: 0 if it is taken, else that of the refusal.
pub fn outcome_number<T: Drop>(outcome: Result<T, Refusal>) -> u8
    ensures { result ≡ outcome_number outcome }
{
    match outcome {
        Ok(_) => 0,
        Err(refusal) => refusal.number(),
    }
}

impl From<SwapError> for Refusal {
    ghost from_gives = { λ error r. r ≡ of_swap error };

    fn from(error: SwapError) -> Refusal {
        match error {
            SwapError::Outside => Refusal::SwapOutside,
            SwapError::Linked => Refusal::SwapLinked,
            SwapError::Full => Refusal::TableFull,
        }
    }
}

impl From<FrameRefusal> for Refusal {
    ghost from_gives = { λ refusal r. r ≡ of_frame refusal };

    fn from(refusal: FrameRefusal) -> Refusal {
        match refusal {
            FrameRefusal::UnlistedCode => Refusal::UnlistedCode,
            FrameRefusal::WrongCount => Refusal::WrongCount,
        }
    }
}

impl RefusalPlace {
    // The word for it.
    pub fn as_str(self) -> &'static str
        ensures { result.now ≡ part_word self }
    {
        match self {
            RefusalPlace::Card => "card",
            RefusalPlace::Frame => "frame",
            RefusalPlace::Counter => "counter",
            RefusalPlace::Pin => "pin",
            RefusalPlace::Register => "register",
            RefusalPlace::Latch => "latch",
            RefusalPlace::Address => "address",
            RefusalPlace::Links => "links",
        }
    }
}

impl fmt::Display for RefusalPlace {
    ghost output = { λ place. Some (part_word place) };

    fn fmt<W: fmt::Write>(&self, f: &mut fmt::Formatter<W>) -> fmt::Result {
        f.write_str(self.as_str())
    }
}
