ghost use Rattle.std.specs.Prelude.{◌≡◌};
ghost use Rattle.frames.specs.Views.{values};
ghost use Rattle.rules.specs.Registers.{with_sr2, sr2, sr3};
ghost use Rattle.rules.specs.FlagChanges.{power_up_flags, with_wel, reset_flags, no_fails, program_ended, erase_ended};
ghost use Rattle.rules.specs.Effects.{simple_effect, row_failed, refused_flags};

use crate::bits::{is_set, weighs};
use crate::locks::Locks;
use crate::refusal::Refusal;
use frames::instruction::{Instruction, RowOperation, Simple};

// The bits of SR-2 and SR-3 that a power cycle resets.
#[derive(Clone, Copy, PartialEq, Eq, Debug)]
pub struct Flags {
    // rows name pages of the OTP array
    pub otp_e: bool,
    // kept and read back, without effect
    pub ecc_e: bool,
    // the latch: write enable
    pub wel: bool,
    pub p_fail: bool,
    pub e_fail: bool,
}

// What changes them.
impl Flags {
    // After a power cycle.
    pub fn power_up() -> Flags
        ensures { result ≡ power_up_flags }
    {
        Flags {
            otp_e: false,
            ecc_e: true,
            wel: false,
            p_fail: false,
            e_fail: false,
        }
    }

    // The latch is set or cleared.
    pub fn with_wel(self, wel: bool) -> Flags
        ensures { result ≡ with_wel wel self }
    {
        Flags { wel, ..self }
    }

    // What a reset leaves.
    fn reset(self) -> Flags
        ensures { result ≡ reset_flags self }
    {
        Flags {
            otp_e: false,
            wel: false,
            ..self.without_fails()
        }
    }

    // Both FAIL bits are cleared.
    pub fn without_fails(mut self) -> Flags
        ensures { result ≡ no_fails self }
    {
        self.p_fail = false;
        self.e_fail = false;
        self
    }

    // The end of a program.
    pub fn program_ended(self, failed: bool) -> Flags
        ensures { result ≡ program_ended failed self }
    {
        Flags {
            wel: false,
            p_fail: failed || self.p_fail,
            ..self
        }
    }

    // The end of an erase: another bit than that of a program, so it is no case of one function with it.
    pub fn erase_ended(self, failed: bool) -> Flags
        ensures { result ≡ erase_ended failed self }
    {
        Flags {
            wel: false,
            e_fail: failed || self.e_fail,
            ..self
        }
    }

    // A write of SR-2 sets OTP-E and ECC-E at once.
    pub fn with_sr2(self, value: u8) -> Flags
        ensures { result ≡ with_sr2 value self }
    {
        Flags {
            otp_e: is_set(6, value),
            ecc_e: is_set(4, value),
            ..self
        }
    }

    // After a code alone is taken.
    pub fn after_simple(self, simple: Simple) -> Flags
        ensures { result ≡ simple_effect simple self }
    {
        match simple {
            Simple::Reset => self.reset(),
            Simple::EnableWrite => self.with_wel(true),
            Simple::DisableWrite => self.with_wel(false),
            Simple::Identify | Simple::ListLinks => self,
        }
    }

    // After a protected row is refused to an operation.
    fn row_failed(self, operation: RowOperation) -> Flags
        ensures { result ≡ row_failed operation self }
    {
        match operation {
            RowOperation::Program => self.program_ended(true),
            RowOperation::Erase => self.erase_ended(true),
            RowOperation::Fetch => self,
        }
    }

    // After a refusal: only that of a protected row changes them.
    pub fn after_refusal(self, refusal: Refusal, instruction: Instruction<'_>) -> Flags
        ensures { result ≡ refused_flags refusal (values instruction.entry) self }
    {
        match (refusal, instruction) {
            (Refusal::RowProtected, Instruction::AtRow { operation, .. }) => {
                self.row_failed(operation)
            }
            _ => self,
        }
    }
}

// How registers read.
impl Flags {
    // SR-2, in which BUF reads 1.
    pub fn sr2(self, locks: Locks) -> u8
        ensures { result ≡ sr2 locks.otp locks.sr1 self }
    {
        weighs(locks.otp, 128)
            + weighs(self.otp_e, 64)
            + weighs(locks.sr1, 32)
            + weighs(self.ecc_e, 16)
            + 8
    }

    // SR-3, in which LUT-F says that the link table is full.
    pub fn sr3(self, full: bool, busy: bool) -> u8
        ensures { result ≡ sr3 full self busy }
    {
        weighs(full, 64)
            + weighs(self.p_fail, 8)
            + weighs(self.e_fail, 4)
            + weighs(self.wel, 2)
            + weighs(busy, 1)
    }
}
