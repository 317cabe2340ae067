ghost use Rattle.std.specs.Prelude.{◌≡◌, true, false, not, ◌&&◌, ◌||◌, Ok, Err, if◌then◌else◌};
ghost use Rattle.frames.specs.Frames.{read_register, write_register, swap, at_row};
ghost use Rattle.frames.specs.Views.{values};
ghost use Rattle.links.specs.Links.{partner as partner_of};
ghost use Rattle.rules.specs.Chip.{sealed};
ghost use Rattle.rules.specs.declared.refusal.Refusal.TheVariants.{UnknownRegister};
ghost use Rattle.rules.specs.Registers.{is_sr1, is_sr2, is_sr3};
ghost use Rattle.rules.specs.Refusals.{first, refusals, sealed_row, is_fixed_row, partner_sealed, sr1_shut, lock_shut};
ghost use Rattle.card.specs.View.{view};
ghost use Rattle.card.specs.Judged.{judged};

use crate::card::Card;
use arrays::array::Array;
use frames::frame::Frame;
use frames::instruction::{Instruction, RowOperation};
use parts::instructions::taken_while_busy;
use rules::refusal::Refusal;
use rules::register::Register;

// Refusal 6 of a register read.
fn judge_read(address: u8) -> Result<(), Refusal>
    ensures { result ≡ (if not (is_sr1 address || (is_sr2 address || is_sr3 address)) then Err UnknownRegister else Ok tt) }
{
    Register::try_from(address)?;
    Ok(())
}

// What the seal covers.
impl<M: Array, O: Array> Card<M, O> {
    // Does the seal cover the address?
    fn seals(&self, address: usize) -> bool
        ensures { result ≡ sealed (view M.meaning O.meaning self.now).lasting self.now.sr1.0 address }
    {
        self.sr1.seals(self.main.blocks(), address)
    }

    // Does it cover the address that the row names?
    fn seals_row(&self, row: u16) -> bool
        ensures { result ≡ sealed_row (view M.meaning O.meaning self.now) row }
    {
        self.seals(self.rows().address(row))
    }

    // Does it cover the present partner of the address?
    fn seals_partner(&self, address: usize) -> bool
        ensures { result ≡ partner_sealed (view M.meaning O.meaning self.now) (partner_of (M.meaning self.now.main.array).blocks self.now.main.table address) }
    {
        let partner = self.main.table.partner(self.main.blocks(), address);
        partner.is_some_and(|partner| self.seals(partner))
    }
}

// The refusals that depend on an instruction's own values.
impl<M: Array, O: Array> Card<M, O> {
    // May 10h not go to the row?
    fn shuts_program(&self, row: u16) -> bool
        ensures { result ≡ (if self.now.flags.otp_e then is_fixed_row row || self.now.locks.otp else sealed_row (view M.meaning O.meaning self.now) row) }
    {
        if self.flags.otp_e {
            row < 2 || self.locks.otp
        } else {
            self.seals_row(row)
        }
    }

    // Refusals 9, 10 and 11 at 10h, D8h and 13h.
    fn judge_row(&self, operation: RowOperation, row: u16) -> Result<(), Refusal>
        ensures { result ≡ judged (view M.meaning O.meaning self.now) false (at_row operation row) }
    {
        let outer = self.flags.otp_e && row > 11;
        match operation {
            RowOperation::Program if !self.flags.wel => Err(Refusal::LatchClear),
            RowOperation::Program if outer => Err(Refusal::RowOutside),
            RowOperation::Program if self.shuts_program(row) => Err(Refusal::RowProtected),
            RowOperation::Erase if !self.flags.wel => Err(Refusal::LatchClear),
            RowOperation::Erase if self.flags.otp_e || self.seals_row(row) => {
                Err(Refusal::RowProtected)
            }
            RowOperation::Fetch if outer => Err(Refusal::RowOutside),
            RowOperation::Program | RowOperation::Erase | RowOperation::Fetch => Ok(()),
        }
    }

    // Refusals 12 to 15.
    fn judge_swap(&self, first: u16, second: u16) -> Result<(), Refusal>
        ensures { result ≡ judged (view M.meaning O.meaning self.now) false (swap first second) }
    {
        self.main.allows(first, second)?;
        let (a, b) = (usize::from(first), usize::from(second));
        if self.seals(a) || self.seals(b) || self.seals_partner(a) {
            return Err(Refusal::SwapSealed);
        }
        Ok(())
    }

    // Can SR-1 not be written?
    fn shuts_sr1(&self, low: bool) -> bool
        ensures { result ≡ sr1_shut (view M.meaning O.meaning self.now) low }
    {
        let hardware = !self.sr1.srp1() && self.sr1.srp0();
        self.locks.sr1 || self.sr1.power_lock() || hardware && !self.sr1.wp_e() && low
    }

    // Can these lock bits not be set?
    fn shuts_lock(&self, value: u8) -> bool
        ensures { result ≡ lock_shut (view M.meaning O.meaning self.now) value }
    {
        let new = self.locks.new_by(value);
        let both = self.sr1.srp1() && self.sr1.srp0();
        new.any() && !self.flags.otp_e || new.sr1 && !both
    }

    // Refusals 6, 7 and 8.
    fn judge_write(&self, low: bool, address: u8, value: u8) -> Result<(), Refusal>
        ensures { result ≡ judged (view M.meaning O.meaning self.now) low (write_register address value) }
    {
        match Register::try_from(address)? {
            Register::Sr1 if self.shuts_sr1(low) => Err(Refusal::RegisterProtected),
            Register::Sr2 if self.shuts_lock(value) => Err(Refusal::LockForbidden),
            Register::Sr1 | Register::Sr2 | Register::Sr3 => Ok(()),
        }
    }

    // The refusals that depend on the instruction's own values.
    fn judge(&self, low: bool, instruction: Instruction<'_>) -> Result<(), Refusal>
        ensures { result ≡ judged (view M.meaning O.meaning self.now) low (values instruction.entry) }
    {
        match instruction {
            Instruction::ReadRegister { address } => judge_read(address),
            Instruction::WriteRegister { address, value } => self.judge_write(low, address, value),
            Instruction::Swap { first, second } => self.judge_swap(first, second),
            Instruction::AtRow { operation, row } => self.judge_row(operation, row),
            Instruction::LoadBuffer { .. } if !self.flags.wel => Err(Refusal::LatchClear),
            Instruction::Plain(_)
            | Instruction::LoadBuffer { .. }
            | Instruction::ReadBuffer { .. } => Ok(()),
        }
    }

    // What becomes of a transaction with this frame.
    pub(crate) fn decide(&self, low: bool, frame: Frame<'_>) -> Result<(), Refusal>
        ensures { result ≡ first (refusals (view M.meaning O.meaning self.now) low (values frame.entry.instruction) true true (frame.entry.flags.quad || (low && frame.entry.flags.write))) }
    {
        if !self.is_fit() {
            Err(Refusal::Unfit)
        } else if self.is_busy() && !taken_while_busy(frame.instruction) {
            Err(Refusal::Busy)
        } else if self.sr1.wp_e() && (frame.flags.quad || low && frame.flags.write) {
            Err(Refusal::PinProtected)
        } else {
            self.judge(low, frame.instruction)
        }
    }
}
