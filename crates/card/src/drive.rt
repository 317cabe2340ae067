ghost use Rattle.std.specs.Prelude.{◌≡◌, min, length};
ghost use Rattle.frames.specs.Views.{values};
ghost use Rattle.rules.specs.Effects.{register, drives};
ghost use Rattle.rules.specs.Calls.{area_of};
ghost use Rattle.card.specs.View.{view};

use crate::card::Card;
use arrays::array::Array;
use frames::instruction::{Instruction, Simple};
use parts::area::{drive, drive_from, flood, identify, silence};
use rules::register::Register;

impl<M: Array, O: Array> Card<M, O> {
    // What the register that the address names reads; a taken address names one.
    fn register(&self, address: u8) -> u8
        ensures { result ≡ register (view M.meaning O.meaning self.now) address }
    {
        match Register::try_from(address) {
            Ok(Register::Sr1) => self.sr1.0,
            Ok(Register::Sr2) => self.flags.sr2(self.locks),
            Ok(Register::Sr3) | Err(_) => self.flags.sr3(self.main.table.is_full(), self.is_busy()),
        }
    }

    // Drives what the instruction drives, and tells how many bytes the area took.
    pub(crate) fn drive(&self, instruction: Instruction<'_>, area: &mut [u8]) -> usize
        ensures count { result ≡ min (length area.old) (length (drives (view M.meaning O.meaning self.now) (length area.old) (values instruction.entry))) }
        ensures after { area.new ≡ area_of (length area.old) (drives (view M.meaning O.meaning self.now) (length area.old) (values instruction.entry)) }
    {
        match instruction {
            Instruction::Plain(Simple::Identify) => identify(area),
            Instruction::Plain(Simple::ListLinks) => drive(area, &self.main.table.bytes()),
            Instruction::ReadRegister { address } => flood(area, self.register(address)),
            Instruction::ReadBuffer { column } => drive_from(area, &self.buffer, column),
            _ => silence(area),
        }
    }
}
