ghost use Rattle.std.specs.Prelude.{◌≡◌, if◌then◌else◌, Ok, Err};
ghost use Rattle.frames.specs.Views.{values};
ghost use Rattle.frames.specs.Frames.{load_buffer};
ghost use Rattle.rules.specs.Effects.{written, row_effect};
ghost use Rattle.rules.specs.Chip.{blank_buffer, with_buffer};
ghost use Rattle.rules.specs.Calls.{chip_after};
ghost use Rattle.card.specs.View.{view, with_passing, passing_now};

use crate::card::Card;
use arrays::array::Array;
use frames::instruction::{Instruction, RowOperation};
use parts::buffer::put;
use rules::operation::Operation;
use rules::refusal::Refusal;
use rules::register::Register;
use rules::sr1::Sr1;

impl<M: Array, O: Array> Card<M, O> {
    // A taken write of a register: SR-3 takes none.
    fn write_register(&mut self, address: u8, value: u8)
        ensures { view M.meaning O.meaning self.new ≡ passing_now written (view M.meaning O.meaning self.old) address value }
    {
        match Register::try_from(address) {
            Ok(Register::Sr1) => self.sr1 = Sr1(value),
            Ok(Register::Sr2) => {
                self.flags = self.flags.with_sr2(value);
                self.pending = self.locks.new_by(value).begin_or(self.pending);
            }
            Ok(Register::Sr3) | Err(_) => {}
        }
    }

    // A taken 10h, D8h or 13h.
    fn begin_at_row(&mut self, operation: RowOperation, row: u16)
        ensures { view M.meaning O.meaning self.new ≡ passing_now row_effect (view M.meaning O.meaning self.old) operation row }
    {
        let rows = self.rows();
        let place = rows.place(self.flags.otp_e, row);
        match operation {
            RowOperation::Program => {
                self.flags = self.flags.without_fails();
                self.pending = Some(Operation::Program(place).begin());
            }
            RowOperation::Erase => {
                let address = rows.address(row);
                self.flags = self.flags.without_fails();
                self.pending = Some(Operation::Erase { address }.begin());
            }
            RowOperation::Fetch => self.pending = Some(Operation::Load(place).begin()),
        }
    }
}

impl<M: Array, O: Array> Card<M, O> {
    // FFh throughout, if all other bytes are to become FFh.
    fn blank_if(&mut self, refill: bool)
        ensures { view M.meaning O.meaning self.new ≡ with_passing (with_buffer (if refill then blank_buffer else self.old.buffer)) (view M.meaning O.meaning self.old) }
    {
        if refill {
            self.blank_buffer();
        }
    }

    // A taken load: the data goes into the buffer from the column on.
    fn load_buffer(&mut self, refill: bool, column: u16, data: &[u8])
        ensures { view M.meaning O.meaning self.new ≡ chip_after (view M.meaning O.meaning self.old) (load_buffer refill column «data».now) (Ok tt) }
    {
        self.blank_if(refill);
        put(&mut self.buffer, column, data);
    }

    // What a taken instruction does at once.
    pub(crate) fn act(&mut self, instruction: Instruction<'_>)
        ensures { view M.meaning O.meaning self.new ≡ chip_after (view M.meaning O.meaning self.old) (values instruction.entry) (Ok tt) }
    {
        match instruction {
            Instruction::Plain(simple) => self.flags = self.flags.after_simple(simple),
            Instruction::ReadRegister { .. } => {}
            Instruction::WriteRegister { address, value } => self.write_register(address, value),
            Instruction::Swap { first, second } => self.pending = Some(Operation::Swap {
                first,
                second,
            }.begin()),
            Instruction::AtRow { operation, row } => self.begin_at_row(operation, row),
            Instruction::LoadBuffer {
                refill,
                column,
                data,
            } => self.load_buffer(refill, column, data),
            Instruction::ReadBuffer { .. } => {}
        }
    }

    // What a refused instruction does: only a protected row leaves a trace.
    pub(crate) fn refuse(&mut self, refusal: Refusal, instruction: Instruction<'_>)
        ensures { view M.meaning O.meaning self.new ≡ chip_after (view M.meaning O.meaning self.old) (values instruction.entry) (Err refusal) }
    {
        self.flags = self.flags.after_refusal(refusal, instruction);
    }
}
