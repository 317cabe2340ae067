ghost use Rattle.std.specs.Prelude.{◌≡◌};
ghost use Rattle.rules.specs.declared.operation.Operation.TheVariants.{Load, Swap, Program, Erase, Lock};
ghost use Rattle.rules.specs.Operations.{finished};
ghost use Rattle.card.specs.View.{view};

use crate::card::Card;
use arrays::array::Array;
use arrays::error::ArrayError;
use rules::locks::Locks;
use rules::operation::{Operation, Place};

impl<M: Array, O: Array> Card<M, O> {
    // The last step of a load: the page goes into the page buffer, which stays as it is where there is none.
    fn finish_load(&mut self, place: Place)
        ensures { view M.meaning O.meaning self.new ≡ finished (Load place) (view M.meaning O.meaning self.old) }
    {
        let _ = match place {
            Place::Main { address, page } => self.main.read(address, page, &mut self.buffer),
            Place::Otp { page } => self.otp.read(0, page, &mut self.buffer),
        };
        self.flags.wel = false;
        self.pending = None;
    }

    // The last step of a swap: the two addresses are linked, if they still may be.
    fn finish_swap(&mut self, first: u16, second: u16)
        ensures { view M.meaning O.meaning self.new ≡ finished (Swap first second) (view M.meaning O.meaning self.old) }
    {
        let _ = self.main.swap(first, second);
        self.pending = None;
    }

    // The last step of a program: the page buffer is programmed into the page.
    fn finish_program(&mut self, place: Place)
        ensures { view M.meaning O.meaning self.new ≡ finished (Program place) (view M.meaning O.meaning self.old) }
    {
        let programmed = match place {
            Place::Main { address, page } => self.main.program(address, page, &self.buffer),
            Place::Otp { page } => self.otp.program(0, page, &self.buffer),
        };
        self.flags = self
            .flags
            .program_ended(programmed == Err(ArrayError::Worn));
        self.pending = None;
    }

    // The last step of an erase: the block that the address reaches is erased.
    fn finish_erase(&mut self, address: usize)
        ensures { view M.meaning O.meaning self.new ≡ finished (Erase address) (view M.meaning O.meaning self.old) }
    {
        let erased = self.main.erase(address);
        self.flags = self.flags.erase_ended(erased == Err(ArrayError::Worn));
        self.pending = None;
    }

    // The last step of a lock: the new lock bits are set.
    fn finish_lock(&mut self, locks: Locks)
        ensures { view M.meaning O.meaning self.new ≡ finished (Lock locks) (view M.meaning O.meaning self.old) }
    {
        self.locks = self.locks.and(locks);
        self.pending = None;
    }

    // The last step of an operation.
    pub(crate) fn finish(&mut self, operation: Operation)
        ensures { view M.meaning O.meaning self.new ≡ finished operation (view M.meaning O.meaning self.old) }
    {
        match operation {
            Operation::Load(place) => self.finish_load(place),
            Operation::Swap { first, second } => self.finish_swap(first, second),
            Operation::Program(place) => self.finish_program(place),
            Operation::Erase { address } => self.finish_erase(address),
            Operation::Lock(locks) => self.finish_lock(locks),
        }
    }
}
