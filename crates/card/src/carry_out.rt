ghost use Rattle.std.specs.Prelude.{◌≡◌, length};
ghost use Rattle.frames.specs.Views.{values};
ghost use Rattle.rules.specs.Calls.{reply, answer};
ghost use Rattle.card.specs.View.{view};

use crate::card::Card;
use arrays::array::Array;
use frames::instruction::Instruction;
use parts::area::silence;
use rules::refusal::Refusal;

impl<M: Array, O: Array> Card<M, O> {
    // Does what was decided of an instruction: drives and acts, or refuses.
    pub(crate) fn carry_out(
        &mut self,
        instruction: Instruction<'_>,
        decided: Result<(), Refusal>,
        area: &mut [u8],
    ) -> Result<usize, Refusal>
        ensures chip { view M.meaning O.meaning self.new ≡ (reply (view M.meaning O.meaning self.old) (values instruction.entry) decided (length area.old)).chip }
        ensures answer { result ≡ answer (reply (view M.meaning O.meaning self.old) (values instruction.entry) decided (length area.old)) }
        ensures area { area.new ≡ (reply (view M.meaning O.meaning self.old) (values instruction.entry) decided (length area.old)).area }
    {
        match decided {
            Ok(()) => {
                let driven = self.drive(instruction, area);
                self.act(instruction);
                Ok(driven)
            }
            Err(refusal) => {
                silence(area);
                self.refuse(refusal, instruction);
                Err(refusal)
            }
        }
    }
}
