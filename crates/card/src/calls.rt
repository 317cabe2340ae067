ghost use Rattle.card.specs.View.{view};

use crate::card::Card;
use crate::store_card::StoreCard;
use arrays::array::Array;
use frames::decode::decode;
use parts::area::silence;
use rules::flags::Flags;
use rules::refusal::Refusal;

impl<M: Array, O: Array> StoreCard for Card<M, O> {
    ghost chip = { view M.meaning O.meaning };

    fn transact(&mut self, sent: &[u8], low: bool, area: &mut [u8]) -> Result<usize, Refusal> {
        if !self.is_fit() {
            silence(area);
            return Err(Refusal::Unfit);
        }
        match decode(sent) {
            Ok(frame) => {
                let decided = self.decide(low, frame);
                self.carry_out(frame.instruction, decided, area)
            }
            Err(refusal) => {
                silence(area);
                Err(Refusal::from(refusal))
            }
        }
    }

    fn step(&mut self) -> u8 {
        match &mut self.pending {
            None => 0,
            Some(pending) if pending.left > 1 => {
                pending.left -= 1;
                pending.left
            }
            Some(pending) => {
                let operation = pending.operation;
                self.finish(operation);
                0
            }
        }
    }

    fn power_cycle(&mut self) -> u8 {
        self.sr1 = self.sr1.after_power(self.locks.sr1);
        self.flags = Flags::power_up();
        self.pending = None;
        self.load_row_0();
        0
    }
}
