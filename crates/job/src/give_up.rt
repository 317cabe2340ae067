ghost use Rattle.std.specs.Prelude.{◌≡◌};
ghost use Rattle.seals.specs.SealedVisit.{sr1_written};

use crate::sr1::write_sr1;
use crate::state::Job;
use card::store_card::StoreCard;
use rules::refusal::Refusal;

impl<Stage: Drop> Job<Stage> {
    // Writes the kept byte back, which ends the job even if it is refused.
    pub fn give_up<C: StoreCard>(self, card: &mut C, low: bool) -> Result<(), Refusal>
        ensures chip { C.chip card.new ≡ (sr1_written (C.chip card.old) low self.kept).chip }
        ensures outcome { result ≡ (sr1_written (C.chip card.old) low self.kept).outcome }
    {
        let Job { kept, stage: _ } = self;
        write_sr1(card, low, kept)
    }
}
