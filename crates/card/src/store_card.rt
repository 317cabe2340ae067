ghost use Rattle.std.specs.Prelude.{◌≡◌, length};
ghost use Rattle.rules.specs.Chip.{Chip};
ghost use Rattle.rules.specs.Calls.{transact, answer, step, power_cycle};

use rules::refusal::Refusal;

// The three calls of a store card, by the rules. /WP stands beside the card, here and above, since its level is that of one transaction.
pub trait StoreCard {
    // the card as a chip of the rules
    ghost chip: { Self → Chip };

    // A transaction: the sent bytes, whether /WP is low, and an output area. Answers the count of driven bytes, or why it is refused.
    fn transact(&mut self, sent: &[u8], low: bool, area: &mut [u8]) -> Result<usize, Refusal>
        ensures chip { chip self.new ≡ (transact (chip self.old) sent.now low (length area.old)).chip }
        ensures answer { result ≡ answer (transact (chip self.old) sent.now low (length area.old)) }
        ensures area { area.new ≡ (transact (chip self.old) sent.now low (length area.old)).area };

    // Lowers the counter and answers the steps left, 0 when idle. Only the last step of an operation acts.
    fn step(&mut self) -> u8
        ensures after { chip self.new ≡ (step (chip self.old)).chip }
        ensures left { result ≡ (step (chip self.old)).left };

    // Takes power away and gives it back: drops what waits, and loads row 0 into the page buffer. Answers 0, as the rules have it.
    fn power_cycle(&mut self) -> u8
        ensures after { chip self.new ≡ power_cycle (chip self.old) }
        ensures answer { result ≡ 0 };
}
