ghost use Rattle.std.specs.Prelude.{◌≡◌};
ghost use Rattle.rules.specs.Calls.{uncounted};
ghost use Rattle.seals.specs.SealedVisit.{sr1_written};

use card::store_card::StoreCard;
use rules::refusal::Refusal;

// Writes SR-1.
pub(crate) fn write_sr1<C: StoreCard>(card: &mut C, low: bool, value: u8) -> Result<(), Refusal>
    ensures chip { C.chip card.new ≡ (sr1_written (C.chip card.old) low value).chip }
    ensures outcome { result ≡ (sr1_written (C.chip card.old) low value).outcome }
{
    let answer = card.transact(&[0x01, 0xa0, value], low, &mut []);
    uncounted(answer)
}

// The outcome alone.
fn uncounted(answer: Result<usize, Refusal>) -> Result<(), Refusal>
    ensures { result ≡ uncounted answer }
{
    answer.map(|_driven| ())
}
