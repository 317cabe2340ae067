ghost use Rattle.std.specs.Prelude.{◌≡◌, length};
ghost use Rattle.acts.specs.Acts.{code_of, answer_by, sent_to, settled};

use card::store_card::StoreCard;
use faults::fault::Cause;
use rules::refusal::Refusal;

// The code of a transaction, which is sent first.
fn code_of(sent: &[u8]) -> u8
    ensures { result ≡ code_of sent.now }
{
    sent.first().copied().unwrap_or(0)
}

// Whether the transaction was taken, or what refused it.
fn answer_by(answer: Result<usize, Refusal>, sent: &[u8]) -> Result<(), Cause>
    ensures { result ≡ answer_by answer sent.now }
{
    answer.map(|_driven| ()).map_err(|refusal| Cause::Refused {
        refusal,
        code: code_of(sent),
    })
}

// Makes a transaction with the area.
pub(crate) fn send<C: StoreCard>(
    card: &mut C,
    low: bool,
    sent: &[u8],
    area: &mut [u8],
) -> Result<(), Cause>
    ensures chip { C.chip card.new ≡ (sent_to (C.chip card.old) sent.now low (length area.old)).chip }
    ensures answer { result ≡ (sent_to (C.chip card.old) sent.now low (length area.old)).answer }
    ensures area { area.new ≡ (sent_to (C.chip card.old) sent.now low (length area.old)).area }
{
    let answer = card.transact(sent, low, area);
    answer_by(answer, sent)
}

// Steps until the card is idle.
pub(crate) fn settle<C: StoreCard>(card: &mut C)
    ensures { C.chip card.new ≡ settled (C.chip card.old) }
{
    while card.step() != 0 {}
}
