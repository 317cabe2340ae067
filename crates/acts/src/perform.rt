ghost use Rattle.std.specs.Prelude.{◌≡◌};
ghost use Rattle.acts.specs.Acts.{course_of, part_of, parts_of, through};

use crate::act::Act;
use crate::send::{send, settle};
use card::store_card::StoreCard;
use faults::fault::Cause;

// Does one act.
fn perform<C: StoreCard>(
    card: &mut C,
    low: bool,
    act: Act<'_>,
    area: &mut [u8],
) -> Result<(), Cause>
    ensures chip { C.chip card.new ≡ (course_of (C.chip card.old) low area.old (part_of act.entry)).chip }
    ensures answer { result ≡ (course_of (C.chip card.old) low area.old (part_of act.entry)).answer }
    ensures area { area.new ≡ (course_of (C.chip card.old) low area.old (part_of act.entry)).area }
{
    match act {
        Act::Send(sent) => send(card, low, sent, &mut []),
        Act::Read(sent) => send(card, low, sent, area),
        Act::Settle => {
            settle(card);
            Ok(())
        }
    }
}

// Does the acts one by one.
fn perform_each<C: StoreCard>(
    card: &mut C,
    low: bool,
    acts: &[Act<'_>],
    area: &mut [u8],
) -> Result<(), Cause>
    ensures chip { C.chip card.new ≡ (through (C.chip card.old) low area.old (parts_of acts.now)).chip }
    ensures answer { result ≡ (through (C.chip card.old) low area.old (parts_of acts.now)).answer }
    ensures area { area.new ≡ (through (C.chip card.old) low area.old (parts_of acts.now)).area }
{
    for act in acts {
        perform(card, low, *act, area)?;
    }
    Ok(())
}

// Does the acts in their order, up to the first transaction that is refused.
pub fn perform_all<C: StoreCard>(
    card: &mut C,
    low: bool,
    acts: &[Act<'_>],
    area: &mut [u8],
) -> Result<(), Cause>
    ensures chip { C.chip card.new ≡ (through (C.chip card.old) low area.old (parts_of acts.now)).chip }
    ensures answer { result ≡ (through (C.chip card.old) low area.old (parts_of acts.now)).answer }
    ensures area { area.new ≡ (through (C.chip card.old) low area.old (parts_of acts.now)).area }
{
    perform_each(card, low, acts, area)
}
