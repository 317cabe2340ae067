ghost use Rattle.std.specs.Prelude.{◌≡◌};
ghost use Rattle.seals.specs.SealedVisit.{sealing, SealStands};
ghost use Rattle.job.specs.Jobs.{sealed_by};

use crate::sr1::write_sr1;
use crate::state::{Checked, Job, ReadBack};
use card::store_card::StoreCard;
use faults::fault::{Cause, Fault};
use rules::refusal::Refusal;
use seals::law::seals_stand;
use seals::seal::seal_byte;

// Writes the sealing byte to SR-1.
fn write_seal<C: StoreCard>(card: &mut C, low: bool, byte: u8) -> Result<(), Refusal>
    ensures chip { C.chip card.new ≡ (sealing (C.chip card.old) low byte).chip }
    ensures outcome { result ≡ (sealing (C.chip card.old) low byte).outcome }
    ensures law { SealStands (C.chip card.old) low byte }
{
    let _holds = seals_stand();
    write_sr1(card, low, seal_byte(byte))
}

// What becomes of a checked job by the outcome of its seal.
fn sealed_by(outcome: Result<(), Refusal>, job: Checked) -> Result<(), (Checked, Fault)>
    ensures { result ≡ sealed_by outcome job }
{
    match outcome {
        Ok(()) => {
            let Job { kept: _, stage: _ } = job;
            Ok(())
        }
        Err(refusal) => {
            let cause = Cause::Refused {
                refusal,
                code: 0x01,
            };
            Err((job, Fault { cause, row: 0 }))
        }
    }
}

impl Job<ReadBack> {
    // Seals the card by the byte, its S7 made 0 and its S0 made 1. The clause `law` says how long the seal stands.
    pub fn seal<C: StoreCard>(
        self,
        card: &mut C,
        low: bool,
        byte: u8,
    ) -> Result<(), (Checked, Fault)>
        ensures chip { C.chip card.new ≡ (sealing (C.chip card.old) low byte).chip }
        ensures answer { result ≡ sealed_by (sealing (C.chip card.old) low byte).outcome self }
        ensures law { SealStands (C.chip card.old) low byte }
    {
        sealed_by(write_seal(card, low, byte), self)
    }
}
