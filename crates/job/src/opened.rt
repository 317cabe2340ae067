ghost use Rattle.std.specs.Prelude.{◌≡◌};
ghost use Rattle.deeds.specs.Deeds.{opened, written, checked, check_area};
ghost use Rattle.job.specs.Jobs.{opened_by, checked_by};

use crate::state::{Checked, Job, Opened, ReadBack, Unchecked};
use card::store_card::StoreCard;
use deeds::deed;
use faults::fault::Fault;

// Opens a job on the card, with /WP low or not.
pub fn open<C: StoreCard>(card: &mut C, low: bool) -> Result<Opened, Fault>
    ensures chip { C.chip card.new ≡ (opened (C.chip card.old) low).chip }
    ensures answer { result ≡ opened_by (opened (C.chip card.old) low).answer }
{
    let kept = deed::open(card, low)?;
    Ok(Job {
        kept,
        stage: Unchecked,
    })
}

impl Job<Unchecked> {
    // Programs a page at the row. The job stays opened.
    pub fn write<C: StoreCard>(
        &self,
        card: &mut C,
        low: bool,
        row: u16,
        bytes: &[u8],
    ) -> Result<(), Fault>
        ensures chip { C.chip card.new ≡ (written (C.chip card.old) low row bytes.now).chip }
        ensures answer { result ≡ (written (C.chip card.old) low row bytes.now).answer }
    {
        deed::write(card, low, row, bytes)
    }

    // Reads the page at the row into the area. If it equals the bytes, the job becomes a checked one.
    pub fn check<C: StoreCard>(
        self,
        card: &mut C,
        low: bool,
        row: u16,
        bytes: &[u8],
        area: &mut [u8],
    ) -> Result<Checked, (Opened, Fault)>
        ensures chip { C.chip card.new ≡ (checked (C.chip card.old) low row bytes.now area.old).chip }
        ensures answer { result ≡ checked_by (checked (C.chip card.old) low row bytes.now area.old).answer self }
        ensures area { area.new ≡ check_area (C.chip card.old) low row bytes.now area.old }
    {
        match deed::check(card, low, row, bytes, area) {
            Ok(()) => {
                let Job { kept, stage: _ } = self;
                Ok(Job {
                    kept,
                    stage: ReadBack,
                })
            }
            Err(fault) => Err((self, fault)),
        }
    }
}
