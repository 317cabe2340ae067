use arrays::array::PAGE;
use card::store_card::StoreCard;
use faults::fault::Fault;
use job::opened::open;
use job::state::{Checked, Job, Opened};
use rules::refusal::outcome_number;

// The deed that is to tell a fault, with the row or the byte that it is given: data, since a table of cases holds no closures.
#[derive(Clone, Copy)]
pub(crate) enum Deed {
    Open,
    Write(u16),
    Check(u16),
    Seal(u8),
}

// Makes a transaction, as someone else on the bus would.
pub(crate) fn send<C: StoreCard>(card: &mut C, sent: &[u8]) -> u8 {
    outcome_number(card.transact(sent, false, &mut []))
}

// Gives a job up after a fault, at whatever stage it is.
pub(crate) fn give_up<Stage: Drop, C: StoreCard>(
    job: Job<Stage>,
    card: &mut C,
    low: bool,
    fault: Fault,
) -> Fault {
    let _ = job.give_up(card, low);
    fault
}

// Opens a job and gives it up.
fn try_open<C: StoreCard>(card: &mut C, low: bool) -> Result<(), Fault> {
    let job = open(card, low)?;
    let _ = job.give_up(card, low);
    Ok(())
}

// Seals, and gives the job up where the seal is refused.
pub(crate) fn try_seal<C: StoreCard>(
    job: Checked,
    card: &mut C,
    low: bool,
    byte: u8,
) -> Result<(), Fault> {
    match job.seal(card, low, byte) {
        Ok(()) => Ok(()),
        Err((job, fault)) => Err(give_up(job, card, low, fault)),
    }
}

// Checks the page at the row, and gives the job up.
pub(crate) fn try_check<C: StoreCard>(
    job: Opened,
    card: &mut C,
    low: bool,
    row: u16,
    page: &[u8],
    area: &mut [u8],
) -> Result<(), Fault> {
    match job.check(card, low, row, page, area) {
        Ok(job) => {
            let _ = job.give_up(card, low);
            Ok(())
        }
        Err((job, fault)) => Err(give_up(job, card, low, fault)),
    }
}

// Writes the page at the row, and gives the job up.
fn try_write<C: StoreCard>(
    job: Opened,
    card: &mut C,
    low: bool,
    row: u16,
    page: &[u8],
) -> Result<(), Fault> {
    let written = job.write(card, low, row, page);
    let _ = job.give_up(card, low);
    written
}

// Checks the page at row 0, sends, and seals.
fn seal_after<C: StoreCard>(
    job: Opened,
    card: &mut C,
    low: bool,
    byte: u8,
    before: &[u8],
) -> Result<(), Fault> {
    match job.check(card, false, 0, &[0xff; PAGE], &mut [0; PAGE]) {
        Ok(job) => {
            send(card, before);
            try_seal(job, card, low, byte)
        }
        Err((job, fault)) => Err(give_up(job, card, low, fault)),
    }
}

// Does the deed after someone else sent; with an opened job for all deeds but open itself.
pub(crate) fn deed_after<C: StoreCard>(
    card: &mut C,
    before: &[u8],
    low: bool,
    deed: Deed,
    page: &[u8],
) -> Result<(), Fault> {
    match deed {
        Deed::Open => {
            send(card, before);
            try_open(card, low)
        }
        Deed::Write(row) => {
            let job = open(card, false)?;
            send(card, before);
            try_write(job, card, low, row, page)
        }
        Deed::Check(row) => {
            let job = open(card, false)?;
            send(card, before);
            try_check(job, card, low, row, page, &mut [0; PAGE])
        }
        Deed::Seal(byte) => {
            let job = open(card, false)?;
            seal_after(job, card, low, byte, before)
        }
    }
}
