use card::store_card::StoreCard;
use faults::fault::Fault;
use job::opened::open;
use job::state::{Checked, Job, Opened};
use rules::refusal::Refusal;

// Why a visit did not seal: the fault, and the outcome of giving the job up, if one was opened.
#[derive(Clone, Copy)]
pub(crate) struct Stopped {
    pub fault: Fault,
    pub given_up: Option<Result<(), Refusal>>,
}

impl From<Fault> for Stopped {
    fn from(fault: Fault) -> Stopped {
        Stopped {
            fault,
            given_up: None,
        }
    }
}

// What a visit is about: a row, the bytes that its page should hold, and the byte to seal with.
#[derive(Clone, Copy)]
pub(crate) struct Order<'a> {
    pub row: u16,
    pub bytes: &'a [u8],
    pub byte: u8,
}

// Gives a job up, at whatever stage it is.
fn give_up<Stage: Drop, C: StoreCard>(job: Job<Stage>, card: &mut C, fault: Fault) -> Stopped {
    Stopped {
        fault,
        given_up: Some(job.give_up(card, false)),
    }
}

fn seal<C: StoreCard>(checked: Checked, card: &mut C, byte: u8) -> Result<(), Stopped> {
    checked
        .seal(card, false, byte)
        .map_err(|(checked, fault)| give_up(checked, card, fault))
}

// Checks the page and seals, or gives the job up.
fn finish<C: StoreCard>(
    opened: Opened,
    card: &mut C,
    order: Order<'_>,
    area: &mut [u8],
) -> Result<(), Stopped> {
    match opened.check(card, false, order.row, order.bytes, area) {
        Ok(checked) => seal(checked, card, order.byte),
        Err((opened, fault)) => Err(give_up(opened, card, fault)),
    }
}

// A whole visit with /WP high: opens, writes the page, checks it and seals.
pub(crate) fn calibrate<C: StoreCard>(
    card: &mut C,
    order: Order<'_>,
    area: &mut [u8],
) -> Result<(), Stopped> {
    let opened = open(card, false)?;
    match opened.write(card, false, order.row, order.bytes) {
        Ok(()) => finish(opened, card, order, area),
        Err(fault) => Err(give_up(opened, card, fault)),
    }
}

// A visit that writes nothing: opens, checks the page and seals.
pub(crate) fn inspect<C: StoreCard>(
    card: &mut C,
    order: Order<'_>,
    area: &mut [u8],
) -> Result<(), Stopped> {
    let opened = open(card, false)?;
    finish(opened, card, order, area)
}
