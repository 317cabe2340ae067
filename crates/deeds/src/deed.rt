ghost use Rattle.std.specs.Prelude.{◌≡◌};
ghost use Rattle.deeds.specs.Deeds.{opened, written, checked, check_area};
ghost use Rattle.faults.specs.declared.fault.Cause.TheVariants.{WrongLength};
ghost use Rattle.deeds.specs.Judged.{unless_different};
ghost use Rattle.deeds.specs.Sequences.{fetching};

use crate::judge::{told_at, unless_different, unless_worn};
use crate::sequences::{begin, fetch, program};
use arrays::array::PAGE;
use card::store_card::StoreCard;
use faults::fault::{Cause, Fault};

// Resets the card, and answers the SR-1 that it clears.
pub fn open<C: StoreCard>(card: &mut C, low: bool) -> Result<u8, Fault>
    ensures chip { C.chip card.new ≡ (opened (C.chip card.old) low).chip }
    ensures answer { result ≡ (opened (C.chip card.old) low).answer }
{
    let mut sr1 = [0xff];
    told_at(0, begin(card, low, &mut sr1))?;
    Ok(sr1[0])
}

// Programs a page at the row.
pub fn write<C: StoreCard>(card: &mut C, low: bool, row: u16, bytes: &[u8]) -> Result<(), Fault>
    ensures chip { C.chip card.new ≡ (written (C.chip card.old) low row bytes.now).chip }
    ensures answer { result ≡ (written (C.chip card.old) low row bytes.now).answer }
{
    let Some(page) = bytes.as_array::<PAGE>() else {
        return Err(wrong_length(row));
    };
    let mut sr3 = [0xff];
    let programmed = program(card, low, row, page, &mut sr3);
    told_at(row, unless_worn(programmed, sr3[0]))
}

// Checks a page, with an area of its length.
fn compare<C: StoreCard>(
    card: &mut C,
    low: bool,
    row: u16,
    page: &[u8; PAGE],
    area: &mut [u8; PAGE],
) -> Result<(), Cause>
    ensures chip { C.chip card.new ≡ (fetching (C.chip card.old) low row area.old).chip }
    ensures answer { result ≡ unless_different (fetching (C.chip card.old) low row area.old).answer (fetching (C.chip card.old) low row area.old).area page.now }
    ensures area { area.new ≡ (fetching (C.chip card.old) low row area.old).area }
{
    let fetched = fetch(card, low, row, area);
    unless_different(fetched, area, page)
}

// Reads the page at the row into the area, and compares it with the bytes.
pub fn check<C: StoreCard>(
    card: &mut C,
    low: bool,
    row: u16,
    bytes: &[u8],
    area: &mut [u8],
) -> Result<(), Fault>
    ensures chip { C.chip card.new ≡ (checked (C.chip card.old) low row bytes.now area.old).chip }
    ensures answer { result ≡ (checked (C.chip card.old) low row bytes.now area.old).answer }
    ensures area { area.new ≡ check_area (C.chip card.old) low row bytes.now area.old }
{
    let Some(page) = bytes.as_array::<PAGE>() else {
        return Err(wrong_length(row));
    };
    let Some(area) = area.as_mut_array::<PAGE>() else {
        return Err(wrong_length(row));
    };
    *area = [0xff; PAGE];
    told_at(row, compare(card, low, row, page, area))
}

// The fault of bytes or an area that are not as long as a page.
fn wrong_length(row: u16) -> Fault
    ensures { result ≡ record { cause = WrongLength; row = row } }
{
    Fault {
        cause: Cause::WrongLength,
        row,
    }
}
