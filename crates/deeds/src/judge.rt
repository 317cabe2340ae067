ghost use Rattle.std.specs.Prelude.{◌≡◌, length};
ghost use Rattle.deeds.specs.Judged.{told_at, value_if_taken, unless_worn, first_difference, unless_different};

use faults::fault::{Cause, Fault};

// The first column from which on two pages of one length differ.
fn first_difference(page: &[u8], bytes: &[u8]) -> Option<usize>
    ensures { result ≡ first_difference page.now bytes.now }
{
    page.iter()
        .zip(bytes)
        .position(|(read, right)| read != right)
}

// Were all bytes read as they should be?
pub(crate) fn unless_different(
    fetched: Result<(), Cause>,
    page: &[u8],
    bytes: &[u8],
) -> Result<(), Cause>
    ensures { result ≡ unless_different fetched page.now bytes.now }
{
    fetched?;
    match first_difference(page, bytes) {
        None => Ok(()),
        Some(column) => Err(Cause::Differs { column }),
    }
}

// Does SR-3 show no P-FAIL? S3 is one bit of a byte that was read, so no `Flags` are made of it.
pub(crate) fn unless_worn(programmed: Result<(), Cause>, sr3: u8) -> Result<(), Cause>
    ensures { result ≡ unless_worn programmed sr3 }
{
    programmed?;
    if sr3 / 8 % 2 == 1 {
        return Err(Cause::Worn);
    }
    Ok(())
}

// The answer of a deed at a row.
pub(crate) fn told_at(row: u16, answer: Result<(), Cause>) -> Result<(), Fault>
    ensures { result ≡ told_at row answer }
{
    answer.map_err(|cause| Fault { cause, row })
}
