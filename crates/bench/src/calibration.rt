ghost use Rattle.std.specs.Prelude.{◌≡◌, leb, ◌++◌, length, drop, if◌then◌else◌, nat_le, is_ok, Some, codes};
ghost use Rattle.bench.specs.Calibrations.{record_of, found_in};

use std::error::Error;
use std::fmt;

const RECORD: usize = 10;

// The zero and the span of a bench. A page begins with the mark CA and both as four bytes, high byte first.
#[derive(Clone, Copy, PartialEq, Eq, Debug)]
pub struct Calibration {
    pub zero: u32,
    pub span: u32,
}

// The page has fewer than the ten bytes of a calibration.
#[derive(Clone, Copy, PartialEq, Eq, Debug)]
pub struct PageTooShort;

impl fmt::Display for PageTooShort {
    ghost output = { λ _. Some (codes "the page is too short for a calibration") };

    fn fmt<W: fmt::Write>(&self, f: &mut fmt::Formatter<W>) -> fmt::Result {
        write!(f, "the page is too short for a calibration")
    }
}

impl Error for PageTooShort {}

impl Calibration {
    // The ten bytes with which its page begins.
    fn record(self) -> [u8; RECORD]
        ensures { result ≡ record_of self }
    {
        let [z3, z2, z1, z0] = self.zero.to_be_bytes();
        let [s3, s2, s1, s0] = self.span.to_be_bytes();
        [b'C', b'A', z3, z2, z1, z0, s3, s2, s1, s0]
    }

    // Writes it over the start of a page, if that is long enough.
    pub fn stamp(self, page: &mut [u8]) -> Result<(), PageTooShort>
        ensures fits { is_ok result ≡ nat_le 10 (length page.old) }
        ensures after { page.new ≡ (if leb 10 (length page.old) then record_of self ++ drop 10 page.old else page.old) }
    {
        let start = page.first_chunk_mut().ok_or(PageTooShort)?;
        *start = self.record();
        Ok(())
    }

    // The calibration with which a page begins, if it has the mark.
    pub fn in_page(page: &[u8]) -> Option<Calibration>
        ensures { result ≡ found_in page.now }
    {
        let [b'C', b'A', z3, z2, z1, z0, s3, s2, s1, s0, ..] = page else {
            return None;
        };
        Some(Calibration {
            zero: u32::from_be_bytes([*z3, *z2, *z1, *z0]),
            span: u32::from_be_bytes([*s3, *s2, *s1, *s0]),
        })
    }
}
