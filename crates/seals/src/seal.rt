ghost use Rattle.std.specs.Prelude.{◌≡◌};
ghost use Rattle.seals.specs.SealedVisit.{seal_byte};

// The SR-1 with which a job seals: S7 of the byte made 0, and S0 made 1.
pub fn seal_byte(byte: u8) -> u8
    ensures { result ≡ seal_byte byte }
{
    byte & 0x7f | 0x01
}
