ghost use Rattle.std.specs.Prelude.{◌≡◌};
ghost use Rattle.rules.specs.Registers.{register_at};

use crate::refusal::Refusal;

// A register, which an address names by its high digit.
#[derive(Clone, Copy, PartialEq, Eq, Debug)]
pub enum Register {
    Sr1,
    Sr2,
    Sr3,
}

impl TryFrom<u8> for Register {
    type Error = Refusal;

    ghost try_from_gives = { λ address r. r ≡ register_at address };

    fn try_from(address: u8) -> Result<Register, Refusal> {
        match address {
            0xa0..=0xaf => Ok(Register::Sr1),
            0xb0..=0xbf => Ok(Register::Sr2),
            0xc0..=0xcf => Ok(Register::Sr3),
            _ => Err(Refusal::UnknownRegister),
        }
    }
}
