ghost use Rattle.std.specs.Prelude.{◌≡◌, ◌<◌};
ghost use Rattle.rules.specs.Registers.{is_set, weighs};

// Is the bit of this number, 0 the lowest, set in the value?
pub(crate) fn is_set(bit: u8, value: u8) -> bool
    requires { bit < 8 }
    ensures { result ≡ is_set bit value }
{
    (value >> bit) % 2 == 1
}

// What a bit adds to its register.
pub(crate) fn weighs(on: bool, weight: u8) -> u8
    ensures { result ≡ weighs on weight }
{
    if on { weight } else { 0 }
}
