ghost use Rattle.std.specs.Prelude.{◌≡◌, ◌^◌, ◌<◌, cond};
ghost use Rattle.rules.specs.Registers.{srp0, srp1, wp_e, bp, tb, power_lock, power_up_sr1};
ghost use Rattle.rules.specs.Seal.{covers};

use crate::bits::is_set;

// SR-1: what it locks, and which addresses it seals.
#[derive(Clone, Copy, PartialEq, Eq, Debug)]
pub struct Sr1(pub u8);

// Its bits, by name; what they share is `is_set`.
impl Sr1 {
    // What it reads after a power cycle.
    pub const POWER_UP: Sr1 = Sr1(0x7c);

    // S7.
    pub fn srp0(self) -> bool
        ensures { result ≡ srp0 self.0 }
    {
        is_set(7, self.0)
    }

    // S0.
    pub fn srp1(self) -> bool
        ensures { result ≡ srp1 self.0 }
    {
        is_set(0, self.0)
    }

    // S1: the /WP pin may forbid codes.
    pub fn wp_e(self) -> bool
        ensures { result ≡ wp_e self.0 }
    {
        is_set(1, self.0)
    }

    // It cannot be written until the next power cycle.
    pub fn power_lock(self) -> bool
        ensures { result ≡ power_lock self.0 }
    {
        self.srp1() && !self.srp0()
    }

    // After a power cycle: SR1-L keeps it.
    pub fn after_power(self, sr1_l: bool) -> Sr1
        ensures { result.0 ≡ cond sr1_l self.0 power_up_sr1 }
    {
        if sr1_l { self } else { Sr1::POWER_UP }
    }
}

// Its seal.
impl Sr1 {
    // TB, one more bit by name: the seal covers the lowest addresses.
    fn covers_lowest(self) -> bool
        ensures { result ≡ tb self.0 }
    {
        is_set(2, self.0)
    }

    // The number BP3 BP2 BP1 BP0.
    fn height(self) -> u8
        ensures number { result ≡ bp self.0 }
        ensures bound { result < 16 }
    {
        self.0 / 8 % 16
    }

    // Does the seal cover the address, of so many blocks?
    pub fn seals(self, blocks: usize, address: usize) -> bool
        ensures { result ≡ covers blocks self.0 address }
    {
        let height = self.height();
        let size = size(height);
        if height == 0 {
            false
        } else if blocks <= size {
            true
        } else if self.covers_lowest() {
            address < size
        } else {
            blocks - size <= address
        }
    }
}

// How many addresses a seal of this height covers.
fn size(height: u8) -> usize
    requires { height < 16 }
    ensures { result ≡ 2 ^ height }
{
    1 << height
}
