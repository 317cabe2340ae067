ghost use Rattle.std.specs.Prelude.{◌≡◌, ◌||◌, Some, if◌then◌else◌};
ghost use Rattle.rules.specs.Registers.{new_otp_l, new_sr1_l};
ghost use Rattle.rules.specs.Effects.{lock_begun};

use crate::bits::is_set;
use crate::operation::{Operation, Pending};

// The lock bits OTP-L and SR1-L.
#[derive(Clone, Copy, PartialEq, Eq, Debug)]
pub struct Locks {
    pub otp: bool,
    pub sr1: bool,
}

impl Locks {
    pub const NONE: Locks = Locks {
        otp: false,
        sr1: false,
    };

    // The bits that the value, written to SR-2, sets anew.
    pub fn new_by(self, value: u8) -> Locks
        ensures otp { result.otp ≡ new_otp_l self.otp value }
        ensures sr1 { result.sr1 ≡ new_sr1_l self.sr1 value }
    {
        Locks {
            otp: is_set(7, value) && !self.otp,
            sr1: is_set(5, value) && !self.sr1,
        }
    }

    pub fn any(self) -> bool
        ensures { result ≡ (self.otp || self.sr1) }
    {
        self != Locks::NONE
    }

    // The bits of both.
    pub fn and(self, more: Locks) -> Locks
        ensures otp { result.otp ≡ (self.otp || more.otp) }
        ensures sr1 { result.sr1 ≡ (self.sr1 || more.sr1) }
    {
        Locks {
            otp: self.otp || more.otp,
            sr1: self.sr1 || more.sr1,
        }
    }

    // New lock bits start a lock operation; without one, what is pending stays.
    pub fn begin_or(self, pending: Option<Pending>) -> Option<Pending>
        ensures { result ≡ lock_begun self pending }
    {
        if self.any() {
            Some(Operation::Lock(self).begin())
        } else {
            pending
        }
    }
}
