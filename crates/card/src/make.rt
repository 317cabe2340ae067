ghost use Rattle.std.specs.Prelude.{◌≡◌};
ghost use Rattle.rules.specs.Calls.{new_card};
ghost use Rattle.card.specs.View.{view};
ghost use Rattle.card.specs.Promise.{CalibrationKept};

use crate::card::Card;
use crate::store_card::StoreCard;
use arrays::array::{Array, PAGE};
use linked::linked::Linked;
use links::table::Table;
use rules::flags::Flags;
use rules::law::sealed_calibration_holds;
use rules::locks::Locks;
use rules::sr1::Sr1;

// The law of sealed calibration for every card that is made over these arrays.
fn calibration_kept<M: Array, O: Array>(main: &M, otp: &O)
    ensures { CalibrationKept (M.meaning main.now) (O.meaning otp.now) }
{
    let _n = main.blocks();
    let _m = otp.blocks();
    let _holds = sealed_calibration_holds();
}

impl<M: Array, O: Array> Card<M, O> {
    // A new card: an unused link table and both lock bits 0, after a power cycle.
    pub fn new(main: M, otp: O) -> Card<M, O>
        ensures view { view M.meaning O.meaning result ≡ new_card (M.meaning main) (O.meaning otp) }
        ensures law { CalibrationKept (M.meaning main) (O.meaning otp) }
    {
        calibration_kept(&main, &otp);
        let mut card = Card {
            main: Linked::new(main, Table::new()),
            otp,
            locks: Locks::NONE,
            sr1: Sr1::POWER_UP,
            flags: Flags::power_up(),
            buffer: [0xff; PAGE],
            pending: None,
        };
        card.power_cycle();
        card
    }
}
