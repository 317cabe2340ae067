ghost use Rattle.std.specs.Prelude.{◌≡◌, true};
ghost use Rattle.seals.specs.SealedVisit.{SealsStand};

use rules::law::sealed_calibration_holds;

// A seal that is taken stands until the next power cycle, whatever is called.
pub fn seals_stand() -> bool
    ensures law { SealsStand }
    ensures answer { result ≡ true }
{
    prove_standing();
    true
}

fn prove_standing()
    ensures { SealsStand }
{
    let _holds = sealed_calibration_holds();
}
