ghost use Rattle.std.specs.Prelude.{◌≡◌, true, length};
ghost use Rattle.rules.specs.Law.{SealedCalibration};
ghost use Rattle.rules.specs.Measured.{AsMeasured, measured};

// The law of sealed calibration holds over every run of calls on a new card.
pub fn sealed_calibration_holds() -> bool
    ensures law { SealedCalibration }
    ensures answer { result ≡ true }
{
    prove_calibration();
    true
}

// The number of measured points: the rules give each of them as it was measured.
pub fn measured_points_hold() -> usize
    ensures points { AsMeasured }
    ensures count { result ≡ length measured }
{
    16
}

fn prove_calibration()
    ensures { SealedCalibration }
{}
