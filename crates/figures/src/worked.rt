//! The worked figures, computed by the checker on the definitions.
ghost use Rattle.std.specs.Prelude.{◌≡◌, length};
ghost use Rattle.figures.specs.Cases.{cases, AllMet};

/// How many worked figures there are. Each of them is met.
pub fn worked_figures() -> usize
    ensures counted { result ≡ length cases }
    ensures met { AllMet }
{
    15
}
