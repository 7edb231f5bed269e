//! The balance of a year.
ghost use Rattle.std.specs.Prelude.{◌≡◌};
ghost use Rattle.limit.specs.Balance.{balance as balance_of};
ghost use Rattle.limit.specs.Outcome.{told};

use crate::outcome::Outcome;
use quantity::units::Tonnes;

/// Limit minus emissions: a surplus is positive, an excess negative; 0 without a limit.
pub fn balance(outcome: &Outcome, emissions: Tonnes) -> i64
    ensures { result ≡ balance_of (told outcome.now) emissions.tonnes }
{
    match outcome {
        Outcome::Limit(limit) => limit.tonnes as i64 - emissions.tonnes as i64,
        Outcome::NoLimit(_) | Outcome::Fault { .. } => 0,
    }
}
