//! The days of a year.
ghost use Rattle.std.specs.Prelude.{◌≡◌};
ghost use Rattle.enrolment.specs.Calendar.{leap, days_in};

fn is_leap(year: u64) -> bool
    ensures { result ≡ leap year }
{
    year % 4 == 0 && (year % 100 != 0 || year % 400 == 0)
}

/// How many days a year has.
pub(crate) fn days_in(year: u64) -> u64
    ensures { result ≡ days_in year }
{
    if is_leap(year) { 366 } else { 365 }
}
