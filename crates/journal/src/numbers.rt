//! Numbers in decimal digits.
ghost use Rattle.std.specs.Prelude.{◌≡◌, ◌^◌, ◌≤◌, true, MatchOption};
ghost use Rattle.journal.specs.Numbers.{all_digits, value as value_of, decimal as decimal_of};

#[derive(Clone, Copy, Debug, PartialEq, Eq)]
pub enum NumberFault {
    /// The word is empty, or has a byte that is no digit.
    NoNumber,
    /// The number is 2^64 or more.
    TooLarge,
}

fn all_digits(word: &[u8]) -> bool
    ensures { result ≡ all_digits word.now }
{
    word.iter().all(u8::is_ascii_digit)
}

/// The number that digits write, or None where it is 2^64 or more.
fn value(word: &[u8]) -> Option<u64>
    requires { all_digits word.now ≡ true }
    ensures { MatchOption result (2 ^ 64 ≤ value_of word.now) (λ n. n ≡ value_of word.now) }
{
    // `parse` needs a text first, which is one more walk over the digits.
    word.iter().try_fold(0u64, |number, digit| {
        let tens = number.checked_mul(10)?;
        tens.checked_add(u64::from(*digit - b'0'))
    })
}

/// The number that a word writes in digits. Leading zeros change nothing.
pub fn decimal(word: &[u8]) -> Result<u64, NumberFault>
    ensures { result ≡ decimal_of word.now }
{
    if word.is_empty() || !all_digits(word) {
        return Err(NumberFault::NoNumber);
    }
    value(word).ok_or(NumberFault::TooLarge)
}
