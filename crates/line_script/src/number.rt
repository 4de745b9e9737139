//! Numbers.

ghost use Rattle.std.specs.Prelude.{◌≡◌, ◌<◌, ◌^◌, ◌+◌, ◌-◌, ◌*◌, ◌↔◌, IsSome, IfSome};
ghost use Rattle.std.specs.List.{AllByRecursion};
ghost use Rattle.line_script.specs.Numbers.{decimal, decimal_from, IsDecimal, IsDigit};
ghost use Rattle.line_script.specs.Words.{word_counter, word_number, word_threshold};

/// The number that a word spells: decimal digits without leading zeros, 0 itself excepted. `None`
/// for any other word, and for a number of 2^64 or above.
pub fn number_of(word: &[u8]) -> Option<u64>
    ensures { result ≡ word_number (2 ^ 64) word.now }
{
    decimal_of(word)
}

/// The number below 2^32 that a word spells, as [`number_of`] reads it. `None` for any other word.
pub fn counter_of(word: &[u8]) -> Option<u32>
    ensures { result ≡ word_counter word.now }
{
    short_decimal_of(word)
}

/// The threshold of slices that a word spells, below 2^8, as [`number_of`] reads it. `None` for any other word.
pub(crate) fn threshold_of(word: &[u8]) -> Option<u8>
    ensures { result ≡ word_threshold word.now }
{
    byte_of(word)
}

/// The number below 2^64 that a word spells.
fn decimal_of(word: &[u8]) -> Option<u64>
    ensures exactly { IsSome result ↔ IsDecimal word.now × (decimal word.now < 2 ^ 64) }
    ensures some { IfSome result (λ n. n ≡ decimal word.now) }
{
    match word {
        [] => None,
        [b'0', _, ..] => None,
        _ => digits_from(0, word),
    }
}

/// The number below 2^32 that a word spells.
fn short_decimal_of(word: &[u8]) -> Option<u32>
    ensures exactly { IsSome result ↔ IsDecimal word.now × (decimal word.now < 2 ^ 32) }
    ensures some { IfSome result (λ n. n ≡ decimal word.now) }
{
    let number = decimal_of(word)?;
    if number > u64::from(u32::MAX) {
        return None;
    }
    Some(number as u32)
}

/// The number below 2^8 that a word spells.
fn byte_of(word: &[u8]) -> Option<u8>
    ensures exactly { IsSome result ↔ IsDecimal word.now × (decimal word.now < 2 ^ 8) }
    ensures some { IfSome result (λ n. n ≡ decimal word.now) }
{
    let number = decimal_of(word)?;
    if number > u64::from(u8::MAX) {
        return None;
    }
    Some(number as u8)
}

/// The number that digits spell behind a number.
#[tactic(auto, using(crate::proofs::NumberLaws::grows))]
fn digits_from(number: u64, digits: &[u8]) -> Option<u64>
    ensures exactly { IsSome result ↔ AllByRecursion IsDigit digits.now × (decimal_from number digits.now < 2 ^ 64) }
    ensures some { IfSome result (λ n. n ≡ decimal_from number digits.now) }
{
    match digits {
        [] => Some(number),
        [digit, rest @ ..] => digits_from(with_digit(number, *digit)?, rest),
    }
}

/// The number that one digit behind a number makes.
fn with_digit(number: u64, digit: u8) -> Option<u64>
    ensures exactly { IsSome result ↔ IsDigit digit × (number * 10 + (digit - 48) < 2 ^ 64) }
    ensures some { IfSome result (λ n. n ≡ number * 10 + (digit - 48)) }
{
    if !digit.is_ascii_digit() {
        return None;
    }
    number.checked_mul(10)?.checked_add(u64::from(digit - b'0'))
}
