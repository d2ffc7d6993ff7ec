//! Decimal numbers.

ghost use Rattle.std.specs.Prelude.{◌≡◌, ◌≤◌, true, false, IfSome, MatchOption};
ghost use Rattle.std.specs.List.{list_all};
ghost use Rattle.std.specs.Char.{is_ascii_digit};
ghost use Rattle.std.specs.Str.Parse.{digits_value};
ghost use Rattle.script_text.specs.Numbers.{number_of, is_decimal};

/// A number of one or more decimal digits, leading zeros allowed, from `least` to `most`. None exactly if the word is
/// no such number.
pub fn long_number(digits: &[u8], least: u64, most: u64) -> Option<u64>
    ensures value { result ≡ number_of least most digits.now }
    ensures within { IfSome result (λ n. (least ≤ n) × (n ≤ most)) }
{
    let number = decimal(digits)?;
    if least <= number && number <= most {
        Some(number)
    } else {
        None
    }
}

/// A number of 32 bits, as `long_number` reads it.
pub fn number(digits: &[u8], least: u32, most: u32) -> Option<u32>
    ensures value { result ≡ number_of least most digits.now }
    ensures within { IfSome result (λ n. (least ≤ n) × (n ≤ most)) }
{
    let number = long_number(digits, least as u64, most as u64)?;
    Some(number as u32)
}

/// A number of 64 bits.
fn decimal(digits: &[u8]) -> Option<u64>
    ensures { MatchOption result (is_decimal digits.now ≡ false) (λ n. (is_decimal digits.now ≡ true) × (n ≡ digits_value 10 digits.now)) }
{
    if !are_digits(digits) {
        return None;
    }
    match str::from_utf8(digits) {
        Ok(text) => text.parse().ok(),
        Err(_) => None,
    }
}

fn are_digits(bytes: &[u8]) -> bool
    ensures { result ≡ list_all is_ascii_digit bytes.now }
{
    bytes.iter().all(|byte| byte.is_ascii_digit())
}
