//! Numbers in decimal digits.

ghost use Rattle.std.specs.Prelude.{◌≡◌, ◌<◌, ◌^◌, ℕ, MatchOption};
ghost use Rattle.std.specs.List.{list_all};
ghost use Rattle.std.specs.Char.{is_ascii_digit};
ghost use Rattle.session_words.specs.Words.{FindsOne, SpellsNumber, IsNumberIn};

/// The number that the digits spell. None exactly if they spell none from `least` to `most`.
pub(crate) fn number_in(digits: &str, least: u32, most: u32) -> Option<u32>
    ensures { FindsOne (IsNumberIn least most digits.now) result }
{
    let number = number(digits)?;
    if number < least || number > most {
        return None;
    }
    Some(number)
}

/// A number of one decimal digit or more. None exactly if the text spells no number below 2^32.
fn number(digits: &str) -> Option<u32>
    ensures { MatchOption result ((n : ℕ) → n < 2 ^ 32 → ¬ SpellsNumber n digits.now) (λ n. SpellsNumber n digits.now) }
{
    if !are_digits(digits.as_bytes()) {
        return None;
    }
    digits.parse().ok()
}

fn are_digits(bytes: &[u8]) -> bool
    ensures { result ≡ list_all is_ascii_digit bytes.now }
{
    bytes.iter().all(|byte| byte.is_ascii_digit())
}
