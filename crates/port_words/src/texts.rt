//! Words, searched and put together.

ghost use Rattle.std.specs.Prelude.{◌≡◌, ◌∷◌, [], ◌++◌, IfOk, eqb, map, string_bytes};
ghost use Rattle.std.specs.List.{starts_with};
ghost use Rattle.port_words.specs.Texts.{names};

use std::alloc::{AllocError, Global};

/// Whether a word is the option, or begins with it.
pub(crate) fn are_named(words: &[String], option: &str) -> bool
    ensures { result ≡ names option.now (map string_bytes words.now) }
{
    for word in words {
        if begins(word.as_str(), option) {
            return true;
        }
    }
    false
}

/// Whether the word is the option, or begins with it.
#[tactic(auto, using(std::proofs::lemmas::Str::Pattern::starts_text))]
fn begins(word: &str, option: &str) -> bool
    ensures { result ≡ starts_with eqb word.now option.now }
{
    word.starts_with(option)
}

/// Adds words.
pub(crate) fn add_all(
    alloc: Global,
    all: &mut Vec<String>,
    words: &[String],
) -> Result<(), AllocError>
    ensures { IfOk result (λ _. map string_bytes all.new.items ≡ map string_bytes all.old.items ++ map string_bytes words.now) }
{
    for word in words {
        add(alloc, all, word.as_str())?;
    }
    Ok(())
}

/// Adds a word.
pub(crate) fn add(alloc: Global, all: &mut Vec<String>, word: &str) -> Result<(), AllocError>
    ensures { IfOk result (λ _. map string_bytes all.new.items ≡ map string_bytes all.old.items ++ word.now ∷ []) }
{
    let word = String::from_str(alloc, word)?;
    all.push(word)?;
    Ok(())
}
