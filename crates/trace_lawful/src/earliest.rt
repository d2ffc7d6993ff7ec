//! Which rule breaks first.

ghost use Rattle.std.specs.Prelude.{◌≡◌};
ghost use Rattle.trace_lawful.specs.Earliest.{with_rule, earlier};

/// So many entries are the fewest that break some rules, and this is the first of these that they break.
#[derive(Clone, Copy, Debug)]
pub struct First {
    /// How many entries.
    pub entries: usize,
    /// The number of the rule.
    pub rule: u8,
}

/// The fewest entries that break a rule, with its number.
pub(crate) fn with_rule(entries: Option<usize>, rule: u8) -> Option<First>
    ensures { result ≡ with_rule rule entries }
{
    match entries {
        Some(entries) => Some(First { entries, rule }),
        None => None,
    }
}

/// The one with fewer entries, and the first one if both have as many.
pub(crate) fn earlier(a: Option<First>, b: Option<First>) -> Option<First>
    ensures { result ≡ earlier a b }
{
    match a {
        Some(one) => match b {
            Some(other) if other.entries < one.entries => Some(other),
            _ => Some(one),
        },
        None => b,
    }
}
