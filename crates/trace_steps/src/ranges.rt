//! What a change of a range makes of a list of bytes.

ghost use Rattle.std.specs.Prelude.{◌≡◌, ◌≢◌, ◌++◌, ◌-◌, ℕ, List, drop, take, length, replicate, MatchOption};
ghost use Rattle.std.specs.Str.{bytes_eq};
ghost use Rattle.trace_steps.specs.RangeTests.{is_put, is_resized, is_part, are_zeros};

/// Whether `later` is `old` with the bytes put at the offset, a gap before them filled with zeros.
pub(crate) fn is_put(offset: u64, bytes: &[u8], old: &[u8], later: &[u8]) -> bool
    ensures { result ≡ is_put offset bytes.now old.now later.now }
{
    if bytes.is_empty() {
        return same_bytes(later, old);
    }
    is_joined(
        later,
        up_to(old, offset),
        gap(old, offset),
        bytes,
        behind(old, offset, bytes),
    )
}

/// What lies behind bytes that are put at the offset.
fn behind<'a>(old: &'a [u8], offset: u64, bytes: &[u8]) -> &'a [u8]
    ensures { result.now ≡ drop (length bytes.now) (drop offset old.entry.now) }
{
    from(from(old, offset), bytes.len() as u64)
}

fn same_bytes(a: &[u8], b: &[u8]) -> bool
    ensures { result ≡ bytes_eq a.now b.now }
{
    a == b
}

/// Whether `later` is `old` cut to the size, or grown to it by zeros.
pub(crate) fn is_resized(size: u64, old: &[u8], later: &[u8]) -> bool
    ensures { result ≡ is_resized size old.now later.now }
{
    is_joined(later, up_to(old, size), gap(old, size), &[], &[])
}

/// Whether these are so many bytes of the whole at the offset.
#[tactic(auto, unfolding(crate::specs::RangeTests::is_part))]
pub(crate) fn is_part(offset: u64, count: u64, whole: &[u8], bytes: &[u8]) -> bool
    ensures { result ≡ is_part offset count whole.now bytes.now }
{
    bytes == up_to(from(whole, offset), count)
}

/// The bytes from an offset on.
pub(crate) fn from(bytes: &[u8], offset: u64) -> &[u8]
    ensures { result.now ≡ drop offset bytes.now }
{
    if offset < bytes.len() as u64 {
        bytes.split_at(offset as usize).1
    } else {
        &[]
    }
}

/// The bytes before an offset.
pub(crate) fn up_to(bytes: &[u8], offset: u64) -> &[u8]
    ensures { result.now ≡ take offset bytes.now }
{
    if offset < bytes.len() as u64 {
        bytes.split_at(offset as usize).0
    } else {
        bytes
    }
}

/// How many bytes the offset lies past the end.
fn gap(bytes: &[u8], offset: u64) -> u64
    ensures { result ≡ offset - length bytes.now }
{
    offset.saturating_sub(bytes.len() as u64)
}

/// Whether the whole is these parts one after the other, with zeros after the first.
fn is_joined(whole: &[u8], first: &[u8], zeros: u64, middle: &[u8], last: &[u8]) -> bool
    ensures { result ≡ bytes_eq whole.now (first.now ++ (replicate zeros 0 ++ (middle.now ++ last.now))) }
{
    match after(whole, first) {
        Some(rest) => is_gapped(rest, zeros, middle, last),
        None => false,
    }
}

fn is_gapped(whole: &[u8], zeros: u64, middle: &[u8], last: &[u8]) -> bool
    ensures { result ≡ bytes_eq whole.now (replicate zeros 0 ++ (middle.now ++ last.now)) }
{
    match after_zeros(whole, zeros) {
        Some(rest) => is_followed(rest, middle, last),
        None => false,
    }
}

fn is_followed(whole: &[u8], middle: &[u8], last: &[u8]) -> bool
    ensures { result ≡ bytes_eq whole.now (middle.now ++ last.now) }
{
    match after(whole, middle) {
        Some(rest) => same_bytes(rest, last),
        None => false,
    }
}

/// What follows the first part, if the whole begins with it.
fn after<'a>(whole: &'a [u8], first: &[u8]) -> Option<&'a [u8]>
    ensures { MatchOption result ((rest : List ℕ) → whole.entry.now ≢ first.now ++ rest) (λ rest. whole.entry.now ≡ first.now ++ rest.now) }
{
    if whole.len() < first.len() {
        return None;
    }
    if same_bytes(up_to(whole, first.len() as u64), first) {
        Some(from(whole, first.len() as u64))
    } else {
        None
    }
}

/// What follows so many zeros, if the whole begins with them.
fn after_zeros(whole: &[u8], count: u64) -> Option<&[u8]>
    ensures { MatchOption result ((rest : List ℕ) → whole.entry.now ≢ replicate count 0 ++ rest) (λ rest. whole.entry.now ≡ replicate count 0 ++ rest.now) }
{
    if (whole.len() as u64) < count {
        return None;
    }
    if are_zeros(up_to(whole, count)) {
        Some(from(whole, count))
    } else {
        None
    }
}

/// Whether these are so many zeros.
pub(crate) fn are_so_many_zeros(count: u64, bytes: &[u8]) -> bool
    ensures { result ≡ bytes_eq bytes.now (replicate count 0) }
{
    if bytes.len() as u64 != count {
        return false;
    }
    are_zeros(bytes)
}

/// Whether each byte is zero.
fn are_zeros(bytes: &[u8]) -> bool
    ensures { result ≡ are_zeros bytes.now }
{
    for byte in bytes {
        if *byte != 0 {
            return false;
        }
    }
    true
}
