//! Why an object isn't at its place.

/// Why an object isn't at its place.
#[derive(Clone, Copy, Debug, PartialEq, Eq)]
pub enum Why {
    /// The system refused a call: its number of the error, or 0.
    Refused(u32),
    /// A name can't be used there.
    Unnamed,
    /// Nothing stands there.
    Missing,
    /// Something of another kind stands there.
    Kind,
    /// The bytes are other ones, or the link leads elsewhere.
    Other,
}
