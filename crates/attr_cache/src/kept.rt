//! What is kept of a file.

ghost use Rattle.std.specs.Prelude.{◌≡◌};
ghost use Rattle.attr_cache.specs.Attrs.{is_fresh, has_stamp, next_lifetime};

use crate::lives::Lives;
use nfs_types::Attr;

/// The attributes of a file, and for how long they are believed.
#[derive(Clone, Copy, Debug, PartialEq, Eq)]
pub struct KeptAttr {
    /// The attributes.
    pub attr: Attr,
    /// When the call that told them was sent, in milliseconds.
    pub sent_at: u64,
    /// For how many milliseconds from then on they are believed.
    pub lifetime: u64,
}

impl KeptAttr {
    /// Whether they are still believed at a moment. Their end isn't bounded by 64 bits.
    pub(crate) fn is_fresh(&self, now: u64) -> bool
        ensures { result ≡ is_fresh now self.now }
    {
        match self.sent_at.checked_add(self.lifetime) {
            Some(end) => now < end,
            None => true,
        }
    }

    /// Whether the file didn't change since: its length and the times of its last changes are these.
    fn has_stamp(&self, attr: &Attr) -> bool
        ensures { result ≡ has_stamp attr.now self.now }
    {
        self.attr.stamp() == attr.stamp()
    }

    /// The lifetime of attributes that are learnt next, by a call that was sent at a moment.
    pub(crate) fn next_lifetime(&self, lives: &Lives, attr: &Attr, sent_at: u64) -> u64
        ensures { result ≡ next_lifetime lives.now self.now attr.now sent_at }
    {
        if !self.has_stamp(attr) {
            return lives.shortest(attr);
        }
        if self.is_fresh(sent_at) {
            return self.lifetime;
        }
        self.lifetime.saturating_mul(2).min(lives.longest(attr))
    }
}
