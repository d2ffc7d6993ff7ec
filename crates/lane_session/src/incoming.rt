//! A record that came.

ghost use Rattle.std.specs.Prelude.{◌≡◌};

use std::alloc::Global;
use std::marker::Model;
use std::rc::Rc;
use xdr_codec::Lent;

/// A record of fewer bytes holds no whole page, so that no answer shares it.
const SHARED: usize = 4096;

/// A record that came. One that may hold whole pages can be shared on.
#[derive(Drop)]
pub(crate) struct Incoming {
    /// The record, if it can't be shared on.
    own: Vec<u8>,
    /// The record, if it can.
    shared: Option<Rc<Vec<u8>>>,
}

impl Model for Incoming {
    ghost use Rattle.std.specs.Prelude.{List, ℕ, option_map};
    ghost use Rattle.xdr_codec.specs.Blobs.{shared_or};

    ghost Value = { List ℕ };

    ghost view = { λ i. shared_or (option_map (λ all. all.value.items) i.shared) i.own.items };
}

impl Incoming {
    /// A record of these bytes, which aren't copied. If there is no memory it can't be shared on.
    pub(crate) fn of(alloc: Global, bytes: Vec<u8>) -> Incoming
        ensures { result ≡ bytes.items }
    {
        if bytes.len() < SHARED {
            return Incoming::unshared(bytes);
        }
        match Rc::new(alloc, bytes) {
            Ok(all) => Incoming {
                own: Vec::new(alloc),
                shared: Some(all),
            },
            Err(failed) => Incoming::unshared(failed.value),
        }
    }

    /// One that can't be shared on.
    fn unshared(bytes: Vec<u8>) -> Incoming
        ensures { result ≡ bytes.items }
    {
        Incoming {
            own: bytes,
            shared: None,
        }
    }

    /// Its bytes.
    pub(crate) fn lent(&self) -> Lent<'_>
        ensures { result ≡ self.now }
    {
        match &self.shared {
            Some(all) => Lent::all(all),
            None => Lent::of(self.own.as_slice()),
        }
    }

    /// Its memory, unless an answer shares it.
    pub(crate) fn into_memory(self) -> Option<Vec<u8>> {
        let Incoming { own, shared } = self;
        let Some(all) = shared else {
            return Some(own);
        };
        Rc::into_inner(all)
    }
}
