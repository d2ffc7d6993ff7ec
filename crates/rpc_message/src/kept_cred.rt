//! A credential with its spelling, for many calls.

ghost use Rattle.std.specs.Prelude.{◌≡◌, ◌++◌, IfOk, OnOk, OnErr};
ghost use Rattle.xdr_codec.specs.Spelling.{BeginsWith};
ghost use Rattle.rpc_message.specs.Auth.{SpellsAuth};
ghost use Rattle.rpc_message.specs.Cred.{none_bytes, cred_bytes};

use crate::cred::{Cred, write_cred, write_none};
use std::alloc::Global;
use std::marker::Model;
use xdr_codec::{Blob, Memory, Writer};

/// As whom many calls are made. The spelling of the credential may be kept, and is copied into each call then.
#[derive(Drop)]
pub struct KeptCred {
    cred: Cred,
    /// The credential and the verifier behind it, AUTH_NONE.
    text: Option<Blob>,
}

impl Model for KeptCred {
    ghost use Rattle.std.specs.Prelude.{IfSome};
    ghost use Rattle.rpc_message.specs.declared.cred.Cred.{Cred};
    ghost use Rattle.rpc_message.specs.Cred.{IsSpelled};

    ghost Value = { Cred };

    ghost view = { λ k. k.cred };

    ghost invariant = { λ k. IfSome k.text (IsSpelled k.cred) };
}

impl KeptCred {
    /// A credential that is spelled for each call.
    pub fn of(cred: Cred) -> KeptCred
        ensures { result ≡ cred }
    {
        KeptCred { cred, text: None }
    }

    /// A credential that is spelled once.
    pub fn spelled(alloc: Global, cred: Cred) -> Result<KeptCred, Memory>
        ensures { IfOk result (λ kept. kept ≡ cred) }
    {
        let mut w = Writer::new(alloc);
        write_auth(&mut w, &cred)?;
        let text = Some(w.finish());
        Ok(KeptCred { cred, text })
    }

    /// Appends the credential and the verifier AUTH_NONE. When out of memory the writer begins with what it held.
    pub(crate) fn append(&self, w: &mut Writer) -> Result<(), Memory>
        ensures ok { OnOk result (w.new ≡ w.old ++ (cred_bytes self.now ++ none_bytes)) }
        ensures err { OnErr result (BeginsWith w.old w.new) }
        ensures spelled { OnOk result (SpellsAuth (cred_bytes self.now)) }
    {
        match &self.text {
            Some(text) => w.raw(text.bytes()),
            None => write_auth(w, &self.cred),
        }
    }
}

/// Appends a credential and the verifier AUTH_NONE. When out of memory the writer begins with what it held.
#[tactic(auto, using(xdr_codec::proofs::Begins::after_a, std::proofs::Common::append_assoc))]
fn write_auth(w: &mut Writer, cred: &Cred) -> Result<(), Memory>
    ensures ok { OnOk result (w.new ≡ w.old ++ (cred_bytes cred.now ++ none_bytes)) }
    ensures err { OnErr result (BeginsWith w.old w.new) }
    ensures spelled { OnOk result (SpellsAuth (cred_bytes cred.now)) }
{
    write_cred(w, cred)?;
    write_none(w)?;
    Ok(())
}
