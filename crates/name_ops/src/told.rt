//! What a reply to a call that changes a directory tells.

ghost use Rattle.std.specs.Prelude.{◌≡◌, None, Some};
ghost use Rattle.name_ops.specs.Changing.{done, made, failed, refused_by, answer_of, told_busy};
ghost use Rattle.name_ops.specs.SymLink.{lacking};

use client_shelf::busy::is_busy;
use client_shelf::unmade::is_unmade;
use nfs_types::{Attr, Handle, Status, Wcc};
use world_model::{Answer, Fault, Value};

/// What a reply to a call that changes a directory tells.
#[derive(Clone, Copy, Debug)]
pub struct Told {
    /// The object that got a name, if its file handle is known.
    pub object: Option<Handle>,
    /// Its attributes, if the reply gives them.
    pub attr: Option<Attr>,
    /// The directory's attributes after the call, if the reply gives them.
    pub dir: Option<Attr>,
    /// Why nothing was changed, if nothing was.
    pub refusal: Option<Fault>,
    /// Whether the call couldn't be made, so that what is kept of the directory stays.
    pub unmade: bool,
}

impl Told {
    /// The call was executed, and no object got a name.
    pub(crate) fn done(wcc: &Wcc) -> Told
        ensures { result ≡ done wcc.now }
    {
        Told {
            object: None,
            attr: None,
            dir: wcc.after,
            refusal: None,
            unmade: false,
        }
    }

    /// An object was made.
    pub(crate) fn made(found: &Option<Handle>, attr: &Option<Attr>, wcc: &Wcc) -> Told
        ensures { result ≡ made found.now attr.now wcc.now }
    {
        Told {
            object: *found,
            attr: *attr,
            dir: wcc.after,
            refusal: None,
            unmade: false,
        }
    }

    /// The server refused the call.
    pub(crate) fn failed(status: Status, wcc: &Wcc) -> Told
        ensures { result ≡ failed status wcc.now }
    {
        Told {
            object: None,
            attr: None,
            dir: wcc.after,
            refusal: Some(Fault::Nfs(status.0)),
            unmade: false,
        }
    }

    /// No reply of this call came, or it couldn't be made.
    pub(crate) fn refused(fault: Fault) -> Told
        ensures { result ≡ refused_by fault }
    {
        Told {
            object: None,
            attr: None,
            dir: None,
            refusal: Some(fault),
            unmade: is_unmade(&fault),
        }
    }

    /// The same reply, if there is no memory for the call that is to follow.
    pub(crate) fn lacking(&self) -> Told
        ensures { result ≡ lacking self.now }
    {
        Told {
            object: self.object,
            attr: self.attr,
            dir: self.dir,
            refusal: Some(Fault::Memory),
            unmade: self.unmade,
        }
    }

    /// The answer of the operation.
    pub(crate) fn answer(&self) -> Answer
        ensures { result ≡ answer_of self.now.refusal }
    {
        match self.refusal {
            None => Answer::Done(Value::Nothing),
            Some(fault) => Answer::Refused(fault),
        }
    }

    /// Whether it was refused because the server is busy.
    pub(crate) fn is_busy(&self) -> bool
        ensures { result ≡ told_busy self.now.refusal }
    {
        match self.refusal {
            None => false,
            Some(fault) => is_busy(&fault),
        }
    }
}
