//! What an operation comes to.

ghost use Rattle.std.specs.Prelude.{◌≡◌, IfOk};

use nfs_types::{Attr, NameList};
use std::alloc::Global;
use xdr_codec::{Blob, Memory};

/// The value of an operation that succeeded.
#[derive(Debug, Drop)]
pub enum Value {
    /// Nothing beside that it succeeded.
    Nothing,
    /// The bytes that were read.
    Bytes(Blob),
    /// What a symbolic link leads to.
    Text(Blob),
    /// The attributes of an object.
    Attrs(Attr),
    /// The rights that are granted, as the bits of ACCESS (RFC 1813, section 3.3.4).
    Bits(u32),
    /// The names of a directory.
    Names(NameList),
}

impl Value {
    /// An equal value.
    pub fn copy(&self, alloc: Global) -> Result<Value, Memory>
        ensures { IfOk result (λ value. value ≡ self.now) }
    {
        Ok(match self {
            Value::Nothing => Value::Nothing,
            Value::Bytes(bytes) => Value::Bytes(Blob::copy(alloc, bytes.bytes())?),
            Value::Text(text) => Value::Text(Blob::copy(alloc, text.bytes())?),
            Value::Attrs(attr) => Value::Attrs(*attr),
            Value::Bits(bits) => Value::Bits(*bits),
            Value::Names(list) => Value::Names(NameList::of(list.names().to_vec(alloc)?)),
        })
    }
}

/// Why an operation was refused.
#[derive(Clone, Copy, Debug, PartialEq, Eq)]
pub enum Fault {
    /// The server answered a call with this status, which isn't 0 (RFC 1813, sections 2.6 and 5.1.5).
    Nfs(u32),
    /// RPC refused a call: the accept status 1 to 5, 100 for RPC_MISMATCH, or 200 plus the auth status (RFC 5531,
    /// section 9).
    Rpc(u64),
    /// A record under a call's xid broke this rule:
    /// - 1: it isn't a reply;
    /// - 2: it isn't spelled by the grammar;
    /// - 3: its `committed` isn't one that the WRITE allows;
    /// - 4: it counts no bytes or more than the WRITE carried;
    /// - 5: its data are more than the READ asked for, or unlike its count, or none before the end of the file;
    /// - 6: its page of a directory has no entry and isn't the last;
    /// - 7: it has more than 131,072 bytes.
    Bad(u32),
    /// The link to the server is lost.
    Lost,
    /// A call was needed, and as many as there may be were made.
    Spent,
    /// The slot that is to be opened holds an open file, or another operation's slot holds none.
    Slot,
    /// The file isn't open for such an operation.
    Mode,
    /// What is to be opened is no file.
    Kind,
    /// A directory has more than 65,536 names.
    Many,
    /// Out of memory.
    Memory,
}

/// The answer to an operation.
#[derive(Debug, Drop)]
pub enum Answer {
    /// It succeeded.
    Done(Value),
    /// It was refused.
    Refused(Fault),
}

impl Answer {
    /// An equal answer.
    pub fn copy(&self, alloc: Global) -> Result<Answer, Memory>
        ensures { IfOk result (λ answer. answer ≡ self.now) }
    {
        Ok(match self {
            Answer::Done(value) => Answer::Done(value.copy(alloc)?),
            Answer::Refused(fault) => Answer::Refused(*fault),
        })
    }
}
