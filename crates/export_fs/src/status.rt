//! The statuses of calls that are refused (RFC 1813, section 2.6, nfsstat3).

pub(crate) const OK: u32 = 0;

pub(crate) const NOENT: u32 = 2;

pub(crate) const EXIST: u32 = 17;

pub(crate) const NOTDIR: u32 = 20;

pub(crate) const ISDIR: u32 = 21;

pub(crate) const INVAL: u32 = 22;

pub(crate) const FBIG: u32 = 27;

pub(crate) const NOSPC: u32 = 28;

pub(crate) const NAMETOOLONG: u32 = 63;

pub(crate) const NOTEMPTY: u32 = 66;

pub(crate) const STALE: u32 = 70;

pub(crate) const BADHANDLE: u32 = 10001;

pub(crate) const NOT_SYNC: u32 = 10002;

pub(crate) const BAD_COOKIE: u32 = 10003;

pub(crate) const NOTSUPP: u32 = 10004;
