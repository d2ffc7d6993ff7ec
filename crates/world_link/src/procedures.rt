//! The procedures of NFS version 3 by their names.

ghost use Rattle.std.specs.Prelude.{◌≡◌};
ghost use Rattle.world_link.specs.Procedures.{proc_of};

/// In the order of their numbers (RFC 1813, section 3).
const PROCEDURES: [&[u8]; 22] = [
    b"NULL",
    b"GETATTR",
    b"SETATTR",
    b"LOOKUP",
    b"ACCESS",
    b"READLINK",
    b"READ",
    b"WRITE",
    b"CREATE",
    b"MKDIR",
    b"SYMLINK",
    b"MKNOD",
    b"REMOVE",
    b"RMDIR",
    b"RENAME",
    b"LINK",
    b"READDIR",
    b"READDIRPLUS",
    b"FSSTAT",
    b"FSINFO",
    b"PATHCONF",
    b"COMMIT",
];

/// The number of the procedure of that name.
pub(crate) fn proc_named(name: &[u8]) -> Option<u32>
    ensures { result ≡ proc_of name.now }
{
    match PROCEDURES.iter().position(|p| *p == name) {
        Some(place) => Some(place as u32),
        None => None,
    }
}
