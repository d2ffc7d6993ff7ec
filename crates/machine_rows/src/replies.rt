//! The replies that lines stand for.

use crate::words::{file, numbers, small, text, tiny, word_at};
use call_replies::came_of;
use client_shelf::Came;
use nfs_dir_calls::{DirReply, PlusEntry, PlusPage, write_plus_entry};
use nfs_file_calls::FileReply;
use nfs_types::{Attr, Handle, Name, Stamp, Status, Time, Verf, Wcc};
use std::alloc::Global;
use world_model::Fault;
use xdr_codec::{Blob, Lent, Memory, Writer};

/// A time in whole seconds.
fn time(seconds: u64) -> Time {
    Time {
        seconds: small(seconds),
        nanos: 0,
    }
}

/// Attributes of this kind and length, last changed at this second.
fn attr(kind: u64, size: u64, mtime: u64) -> Attr {
    let time = time(mtime);
    Attr {
        kind: small(kind),
        mode: 0o644,
        nlink: 1,
        uid: 0,
        gid: 0,
        size,
        used: size,
        rdev_major: 0,
        rdev_minor: 0,
        fsid: 1,
        fileid: 1,
        atime: time,
        mtime: time,
        ctime: time,
    }
}

/// The same if there are any: kind 0 stands for none.
fn attr_of(kind: u64, size: u64, mtime: u64) -> Option<Attr> {
    if kind == 0 {
        None
    } else {
        Some(attr(kind, size, mtime))
    }
}

/// The attributes of a file before a change, if there are any: second 0 stands for none.
fn stamp_of(size: u64, mtime: u64) -> Option<Stamp> {
    if mtime == 0 {
        return None;
    }
    Some(Stamp {
        size,
        mtime: time(mtime),
        ctime: time(mtime),
    })
}

/// A change after which these attributes were told.
fn wcc(after: Option<Attr>) -> Wcc {
    Wcc {
        before: None,
        after,
    }
}

/// A change of a file of which these attributes were told.
fn change(size: u64, mtime: u64, new_size: u64, new_mtime: u64) -> Wcc {
    Wcc {
        before: stamp_of(size, mtime),
        after: attr_of(u64::from(new_mtime != 0), new_size, new_mtime),
    }
}

/// The write verifier of a number.
fn verifier(number: u64) -> Verf {
    Verf([tiny(number); 8])
}

/// The attributes of a directory that changed at this second; 0 stands for none.
fn dir_of(mtime: u64) -> Option<Attr> {
    if mtime == 0 {
        None
    } else {
        Some(attr(2, 0, mtime))
    }
}

/// A file handle; 0 stands for none.
fn found_of(number: u64) -> Option<Handle> {
    if number == 0 {
        None
    } else {
        Some(file(number))
    }
}

/// Appends an entry of a page.
fn entry(w: &mut Writer, name: &Name, cookie: u64) -> Result<(), Memory> {
    let entry = PlusEntry {
        fileid: 9,
        name: name.bytes(),
        cookie,
        attr: None,
        found: None,
    };
    write_plus_entry(w, &entry)
}

/// The bytes that a reply is made of: a record's digits, or how many zeros it has, are the second word. Those of a READ are as many
/// as the fourth number says, of the value of the sixth. Of another reply they are the entries of a page.
pub(crate) fn body(alloc: Global, word: &str, words: &str) -> Result<Blob, Memory> {
    if word == "record" {
        return match hex::decode(alloc, word_at(words, 1)) {
            Ok(bytes) => Ok(Blob::of(bytes)),
            Err(_) => Ok(Blob::of(Vec::new(alloc))),
        };
    }
    let [_, zeros, _, count, _, byte, _] = numbers(words);
    match word {
        "names" => made_entries(alloc, words),
        "filled" => equal_bytes(alloc, small(count), tiny(byte)),
        "zeros" => equal_bytes(alloc, small(zeros), 0),
        _ => entries(alloc, words),
    }
}

/// So many bytes of one value.
fn equal_bytes(alloc: Global, count: u32, byte: u8) -> Result<Blob, Memory> {
    let mut bytes = Vec::new(alloc);
    bytes.resize(count as usize, byte)?;
    Ok(Blob::of(bytes))
}

/// The entries of a page with so many names that are made, as the fifth number says.
fn made_entries(alloc: Global, words: &str) -> Result<Blob, Memory> {
    let [_, _, _, cookie, count, ..] = numbers(words);
    let mut w = Writer::new(alloc);
    for number in 0..small(count) {
        let mut digits = [0; 8];
        if hex::encode_to_slice(number.to_be_bytes(), &mut digits).is_ok() {
            let name = Name::make(&digits).unwrap_or(Name::make(b"?").unwrap());
            entry(&mut w, &name, cookie.wrapping_add(u64::from(number)))?;
        }
    }
    w.flag(false)?;
    Ok(w.finish())
}

/// The entries of a page in XDR (RFC 1813, section 3.3.17): the names are the words from the fifth on, and the fourth word is the
/// cookie of the first one.
fn entries(alloc: Global, words: &str) -> Result<Blob, Memory> {
    let mut cookie = numbers(words)[3];
    let mut w = Writer::new(alloc);
    for name in words.split_whitespace().skip(4) {
        if let Some(name) = Name::make(name.as_bytes()) {
            entry(&mut w, &name, cookie)?;
            cookie = cookie.wrapping_add(1);
        }
    }
    w.flag(false)?;
    Ok(w.finish())
}

/// What came of a call, made of these words and bytes.
pub(crate) fn came<'a>(word: &str, words: &'a str, body: &'a [u8]) -> Came<'a> {
    let [a, b, c, d, e, f, g] = numbers(words);
    match word {
        "record" => came_of(small(a), &Lent::of(body)),
        "zeros" => came_of(small(a), &Lent::of(body)),
        "wrote" => Came::File(FileReply::Write {
            wcc: change(d, e, f, g),
            count: small(a),
            committed: small(b),
            verf: verifier(c),
        }),
        "data" => Came::File(FileReply::Read {
            attr: attr_of(a, b, c),
            count: small(d),
            eof: e == 1,
            bytes: Lent::of(text(words).as_bytes()),
        }),
        "filled" => Came::File(FileReply::Read {
            attr: attr_of(a, b, c),
            count: small(d),
            eof: e == 1,
            bytes: Lent::of(body),
        }),
        "target" => Came::Dir(DirReply::ReadLink {
            attr: attr_of(a, b, c),
            text: text(words).as_bytes(),
        }),
        "page" => page(a, b, c == 1, body),
        "names" => page(a, b, c == 1, body),
        "rpc" => Came::Refused(Fault::Rpc(a)),
        "bad" => Came::Refused(Fault::Bad(small(a))),
        "memory" => Came::Refused(Fault::Memory),
        "spent" => Came::Refused(Fault::Spent),
        _ => done(word, a, b, c, d, e),
    }
}

/// A page of a directory.
fn page<'a>(mtime: u64, verf: u64, eof: bool, entries: &'a [u8]) -> Came<'a> {
    match PlusPage::over(entries) {
        Ok(page) => Came::Dir(DirReply::ReadDirPlus {
            attr: dir_of(mtime),
            verf: verifier(verf),
            page,
            eof,
        }),
        Err(_fault) => Came::Refused(Fault::Bad(2)),
    }
}

/// The other replies of status 0.
fn done<'a>(word: &str, a: u64, b: u64, c: u64, d: u64, e: u64) -> Came<'a> {
    match word {
        "looked" => Came::Dir(DirReply::Lookup {
            found: file(a),
            attr: attr_of(b, c, d),
            dir: dir_of(e),
        }),
        "made" => Came::Dir(DirReply::Create {
            found: found_of(a),
            attr: attr_of(b, c, d),
            wcc: wcc(dir_of(e)),
        }),
        "made-dir" => Came::Dir(DirReply::MkDir {
            found: found_of(a),
            attr: attr_of(b, c, d),
            wcc: wcc(dir_of(e)),
        }),
        "made-link" => Came::Dir(DirReply::SymLink {
            found: found_of(a),
            attr: attr_of(b, c, d),
            wcc: wcc(dir_of(e)),
        }),
        "linked" => Came::Dir(DirReply::Link {
            attr: attr_of(a, b, c),
            wcc: wcc(dir_of(d)),
        }),
        "removed" => Came::Dir(DirReply::Remove {
            wcc: wcc(dir_of(a)),
        }),
        "removed-dir" => Came::Dir(DirReply::RmDir {
            wcc: wcc(dir_of(a)),
        }),
        "renamed" => Came::Dir(DirReply::Rename {
            from: wcc(dir_of(a)),
            to: wcc(dir_of(b)),
        }),
        "attr" => Came::File(FileReply::GetAttr {
            attr: attr(a, b, c),
        }),
        "granted" => Came::File(FileReply::Access {
            attr: attr_of(a, b, c),
            bits: small(d),
        }),
        "committed" => Came::File(FileReply::Commit {
            wcc: wcc(None),
            verf: verifier(a),
        }),
        "cut" => Came::File(FileReply::SetAttr {
            wcc: Wcc {
                before: stamp_of(d, e),
                after: attr_of(a, b, c),
            },
        }),
        _ => refused(word, Status(small(a)), b, c),
    }
}

/// The replies of another status.
fn refused<'a>(word: &str, status: Status, mtime: u64, other: u64) -> Came<'a> {
    let change = wcc(dir_of(mtime));
    match word {
        "look-refused" => Came::Dir(DirReply::LookupFail {
            status,
            dir: dir_of(mtime),
        }),
        "make-refused" => Came::Dir(DirReply::CreateFail {
            status,
            wcc: change,
        }),
        "make-dir-refused" => Came::Dir(DirReply::MkDirFail {
            status,
            wcc: change,
        }),
        "make-link-refused" => Came::Dir(DirReply::SymLinkFail {
            status,
            wcc: change,
        }),
        "remove-refused" => Came::Dir(DirReply::RemoveFail {
            status,
            wcc: change,
        }),
        "remove-dir-refused" => Came::Dir(DirReply::RmDirFail {
            status,
            wcc: change,
        }),
        "rename-refused" => Came::Dir(DirReply::RenameFail {
            status,
            from: change,
            to: wcc(dir_of(other)),
        }),
        "link-refused" => Came::Dir(DirReply::LinkFail {
            status,
            attr: None,
            wcc: change,
        }),
        "target-refused" => Came::Dir(DirReply::ReadLinkFail { status, attr: None }),
        "page-refused" => Came::Dir(DirReply::ReadDirPlusFail { status, attr: None }),
        _ => refused_file(word, status),
    }
}

/// The same of calls on files.
fn refused_file<'a>(word: &str, status: Status) -> Came<'a> {
    let wcc = wcc(None);
    match word {
        "attr-refused" => Came::File(FileReply::GetAttrFail { status }),
        "access-refused" => Came::File(FileReply::AccessFail { status, attr: None }),
        "read-refused" => Came::File(FileReply::ReadFail { status, attr: None }),
        "write-refused" => Came::File(FileReply::WriteFail { status, wcc }),
        "commit-refused" => Came::File(FileReply::CommitFail { status, wcc }),
        _ => Came::File(FileReply::SetAttrFail { status, wcc }),
    }
}
