//! Many names in one directory.

use export_fs::Export;
use nfs_dir_calls::{DirCall, DirKept, Making};
use nfs_types::{Handle, Name, SetAttr, SetTime};
use std::io;
use world_model::{Call, Reply};

/// A call that keeps everything.
const KEEPS_ALL: SetAttr = SetAttr {
    mode: None,
    uid: None,
    gid: None,
    size: None,
    atime: SetTime::Keep,
    mtime: SetTime::Keep,
};

/// What is done with each name.
#[derive(Clone, Copy)]
enum Step {
    Make,
    LookUp,
    Remove,
}

/// The call on the name in a directory.
fn call_of(step: Step, dir: Handle, name: Name) -> Call {
    match step {
        Step::Make => Call::Dir(DirCall::Create {
            dir,
            name,
            making: Making::Guarded(KEEPS_ALL),
        }),
        Step::LookUp => Call::Dir(DirCall::Lookup { dir, name }),
        Step::Remove => Call::Dir(DirCall::Remove { dir, name }),
    }
}

/// Whether the reply says that it is done.
fn is_done(reply: &Reply) -> bool {
    match reply {
        Reply::Dir(DirKept::Create { .. }) => true,
        Reply::Dir(DirKept::Lookup { .. }) => true,
        Reply::Dir(DirKept::Remove { .. }) => true,
        _ => false,
    }
}

/// Does that with each of so many names in the root, and gives how many times it was done.
fn each(export: &mut Export, step: Step, count: u32) -> u32 {
    let mut done = 0_u32;
    for number in 0..count {
        if does(export, step, number) {
            done = done.wrapping_add(1);
        }
    }
    done
}

/// Does that with the name of a number, its four bytes in digits of 64.
fn does(export: &mut Export, step: Step, number: u32) -> bool {
    let text = [
        b'0' + (number / 262_144 % 64) as u8,
        b'0' + (number / 4_096 % 64) as u8,
        b'0' + (number / 64 % 64) as u8,
        b'0' + (number % 64) as u8,
    ];
    let (Some(root), Some(name)) = (Handle::make(&[0, 0, 0, 0, 0, 0, 0, 1]), Name::make(&text))
    else {
        return false;
    };
    match export.execute(&call_of(step, root, name)) {
        Ok(reply) => is_done(&reply),
        Err(_) => false,
    }
}

/// Makes, looks up and removes so many files, and prints how many times each was done.
pub fn make_and_remove(rt: &impl Print, export: &mut Export, count: u32) -> io::Result<()> {
    let made = each(export, Step::Make, count);
    let found = each(export, Step::LookUp, count);
    let removed = each(export, Step::Remove, count);
    println!(rt; "  made {made} found {found} removed {removed}")
}
