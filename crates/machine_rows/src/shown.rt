//! What a step came to, in words.

use nfs_dir_calls::{DirCall, Making};
use nfs_file_calls::FileCall;
use nfs_types::{Handle, Name, SetAttr, SetTime};
use std::io;
use world_model::{Answer, Call, Fault, Value};

/// What sets nothing.
const NOTHING: SetAttr = SetAttr {
    mode: None,
    uid: None,
    gid: None,
    size: None,
    atime: SetTime::Keep,
    mtime: SetTime::Keep,
};

/// Prints a call: its number within the operation, the procedure and the arguments.
pub(crate) fn show_call(rt: &impl Print, number: usize, call: &Call) -> io::Result<()> {
    match call {
        Call::Dir(call) => show_dir_call(rt, number, call),
        Call::File(call) => show_file_call(rt, number, call),
        Call::Mount(_) => println!(rt; "  {number}. a call of MOUNT"),
    }
}

fn show_dir_call(rt: &impl Print, number: usize, call: &DirCall) -> io::Result<()> {
    match call {
        DirCall::Lookup { dir, name } => {
            println!(rt; "  {number}. LOOKUP {}/{}", shown(dir), named(name))
        }
        DirCall::ReadLink { file } => println!(rt; "  {number}. READLINK {}", shown(file)),
        DirCall::ReadDirPlus {
            dir,
            cookie,
            verf,
            dircount,
            maxcount,
        } => {
            println!(rt;
                "  {number}. READDIRPLUS {} cookie {cookie} verifier {:?} counts {dircount} {maxcount}",
                shown(dir),
                verf.0
            )
        }
        _ => show_naming(rt, number, call),
    }
}

/// The same of a call that adds or removes a name of an object.
fn show_naming(rt: &impl Print, number: usize, call: &DirCall) -> io::Result<()> {
    match call {
        DirCall::Remove { dir, name } => {
            println!(rt; "  {number}. REMOVE {}/{}", shown(dir), named(name))
        }
        DirCall::RmDir { dir, name } => {
            println!(rt; "  {number}. RMDIR {}/{}", shown(dir), named(name))
        }
        DirCall::Link { file, dir, name } => {
            println!(rt;
                "  {number}. LINK {} {}/{}",
                shown(file),
                shown(dir),
                named(name)
            )
        }
        DirCall::Rename {
            from_dir,
            from,
            to_dir,
            to,
        } => {
            println!(rt;
                "  {number}. RENAME {}/{} {}/{}",
                shown(from_dir),
                named(from),
                shown(to_dir),
                named(to)
            )
        }
        _ => show_making(rt, number, call),
    }
}

/// The same of a call that makes an object.
fn show_making(rt: &impl Print, number: usize, call: &DirCall) -> io::Result<()> {
    match call {
        DirCall::Create { dir, name, making } => {
            print!(rt; "  {number}. CREATE {}/{} ", shown(dir), named(name))?;
            match making {
                Making::Unchecked(set) => show_set(rt, "unchecked with", set),
                Making::Guarded(set) => show_set(rt, "guarded with", set),
                Making::Exclusive(_) => println!(rt; "exclusive"),
            }
        }
        DirCall::MkDir { dir, name, set } => {
            print!(rt; "  {number}. MKDIR {}/{} ", shown(dir), named(name))?;
            show_set(rt, "with", set)
        }
        DirCall::SymLink {
            dir,
            name,
            set,
            target,
        } => {
            print!(rt;
                "  {number}. SYMLINK {}/{} to {:?} ",
                shown(dir),
                named(name),
                seen(target.bytes())
            )?;
            show_set(rt, "with", set)
        }
        _ => println!(rt; "  {number}. another call"),
    }
}

/// Prints what a call sets: the mode alone, as all of these do.
fn show_set(rt: &impl Print, how: &str, set: &SetAttr) -> io::Result<()> {
    let others = SetAttr { mode: None, ..*set };
    if others == NOTHING {
        println!(rt; "{how} mode {:o}", set.mode.unwrap_or(0))
    } else {
        println!(rt; "{how} more than a mode")
    }
}

fn show_file_call(rt: &impl Print, number: usize, call: &FileCall) -> io::Result<()> {
    match call {
        FileCall::GetAttr { file } => println!(rt; "  {number}. GETATTR {}", shown(file)),
        FileCall::Read {
            file,
            offset,
            count,
        } => { println!(rt; "  {number}. READ {} {offset} {count}", shown(file)) }
        FileCall::Access { file, bits } => println!(rt;
            "  {number}. ACCESS {} {bits}",
            shown(file)
        ),
        _ => show_file_change(rt, number, call),
    }
}

/// The same of a call that writes a file, or sets what it is.
fn show_file_change(rt: &impl Print, number: usize, call: &FileCall) -> io::Result<()> {
    match call {
        FileCall::Write {
            file,
            offset,
            how,
            bytes,
        } => {
            let bytes = bytes.bytes();
            println!(rt;
                "  {number}. WRITE {} {offset} {} {} {:?}",
                shown(file),
                bytes.len(),
                way(*how),
                seen(bytes)
            )
        }
        FileCall::Commit {
            file,
            offset,
            count,
        } => { println!(rt; "  {number}. COMMIT {} {offset} {count}", shown(file)) }
        FileCall::SetAttr { file, set, guard } => {
            let others = SetAttr { size: None, ..*set };
            let size = set.size.unwrap_or(0);
            if others == NOTHING && guard.is_none() {
                println!(rt; "  {number}. SETATTR {} size {size} alone", shown(file))
            } else {
                println!(rt; "  {number}. SETATTR {} size {size} and more", shown(file))
            }
        }
        _ => println!(rt; "  {number}. another call"),
    }
}

/// The number of a file handle.
fn shown(file: &Handle) -> u8 {
    file.bytes().first().copied().unwrap_or(0)
}

/// A name as text.
fn named(name: &Name) -> &str {
    seen(name.bytes())
}

/// How bytes are written.
fn way(how: u32) -> &'static str {
    match how {
        0 => "unstable",
        1 => "data-sync",
        _ => "file-sync",
    }
}

/// Bytes as text; many are left out.
fn seen(bytes: &[u8]) -> &str {
    if bytes.len() > 128 {
        return "..";
    }
    str::from_utf8(bytes).unwrap_or("no text")
}

/// Prints an answer.
pub(crate) fn show_answer(rt: &impl Print, answer: &Answer) -> io::Result<()> {
    match answer {
        Answer::Done(Value::Nothing) => println!(rt; "  ok"),
        Answer::Done(Value::Bytes(bytes)) => println!(rt; "  ok {:?}", seen(bytes.bytes())),
        Answer::Done(Value::Text(text)) => println!(rt; "  ok {:?}", seen(text.bytes())),
        Answer::Done(Value::Bits(bits)) => println!(rt; "  ok {bits}"),
        Answer::Done(Value::Attrs(attr)) => println!(rt;
            "  ok kind {} size {} changed at {}",
            attr.kind, attr.size, attr.mtime.seconds
        ),
        Answer::Done(Value::Names(list)) => show_names(rt, list.names()),
        Answer::Refused(fault) => show_fault(rt, *fault),
    }
}

/// Prints the names of a listing; how many they are, if there are many.
fn show_names(rt: &impl Print, names: &[Name]) -> io::Result<()> {
    if names.len() > 16 {
        return println!(rt; "  ok {} names", names.len());
    }
    print!(rt; "  ok")?;
    for name in names {
        print!(rt; " {}", named(name))?;
    }
    println!(rt; "")
}

/// Prints a refusal.
fn show_fault(rt: &impl Print, fault: Fault) -> io::Result<()> {
    match fault {
        Fault::Nfs(status) => println!(rt; "  nfs {status}"),
        Fault::Rpc(status) => println!(rt; "  rpc {status}"),
        Fault::Bad(rule) => println!(rt; "  bad {rule}"),
        Fault::Lost => println!(rt; "  lost"),
        Fault::Spent => println!(rt; "  spent"),
        Fault::Slot => println!(rt; "  slot"),
        Fault::Mode => println!(rt; "  mode"),
        Fault::Kind => println!(rt; "  type"),
        Fault::Many => println!(rt; "  many"),
        Fault::Memory => println!(rt; "  memory"),
    }
}
