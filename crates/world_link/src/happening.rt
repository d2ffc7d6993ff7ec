//! Events at the server.

ghost use Rattle.std.specs.Prelude.{⊤, ◌≡◌, ◌++◌, ◌∷◌, [], None, Some, IfOk, OnOk, OnErr, option_map};
ghost use Rattle.export_fs.specs.Executed.{executed};
ghost use Rattle.export_fs.specs.Finding.{found, file_size};
ghost use Rattle.export_fs.specs.Spelled.{HandlesAreBytes, IsSpelled};
ghost use Rattle.xdr_codec.specs.Bytes.{IsBytes};
ghost use Rattle.world_link.specs.declared.event.Event.TheVariants as events;
ghost use Rattle.world_link.specs.Happening as happenings;
ghost use Rattle.world_link.specs.Going.{Goes};
ghost use Rattle.world_link.specs.Honest.{StaysHonest};
ghost use Rattle.world_link.specs.Ends.{ends_of};
ghost use Rattle.world_link.specs.Routes.{KeepsEnds};
ghost use Rattle.world_link.specs.View.{served};

use crate::event::Event;
use crate::routed::{NO_CLIENT, Told};
use crate::server::Server;
use export_fs::handles_fit;
use nfs_dir_calls::{DirCall, DirKept, Making};
use nfs_file_calls::FileCall;
use nfs_types::{Handle, Name, SetAttr, SetTime};
use world_model::{Call, Entry, Path, Reply};
use xdr_codec::{Blob, Memory};

/// The bytes of a WRITE are stable at once (RFC 1813, section 3.3.7, stable_how).
const FILE_SYNC: u32 = 2;

impl Server {
    /// The events happen in order.
    pub(crate) fn happen_all(&mut self, events: &[Event]) -> Result<(), Memory>
        ensures ok { OnOk result (served self.new ≡ happenings.all_happened (served self.old) events.now) }
        ensures goes { Goes (served self.old) (served self.new) }
        ensures stays { StaysHonest (served self.old) (served self.new) }
        ensures ends { KeepsEnds (⊤) (ends_of self.old) (ends_of self.new) }
    {
        for event in events {
            self.happen(event)?;
        }
        Ok(())
    }

    /// An event happens. It is left out if an object that it speaks of isn't there.
    fn happen(&mut self, event: &Event) -> Result<(), Memory>
        ensures ok { OnOk result (served self.new ≡ happenings.happened (served self.old) event.now) }
        ensures goes { Goes (served self.old) (served self.new) }
        ensures stays { StaysHonest (served self.old) (served self.new) }
        ensures ends { KeepsEnds (⊤) (ends_of self.old) (ends_of self.new) }
    {
        match event {
            Event::Reboot => self.reboot(),
            Event::Flush(path) => self.flush(path),
            Event::Write {
                path,
                offset,
                bytes,
            } => self.write(path, *offset, bytes),
            Event::Truncate { path, size } => self.truncate(path, *size),
            Event::Create { path, bytes } => self.create(path, bytes),
            Event::Remove(path) => self.remove(path),
            Event::Rename { from, to } => self.rename(from, to),
        }
    }

    fn reboot(&mut self) -> Result<(), Memory>
        ensures ok { OnOk result (served self.new ≡ happenings.restarted (served self.old)) }
        ensures goes { Goes (served self.old) (served self.new) }
        ensures stays { StaysHonest (served self.old) (served self.new) }
        ensures ends { KeepsEnds (⊤) (ends_of self.old) (ends_of self.new) }
    {
        self.told.reserve(1)?;
        if self.export.reboot() {
            let verf = self.export.verifier();
            self.told.push(of_server(Entry::Reboot { verf })).unwrap();
        }
        Ok(())
    }

    fn flush(&mut self, path: &Path) -> Result<(), Memory>
        ensures ok { OnOk result (served self.new ≡ happenings.flushed_at (served self.old) (found self.old.export path.now)) }
        ensures goes { Goes (served self.old) (served self.new) }
        ensures stays { StaysHonest (served self.old) (served self.new) }
        ensures ends { KeepsEnds (⊤) (ends_of self.old) (ends_of self.new) }
    {
        let Some(file) = self.export.find(path.names()) else {
            return Ok(());
        };
        match self.export.file_size(&file) {
            Some(len) => self.flush_file(file, len),
            None => Ok(()),
        }
    }

    fn flush_file(&mut self, file: Handle, len: u64) -> Result<(), Memory>
        requires { file_size self.old.export file ≡ Some len }
        ensures ok { OnOk result (served self.new ≡ happenings.flushed_of (served self.old) file (Some len)) }
        ensures goes { Goes (served self.old) (served self.new) }
        ensures stays { StaysHonest (served self.old) (served self.new) }
        ensures ends { KeepsEnds (⊤) (ends_of self.old) (ends_of self.new) }
    {
        holds_bytes(&file);
        self.told.reserve(1)?;
        self.export.flush(&file, 0, len)?;
        let entry = Entry::Flushed { file, from: 0, len };
        self.told.push(of_server(entry)).unwrap();
        Ok(())
    }

    fn write(&mut self, path: &Path, offset: u64, bytes: &Blob) -> Result<(), Memory>
        ensures ok { OnOk result (served self.new ≡ happenings.written (served self.old) path.now offset bytes.now) }
        ensures goes { Goes (served self.old) (served self.new) }
        ensures stays { StaysHonest (served self.old) (served self.new) }
        ensures ends { KeepsEnds (⊤) (ends_of self.old) (ends_of self.new) }
    {
        let Some(file) = self.export.find(path.names()) else {
            return Ok(());
        };
        let bytes = Blob::copy(self.alloc, bytes.bytes())?;
        let _made = self.execute_foreign(Call::File(FileCall::Write {
            file,
            offset,
            how: FILE_SYNC,
            bytes,
        }))?;
        Ok(())
    }

    fn truncate(&mut self, path: &Path, size: u64) -> Result<(), Memory>
        ensures ok { OnOk result (served self.new ≡ happenings.truncated_at (served self.old) size (found self.old.export path.now)) }
        ensures goes { Goes (served self.old) (served self.new) }
        ensures stays { StaysHonest (served self.old) (served self.new) }
        ensures ends { KeepsEnds (⊤) (ends_of self.old) (ends_of self.new) }
    {
        let Some(file) = self.export.find(path.names()) else {
            return Ok(());
        };
        let _made = self.execute_foreign(Call::File(FileCall::SetAttr {
            file,
            set: sets(Some(size)),
            guard: None,
        }))?;
        Ok(())
    }

    fn create(&mut self, path: &Path, bytes: &Blob) -> Result<(), Memory>
        ensures ok { OnOk result (served self.new ≡ happenings.created_at (served self.old) path.now bytes.now (happenings.last_in self.old.export path.now)) }
        ensures goes { Goes (served self.old) (served self.new) }
        ensures stays { StaysHonest (served self.old) (served self.new) }
        ensures ends { KeepsEnds (⊤) (ends_of self.old) (ends_of self.new) }
    {
        let Some((dir, name)) = self.last_in(path) else {
            return Ok(());
        };
        let made = self.execute_foreign(Call::Dir(DirCall::Create {
            dir,
            name,
            making: Making::Guarded(sets(None)),
        }))?;
        if made && !bytes.bytes().is_empty() {
            self.write(path, 0, bytes)
        } else {
            Ok(())
        }
    }

    fn remove(&mut self, path: &Path) -> Result<(), Memory>
        ensures ok { OnOk result (served self.new ≡ happenings.happened (served self.old) (events.Remove path.now)) }
        ensures goes { Goes (served self.old) (served self.new) }
        ensures stays { StaysHonest (served self.old) (served self.new) }
        ensures ends { KeepsEnds (⊤) (ends_of self.old) (ends_of self.new) }
    {
        if self.export.find(path.names()).is_none() {
            return Ok(());
        }
        let Some((dir, name)) = self.last_in(path) else {
            return Ok(());
        };
        let _made = self.execute_foreign(Call::Dir(DirCall::Remove { dir, name }))?;
        Ok(())
    }

    fn rename(&mut self, from: &Path, to: &Path) -> Result<(), Memory>
        ensures ok { OnOk result (served self.new ≡ happenings.happened (served self.old) (events.Rename from.now to.now)) }
        ensures goes { Goes (served self.old) (served self.new) }
        ensures stays { StaysHonest (served self.old) (served self.new) }
        ensures ends { KeepsEnds (⊤) (ends_of self.old) (ends_of self.new) }
    {
        if self.export.find(from.names()).is_none() {
            return Ok(());
        }
        let Some((from_dir, from)) = self.last_in(from) else {
            return Ok(());
        };
        let Some((to_dir, to)) = self.last_in(to) else {
            return Ok(());
        };
        let _made = self.execute_foreign(Call::Dir(DirCall::Rename {
            from_dir,
            from,
            to_dir,
            to,
        }))?;
        Ok(())
    }

    /// The file handle of the directory of a path's last name, and that name. None if the path has none, or its
    /// directory isn't there.
    fn last_in(&self, path: &Path) -> Option<(Handle, Name)>
        ensures { result ≡ happenings.last_in self.now.export path.now }
    {
        match path.names().split_last() {
            Some((name, front)) => self.in_dir(front, name),
            None => None,
        }
    }

    /// The file handle of the directory of a name, and the name. None if the directory isn't there.
    fn in_dir(&self, dir: &[Name], name: &Name) -> Option<(Handle, Name)>
        ensures { result ≡ happenings.named_in (found self.now.export dir.now) (Some name.now) }
    {
        match self.export.find(dir) {
            Some(dir) => Some((dir, *name)),
            None => None,
        }
    }

    /// Executes a call of another client, and tells it. It is true if the call made a file. When out of memory
    /// nothing is changed.
    fn execute_foreign(&mut self, call: Call) -> Result<bool, Memory>
        requires { HandlesAreBytes call → IsSpelled call }
        ensures ok { OnOk result (served self.new ≡ happenings.foreign (served self.old) call) }
        ensures made { IfOk result (λ made. made ≡ happenings.is_made (executed self.old.export call).1) }
        ensures goes { Goes (served self.old) (served self.new) }
        ensures stays { StaysHonest (served self.old) (served self.new) }
        ensures ends { KeepsEnds (⊤) (ends_of self.old) (ends_of self.new) }
    {
        self.told.reserve(1)?;
        handles_fit(&call);
        let reply = self.export.execute(&call)?;
        let made = is_made(&reply);
        let entry = Entry::Foreign { call, reply };
        self.told.push(of_server(entry)).unwrap();
        Ok(made)
    }
}

/// An entry of the server's, which no client caused.
fn of_server(entry: Entry) -> Told
    ensures { result ≡ record { end = 2; entry = entry } }
{
    Told {
        end: NO_CLIENT,
        entry,
    }
}

fn are_bytes(bytes: &[u8])
    ensures { IsBytes bytes.now }
{
    let _len = bytes.len();
}

/// That a file handle is of bytes. A fact for proofs: it does nothing.
fn holds_bytes(handle: &Handle)
    ensures { IsBytes handle.now }
{
    are_bytes(handle.bytes());
}

/// Whether it is the reply of a CREATE that made a file.
fn is_made(reply: &Reply) -> bool
    ensures { result ≡ happenings.is_made reply.now }
{
    match reply {
        Reply::Dir(DirKept::Create { .. }) => true,
        _ => false,
    }
}

/// What sets the size, or nothing.
fn sets(size: Option<u64>) -> SetAttr
    ensures { result ≡ happenings.sets size }
{
    SetAttr {
        mode: None,
        uid: None,
        gid: None,
        size,
        atime: SetTime::Keep,
        mtime: SetTime::Keep,
    }
}
