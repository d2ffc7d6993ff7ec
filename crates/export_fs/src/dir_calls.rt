//! Calls on directories and names.

ghost use Rattle.std.specs.Prelude.{◌≡◌, ◌==◌, true, false, if◌then◌else◌, IfOk, OnOk, OnErr, length, ◌≤◌};
ghost use Rattle.nfs_types.specs.declared.wcc.Wcc.{Wcc};
ghost use Rattle.nfs_dir_calls.specs.declared.keeping.DirKept.TheVariants as found;
ghost use Rattle.export_fs.specs.Spelling.{TargetFits};
ghost use Rattle.export_fs.specs.Parts.{object, rows_in, text_in, place_of, attr, attr_at, wcc};
ghost use Rattle.export_fs.specs.Names.{named};
ghost use Rattle.export_fs.specs.Pages.{rows_after, most_page};
ghost use Rattle.export_fs.specs.After.{after_create, after_mkdir, after_symlink, after_remove, after_rename, after_linking, after_dir};
ghost use Rattle.export_fs.specs.Answer.{lookup_answer, read_link_answer, found_handle, no_verifier, list_answer, dir_answer, dir_refused};
ghost use Rattle.export_fs.specs.Executed.{dir_executed};

use crate::dir_refusal::dir_of;
use crate::places::handle_of;
use crate::status::{INVAL, NOENT, NOTSUPP, OK};
use crate::tree::Tree;
use nfs_dir_calls::{DirCall, DirKept, Making};
use nfs_types::{Handle, Name, SetAttr, Stamp, Status, Verf, Wcc};
use xdr_codec::{Blob, Memory};

/// The most bytes of the entries of a page.
const MOST_PAGE: u32 = 65_536;

/// The file handle of the object at a place, if one is given.
fn found_handle(place: Option<u32>) -> Option<Handle>
    ensures { result ≡ found_handle place }
{
    match place {
        Some(place) => Some(handle_of(place)),
        None => None,
    }
}

impl Tree {
    /// What a reply shows of an object before and after a change.
    fn changed(&self, before: Option<Stamp>, handle: &Handle) -> Wcc
        ensures { result ≡ record { before = before; after = attr self.now.nodes handle.now } }
    {
        Wcc {
            before,
            after: self.nodes.attr(handle),
        }
    }

    fn done_lookup(&self, dir: &Handle, name: &Name) -> DirKept
        ensures { result ≡ lookup_answer self.now.nodes dir.now (named self.now.nodes dir.now name.now) }
    {
        let dir_attr = self.nodes.attr(dir);
        match self.nodes.named(dir, name) {
            Some(place) => DirKept::Lookup {
                found: handle_of(place),
                attr: self.nodes.attr_at(Some(place)),
                dir: dir_attr,
            },
            None => DirKept::LookupFail {
                status: Status(NOENT),
                dir: dir_attr,
            },
        }
    }

    fn done_read_link(&self, file: &Handle) -> Result<DirKept, Memory>
        ensures { IfOk result (λ reply. reply ≡ read_link_answer self.now.nodes file.now (text_in (object self.now.nodes file.now))) }
    {
        let attr = self.nodes.attr(file);
        match self.nodes.text(file) {
            Some(text) => Ok(DirKept::ReadLink {
                attr,
                text: Blob::copy(self.alloc, text)?,
            }),
            None => Ok(DirKept::ReadLinkFail {
                status: Status(INVAL),
                attr,
            }),
        }
    }

    fn done_create(&mut self, dir: &Handle, name: &Name, making: &Making) -> Result<DirKept, Memory>
        ensures ok { IfOk result (λ reply. (self.new ≡ after_create self.old dir.now name.now making.now) × (reply ≡ found.Create (found_handle (named self.new.nodes dir.now name.now)) (attr_at self.new.nodes (named self.new.nodes dir.now name.now)) (wcc self.old.nodes self.new.nodes dir.now))) }
        ensures err { OnErr result (self.new ≡ self.old) }
    {
        let before = self.nodes.stamp(dir);
        self.create(dir, name, making)?;
        let place = self.nodes.named(dir, name);
        Ok(DirKept::Create {
            found: found_handle(place),
            attr: self.nodes.attr_at(place),
            wcc: self.changed(before, dir),
        })
    }

    fn done_mkdir(&mut self, dir: &Handle, name: &Name, set: &SetAttr) -> Result<DirKept, Memory>
        ensures ok { IfOk result (λ reply. (self.new ≡ after_mkdir self.old dir.now name.now set.now) × (reply ≡ found.MkDir (found_handle (named self.new.nodes dir.now name.now)) (attr_at self.new.nodes (named self.new.nodes dir.now name.now)) (wcc self.old.nodes self.new.nodes dir.now))) }
        ensures err { OnErr result (self.new ≡ self.old) }
    {
        let before = self.nodes.stamp(dir);
        self.make_dir(dir, name, set)?;
        let place = self.nodes.named(dir, name);
        Ok(DirKept::MkDir {
            found: found_handle(place),
            attr: self.nodes.attr_at(place),
            wcc: self.changed(before, dir),
        })
    }

    fn done_symlink(
        &mut self,
        dir: &Handle,
        name: &Name,
        set: &SetAttr,
        target: &[u8],
    ) -> Result<DirKept, Memory>
        requires { length target.now ≤ 1024 }
        ensures ok { IfOk result (λ reply. (self.new ≡ after_symlink self.old dir.now name.now set.now target.now) × (reply ≡ found.SymLink (found_handle (named self.new.nodes dir.now name.now)) (attr_at self.new.nodes (named self.new.nodes dir.now name.now)) (wcc self.old.nodes self.new.nodes dir.now))) }
        ensures err { OnErr result (self.new ≡ self.old) }
    {
        let before = self.nodes.stamp(dir);
        self.make_link(dir, name, set, target)?;
        let place = self.nodes.named(dir, name);
        Ok(DirKept::SymLink {
            found: found_handle(place),
            attr: self.nodes.attr_at(place),
            wcc: self.changed(before, dir),
        })
    }

    fn done_remove(&mut self, dir: &Handle, name: &Name) -> Result<DirKept, Memory>
        ensures ok { IfOk result (λ reply. (self.new ≡ after_remove self.old dir.now name.now) × (reply ≡ found.Remove (wcc self.old.nodes self.new.nodes dir.now))) }
        ensures err { OnErr result (self.new ≡ self.old) }
    {
        let before = self.nodes.stamp(dir);
        self.remove(dir, name)?;
        Ok(DirKept::Remove {
            wcc: self.changed(before, dir),
        })
    }

    fn done_rmdir(&mut self, dir: &Handle, name: &Name) -> Result<DirKept, Memory>
        ensures ok { IfOk result (λ reply. (self.new ≡ after_remove self.old dir.now name.now) × (reply ≡ found.RmDir (wcc self.old.nodes self.new.nodes dir.now))) }
        ensures err { OnErr result (self.new ≡ self.old) }
    {
        let before = self.nodes.stamp(dir);
        self.remove(dir, name)?;
        Ok(DirKept::RmDir {
            wcc: self.changed(before, dir),
        })
    }

    fn done_rename(
        &mut self,
        from_dir: &Handle,
        from: &Name,
        to_dir: &Handle,
        to: &Name,
    ) -> Result<DirKept, Memory>
        ensures ok { IfOk result (λ reply. (self.new ≡ after_rename self.old from_dir.now from.now to_dir.now to.now) × (reply ≡ found.Rename (wcc self.old.nodes self.new.nodes from_dir.now) (wcc self.old.nodes self.new.nodes to_dir.now))) }
        ensures err { OnErr result (self.new ≡ self.old) }
    {
        let from_before = self.nodes.stamp(from_dir);
        let to_before = self.nodes.stamp(to_dir);
        self.rename(from_dir, from, to_dir, to)?;
        Ok(DirKept::Rename {
            from: self.changed(from_before, from_dir),
            to: self.changed(to_before, to_dir),
        })
    }

    fn done_link(&mut self, file: &Handle, dir: &Handle, name: &Name) -> Result<DirKept, Memory>
        ensures ok { IfOk result (λ reply. (self.new ≡ after_linking self.old dir.now name.now (place_of file.now)) × (reply ≡ found.Link (attr self.new.nodes file.now) (wcc self.old.nodes self.new.nodes dir.now))) }
        ensures err { OnErr result (self.new ≡ self.old) }
    {
        let before = self.nodes.stamp(dir);
        self.link(file, dir, name)?;
        Ok(DirKept::Link {
            attr: self.nodes.attr(file),
            wcc: self.changed(before, dir),
        })
    }

    fn done_list(&self, dir: &Handle, cookie: u64, maxcount: u32) -> Result<DirKept, Memory>
        ensures { IfOk result (λ reply. reply ≡ list_answer self.now.nodes dir.now (most_page maxcount) (rows_after cookie (rows_in (object self.now.nodes dir.now)))) }
    {
        let limit = maxcount.min(MOST_PAGE) as usize;
        let (page, eof) = self.nodes.page(self.alloc, dir, cookie, limit)?;
        Ok(DirKept::ReadDirPlus {
            attr: self.nodes.attr(dir),
            verf: Verf([0; 8]),
            page,
            eof,
        })
    }

    /// Does a call on a directory that isn't refused. When out of memory nothing is changed.
    fn done_dir(&mut self, call: &DirCall) -> Result<DirKept, Memory>
        requires { TargetFits call.now }
        ensures ok { IfOk result (λ reply. (self.new ≡ after_dir self.old call.now) × (reply ≡ dir_answer self.old self.new call.now)) }
        ensures err { OnErr result (self.new ≡ self.old) }
    {
        match call {
            DirCall::Lookup { dir, name } => Ok(self.done_lookup(dir, name)),
            DirCall::ReadLink { file } => self.done_read_link(file),
            DirCall::Create { dir, name, making } => self.done_create(dir, name, making),
            DirCall::MkDir { dir, name, set } => self.done_mkdir(dir, name, set),
            DirCall::SymLink {
                dir,
                name,
                set,
                target,
            } => self.done_symlink(dir, name, set, target.bytes()),
            DirCall::Remove { dir, name } => self.done_remove(dir, name),
            DirCall::RmDir { dir, name } => self.done_rmdir(dir, name),
            DirCall::Rename {
                from_dir,
                from,
                to_dir,
                to,
            } => self.done_rename(from_dir, from, to_dir, to),
            DirCall::Link { file, dir, name } => self.done_link(file, dir, name),
            DirCall::ReadDirPlus {
                dir,
                cookie,
                maxcount,
                ..
            } => self.done_list(dir, *cookie, *maxcount),
            DirCall::MkNod { .. } => Ok(self.refused_dir(NOTSUPP, call)),
            DirCall::ReadDir { .. } => Ok(self.refused_dir(NOTSUPP, call)),
        }
    }

    /// The reply to a call on a directory that is refused with a status.
    fn refused_dir(&self, number: u32, call: &DirCall) -> DirKept
        ensures { result ≡ dir_refused self.now.nodes number call.now }
    {
        let status = Status(number);
        let attr = self.nodes.attr(dir_of(call));
        let wcc = self.unchanged(dir_of(call));
        match call {
            DirCall::Lookup { .. } => DirKept::LookupFail { status, dir: attr },
            DirCall::ReadLink { .. } => DirKept::ReadLinkFail { status, attr },
            DirCall::Create { .. } => DirKept::CreateFail { status, wcc },
            DirCall::MkDir { .. } => DirKept::MkDirFail { status, wcc },
            DirCall::SymLink { .. } => DirKept::SymLinkFail { status, wcc },
            DirCall::MkNod { .. } => DirKept::MkNodFail { status, wcc },
            DirCall::Remove { .. } => DirKept::RemoveFail { status, wcc },
            DirCall::RmDir { .. } => DirKept::RmDirFail { status, wcc },
            DirCall::Rename { to_dir, .. } => DirKept::RenameFail {
                status,
                from: wcc,
                to: self.unchanged(to_dir),
            },
            DirCall::Link { file, .. } => DirKept::LinkFail {
                status,
                attr: self.nodes.attr(file),
                wcc,
            },
            DirCall::ReadDir { .. } => DirKept::ReadDirFail { status, attr },
            DirCall::ReadDirPlus { .. } => DirKept::ReadDirPlusFail { status, attr },
        }
    }

    /// Executes a call on a directory. When out of memory nothing is changed.
    #[tactic(auto, using(crate::proofs::RefusalTable::target_fits))]
    pub(crate) fn execute_dir(&mut self, call: &DirCall) -> Result<DirKept, Memory>
        ensures ok { IfOk result (λ reply. (self.new ≡ (dir_executed self.old call.now).0) × (reply ≡ (dir_executed self.old call.now).1)) }
        ensures err { OnErr result (self.new ≡ self.old) }
    {
        let number = self.dir_refusal(call);
        if number == OK {
            self.done_dir(call)
        } else {
            Ok(self.refused_dir(number, call))
        }
    }
}
