//! The results of replies to calls on directories and names (RFC 1813, section 3.3).

ghost use Rattle.std.specs.Prelude.{◌≡◌, ◌++◌, OnOk};
ghost use Rattle.xdr_codec.specs.Spells.{Wrote};
ghost use Rattle.nfs_dir_calls.specs.Kept.{kept_of};
ghost use Rattle.nfs_dir_calls.specs.Replies.{HasSpellingDirReply, SpellsReply, dir_reply_bytes};
ghost use Rattle.export_serve.specs.Spelling.{IsPlain};

use crate::listing_results::{write_listing, write_plus_listing};
use nfs_dir_calls::{DirKept, DirReply, write_dir_reply};
use xdr_codec::{Memory, Writer};

/// Appends the results of a reply.
#[tactic(auto, unfolding(nfs_dir_calls::specs::Replies::dir_reply_bytes))]
pub(crate) fn write_dir_results(w: &mut Writer, reply: &DirKept) -> Result<(), Memory>
    requires { HasSpellingDirReply reply.now }
    ensures ok { OnOk result (w.new ≡ w.old ++ dir_reply_bytes reply.now) }
    ensures spelled { OnOk result (Wrote (SpellsReply reply.now) w.old w.new) }
{
    match reply {
        DirKept::ReadDir {
            attr,
            verf,
            page,
            eof,
        } => write_listing(w, attr, verf, page, *eof),
        DirKept::ReadDirPlus {
            attr,
            verf,
            page,
            eof,
        } => write_plus_listing(w, attr, verf, page, *eof),
        _ => write_dir_reply(w, &plain_reply(reply)),
    }
}

/// A reply that holds no listing, with its data where they lie.
fn plain_reply<'a>(reply: &'a DirKept) -> DirReply<'a>
    requires { IsPlain reply.now }
    ensures { kept_of result ≡ reply.entry.now }
{
    match *reply {
        DirKept::Lookup { found, attr, dir } => DirReply::Lookup { found, attr, dir },
        DirKept::LookupFail { status, dir } => DirReply::LookupFail { status, dir },
        DirKept::ReadLink { attr, ref text } => DirReply::ReadLink {
            attr,
            text: text.bytes(),
        },
        DirKept::ReadLinkFail { status, attr } => DirReply::ReadLinkFail { status, attr },
        DirKept::Create { found, attr, wcc } => DirReply::Create { found, attr, wcc },
        DirKept::CreateFail { status, wcc } => DirReply::CreateFail { status, wcc },
        DirKept::MkDir { found, attr, wcc } => DirReply::MkDir { found, attr, wcc },
        DirKept::MkDirFail { status, wcc } => DirReply::MkDirFail { status, wcc },
        DirKept::SymLink { found, attr, wcc } => DirReply::SymLink { found, attr, wcc },
        DirKept::SymLinkFail { status, wcc } => DirReply::SymLinkFail { status, wcc },
        DirKept::MkNod { found, attr, wcc } => DirReply::MkNod { found, attr, wcc },
        DirKept::MkNodFail { status, wcc } => DirReply::MkNodFail { status, wcc },
        DirKept::Remove { wcc } => DirReply::Remove { wcc },
        DirKept::RemoveFail { status, wcc } => DirReply::RemoveFail { status, wcc },
        DirKept::RmDir { wcc } => DirReply::RmDir { wcc },
        DirKept::RmDirFail { status, wcc } => DirReply::RmDirFail { status, wcc },
        DirKept::Rename { from, to } => DirReply::Rename { from, to },
        DirKept::RenameFail { status, from, to } => DirReply::RenameFail { status, from, to },
        DirKept::Link { attr, wcc } => DirReply::Link { attr, wcc },
        DirKept::LinkFail { status, attr, wcc } => DirReply::LinkFail { status, attr, wcc },
        DirKept::ReadDirFail { status, attr } => DirReply::ReadDirFail { status, attr },
        DirKept::ReadDirPlusFail { status, attr } => DirReply::ReadDirPlusFail { status, attr },
        DirKept::ReadDir { .. } | DirKept::ReadDirPlus { .. } => unreachable!(),
    }
}
