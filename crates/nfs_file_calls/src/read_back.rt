//! What is written of a call or a reply spells it, and is read back as it is: facts for proofs. They do nothing.

ghost use Rattle.std.specs.Prelude.{◌≡◌};
ghost use Rattle.xdr_codec.specs.Spells.{SpellsOpt};
ghost use Rattle.nfs_types.specs.Spells.{SpellsTime};
ghost use Rattle.nfs_file_calls.specs.Attributes.{guard_bytes};
ghost use Rattle.nfs_file_calls.specs.Calls.{file_proc, HasSpellingCall, file_call_at, file_call_bytes, SpellsFileArgs};
ghost use Rattle.nfs_file_calls.specs.Replies.{kept_of, reply_proc, HasSpellingReply, file_reply_at, file_reply_bytes, SpellsFileResults};

use crate::call::FileCall;
use crate::reply::FileReply;
use nfs_types::{
    Time, attr_read_back, handle_read_back, opt_attr_read_back, set_attr_read_back, time_read_back,
    verf_read_back, wcc_read_back,
};
use xdr_codec::{fits_u32, fits_u64};

/// What is written of a call spells it, and is read back as it is: a fact for proofs. It does nothing.
pub fn file_call_read_back(call: &FileCall)
    requires { HasSpellingCall call.now }
    ensures spelled { SpellsFileArgs call.now (file_call_bytes call.now) }
    ensures again { file_call_at (file_proc call.now) (file_call_bytes call.now) ≡ Ok call.now }
{
    spells_call(call);
}

/// What is written of a reply spells it, and is read back as it is: a fact for proofs. It does nothing.
pub fn file_reply_read_back(reply: &FileReply<'_>)
    requires { HasSpellingReply (kept_of reply.now) }
    ensures spelled { SpellsFileResults (kept_of reply.now) (file_reply_bytes (kept_of reply.now)) }
    ensures again { file_reply_at (reply_proc (kept_of reply.now)) (file_reply_bytes (kept_of reply.now)) ≡ Ok (kept_of reply.now) }
{
    spells_reply(reply);
}

#[tactic(auto, using(crate::proofs::WrittenCalls::null_call_written, crate::proofs::WrittenCalls::get_attr_call_written, crate::proofs::WrittenCalls::set_attr_call_written, crate::proofs::WrittenCalls::access_call_written, crate::proofs::WrittenCalls::read_call_written, crate::proofs::WrittenCalls::write_call_written, crate::proofs::WrittenCalls::fs_stat_call_written, crate::proofs::WrittenCalls::fs_info_call_written, crate::proofs::WrittenCalls::path_conf_call_written, crate::proofs::WrittenCalls::commit_call_written))]
pub(crate) fn spells_call(call: &FileCall)
    requires { HasSpellingCall call.now }
    ensures { SpellsFileArgs call.now (file_call_bytes call.now) }
{
    match call {
        FileCall::Null => {}
        FileCall::SetAttr { file, set, guard } => {
            handle_read_back(file);
            set_attr_read_back(set);
            spells_guard(guard);
        }
        FileCall::Access { file, bits } => {
            handle_read_back(file);
            fits_u32(*bits);
        }
        FileCall::Write { file, offset, .. } => {
            handle_read_back(file);
            fits_u64(*offset);
        }
        FileCall::Read {
            file,
            offset,
            count,
        } => {
            handle_read_back(file);
            fits_u64(*offset);
            fits_u32(*count);
        }
        FileCall::Commit {
            file,
            offset,
            count,
        } => {
            handle_read_back(file);
            fits_u64(*offset);
            fits_u32(*count);
        }
        FileCall::GetAttr { file }
        | FileCall::FsStat { file }
        | FileCall::FsInfo { file }
        | FileCall::PathConf { file } => handle_read_back(file),
    }
}

#[tactic(auto, using(crate::proofs::WrittenReplies::null_reply_written, crate::proofs::WrittenReplies::get_attr_reply_written, crate::proofs::WrittenReplies::get_attr_fail_written, crate::proofs::WrittenReplies::set_attr_reply_written, crate::proofs::WrittenReplies::set_attr_fail_written, crate::proofs::WrittenReplies::access_reply_written, crate::proofs::WrittenReplies::access_fail_written, crate::proofs::WrittenReplies::read_reply_written, crate::proofs::WrittenReplies::read_fail_written, crate::proofs::WrittenReplies::write_reply_written, crate::proofs::WrittenReplies::write_fail_written, crate::proofs::WrittenReplies::fs_stat_reply_written, crate::proofs::WrittenReplies::fs_stat_fail_written, crate::proofs::WrittenReplies::fs_info_reply_written, crate::proofs::WrittenReplies::fs_info_fail_written, crate::proofs::WrittenReplies::path_conf_reply_written, crate::proofs::WrittenReplies::path_conf_fail_written, crate::proofs::WrittenReplies::commit_reply_written, crate::proofs::WrittenReplies::commit_fail_written))]
pub(crate) fn spells_reply(reply: &FileReply<'_>)
    requires { HasSpellingReply (kept_of reply.now) }
    ensures { SpellsFileResults (kept_of reply.now) (file_reply_bytes (kept_of reply.now)) }
{
    match reply {
        FileReply::Null => {}
        FileReply::GetAttr { attr } => attr_read_back(attr),
        FileReply::GetAttrFail { status } => fits_u32(status.0),
        FileReply::SetAttr { wcc } => wcc_read_back(wcc),
        FileReply::Access { attr, bits } => {
            opt_attr_read_back(attr);
            fits_u32(*bits);
        }
        FileReply::Read { attr, count, .. } => {
            opt_attr_read_back(attr);
            fits_u32(*count);
        }
        FileReply::Write {
            wcc,
            count,
            committed,
            verf,
        } => {
            wcc_read_back(wcc);
            fits_u32(*count);
            fits_u32(*committed);
            verf_read_back(verf);
        }
        FileReply::FsStat {
            attr,
            tbytes,
            fbytes,
            abytes,
            tfiles,
            ffiles,
            afiles,
            invarsec,
        } => {
            opt_attr_read_back(attr);
            fits_u64(*tbytes);
            fits_u64(*fbytes);
            fits_u64(*abytes);
            fits_u64(*tfiles);
            fits_u64(*ffiles);
            fits_u64(*afiles);
            fits_u32(*invarsec);
        }
        FileReply::FsInfo {
            attr,
            rtmax,
            rtpref,
            rtmult,
            wtmax,
            wtpref,
            wtmult,
            dtpref,
            maxfilesize,
            time_delta,
            properties,
        } => {
            opt_attr_read_back(attr);
            fits_u32(*rtmax);
            fits_u32(*rtpref);
            fits_u32(*rtmult);
            fits_u32(*wtmax);
            fits_u32(*wtpref);
            fits_u32(*wtmult);
            fits_u32(*dtpref);
            fits_u64(*maxfilesize);
            time_read_back(time_delta);
            fits_u32(*properties);
        }
        FileReply::PathConf {
            attr,
            linkmax,
            name_max,
            ..
        } => {
            opt_attr_read_back(attr);
            fits_u32(*linkmax);
            fits_u32(*name_max);
        }
        FileReply::Commit { wcc, verf } => {
            wcc_read_back(wcc);
            verf_read_back(verf);
        }
        FileReply::SetAttrFail { status, wcc }
        | FileReply::WriteFail { status, wcc }
        | FileReply::CommitFail { status, wcc } => {
            fits_u32(status.0);
            wcc_read_back(wcc);
        }
        FileReply::AccessFail { status, attr }
        | FileReply::ReadFail { status, attr }
        | FileReply::FsStatFail { status, attr }
        | FileReply::FsInfoFail { status, attr }
        | FileReply::PathConfFail { status, attr } => {
            fits_u32(status.0);
            opt_attr_read_back(attr);
        }
    }
}

#[tactic(auto, using(crate::proofs::Written::no_guard_written, crate::proofs::Written::guard_written))]
fn spells_guard(guard: &Option<Time>)
    ensures { SpellsOpt SpellsTime guard.now (guard_bytes guard.now) }
{
    match guard {
        None => {}
        Some(time) => time_read_back(time),
    }
}
