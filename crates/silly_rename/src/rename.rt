//! The choice how a name is removed.

ghost use Rattle.std.specs.Prelude.{◌≡◌};
ghost use Rattle.silly_rename.specs.Plans.{plan_of, silly_name};

use crate::removal::Plan;
use nfs_types::Name;

/// The plan for a file: Direct if this client doesn't hold it open, and else a renaming to `.nfs` and the counter
/// as eight hex digits in lower case. It takes no memory.
pub fn plan(is_open: bool, counter: u32) -> Plan
    ensures { result ≡ plan_of is_open counter }
{
    if !is_open {
        return Plan::Direct;
    }
    Plan::Rename {
        to: silly_name(counter),
    }
}

/// `.nfs` and the counter as eight hex digits in lower case.
fn silly_name(counter: u32) -> Name
    ensures { result ≡ silly_name counter }
{
    let mut name = *b".nfs00000000";
    let digits = &mut name[4..];
    hex::encode_to_slice(counter.to_be_bytes(), digits).unwrap();
    Name::make(&name).unwrap()
}
