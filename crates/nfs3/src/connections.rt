//! Calls that come over one connection after another.

ghost use Rattle.std.specs.Prelude.{◌≡◌};
ghost use Rattle.nfs3.specs.declared.ending.Ending.TheVariants.{Served};

use crate::ending::{Ending, ended};
use export_session::Serving;
use net_edge::LoopbackListener;
use rpc_record::StreamLink;
use std::alloc::Global;
use std::net::Net;
use std::time::Clock;

/// How many connections are taken at most.
const MOST_CONNECTIONS: u32 = 65_536;

/// Serves one connection after another. It ends well once the calls were answered, and else
/// - if no connection can be taken;
/// - after 65,536 connections, or as many records that are no call;
/// - by lack of memory.
pub fn serve_connections<R: Net + Clock>(
    alloc: Global,
    serving: &mut Serving,
    listener: &mut LoopbackListener<'_, R>,
) -> Ending
    ensures served { result ≡ Served → serving.new.calls ≡ 0 }
{
    for _ in 0..MOST_CONNECTIONS {
        let Ok(wire) = listener.accept() else {
            return Ending::Lost;
        };
        let mut link = StreamLink::new(alloc, wire);
        if let Some(end) = serving.serve_connection(&mut link) {
            return ended(end);
        }
    }
    Ending::Lost
}
