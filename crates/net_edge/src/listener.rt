//! Connections over TCP (RFC 9293) that others make.

ghost use Rattle.std.specs.Prelude.{◌≡◌, IfOk};
ghost use Rattle.outside.specs.Causes.{HasCauseFailed};
ghost use Rattle.net_edge.specs.Counts.{CountsFailed};

use crate::tcp::{TcpWire, prepare};
use outside::Failed;
use std::io::ErrorKind;
use std::marker::Model;
use std::net::{Net, OpenListener, TcpListener};
use std::time::Clock;

/// The address of this machine that no other reaches.
pub(crate) const LOOPBACK: &str = "127.0.0.1";

/// A port of the loopback at which others connect. A contract sees how often no connection could be taken.
#[derive(Drop)]
pub struct LoopbackListener<'a, R: Net + Clock> {
    system: &'a R,
    listener: R::Listener,
    faults: u64,
}

impl<'a, R: Net + Clock> Model for LoopbackListener<'a, R> {
    ghost use Rattle.std.specs.Prelude.{ℕ};

    ghost Value = { ℕ };

    ghost view = { λ l. l.faults };
}

impl<'a, R: Net + Clock> LoopbackListener<'a, R> {
    /// Listens at that port of 127.0.0.1; at 0 the system chooses one. `Failed` if the system refuses it, as when
    /// another program listens there.
    pub fn bind(system: &'a R, port: u16) -> Result<LoopbackListener<'a, R>, Failed>
        ensures { IfOk result (λ listener. listener ≡ 0) }
    {
        match TcpListener::bind(system, (LOOPBACK, port)) {
            Ok(listener) => Ok(LoopbackListener {
                system,
                listener,
                faults: 0,
            }),
            Err(_) => Err(Failed),
        }
    }

    /// Waits for the next connection, however long that takes. One that is lost before it is taken is handed out too,
    /// and each of its calls fails; any other error of the system is `Failed`.
    pub fn accept(&mut self) -> Result<TcpWire<'a, R>, Failed>
        ensures fresh { IfOk result (λ wire. wire ≡ 0) }
        ensures cause { HasCauseFailed self.old self.new result }
        ensures counts { CountsFailed self.old self.new result }
    {
        match self.listener.accept() {
            Ok((stream, _)) => {
                let stream = prepare(&stream).is_ok().then_some(stream);
                Ok(TcpWire::taken(self.system, stream))
            }
            Err(error) if error.kind() == ErrorKind::ConnectionAborted => {
                Ok(TcpWire::taken(self.system, None))
            }
            Err(_) => {
                self.faults = self.faults.saturating_add(1);
                Err(Failed)
            }
        }
    }
}
