// Where connections come from.
ghost use Rattle.std.specs.Prelude.{◌≡◌, ℕ, ◌+◌, IfOk, MatchResult};

use silt_session::{Newcomer, SessionNumbers};
use std::io::{self, ErrorKind};
use std::net::{TcpListener, TcpStream};

/// Accepts connections at a port.
pub trait Listens {
    /// This is its port.
    ghost has_port: { Self → ℕ → Type 0 };

    /// The port at which it listens.
    fn port(&self) -> io::Result<u16>
        ensures { IfOk result (has_port self.now) };

    /// Waits for a connection.
    fn wait(&self) -> io::Result<TcpStream>;

    /// Has a wait that goes on return.
    fn wake(&self);
}

impl Listens for TcpListener {
    ghost has_port = { λ listener port. Unit {0} };

    fn port(&self) -> io::Result<u16> {
        Ok(self.local_addr()?.port())
    }

    fn wait(&self) -> io::Result<TcpStream> {
        let (stream, _) = self.accept()?;
        Ok(stream)
    }

    /// Does nothing, since it takes a network to connect: the wait returns at the next connection.
    fn wake(&self) {}
}

/// A listener, and how many connections it accepted: it gives each a number.
#[derive(Drop)]
pub struct CountingListener<'a, L: Listens> {
    listener: &'a L,
    accepted: SessionNumbers,
}

impl<'a, L: Listens> CountingListener<'a, L> {
    /// No connection is counted yet.
    pub fn new(listener: &'a L) -> CountingListener<'a, L>
        ensures { result.accepted ≡ 0 }
    {
        CountingListener {
            listener,
            accepted: SessionNumbers::new(),
        }
    }

    /// Waits for a connection, and counts it: this is its number.
    pub fn accept(&mut self) -> io::Result<Newcomer>
        ensures number { IfOk result (λ newcomer. newcomer.number ≡ self.new.accepted) }
        ensures more { MatchResult result (λ _. self.new.accepted ≡ self.old.accepted + 1) (λ _. self.new.accepted ≡ self.old.accepted) }
    {
        let stream = self.listener.wait()?;
        match self.accepted.next() {
            Some(number) => Ok(Newcomer { stream, number }),
            None => Err(ErrorKind::Other.into()),
        }
    }
}
