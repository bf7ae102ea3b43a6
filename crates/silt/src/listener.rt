// The listener of a server. It goes on after an accept that failed for a cause that may pass.
ghost use Rattle.std.specs.Prelude.{◌≡◌, IfErr, IfOk};
ghost use Rattle.silt.specs.Common.{IsIpText, named_access, socket_ip, socket_port};
ghost use Rattle.silt.specs.Passwords.{HasPassword};
ghost use Rattle.silt.specs.Services.{IsNoAddress, IsNoEntrance, IsNoPassword, TellsWhy, address_text};

use crate::password::read_password;
use crate::standard_streams::StandardStreams;
use silt_jobs::{StreamError, Tells, Urgent};
use silt_server::Listens;
use silt_session::Board;
use silt_words::{Access, Service};
use std::io::ErrorKind;
use std::net::{IpAddr, Ipv4Addr, Ipv6Addr, Net, SocketAddr, TcpListener, TcpStream};
use std::sync::{OnceLock, Wait};
use std::time::{Clock, Duration};
use std::{io, thread};

/// The address of this machine: to listen on if none is given, and to ask.
pub const THIS_MACHINE: &str = "127.0.0.1";

/// How many milliseconds a server waits before it accepts again, where an accept asks for a pause.
const PAUSE: u64 = 10;

/// How many milliseconds a connection that wakes the listener may take.
const WAKE: u64 = 1_000;

/// Where a server is entered: the listener of its connections and the socket of that, the digest of the password that it asks for, if
/// it asks for one, and the listener of its page of metrics, if it has one.
#[derive(Drop)]
pub struct Entrance {
    pub listener: TcpListener,
    pub socket: SocketAddr,
    pub password: Option<[u8; 20]>,
    pub page: Option<TcpListener>,
}

/// Why a service cannot be entered.
#[derive(Clone, Copy)]
pub enum NoEntrance<'a> {
    /// This file gives no password.
    Password(&'a str, StreamError),
    /// This text is no IP address.
    Address(&'a str),
    /// The system gives no listener on this socket.
    Socket(SocketAddr, StreamError),
    /// The system gives no listener on this socket for the page of metrics.
    Page(SocketAddr, StreamError),
}

// The digest of the password that a service asks for.
fn password_of<'a, H: StandardStreams>(
    rt: &H,
    access: &Access<'a>,
) -> Result<Option<[u8; 20]>, NoEntrance<'a>>
    ensures read { IfOk result (HasPassword (H.begins rt.now) (named_access access.now).password_file) }
    ensures none { IfErr result (IsNoPassword (named_access access.now)) }
{
    let Some(path) = access.password_file else {
        return Ok(None);
    };
    match read_password(rt, path) {
        Ok(digest) => Ok(Some(digest)),
        Err(error) => Err(NoEntrance::Password(path, StreamError { error })),
    }
}

// The socket to listen on: the address that is given, and else that of this machine alone.
fn socket_of<'a>(service: &Service<'a>) -> Result<SocketAddr, NoEntrance<'a>>
    ensures address { IfOk result (λ socket. IsIpText (address_text (named_access service.now.access)) (socket_ip socket)) }
    ensures port { IfOk result (λ socket. socket_port socket ≡ service.now.port) }
    ensures none { IfErr result (IsNoAddress (named_access service.now.access)) }
{
    let text = service.access.address.unwrap_or(THIS_MACHINE);
    match text.parse::<IpAddr>() {
        Ok(address) => Ok(SocketAddr::new(address, service.port)),
        Err(_) => Err(NoEntrance::Address(text)),
    }
}

// A listener on this socket, whose accepts do not wait.
fn bind_page<H: Net<Listener = TcpListener, Stream = TcpStream>>(
    rt: &H,
    socket: SocketAddr,
) -> io::Result<TcpListener> {
    let page = TcpListener::bind(rt, socket)?;
    page.set_nonblocking(true)?;
    Ok(page)
}

// The listener of the page of metrics, if a service has one. This machine alone reaches it.
fn page_of<'a, H: Net<Listener = TcpListener, Stream = TcpStream>>(
    rt: &H,
    service: &Service<'a>,
) -> Result<Option<TcpListener>, NoEntrance<'a>>
    ensures none { IfErr result (IsNoEntrance service.now) }
{
    let Some(port) = service.metrics else {
        return Ok(None);
    };
    let socket = SocketAddr::new(IpAddr::V4(Ipv4Addr::LOCALHOST), port);
    match bind_page(rt, socket) {
        Ok(page) => Ok(Some(page)),
        Err(error) => Err(NoEntrance::Page(socket, StreamError { error })),
    }
}

/// Makes the entrance of a service: reads the password, if there is to be one, and listens. If it cannot, returns why.
pub fn enter<'a, H: Net<Listener = TcpListener, Stream = TcpStream> + StandardStreams>(
    rt: &H,
    service: &Service<'a>,
) -> Result<Entrance, NoEntrance<'a>>
    ensures password { IfOk result (λ entrance. HasPassword (H.begins rt.now) (named_access service.now.access).password_file entrance.password) }
    ensures none { IfErr result (IsNoEntrance service.now) }
{
    let password = password_of(rt, &service.access)?;
    let socket = socket_of(service)?;
    let page = page_of(rt, service)?;
    match TcpListener::bind(rt, socket) {
        Ok(listener) => Ok(Entrance {
            listener,
            socket,
            password,
            page,
        }),
        Err(error) => Err(NoEntrance::Socket(socket, StreamError { error })),
    }
}

/// Tells people why a service cannot be entered.
pub fn tell_no_entrance<T: Tells>(file: &str, why: NoEntrance<'_>, people: &mut T)
    ensures { TellsWhy (T.told people.old people.new) file.now why.entry }
{
    match why {
        NoEntrance::Password(path, error) => people.tell(path, &Urgent::NoPassword(error)),
        NoEntrance::Address(text) => people.tell(text, &Urgent::NoAddress),
        NoEntrance::Socket(socket, error) | NoEntrance::Page(socket, error) => {
            people.tell(file, &Urgent::NoPort(socket, error));
        }
    }
}

// What an accept that failed asks for.
enum Cure {
    /// The next connection: only this one failed.
    Next,
    /// A pause: the system lacks descriptors or memory, until a connection is closed or memory is freed.
    Pause,
    /// A pause, and a note: the cause may pass, as a network that is down or a rule of a firewall.
    NotedPause,
    /// No further accept: the listener is none.
    End,
    /// No further accept: the server is to end.
    Leave,
}

// What an accept asks for that failed so.
fn cure_of(error: &io::Error) -> Cure {
    match error.raw_os_error() {
        Some(4 | 103 | 104) => Cure::Next, // EINTR, ECONNABORTED, ECONNRESET
        Some(12 | 23 | 24 | 105) => Cure::Pause, // ENOMEM, ENFILE, EMFILE, ENOBUFS
        Some(9 | 14 | 22 | 88 | 95) => Cure::End, // EBADF, EFAULT, EINVAL, ENOTSOCK, EOPNOTSUPP
        _ => Cure::NotedPause,
    }
}

/// A listener on a socket that accepts again if an accept fails for a cause that may pass. It keeps the error of another kind. It
/// gives no further connection once its server is to end.
#[derive(Drop)]
pub struct PatientListener<'a, H> {
    rt: &'a H,
    listener: TcpListener,
    socket: SocketAddr,
    board: &'a Board,
    failure: OnceLock<io::Error>,
}

impl<'a, H: Wait + StandardStreams> PatientListener<'a, H> {
    /// The connections of an entrance, until this board says that the server is to end.
    pub fn new(
        rt: &'a H,
        listener: TcpListener,
        socket: SocketAddr,
        board: &'a Board,
    ) -> PatientListener<'a, H> {
        PatientListener {
            rt,
            listener,
            socket,
            board,
            failure: OnceLock::new(),
        }
    }

    /// Why it gave no connection, if it failed.
    pub fn failure(&self) -> Option<io::Error> {
        self.failure.get().copied()
    }

    /// The socket by which this machine reaches it, if the system tells it.
    pub fn own_socket(&self) -> Option<SocketAddr> {
        match self.listener.local_addr() {
            Ok(socket) => Some(own_address(socket)),
            Err(_) => None,
        }
    }

    // Tells people that an accept failed.
    fn note(&self, error: io::Error) {
        let urgent = Urgent::NotAccepting(self.socket, StreamError { error });
        self.rt.errors().tell("", &urgent);
    }

    // What an accept asks for that failed so. None is asked for once the server is to end.
    fn cure_of(&self, error: &io::Error) -> Cure {
        if self.board.is_ending() {
            return Cure::Leave;
        }
        cure_of(error)
    }
}

// The address by which this machine reaches a socket that it listens on.
fn own_address(socket: SocketAddr) -> SocketAddr {
    let address = match socket.ip() {
        IpAddr::V4(address) if address.is_unspecified() => IpAddr::V4(Ipv4Addr::LOCALHOST),
        IpAddr::V6(address) if address.is_unspecified() => IpAddr::V6(Ipv6Addr::LOCALHOST),
        address => address,
    };
    SocketAddr::new(address, socket.port())
}

/// Ends the wait of this machine's listener on this socket, by a connection of the server to itself.
pub fn wake<H: Net<Listener = TcpListener, Stream = TcpStream> + Clock>(
    rt: &H,
    socket: SocketAddr,
) {
    drop(TcpStream::connect_timeout(rt, &socket, Duration::from_millis(WAKE)));
}

// Waits before the next accept.
fn pause<H: Clock + Wait>(rt: &H) {
    thread::sleep(rt, Duration::from_millis(PAUSE));
}

impl<H: Net<Listener = TcpListener, Stream = TcpStream> + Wait + StandardStreams> Listens
    for PatientListener<'_, H> {
    ghost has_port = { λ listener port. Unit {0} };

    fn port(&self) -> io::Result<u16> {
        self.listener.port()
    }

    fn wait(&self) -> io::Result<TcpStream> {
        let mut is_noted = false;
        for _ in self.rt.forever() {
            let error = match self.listener.wait() {
                Ok(stream) => return Ok(stream),
                Err(error) => error,
            };
            match self.cure_of(&error) {
                Cure::Next => {}
                Cure::Pause => pause(self.rt),
                Cure::NotedPause => {
                    if !is_noted {
                        self.note(error);
                    }
                    is_noted = true;
                    pause(self.rt);
                }
                Cure::End => {
                    let _ = self.failure.try_set(error);
                    return Err(error);
                }
                Cure::Leave => return Err(io::Error::from(ErrorKind::Interrupted)),
            }
        }
        unreachable!()
    }

    fn wake(&self) {
        if let Some(socket) = self.own_socket() {
            wake(self.rt, socket);
        }
    }
}
