// The jobs of a client: they ask a server that runs.
ghost use Rattle.std.specs.Prelude.{◌≡◌, ℕ, IfErr, IfOk, IfSome, List, option_map};
ghost use Rattle.silt.specs.Common.{Appends, named_contact};
ghost use Rattle.silt.specs.Clients.{HasLine, IsAnswered, IsAt, IsNoContact, plain_reply, printed, reply_status};

use crate::client_text::{
    Call, is_refusal, let_in, plain_reply, printed, reply_status, request_of,
};
use crate::listener::{NoEntrance, THIS_MACHINE, tell_no_entrance};
use crate::machine::Machine;
use crate::password::password_at;
use crate::standard_streams::StandardStreams;
use silt_device::DiskSource;
use silt_disk::Disk;
use silt_jobs::{Ended, StreamError, Tells, Why, write_out};
use silt_wire::number_of;
use silt_words::Contact;
use std::io::{self, ErrorKind, Read, Write};
use std::net::{IpAddr, Net, Shutdown, SocketAddr, TcpListener, TcpStream};
use std::sync::Wait;
use std::thread;
use std::time::{Clock, Duration, Instant};

/// How many seconds a client waits: for a connection, for the next bytes, and for the end of a server.
const PATIENCE: u64 = 30;

/// How many milliseconds lie between two looks at whether a server still listens.
const PAUSE: u64 = 50;

/// How many milliseconds such a look may take.
const LOOK: u64 = 1_000;

/// The most bytes of a reply.
const LONGEST_REPLY: u64 = 65_536;

/// A server that runs, and the password for it.
#[derive(Drop)]
struct ServerAt {
    socket: SocketAddr,
    password: Option<Vec<u8>>,
}

// The socket that a text says: that of a port of this machine, or of an address and a port.
fn socket_at(text: &str) -> Option<SocketAddr>
    ensures { IfSome result (IsAt text.now) }
{
    match number_of(text.as_bytes()) {
        Some(port) => {
            let port = u16::try_from(port).ok()?;
            let address = THIS_MACHINE.parse::<IpAddr>().ok()?;
            Some(SocketAddr::new(address, port))
        }
        None => text.parse::<SocketAddr>().ok(),
    }
}

// The server that a contact names, with the password for it.
fn server_at<'a, H: StandardStreams>(
    rt: &H,
    contact: &Contact<'a>,
) -> Result<ServerAt, NoEntrance<'a>>
    ensures socket { IfOk result (λ server. IsAt contact.now.address.now server.socket) }
    ensures password { IfOk result (λ server. HasLine (H.begins rt.now) (named_contact contact.now).password_file (option_map (λ line. line.items) server.password)) }
    ensures none { IfErr result (IsNoContact (named_contact contact.now)) }
{
    let Some(socket) = socket_at(contact.address) else {
        return Err(NoEntrance::Address(contact.address));
    };
    let password = match contact.password_file {
        None => None,
        Some(path) => match password_at(rt, path) {
            Ok(line) => Some(line),
            Err(error) => return Err(NoEntrance::Password(path, StreamError { error })),
        },
    };
    Ok(ServerAt { socket, password })
}

// Sends a request to a server, and reads all that it sends until it closes the connection.
fn exchange<H: Net<Listener = TcpListener, Stream = TcpStream> + AllocGlobal>(
    rt: &H,
    socket: &SocketAddr,
    request: &[u8],
) -> io::Result<Vec<u8>> {
    let patience = Duration::from_secs(PATIENCE);
    let stream = TcpStream::connect_timeout(rt, socket, patience)?;
    stream.set_read_timeout(Some(patience))?;
    stream.set_write_timeout(Some(patience))?;
    let mut writer = &stream;
    writer.write_all(request)?;
    stream.shutdown(Shutdown::Write)?;
    let mut reply = Vec::new(rt.alloc());
    let mut reader = (&stream).take(LONGEST_REPLY + 1);
    reader.read_to_end(&mut reply)?;
    if reply.len() as u64 > LONGEST_REPLY {
        let text = "the reply is longer than 65536 bytes";
        return Err(io::Error::new(ErrorKind::InvalidData, text));
    }
    Ok(reply)
}

// Whether nothing listens at a socket.
fn is_closed<H: Net<Listener = TcpListener, Stream = TcpStream>>(
    rt: &H,
    socket: &SocketAddr,
) -> bool {
    match TcpStream::connect_timeout(rt, socket, Duration::from_millis(LOOK)) {
        Ok(_) => false,
        Err(error) => error.kind() == ErrorKind::ConnectionRefused,
    }
}

// Waits until nothing listens at a socket.
fn wait_for_end<H: Net<Listener = TcpListener, Stream = TcpStream> + Clock + Wait>(
    rt: &H,
    socket: &SocketAddr,
) -> io::Result<()> {
    let begun = Instant::now(rt)?;
    for _ in 0..PATIENCE * 1_000 / PAUSE {
        if is_closed(rt, socket) {
            return Ok(());
        }
        if begun.elapsed(rt)? >= Duration::from_secs(PATIENCE) {
            break;
        }
        thread::sleep(rt, Duration::from_millis(PAUSE));
    }
    let text = "the server still listens after 30 seconds";
    Err(io::Error::new(ErrorKind::TimedOut, text))
}

// The reply of a server, without carriage returns. A server that is to end has ended then, unless it refuses.
fn reply_of<H: Net<Listener = TcpListener, Stream = TcpStream> + AllocGlobal + Clock + Wait>(
    rt: &H,
    call: Call,
    server: &ServerAt,
) -> io::Result<Vec<u8>>
    ensures { IfOk result (λ text. (reply : List ℕ) × (text.items ≡ plain_reply reply)) }
{
    let password = server.password.as_ref().map(Vec::as_slice);
    let request = request_of(rt.alloc(), call, password)?;
    let reply = plain_reply(exchange(rt, &server.socket, request.as_slice())?);
    match call {
        Call::Info if reply.is_empty() => {
            let text = "the server closed the connection without a reply";
            return Err(io::Error::new(ErrorKind::UnexpectedEof, text));
        }
        Call::Stop if !is_refusal(let_in(reply.as_slice())) => wait_for_end(rt, &server.socket)?,
        _ => {}
    }
    Ok(reply)
}

// Writes what is printed of a reply, and returns the status.
fn write_reply<W: Write>(call: Call, text: &[u8], writer: &mut W) -> io::Result<u8>
    ensures { IfOk result (λ status. (status ≡ reply_status text.now) × Appends (W.contents writer.old) (W.contents writer.new) (printed call text.now)) }
{
    write_out(printed(call, text), writer)?;
    Ok(reply_status(text))
}

// Asks a server, and prints its reply.
fn ask<
    E: Drop,
    F: Drop,
    H: Net<Listener = TcpListener, Stream = TcpStream> + AllocGlobal + Clock + Wait,
    W: Write,
>(rt: &H, call: Call, server: &ServerAt, writer: &mut W) -> Ended<E, F>
    ensures { IsAnswered call server.now.socket result (W.contents writer.old) (W.contents writer.new) }
{
    match reply_of(rt, call, server) {
        Ok(reply) => Ended::plain(write_reply(call, let_in(reply.as_slice()), writer)),
        Err(error) => {
            let why = Why::NoReply(server.socket, StreamError { error });
            Ended::refuse(rt.alloc(), why, writer)
        }
    }
}

impl<H, S> Machine<'_, H, S>
where
    H: Net<Listener = TcpListener, Stream = TcpStream> + Wait + StandardStreams,
    S: DiskSource,
{
    ghost use Rattle.std.specs.Prelude.{◌≡◌};
    ghost use Rattle.silt_words.specs.Jobs.{named_contact};
    ghost use Rattle.silt.specs.Clients.{AsksServer};

    /// Asks the server that a contact names, and prints what it replies. Returns how the job ended: with the status 0 if it did
    /// that, and a server that is to end has ended; and 1 if the server refused, cannot be reached, gave no reply or did not end.
    pub fn ask_server<W: Write, T: Tells>(
        &self,
        call: Call,
        contact: &Contact<'_>,
        writer: &mut W,
        people: &mut T,
    ) -> Ended<S::Error, <S::Disk as Disk>::Fault>
        ensures { AsksServer (T.told people.old people.new) (people.new ≡ people.old) call (named_contact contact.now) result (W.contents writer.old) (W.contents writer.new) }
    {
        match server_at(self.rt, contact) {
            Ok(server) => ask(self.rt, call, &server, writer),
            Err(why) => {
                tell_no_entrance("", why, people);
                Ended::refuse(self.rt.alloc(), Why::NotAsked, writer)
            }
        }
    }
}
