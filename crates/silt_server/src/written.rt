// What a server writes.
ghost use Rattle.std.specs.Prelude.{◌≡◌, ℕ, List, OnOk, IfOk, codes, string_bytes};
ghost use Rattle.std.specs.Io.KnownBytes.{Appends};
ghost use Rattle.silt_server.specs.Serving.{network_text};
ghost use Rattle.silt_wire.specs.Sessions.{IsBeginning};
ghost use Rattle.silt_server.specs.Texts.{busy_text, calls_text, listening_text, no_thread_text, refused_text};

use crate::limits::{Limits, Protocol};
use silt_event::Refusal;
use silt_wire::write_refusal;
use std::alloc::{AllocError, Global};
use std::io::{self, Write};

// Writes a line, and sends it off.
fn write_line<W: Write>(line: &[u8], out: &mut W) -> io::Result<()>
    ensures { OnOk result (Appends (W.contents out.old) (W.contents out.new) line.now) }
{
    out.write_all(line)?;
    out.flush()
}

/// Writes that the store is opened.
pub fn write_opened<W: Write>(out: &mut W) -> io::Result<()>
    ensures { OnOk result (Appends (W.contents out.old) (W.contents out.new) (codes "opened\n")) }
{
    write_line(b"opened\n", out)
}

/// Writes on which port the server listens.
pub fn write_listening<W: Write>(alloc: Global, port: u16, out: &mut W) -> io::Result<()>
    ensures { OnOk result (Appends (W.contents out.old) (W.contents out.new) (listening_text port)) }
{
    let line = format!(in alloc; "listening {port}\n")?;
    write_line(line.as_bytes(), out)
}

/// Writes how many calls are recorded, and returns the status.
pub fn write_calls<W: Write>(alloc: Global, calls: u64, out: &mut W) -> io::Result<u8>
    ensures { IfOk result (λ status. (status ≡ 0) × Appends (W.contents out.old) (W.contents out.new) (calls_text calls)) }
{
    let line = format!(in alloc; "calls {calls}\n")?;
    write_line(line.as_bytes(), out)?;
    Ok(0)
}

// That so many connections are served already.
fn busy_text(alloc: Global, limits: &Limits) -> Result<String, AllocError>
    ensures { IfOk result (λ text. string_bytes text ≡ busy_text limits.now.protocol limits.now.clients) }
{
    match limits.protocol {
        Protocol::Resp => String::from_str(alloc, "-ERR max number of clients reached\r\n"),
        _ => {
            let clients = limits.clients;
            format!(in alloc; "busy: {clients} connections are served already\n")
        }
    }
}

/// Writes that so many connections are served already, or as much of that as the system takes at once. If out of memory for
/// the text, it writes nothing.
pub fn turn_away<W: Write>(alloc: Global, limits: &Limits, out: &mut W)
    ensures { (written : List ℕ) × IsBeginning written (busy_text limits.now.protocol limits.now.clients) × Appends (W.contents out.old) (W.contents out.new) written }
{
    let Ok(text) = busy_text(alloc, limits) else {
        return;
    };
    let _ = out.write(text.as_bytes());
}

// That the system gives no thread for a connection.
fn no_thread_text(protocol: Protocol) -> &'static [u8]
    ensures { result.now ≡ no_thread_text protocol }
{
    match protocol {
        Protocol::Resp => b"-ERR max number of clients reached\r\n",
        _ => b"busy: the system gives no thread\n",
    }
}

/// Writes that the system gives no thread for a connection, or as much of that as it takes at once.
pub fn lack_thread<W: Write>(protocol: Protocol, out: &mut W)
    ensures { (written : List ℕ) × IsBeginning written (no_thread_text protocol) × Appends (W.contents out.old) (W.contents out.new) written }
{
    let _ = out.write(no_thread_text(protocol));
}

/// Writes that the network failed, and returns the status.
pub fn write_network_fault<W: Write>(out: &mut W) -> io::Result<u8>
    ensures { IfOk result (λ status. (status ≡ 1) × Appends (W.contents out.old) (W.contents out.new) network_text) }
{
    write_line(b"network fault\n", out)?;
    Ok(1)
}

/// Writes that nothing is served, and returns the status. The text of `NoMemory` needs no memory.
pub fn refuse<F: Drop, W: Write>(alloc: Global, refusal: &Refusal<F>, out: &mut W) -> io::Result<u8>
    ensures { IfOk result (λ status. (status ≡ 1) × Appends (W.contents out.old) (W.contents out.new) (refused_text refusal.now)) }
{
    write_refused(alloc, refusal, out)?;
    out.flush()?;
    Ok(1)
}

// Writes a refusal as a line. The text of `NoMemory` needs no memory.
fn write_refused<F: Drop, W: Write>(
    alloc: Global,
    refusal: &Refusal<F>,
    out: &mut W,
) -> io::Result<()>
    ensures { OnOk result (Appends (W.contents out.old) (W.contents out.new) (refused_text refusal.now)) }
{
    match refusal {
        Refusal::NoMemory => out.write_all(b"refused 6 NoMemory\n")?,
        _ => write_refusal(alloc, refusal, out)?,
    }
    Ok(())
}
