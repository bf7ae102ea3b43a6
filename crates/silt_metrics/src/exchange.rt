// One request and its response.
ghost use Rattle.std.specs.Prelude.{◌≡◌, ℕ, List, IfOk, IfSome, string_bytes};
ghost use Rattle.std.specs.Io.KnownBytes.{Consumes};
ghost use Rattle.silt_metrics.specs.Requests.{IsTakenFor};
ghost use Rattle.silt_metrics.specs.Responses.{IsAnsweredBy, response_text, response_with};

use crate::request::{Wanted, asked_for};
use crate::text::page;
use silt_event::{Counts, Facts};
use silt_wire::write_texts;
use std::alloc::{AllocError, Global};
use std::io::{ErrorKind, Read, Write};

/// The most bytes of a request's head.
const HEAD_LEN: usize = 8_192;

/// The most reads of a request.
const READS: u32 = 64;

// The head and the body of a response.
fn response_with(alloc: Global, status: &str, body: &str) -> Result<String, AllocError>
    ensures { IfOk result (λ text. string_bytes text ≡ response_with status.now body.now) }
{
    let len = body.len();
    format!(in alloc;
        "HTTP/1.1 {status}\r\nContent-Type: text/plain; version=0.0.4; charset=utf-8\r\nContent-Length: {len}\r\nConnection: close\r\n\r\n{body}"
    )
}

/// The response to a request that asks for this.
pub fn response(
    alloc: Global,
    wanted: Wanted,
    facts: &Facts,
    counts: &Counts,
) -> Result<String, AllocError>
    ensures { IfOk result (λ text. string_bytes text ≡ response_text wanted facts.now counts.now) }
{
    match wanted {
        Wanted::Page => {
            let body = page(alloc, facts, counts)?;
            response_with(alloc, "200 OK", &body)
        }
        Wanted::OtherPage => response_with(alloc, "404 Not Found", "the page is /metrics\n"),
        Wanted::OtherMethod => response_with(
            alloc,
            "405 Method Not Allowed\r\nAllow: GET",
            "the page is read with GET\n",
        ),
        Wanted::Garbage => response_with(alloc, "400 Bad Request", "this is no request\n"),
    }
}

// Reads the head of a request. None if it does not come.
fn read_wanted<R: Read>(reader: &mut R) -> Option<Wanted>
    ensures { (read : List ℕ) × Consumes (R.remaining reader.old) (R.remaining reader.new) read × IfSome result (IsTakenFor read) }
{
    let mut head = [0u8; HEAD_LEN];
    let mut len = 0;
    for _ in 0..READS {
        match reader.read(&mut head[len..]) {
            Ok(0) => return Some(Wanted::Garbage),
            Ok(count) => {
                len += count;
                if let Some(wanted) = asked_for(&head[..len]) {
                    return Some(wanted);
                }
            }
            Err(error) if error.kind() == ErrorKind::Interrupted => {}
            Err(_) => return None,
        }
    }
    None
}

/// Reads one request, and writes its response, with these facts and counts. Writes nothing if the request does not come, or if out
/// of memory.
pub fn serve_page<R: Read, W: Write>(
    alloc: Global,
    reader: &mut R,
    writer: &mut W,
    facts: &Facts,
    counts: &Counts,
)
    ensures { (read : List ℕ) × Consumes (R.remaining reader.old) (R.remaining reader.new) read
        × IsAnsweredBy facts.now counts.now read (W.contents writer.old) (W.contents writer.new) }
{
    let Some(wanted) = read_wanted(reader) else {
        return;
    };
    let Ok(text) = response(alloc, wanted, facts, counts) else {
        return;
    };
    let _ = write_texts(writer, text.as_bytes());
}
