// What a request asks for.
ghost use Rattle.std.specs.Prelude.{◌≡◌, length};
ghost use Rattle.httparse.specs.Spans.{IsWithin, span_bytes};
ghost use Rattle.silt_metrics.specs.Requests.{IsWanted, wanted_of};

use httparse::Status;
use httparse::spans::{EMPTY_HEADER_SPAN, RequestSpans, parse_request};

/// The most header fields of a request.
const FIELDS: usize = 64;

/// What a request asks for.
#[derive(Clone, Copy, Debug, PartialEq, Eq)]
pub enum Wanted {
    /// The page of metrics.
    Page,
    /// A page that is not there.
    OtherPage,
    /// Something else than a page.
    OtherMethod,
    /// It is no request.
    Garbage,
}

// What the head of a request asks for, whose method and path are there.
fn wanted_at(bytes: &[u8], head: &RequestSpans) -> Wanted
    requires method { IsWithin (length bytes.now) head.now.method }
    requires path { IsWithin (length bytes.now) head.now.path }
    ensures { result ≡ wanted_of (span_bytes bytes.now head.now.method) (span_bytes bytes.now head.now.path) }
{
    if head.method.of(bytes) != b"GET".as_slice() {
        return Wanted::OtherMethod;
    }
    if head.path.of(bytes) == b"/metrics".as_slice() {
        Wanted::Page
    } else {
        Wanted::OtherPage
    }
}

/// What the request asks for that begins with these bytes. None if more of them are needed to know.
pub fn asked_for(bytes: &[u8]) -> Option<Wanted>
    ensures { IsWanted bytes.now result }
{
    let mut fields = [EMPTY_HEADER_SPAN; FIELDS];
    match parse_request(bytes, &mut fields) {
        Ok(Status::Complete(head)) => Some(wanted_at(bytes, &head)),
        Ok(Status::Partial) => None,
        Err(_) => Some(Wanted::Garbage),
    }
}
