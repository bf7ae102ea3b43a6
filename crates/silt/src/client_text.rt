// What a client of a server sends, and what it prints of the reply.
ghost use Rattle.std.specs.Prelude.{◌≡◌, ◌++◌, IfOk, OnOk, option_map};
ghost use Rattle.silt.specs.Common.{string_text};
ghost use Rattle.silt.specs.Clients.{behind_line, command_line, is_refusal, let_in, password_text, plain_reply, printed, reply_status, request_text, shown};

use crate::password::feed_at;
use std::alloc::{AllocError, Global};

/// What a client asks of a server.
#[derive(Clone, Copy, Debug, PartialEq, Eq)]
pub enum Call {
    /// That it ends.
    Stop,
    /// What it says of itself.
    Info,
}

impl Call {
    // The line that asks for it.
    fn line(self) -> &'static str
        ensures { result.now ≡ command_line self }
    {
        match self {
            Call::Stop => "shutdown\n",
            Call::Info => "info\n",
        }
    }
}

// Appends a string as Redis' protocol has it.
fn push_string(alloc: Global, out: &mut Vec<u8>, string: &[u8]) -> Result<(), AllocError>
    ensures { OnOk result (out.new.items ≡ out.old.items ++ string_text string.now) }
{
    let digits = string.len().to_string(alloc)?;
    out.push(b'$')?;
    out.extend_from_slice(digits.as_bytes())?;
    out.extend_from_slice(b"\r\n")?;
    out.extend_from_slice(string)?;
    out.extend_from_slice(b"\r\n")
}

// Appends what a client sends to be let in, if it has a password.
fn push_password(
    alloc: Global,
    out: &mut Vec<u8>,
    password: Option<&[u8]>,
) -> Result<(), AllocError>
    ensures { OnOk result (out.new.items ≡ out.old.items ++ password_text (option_map (λ line. line.now) password.entry)) }
{
    let Some(password) = password else {
        return Ok(());
    };
    out.extend_from_slice(b"*2\r\n")?;
    push_string(alloc, out, b"AUTH")?;
    push_string(alloc, out, password)
}

/// All that a client sends.
pub fn request_of(alloc: Global, call: Call, password: Option<&[u8]>) -> Result<Vec<u8>, AllocError>
    ensures { IfOk result (λ request. request.items ≡ request_text call (option_map (λ line. line.now) password.entry)) }
{
    let mut request = Vec::new(alloc);
    push_password(alloc, &mut request, password)?;
    request.extend_from_slice(call.line().as_bytes())?;
    Ok(request)
}

// A text behind its first line.
fn behind_line(text: &[u8]) -> &[u8]
    ensures { result.now ≡ behind_line text.now }
{
    match feed_at(text) {
        Some(at) => &text[at + 1..],
        None => b"",
    }
}

/// A reply without carriage returns.
pub fn plain_reply(reply: Vec<u8>) -> Vec<u8>
    ensures { result.items ≡ plain_reply reply.items }
{
    let mut reply = reply;
    reply.retain(|byte| *byte != b'\r');
    reply
}

/// A plain reply without the line that lets the client in.
pub fn let_in(text: &[u8]) -> &[u8]
    ensures { result.now ≡ let_in text.now }
{
    if text.starts_with(b"+") {
        behind_line(text)
    } else {
        text
    }
}

/// Whether a reply refuses.
pub fn is_refusal(text: &[u8]) -> bool
    ensures { result ≡ is_refusal text.now }
{
    text.starts_with(b"-") || text.starts_with(b"refused ")
}

// What people are shown of a reply.
fn shown(text: &[u8]) -> &[u8]
    ensures { result.now ≡ shown text.now }
{
    if !text.starts_with(b"$") {
        return text;
    }
    let string = behind_line(text);
    &string[..string.len().saturating_sub(1)]
}

/// What a client prints of a reply.
pub fn printed(call: Call, text: &[u8]) -> &[u8]
    ensures { result.now ≡ printed call text.now }
{
    match call {
        Call::Info => shown(text),
        Call::Stop if is_refusal(text) => shown(text),
        Call::Stop => b"",
    }
}

/// The status of a client with this reply.
pub fn reply_status(text: &[u8]) -> u8
    ensures { result ≡ reply_status text.now }
{
    match is_refusal(text) {
        true => 1,
        false => 0,
    }
}
