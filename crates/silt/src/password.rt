// The password that a server asks its clients for.
ghost use Rattle.std.specs.Prelude.{◌≡◌, ◌==◌, IfOk, OnErr};
ghost use Rattle.silt.specs.Common.{position, sha1};
ghost use Rattle.silt.specs.Passwords.{CanBeSent, IsPassword, ReadsLine, ReadsPassword, first_line};

use crate::standard_streams::StandardStreams;
use sha1::Sha1;
use silt_resp::LONGEST_WORD;
use std::io::{self, ErrorKind};

/// Where the first line feed is.
pub fn feed_at(bytes: &[u8]) -> Option<usize>
    ensures { result ≡ position (λ b. b == 10) bytes.now }
{
    bytes.iter().position(|byte| *byte == b'\n')
}

/// The first line, without its line feed.
pub fn first_line(bytes: &[u8]) -> &[u8]
    ensures { result.now ≡ first_line bytes.now }
{
    match feed_at(bytes) {
        Some(at) => bytes.split_at(at).0,
        None => bytes,
    }
}

// The password: the first line of these bytes.
fn password_in(bytes: &[u8]) -> io::Result<&[u8]>
    ensures line { IfOk result (λ line. (line.now ≡ first_line bytes.now) × CanBeSent line.now) }
    ensures none { OnErr result (CanBeSent (first_line bytes.now) → ⊥) }
{
    let line = first_line(bytes);
    if line.is_empty() {
        return Err(io::Error::new(
            ErrorKind::InvalidData,
            "the first line, which is the password, is empty",
        ));
    }
    if line.len() > LONGEST_WORD {
        return Err(io::Error::new(
            ErrorKind::InvalidData,
            "the first line, which is the password, is longer than 8192 bytes",
        ));
    }
    Ok(line)
}

// The SHA-1 digest of the password in these bytes.
fn digest_of(bytes: &[u8]) -> io::Result<[u8; 20]>
    ensures digest { IfOk result (λ digest. IsPassword (first_line bytes.now) digest) }
    ensures none { OnErr result (IsPassword (first_line bytes.now) (sha1 (first_line bytes.now)) → ⊥) }
{
    Ok(Sha1::digest(password_in(bytes)?))
}

/// The SHA-1 digest of the password in a file, which is the file's first line without its line feed.
///
/// # Errors
///
/// The system's, and an empty line, and one of more than 8,192 bytes, which is more than a client can send.
pub fn read_password<H: StandardStreams>(rt: &H, path: &str) -> io::Result<[u8; 20]>
    ensures { IfOk result (ReadsPassword (H.begins rt.now) path.now) }
{
    let mut buffer = [0u8; LONGEST_WORD + 2];
    let count = rt.read_start(path, &mut buffer)?;
    digest_of(&buffer[..count])
}

/// The password in a file itself, for a client to send.
///
/// # Errors
///
/// As those of [`read_password`], and out of memory.
pub fn password_at<H: StandardStreams>(rt: &H, path: &str) -> io::Result<Vec<u8>>
    ensures { IfOk result (λ line. ReadsLine (H.begins rt.now) path.now line.items) }
{
    let mut buffer = [0u8; LONGEST_WORD + 2];
    let count = rt.read_start(path, &mut buffer)?;
    let line = password_in(&buffer[..count])?;
    let mut kept = Vec::new(rt.alloc());
    kept.extend_from_slice(line)?;
    Ok(kept)
}
