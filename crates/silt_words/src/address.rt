// Addresses in words.
ghost use Rattle.std.specs.Prelude.{◌≡◌, ◌==◌, string_bytes};
ghost use Rattle.std.specs.List.{list_all, list_any};
ghost use Rattle.silt_words.specs.Addresses.{is_address, is_address_byte, is_contact, is_loopback, is_port, is_socket, is_socket_byte};

use silt_wire::number_of;

fn has_address_bytes(text: &[u8]) -> bool
    ensures { result ≡ list_all is_address_byte text.now }
{
    text.iter().all(|byte| byte.is_ascii_hexdigit() || *byte == b'.' || *byte == b':')
}

/// Whether a text has only digits of addresses, points and colons. What else makes an address of it the system's parser decides.
pub fn is_address(text: &str) -> bool
    ensures { result ≡ is_address text.now }
{
    !text.is_empty() && has_address_bytes(text.as_bytes())
}

/// Whether only this machine reaches an address: it begins with `127.`, or is `::1`.
pub fn is_loopback(text: &str) -> bool
    ensures { result ≡ is_loopback text.now }
{
    let bytes = text.as_bytes();
    bytes == b"::1".as_slice() || bytes.starts_with(b"127.")
}

fn has_socket_bytes(text: &[u8]) -> bool
    ensures { result ≡ list_all is_socket_byte text.now }
{
    text.iter().all(|byte| {
        byte.is_ascii_hexdigit() || matches!(*byte, b'.' | b':' | b'[' | b']')
    })
}

fn has_colon(text: &[u8]) -> bool
    ensures { result ≡ list_any (λ byte. byte == 58) text.now }
{
    text.iter().any(|byte| *byte == b':')
}

// Whether a text may be an address and a port.
fn is_socket(text: &str) -> bool
    ensures { result ≡ is_socket text.now }
{
    has_colon(text.as_bytes()) && has_socket_bytes(text.as_bytes())
}

// Whether a text spells a port to connect to.
fn is_port(text: &str) -> bool
    ensures { result ≡ is_port text.now }
{
    match number_of(text.as_bytes()) {
        Some(port) => 1 <= port && port <= 65_535,
        None => false,
    }
}

/// Whether a text may say where a server is: a port of this machine, or an address and a port. What else makes an address of it the
/// system's parser decides.
pub fn is_contact(text: &str) -> bool
    ensures { result ≡ is_contact text.now }
{
    is_port(text) || is_socket(text)
}
