//! The protocol of Redis clients (RESP2): the commands in their bytes, and strings as values of a store.
//!
//! A [`CommandBuffer`] takes the bytes of a client as they come, keeps one command of them in bounded memory, and says where
//! it ends. A [`Command`] shows its [`Words`], or why they are not kept, or the [`ProtocolFault`] that ends the stream. The bytes
//! are cut into commands as `specs/Stream` says, a byte at a time: how they were cut into reads changes nothing (`cut_law`), and
//! what a client encodes is read (`resp_law`). A command comes as an array of words with their lengths in front, or as a line of
//! words between spaces. Words, commands and lines that are too long cost no memory.
//!
//! What a command asks for is `asked_for` of `specs/Commands`: events and the [`Form`] of their one reply, a text, or an admin
//! command (INFO, SHUTDOWN, BGSAVE), whose reply is in `specs/Info`. `specs/Table` has the commands and how many words each takes.
//! `push_text` appends the one reply, made of the store's replies to the events.
//!
//! `resp_session` reads commands from any reader, hands their events to a store, or another `Answerer`, and writes one reply for
//! each command to any writer. [`Settings`] has what it has to know.
//!
//! A key is the SHA-1 digest of a name (`key_of`). A string becomes a value of a store with its length in front and zeros behind
//! (`string_value`), and `string_of` reads it back.
#![tactic(auto)]

mod arguments;
mod asked;
mod asked_for;
mod batch;
mod command;
mod command_buffer;
mod connection_commands;
mod fault;
mod heads;
mod info;
mod key_commands;
mod laws;
mod session;
mod settings;
mod table;
mod texts;
mod values;
mod words;

pub use command::{Command, Word, Words};
pub use command_buffer::{CommandBuffer, Taken};
pub use fault::ProtocolFault;
pub use laws::{cut_law, resp_law};
pub use session::{RespEnd, resp_session};
pub use settings::Settings;
pub use texts::{Form, push_text};
pub use values::{LENGTH_LEN, key_of, string_of, string_value, values_law};
pub use words::LONGEST_WORD;
