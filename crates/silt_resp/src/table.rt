// The table of commands.
ghost use Rattle.std.specs.Prelude.{◌≡◌};

use crate::command::{Word, Words};

/// As many words behind a command's name as are kept.
const MANY: usize = 1_023;

/// A command's name in lower case, and the fewest and the most words that may follow it.
#[derive(Clone, Copy, Debug)]
pub struct Row {
    pub name: &'static str,
    pub least: usize,
    pub most: usize,
}

impl Row {
    fn new(name: &'static str, least: usize, most: usize) -> Self
        ensures name { result.name.now ≡ name.now }
        ensures least { result.least ≡ least }
        ensures most { result.most ≡ most }
    {
        Row { name, least, most }
    }
}

/// The commands that are known.
#[derive(Clone, Copy, Debug, PartialEq, Eq)]
pub enum CommandName {
    Get,
    Strlen,
    Mget,
    Exists,
    Touch,
    Set,
    Setnx,
    Delifeq,
    Mset,
    Del,
    Unlink,
    Ping,
    Echo,
    Quit,
    Select,
    Auth,
    Hello,
    Client,
    Command,
    Config,
    Cluster,
    Info,
    Shutdown,
    Bgsave,
}

/// All commands.
const COMMANDS: [CommandName; 24] = [
    CommandName::Get,
    CommandName::Strlen,
    CommandName::Mget,
    CommandName::Exists,
    CommandName::Touch,
    CommandName::Set,
    CommandName::Setnx,
    CommandName::Delifeq,
    CommandName::Mset,
    CommandName::Del,
    CommandName::Unlink,
    CommandName::Ping,
    CommandName::Echo,
    CommandName::Quit,
    CommandName::Select,
    CommandName::Auth,
    CommandName::Hello,
    CommandName::Client,
    CommandName::Command,
    CommandName::Config,
    CommandName::Cluster,
    CommandName::Info,
    CommandName::Shutdown,
    CommandName::Bgsave,
];

impl CommandName {
    ghost use Rattle.silt_resp.specs.Table.{command_named, first_command, command_row, takes};
    ghost use Rattle.silt_resp.specs.Seen.{word_seen};
    ghost use Rattle.std.specs.Prelude.{length};

    /// The row of a command.
    pub fn row(self) -> Row
        ensures name { result.name.now ≡ (command_row self).name }
        ensures least { result.least ≡ (command_row self).least }
        ensures most { result.most ≡ (command_row self).most }
    {
        match self {
            CommandName::Get => Row::new("get", 1, 1),
            CommandName::Strlen => Row::new("strlen", 1, 1),
            CommandName::Mget => Row::new("mget", 1, MANY),
            CommandName::Exists => Row::new("exists", 1, MANY),
            CommandName::Touch => Row::new("touch", 1, MANY),
            CommandName::Set => Row::new("set", 2, MANY),
            CommandName::Setnx => Row::new("setnx", 2, 2),
            CommandName::Delifeq => Row::new("delifeq", 2, 2),
            CommandName::Mset => Row::new("mset", 2, MANY),
            CommandName::Del => Row::new("del", 1, MANY),
            CommandName::Unlink => Row::new("unlink", 1, MANY),
            CommandName::Ping => Row::new("ping", 0, 1),
            CommandName::Echo => Row::new("echo", 1, 1),
            CommandName::Quit => Row::new("quit", 0, MANY),
            CommandName::Select => Row::new("select", 1, 1),
            CommandName::Auth => Row::new("auth", 1, MANY),
            CommandName::Hello => Row::new("hello", 0, MANY),
            CommandName::Client => Row::new("client", 1, MANY),
            CommandName::Command => Row::new("command", 0, MANY),
            CommandName::Config => Row::new("config", 1, MANY),
            CommandName::Cluster => Row::new("cluster", 1, MANY),
            CommandName::Info => Row::new("info", 0, MANY),
            CommandName::Shutdown => Row::new("shutdown", 0, MANY),
            CommandName::Bgsave => Row::new("bgsave", 0, MANY),
        }
    }

    // The command with this name, in either case.
    fn named(name: &[u8]) -> Option<CommandName>
        ensures { result ≡ command_named name.now }
    {
        COMMANDS.iter().copied().find(|command| name.eq_ignore_ascii_case(
            command.row().name.as_bytes(),
        ))
    }

    /// The command that the first of these words names.
    pub fn of(words: &Words<'_>) -> Option<CommandName>
        ensures { result ≡ first_command words.now }
    {
        match words.get(0) {
            Some(Word::Whole(name)) => CommandName::named(name),
            _ => None,
        }
    }

    /// Whether so many words may follow its name.
    pub fn takes(self, count: usize) -> bool
        ensures { result ≡ takes self count }
    {
        let row = self.row();
        row.least <= count && count <= row.most
    }
}
