// What commands ask for.
ghost use Rattle.std.specs.Prelude.{◌≡◌, ◌++◌, ℕ, Err, IfOk, OnOk, Result, drop, map, string_bytes, take};
ghost use Rattle.silt_resp.specs.Arguments.{Gives};
ghost use Rattle.silt_resp.specs.declared.fault.CommandFault.{CommandFault as CommandFaultOf};
ghost use Rattle.silt_resp.specs.Commands.{Asked as AskedOf, FitsValues, asked_for, broken_text, checked, is_free, lets_in, made};
ghost use Rattle.silt_resp.specs.Commands.{says, shown_byte, shown_name, told, unknown_text, unkept, visitor_after, words_asked};
ghost use Rattle.silt_resp.specs.Faults.{command_fault_text};
ghost use Rattle.silt_resp.specs.Table.{first_command};
ghost use Rattle.silt_resp.specs.Seen.{asked_seen, command_seen};
ghost use Rattle.silt_resp.specs.Texts.{error_text};

use crate::asked::{Asked, Tail, line};
use crate::command::{Command, Word, Words};
use crate::connection_commands::{
    auth, auth_verdict, backup, client, command, config, echo, hello, hello_verdict, ok, ping,
    select, shutdown,
};
use crate::fault::{CommandFault, ProtocolFault};
use crate::info::sections_named;
use crate::key_commands::{delete, insert, look, look_all, remove, set, set_all};
use crate::settings::{Settings, Visitor};
use crate::table::CommandName;
use crate::texts::{Form, push_line};
use std::alloc::{AllocError, Global};

/// How many bytes of a name are shown.
const SHOWN: usize = 32;

const BAD_SUBCOMMAND: &str = "ERR unknown subcommand or wrong number of arguments";

const NO_CLUSTER: &str = "ERR This instance has cluster support disabled";

const NO_PASSWORD: &str = "ERR AUTH called without any password configured";

const WRONG_PASSWORD: &str = "WRONGPASS invalid username-password pair or user is disabled.";

// What a command makes of the words behind its name.
fn made(
    alloc: Global,
    settings: &Settings,
    visitor: Visitor,
    name: CommandName,
    args: &Words<'_>,
) -> Result<Asked, CommandFault>
    ensures asked { Gives asked_seen (made settings.now visitor name args.now) result }
    ensures fits { IfOk result (λ asked. FitsValues settings.now.value_len (asked_seen asked)) }
{
    match name {
        CommandName::Get => look(alloc, args, Form::Value),
        CommandName::Strlen => look(alloc, args, Form::Len),
        CommandName::Mget => look_all(alloc, settings, args, Form::Values),
        CommandName::Exists => look_all(alloc, settings, args, Form::Counted),
        CommandName::Touch => look_all(alloc, settings, args, Form::Counted),
        CommandName::Set => set(alloc, settings, args),
        CommandName::Setnx => insert(alloc, settings, args, Form::Changed),
        CommandName::Delifeq => remove(alloc, settings, args),
        CommandName::Mset => set_all(alloc, settings, args),
        CommandName::Del => delete(alloc, settings, args),
        CommandName::Unlink => delete(alloc, settings, args),
        CommandName::Ping => ping(alloc, args),
        CommandName::Echo => echo(alloc, args),
        CommandName::Quit => ok(alloc),
        CommandName::Select => select(alloc, args),
        CommandName::Auth => auth(alloc, settings, args),
        CommandName::Hello => hello(alloc, settings, visitor, args),
        CommandName::Client => client(alloc, visitor, args),
        CommandName::Command => command(alloc, args),
        CommandName::Config => config(alloc, args),
        CommandName::Cluster => Err(CommandFault::NoCluster),
        CommandName::Info => Ok(Asked::Admin(Tail::Info(sections_named(args)))),
        CommandName::Shutdown => shutdown(args),
        CommandName::Bgsave => backup(args),
    }
}

// Whether a command is done for a visitor who is not let in.
fn is_free(name: CommandName) -> bool
    ensures { result ≡ is_free name }
{
    match name {
        CommandName::Auth | CommandName::Hello | CommandName::Quit => true,
        _ => false,
    }
}

// What a command makes, if the visitor may give it and has given as many words as it takes.
fn checked(
    alloc: Global,
    settings: &Settings,
    visitor: Visitor,
    name: CommandName,
    args: &Words<'_>,
) -> Result<Asked, CommandFault>
    ensures asked { Gives asked_seen (checked settings.now visitor name args.now) result }
    ensures fits { IfOk result (λ asked. FitsValues settings.now.value_len (asked_seen asked)) }
{
    if !visitor.is_let_in && !is_free(name) {
        return Err(CommandFault::NotLetIn);
    }
    if !name.takes(args.len()) {
        return Err(CommandFault::WrongCount(name));
    }
    made(alloc, settings, visitor, name, args)
}

// The error of a value that is longer than this.
fn value_error(alloc: Global, most: usize) -> Result<String, AllocError>
    ensures { IfOk result (λ text. string_bytes text ≡ command_fault_text (CommandFault.LongValue most)) }
{
    format!(in alloc; "ERR value is longer than {most} bytes")
}

// The error of a number of words that a command does not take.
fn count_error(alloc: Global, name: CommandName) -> Result<String, AllocError>
    ensures { IfOk result (λ text. string_bytes text ≡ command_fault_text (CommandFault.WrongCount name)) }
{
    let name = name.row().name;
    format!(in alloc; "ERR wrong number of arguments for '{name}' command")
}

// Appends the error of a command that is not done.
fn push_fault(alloc: Global, out: &mut Vec<u8>, fault: CommandFault) -> Result<(), AllocError>
    ensures { OnOk result (out.new.items ≡ out.old.items ++ error_text (command_fault_text fault)) }
{
    match fault {
        CommandFault::LongKey => push_error(out, "ERR key is longer than 8000 bytes"),
        CommandFault::LongValue(most) => {
            let text = value_error(alloc, most)?;
            push_error(out, &text)
        }
        CommandFault::ManyKeys => push_error(out, "ERR too many keys"),
        CommandFault::ManyWords => push_error(out, "ERR too many words"),
        CommandFault::ManyBytes => push_error(out, "ERR command is longer than 262144 bytes"),
        CommandFault::WrongCount(name) => {
            let text = count_error(alloc, name)?;
            push_error(out, &text)
        }
        CommandFault::BadSyntax => push_error(out, "ERR syntax error"),
        CommandFault::BadIndex => push_error(out, "ERR DB index is out of range"),
        CommandFault::BadSubcommand => push_error(out, BAD_SUBCOMMAND),
        CommandFault::NoCluster => push_error(out, NO_CLUSTER),
        CommandFault::NotLetIn => push_error(out, "NOAUTH Authentication required."),
        CommandFault::NoPassword => push_error(out, NO_PASSWORD),
        CommandFault::WrongPassword => push_error(out, WRONG_PASSWORD),
        CommandFault::OtherProtocol => push_error(out, "NOPROTO unsupported protocol version"),
        CommandFault::NoMemory => push_error(out, "ERR out of memory"),
    }
}

// Appends an error.
fn push_error(out: &mut Vec<u8>, text: &str) -> Result<(), AllocError>
    ensures { OnOk result (out.new.items ≡ out.old.items ++ error_text text.now) }
{
    push_line(out, b'-', text.as_bytes())
}

// The error of a command that is not done.
fn refused(alloc: Global, fault: CommandFault) -> Result<Asked, AllocError>
    ensures { IfOk result (λ asked. asked_seen asked ≡ told (Err fault)) }
{
    let mut out = Vec::new(alloc);
    push_fault(alloc, &mut out, fault)?;
    Ok(Asked::Text(out))
}

// What a command asks for. A fault is told, unless memory ran out.
fn told(alloc: Global, made: Result<Asked, CommandFault>) -> Result<Asked, AllocError>
    ensures asked { (due : Result AskedOf CommandFaultOf) → Gives asked_seen due made → IfOk result (λ asked. asked_seen asked ≡ told due) }
    ensures fits { (len : ℕ) → IfOk made (λ asked. FitsValues len (asked_seen asked)) → IfOk result (λ asked. FitsValues len (asked_seen asked)) }
{
    match made {
        Ok(asked) => Ok(asked),
        Err(CommandFault::NoMemory) => Err(AllocError),
        Err(fault) => refused(alloc, fault),
    }
}

// Appends the first bytes of a command's name, as far as they can be shown.
fn push_name(out: &mut Vec<u8>, name: &[u8]) -> Result<(), AllocError>
    ensures { OnOk result (out.new.items ≡ out.old.items ++ map shown_byte (take 32 name.now)) }
{
    let (shown, _) = name.split_at(name.len().min(SHOWN));
    for byte in shown {
        out.push(shown_byte(*byte))?;
    }
    Ok(())
}

// A byte that is shown.
fn shown_byte(byte: u8) -> u8
    ensures { result ≡ shown_byte byte }
{
    if byte.is_ascii_graphic() { byte } else { b'?' }
}

// Appends the first bytes of the first word.
fn push_shown(out: &mut Vec<u8>, words: &Words<'_>) -> Result<(), AllocError>
    ensures { OnOk result (out.new.items ≡ out.old.items ++ shown_name words.now) }
{
    match words.get(0) {
        Some(Word::Whole(name)) => push_name(out, name),
        _ => Ok(()),
    }
}

// Appends the error of a command that is not known.
fn push_unknown(out: &mut Vec<u8>, words: &Words<'_>) -> Result<(), AllocError>
    ensures { OnOk result (out.new.items ≡ out.old.items ++ unknown_text words.now) }
{
    out.extend_from_slice(b"-ERR unknown command '")?;
    push_shown(out, words)?;
    out.extend_from_slice(b"'\r\n")?;
    Ok(())
}

// The error of a command that is not known.
fn unknown(alloc: Global, words: &Words<'_>) -> Result<Asked, AllocError>
    ensures { IfOk result (λ asked. asked_seen asked ≡ says (unknown_text words.now)) }
{
    let mut out = Vec::new(alloc);
    push_unknown(&mut out, words)?;
    Ok(Asked::Text(out))
}

// What the words of a command ask for.
fn words_asked(
    alloc: Global,
    settings: &Settings,
    visitor: Visitor,
    words: &Words<'_>,
) -> Result<Asked, AllocError>
    ensures asked { IfOk result (λ asked. asked_seen asked ≡ words_asked settings.now visitor (first_command words.now) words.now) }
    ensures fits { IfOk result (λ asked. FitsValues settings.now.value_len (asked_seen asked)) }
{
    match CommandName::of(words) {
        Some(name) => {
            let args = words.rest();
            told(alloc, checked(alloc, settings, visitor, name, &args))
        }
        None => {
            if visitor.is_let_in {
                unknown(alloc, words)
            } else {
                refused(alloc, CommandFault::NotLetIn)
            }
        }
    }
}

// The error of a command that is not kept.
fn unkept(alloc: Global, visitor: Visitor, fault: CommandFault) -> Result<Asked, AllocError>
    ensures { IfOk result (λ asked. asked_seen asked ≡ unkept visitor fault) }
{
    if visitor.is_let_in {
        refused(alloc, fault)
    } else {
        refused(alloc, CommandFault::NotLetIn)
    }
}

// The error of bytes that begin no command.
fn broken(alloc: Global, fault: ProtocolFault) -> Result<Asked, AllocError>
    ensures { IfOk result (λ asked. asked_seen asked ≡ says (broken_text fault)) }
{
    let fault = fault.text();
    let text = format!(in alloc; "ERR Protocol error: {fault}")?;
    line(alloc, b'-', text.as_bytes())
}

/// What a command asks for: events whose values have the length of the store's values, and the form of their one reply; or a
/// reply that needs no store. A command that is not done asks for its error.
pub fn asked_for(
    alloc: Global,
    settings: &Settings,
    visitor: Visitor,
    command: &Command<'_>,
) -> Result<Asked, AllocError>
    ensures asked { IfOk result (λ asked. asked_seen asked ≡ asked_for settings.now visitor (command_seen command.now)) }
    ensures fits { IfOk result (λ asked. FitsValues settings.now.value_len (asked_seen asked)) }
{
    match command {
        Command::Complete(words) => words_asked(alloc, settings, visitor, words),
        Command::ManyWords => unkept(alloc, visitor, CommandFault::ManyWords),
        Command::ManyBytes => unkept(alloc, visitor, CommandFault::ManyBytes),
        Command::Broken(fault) => broken(alloc, *fault),
    }
}

// Whether a command lets a visitor in.
fn lets_in(settings: &Settings, visitor: Visitor, words: &Words<'_>) -> bool
    ensures { result ≡ lets_in settings.now visitor (first_command words.now) (drop 1 words.now) }
{
    let args = words.rest();
    match CommandName::of(words) {
        Some(CommandName::Auth) => auth_verdict(settings, &args).is_ok(),
        Some(CommandName::Hello) => hello_verdict(settings, visitor, &args).is_ok(),
        _ => false,
    }
}

/// The visitor after a command: only the password lets in.
pub fn visitor_after(settings: &Settings, visitor: Visitor, command: &Command<'_>) -> Visitor
    ensures { result ≡ visitor_after settings.now visitor (command_seen command.now) }
{
    match command {
        Command::Complete(words) => Visitor {
            id: visitor.id,
            is_let_in: visitor.is_let_in || lets_in(settings, visitor, words),
        },
        _ => visitor,
    }
}
