// Commands that need no store.
ghost use Rattle.std.specs.Prelude.{◌≡◌, ◌++◌, IfOk, Ok, OnOk, length, slice_get};
ghost use Rattle.std.specs.Option.{option_map};
ghost use Rattle.std.specs.Str.{bytes_eq};
ghost use Rattle.sha1.specs.Sha1.{sha1};
ghost use Rattle.silt_resp.specs.Arguments.{Gives};
ghost use Rattle.silt_resp.specs.Commands.{FitsValues, auth_made, auth_verdict, backup_made, client_made, command_made, config_made, echoed, has_login, has_no_login, has_version};
ghost use Rattle.silt_resp.specs.Commands.{hello_made, hello_text, hello_verdict, is_subcommand, pair_text, parameters, password_verdict, ping_made};
ghost use Rattle.silt_resp.specs.Commands.{says, select_made, shutdown_made, takes_backup, takes_shutdown, user_verdict};
ghost use Rattle.silt_resp.specs.Seen.{asked_seen, word_seen};
ghost use Rattle.silt_resp.specs.Texts.{number_text, ok_text};

use crate::arguments::has_word;
use crate::asked::{Asked, Tail, line};
use crate::command::{Word, Words};
use crate::fault::CommandFault;
use crate::settings::{Settings, Visitor};
use crate::texts::{push_line, push_number, push_string};
use crate::words::LONGEST_WORD;
use sha1::Sha1;
use std::alloc::{AllocError, Global};

/// What a greeting is told before the number of the client.
const GREETING: &[u8] =
    b"*14\r\n$6\r\nserver\r\n$5\r\nredis\r\n$7\r\nversion\r\n$5\r\n7.0.0\r\n$5\r\nproto\r\n:2\r\n$2\r\nid\r\n";

/// And what behind it.
const GREETING_END: &[u8] =
    b"$4\r\nmode\r\n$10\r\nstandalone\r\n$4\r\nrole\r\n$6\r\nmaster\r\n$7\r\nmodules\r\n*0\r\n";

// That it is done.
pub(crate) fn ok(alloc: Global) -> Result<Asked, CommandFault>
    ensures { Gives asked_seen (Ok (says ok_text)) result }
{
    let asked = line(alloc, b'+', b"OK")?;
    Ok(asked)
}

/// The word with this number, as a string.
pub(crate) fn echo(alloc: Global, args: &Words<'_>) -> Result<Asked, CommandFault>
    ensures { Gives asked_seen (echoed (slice_get args.now 0)) result }
{
    match args.get(0) {
        Some(Word::Whole(string)) => {
            let mut out = Vec::new(alloc);
            push_string(alloc, &mut out, string)?;
            Ok(Asked::Text(out))
        }
        Some(Word::Long) => Err(CommandFault::LongValue(LONGEST_WORD)),
        None => Err(CommandFault::BadSyntax),
    }
}

/// `PONG`, or the word behind the name.
pub(crate) fn ping(alloc: Global, args: &Words<'_>) -> Result<Asked, CommandFault>
    ensures { Gives asked_seen (ping_made args.now) result }
{
    if args.len() == 0 {
        let asked = line(alloc, b'+', b"PONG")?;
        return Ok(asked);
    }
    echo(alloc, args)
}

/// There is one database.
pub(crate) fn select(alloc: Global, args: &Words<'_>) -> Result<Asked, CommandFault>
    ensures { Gives asked_seen (select_made args.now) result }
{
    if has_word(args, 0, b"0") {
        return ok(alloc);
    }
    Err(CommandFault::BadIndex)
}

// Whether a password has this digest.
fn has_digest(password: &[u8], digest: &[u8; 20]) -> bool
    ensures { result ≡ bytes_eq (sha1 password.now) digest.now }
{
    Sha1::digest(password).as_slice() == digest.as_slice()
}

// Whether this password lets in.
fn password_verdict(settings: &Settings, word: Option<Word<'_>>) -> Result<(), CommandFault>
    ensures { result ≡ password_verdict settings.now.password (option_map word_seen word.entry) }
{
    let Some(digest) = settings.password else {
        return Err(CommandFault::NoPassword);
    };
    match word {
        Some(Word::Whole(password)) => {
            if has_digest(password, &digest) {
                return Ok(());
            }
            Err(CommandFault::WrongPassword)
        }
        _ => Err(CommandFault::WrongPassword),
    }
}

// Whether the user and the password with these numbers let in. There is only one user.
fn user_verdict(
    settings: &Settings,
    args: &Words<'_>,
    user: usize,
    password: usize,
) -> Result<(), CommandFault>
    ensures { result ≡ user_verdict settings.now args.now user password }
{
    if has_word(args, user, b"default") {
        return password_verdict(settings, args.get(password));
    }
    password_verdict(settings, None)
}

/// Whether the words behind `AUTH` let in.
pub(crate) fn auth_verdict(settings: &Settings, args: &Words<'_>) -> Result<(), CommandFault>
    ensures { result ≡ auth_verdict settings.now args.now }
{
    match args.len() {
        1 => password_verdict(settings, args.get(0)),
        2 => user_verdict(settings, args, 0, 1),
        _ => Err(CommandFault::BadSyntax),
    }
}

/// Whether the password lets in.
pub(crate) fn auth(
    alloc: Global,
    settings: &Settings,
    args: &Words<'_>,
) -> Result<Asked, CommandFault>
    ensures { Gives asked_seen (auth_made settings.now args.now) result }
{
    auth_verdict(settings, args)?;
    ok(alloc)
}

// Whether a greeting has a user and a password.
fn has_login(args: &Words<'_>) -> bool
    ensures { result ≡ has_login args.now }
{
    if !has_word(args, 1, b"auth") {
        return false;
    }
    match args.len() {
        4 => true,
        6 => has_word(args, 4, b"setname"),
        _ => false,
    }
}

// Whether a greeting has at most a version and a name.
fn has_no_login(args: &Words<'_>) -> bool
    ensures { result ≡ has_no_login args.now }
{
    match args.len() {
        0 | 1 => true,
        3 => has_word(args, 1, b"setname"),
        _ => false,
    }
}

// Whether a greeting asks for this version of the protocol.
fn has_version(args: &Words<'_>) -> bool
    ensures { result ≡ has_version args.now }
{
    args.len() == 0 || has_word(args, 0, b"2")
}

/// Whether a greeting is answered.
pub(crate) fn hello_verdict(
    settings: &Settings,
    visitor: Visitor,
    args: &Words<'_>,
) -> Result<(), CommandFault>
    ensures { result ≡ hello_verdict settings.now visitor args.now }
{
    if !has_version(args) {
        return Err(CommandFault::OtherProtocol);
    }
    if has_login(args) {
        return user_verdict(settings, args, 2, 3);
    }
    if !has_no_login(args) {
        return Err(CommandFault::BadSyntax);
    }
    if visitor.is_let_in {
        Ok(())
    } else {
        Err(CommandFault::NotLetIn)
    }
}

// Appends what a greeting is told.
fn push_hello(alloc: Global, out: &mut Vec<u8>, id: u32) -> Result<(), AllocError>
    ensures { OnOk result (out.new.items ≡ out.old.items ++ hello_text id) }
{
    out.extend_from_slice(GREETING)?;
    push_number(alloc, out, b':', id as usize)?;
    out.extend_from_slice(GREETING_END)?;
    Ok(())
}

/// What a greeting is told.
pub(crate) fn hello(
    alloc: Global,
    settings: &Settings,
    visitor: Visitor,
    args: &Words<'_>,
) -> Result<Asked, CommandFault>
    ensures asked { Gives asked_seen (hello_made settings.now visitor args.now) result }
    ensures fits { IfOk result (λ asked. FitsValues settings.now.value_len (asked_seen asked)) }
{
    hello_verdict(settings, visitor, args)?;
    let mut out = Vec::new(alloc);
    push_hello(alloc, &mut out, visitor.id)?;
    Ok(Asked::Text(out))
}

// Whether the words are this subcommand and what follows it, so many words together.
fn is_subcommand(args: &Words<'_>, text: &[u8], count: usize) -> bool
    ensures { result ≡ is_subcommand args.now text.now count }
{
    args.len() == count && has_word(args, 0, text)
}

/// The number of the client, and its name, which is not kept.
pub(crate) fn client(
    alloc: Global,
    visitor: Visitor,
    args: &Words<'_>,
) -> Result<Asked, CommandFault>
    ensures { Gives asked_seen (client_made visitor args.now) result }
{
    if is_subcommand(args, b"setname", 2) {
        return ok(alloc);
    }
    if is_subcommand(args, b"setinfo", 3) {
        return ok(alloc);
    }
    if is_subcommand(args, b"id", 1) {
        return number(alloc, visitor.id as usize);
    }
    if is_subcommand(args, b"getname", 1) {
        let asked = line(alloc, b'$', b"-1")?;
        return Ok(asked);
    }
    Err(CommandFault::BadSubcommand)
}

// A number.
fn number(alloc: Global, number: usize) -> Result<Asked, CommandFault>
    ensures { Gives asked_seen (Ok (says (number_text number))) result }
{
    let mut out = Vec::new(alloc);
    push_number(alloc, &mut out, b':', number)?;
    Ok(Asked::Text(out))
}

/// No descriptions of commands.
pub(crate) fn command(alloc: Global, args: &Words<'_>) -> Result<Asked, CommandFault>
    ensures { Gives asked_seen (command_made args.now) result }
{
    if args.len() == 0 {
        let asked = line(alloc, b'*', b"0")?;
        return Ok(asked);
    }
    Err(CommandFault::BadSubcommand)
}

// Appends a parameter's name and its value.
fn push_pair(
    alloc: Global,
    out: &mut Vec<u8>,
    parameter: &[u8],
    value: &[u8],
) -> Result<(), AllocError>
    ensures { OnOk result (out.new.items ≡ out.old.items ++ pair_text parameter.now value.now) }
{
    push_line(out, b'*', b"2")?;
    push_string(alloc, out, parameter)?;
    push_string(alloc, out, value)
}

// Appends the parameter that is asked for.
fn push_parameters(alloc: Global, out: &mut Vec<u8>, args: &Words<'_>) -> Result<(), AllocError>
    ensures { OnOk result (out.new.items ≡ out.old.items ++ parameters args.now) }
{
    if has_word(args, 1, b"save") {
        return push_pair(alloc, out, b"save", b"");
    }
    if has_word(args, 1, b"appendonly") {
        return push_pair(alloc, out, b"appendonly", b"yes");
    }
    push_line(out, b'*', b"0")
}

/// The parameters that clients ask for.
pub(crate) fn config(alloc: Global, args: &Words<'_>) -> Result<Asked, CommandFault>
    ensures { Gives asked_seen (config_made args.now) result }
{
    if !is_subcommand(args, b"get", 2) {
        return Err(CommandFault::BadSubcommand);
    }
    let mut out = Vec::new(alloc);
    push_parameters(alloc, &mut out, args)?;
    Ok(Asked::Text(out))
}

// Whether these words may follow `SHUTDOWN`. None of them changes what it does.
fn takes_shutdown(args: &Words<'_>) -> bool
    ensures { result ≡ takes_shutdown args.now }
{
    match args.len() {
        0 => true,
        1 => {
            has_word(args, 0, b"save")
                || has_word(args, 0, b"nosave")
                || has_word(args, 0, b"now")
                || has_word(args, 0, b"force")
        }
        _ => false,
    }
}

/// That the server ends.
pub(crate) fn shutdown(args: &Words<'_>) -> Result<Asked, CommandFault>
    ensures { Gives asked_seen (shutdown_made args.now) result }
{
    if takes_shutdown(args) {
        return Ok(Asked::Admin(Tail::Shutdown));
    }
    Err(CommandFault::BadSyntax)
}

// Whether these words may follow `BGSAVE`.
fn takes_backup(args: &Words<'_>) -> bool
    ensures { result ≡ takes_backup args.now }
{
    match args.len() {
        0 => true,
        1 => has_word(args, 0, b"schedule"),
        _ => false,
    }
}

/// That the server writes a backup.
pub(crate) fn backup(args: &Words<'_>) -> Result<Asked, CommandFault>
    ensures { Gives asked_seen (backup_made args.now) result }
{
    if takes_backup(args) {
        return Ok(Asked::Admin(Tail::Backup));
    }
    Err(CommandFault::BadSyntax)
}
