// The commands, as clap is given them: each as its form says.
ghost use Rattle.std.specs.Prelude.{◌≡◌, IfOk, IsOkAnd, false};
ghost use Rattle.clap.specs.Words.{app_of, rule_of};
ghost use Rattle.silt_words.specs.Commands.{flag_rule, option_rule, silt, value_rule};
ghost use Rattle.silt_words.specs.Forms.{Adds, Stands, choice_rule, form_app, with_choices, with_forms, with_names};

use crate::forms::{Choice, FORMS, Form};
use clap::{Arg, ArgAction, Command};
use std::alloc::{AllocError, Global};

// A command as made so far, or the first allocation failure.
type Made<'a> = Result<Command<'a>, AllocError>;

// A value that has to be given.
fn value<'a>(alloc: Global, name: &'a str) -> Arg<'a>
    ensures rule { rule_of result ≡ value_rule name.entry.now }
    ensures local { result.global ≡ false }
{
    Arg::new(alloc, name).required(true).action(ArgAction::Set)
}

// An option with a value, by its long name.
fn option<'a>(alloc: Global, name: &'a str) -> Arg<'a>
    ensures rule { rule_of result ≡ option_rule name.entry.now }
    ensures local { result.global ≡ false }
{
    Arg::new(alloc, name).long(name).action(ArgAction::Set)
}

// An option without a value, by its long name.
fn flag<'a>(alloc: Global, name: &'a str) -> Arg<'a>
    ensures rule { rule_of result ≡ flag_rule name.entry.now }
    ensures local { result.global ≡ false }
{
    Arg::new(alloc, name).long(name).action(ArgAction::SetTrue)
}

// An option of a form.
fn choice<'a>(alloc: Global, choice: &Choice) -> Arg<'a>
    ensures rule { rule_of result ≡ choice_rule choice.now }
    ensures local { result.global ≡ false }
{
    match choice.operand {
        Some(_) => option(alloc, choice.name),
        None => flag(alloc, choice.name),
    }
}

// What was made so far, with a value of each of these names.
fn add_values<'a>(made: Made<'a>, alloc: Global, names: &[&'static str]) -> Made<'a>
    ensures { Adds (λ app. with_names app names.now) made.entry result }
{
    match names.split_first() {
        Some((name, others)) => {
            let added = made?.arg(value(alloc, name));
            add_values(added, alloc, others)
        }
        None => made,
    }
}

// What was made so far, with these options.
fn add_choices<'a>(made: Made<'a>, alloc: Global, choices: &[Choice]) -> Made<'a>
    ensures { Adds (λ app. with_choices app choices.now) made.entry result }
{
    match choices.split_first() {
        Some((first, others)) => {
            let added = made?.arg(choice(alloc, first));
            add_choices(added, alloc, others)
        }
        None => made,
    }
}

// The command of a job.
fn command_of<'a>(alloc: Global, form: &Form) -> Made<'a>
    ensures { IfOk result (Stands (form_app form.now)) }
{
    let with_values = add_values(Ok(Command::new(alloc, form.job)), alloc, form.values);
    add_choices(with_values, alloc, form.options)
}

// A command with those of these jobs below it.
fn add_commands<'a>(command: Command<'a>, alloc: Global, forms: &[Form]) -> Made<'a>
    ensures { IfOk result (λ new. app_of new ≡ with_forms (app_of command.entry) forms.now) }
{
    match forms.split_first() {
        Some((form, others)) => {
            let added = command.subcommand(command_of(alloc, form)?)?;
            add_commands(added, alloc, others)
        }
        None => Ok(command),
    }
}

/// The program's commands with their values.
pub fn command<'a>(alloc: Global) -> Made<'a>
    ensures { IfOk result (λ made. app_of made ≡ silt) }
{
    add_commands(Command::new(alloc, "silt"), alloc, FORMS.as_slice())
}
