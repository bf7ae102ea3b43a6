// What is wrong with words that name no job, and what people are shown then.

use crate::address::{is_address, is_contact, is_loopback};
use crate::backup::is_draft;
use crate::forms::{Form, Forms, MOST_OPTIONS, Operand, form_of};
use crate::words::{FEWEST_SHARDS, MOST_CLIENTS, MOST_SCRUB, MOST_SCRUB_RATE, MOST_SHARDS};
use silt_wire::number_of;
use std::fmt;

/// The version of the program.
pub const VERSION: &str = "0.1.0";

/// What is wrong with words that name no job.
#[derive(Clone, Copy, Debug)]
pub enum Complaint<'a> {
    /// There is no word for a job.
    NoJob,
    /// The first word is no job.
    UnknownJob(&'a str),
    /// There is no word for this value.
    Missing(&'a str),
    /// This word comes after the last value.
    TooMany(&'a str),
    /// There is no such option, or no option is allowed here.
    UnknownOption(&'a str),
    /// What has to follow this option is missing.
    Lacks {
        name: &'static str,
        operand: Operand,
    },
    /// This option is given a second time.
    Twice(&'static str),
    /// This option is given without that one.
    Needs {
        name: &'static str,
        other: &'static str,
    },
    /// Other machines reach this address, and no password is asked for.
    Unguarded(&'a str),
    /// A record is asked for, and a set has none.
    RecordOfSet,
    /// Backups would be written to the file of the store.
    BackupInStore {
        path: &'a str,
        why: &'static str,
    },
    /// The word for this value is none: no number, one that is too great, or no address.
    NoValue {
        name: &'static str,
        word: &'a str,
    },
    /// The word behind this option is not what follows it.
    NoOperand {
        name: &'static str,
        word: &'a str,
    },
}

impl fmt::Display for Complaint<'_> {
    fn fmt<W: fmt::Write>(&self, f: &mut fmt::Formatter<W>) -> fmt::Result {
        match self {
            Complaint::NoJob => f.write_str("no job is named"),
            Complaint::UnknownJob(word) => write!(f, "there is no job '{word}'"),
            Complaint::Missing(name) => write!(f, "{name} is missing"),
            Complaint::TooMany(word) => write!(f, "'{word}' is one word too many"),
            Complaint::UnknownOption(word) => write!(f, "'{word}' is no option here"),
            Complaint::Lacks { name, operand } => write!(f, "--{name} needs {operand} behind it"),
            Complaint::Twice(name) => write!(f, "--{name} is given twice"),
            Complaint::Needs { name, other } => write!(f, "--{name} needs --{other}"),
            Complaint::Unguarded(address) => write!(
                f,
                "--bind {address} needs --password-file: other machines reach this address"
            ),
            Complaint::RecordOfSet => {
                f.write_str("--audit is not for --shards: a record is a history of one store")
            }
            Complaint::BackupInStore { path, why } => {
                write!(f, "--backup cannot be '{path}': {why}")
            }
            Complaint::NoValue { name, word } => {
                write!(f, "{name} cannot be '{word}': {}", why_no_value(name, word))
            }
            Complaint::NoOperand { name, word } => {
                write!(
                    f,
                    "--{name} cannot be '{word}': {}",
                    why_no_value(name, word)
                )
            }
        }
    }
}

// Why a word cannot be the value of this name, or follow the option of this name.
fn why_no_value(name: &str, word: &str) -> &'static str {
    if name == "bind" {
        return "an address is written in digits, as 10.0.0.1";
    }
    if name == "ADDRESS" {
        return "it is a port, or an IP address and a port, as 10.0.0.1:7379 or [::1]:7379";
    }
    if name == "backup" {
        return "a file has a name";
    }
    why_no_number(name, word)
}

// Why a word cannot be the number of this name.
fn why_no_number(name: &str, word: &str) -> &'static str {
    if !word.is_empty() && word.bytes().all(|byte| byte.is_ascii_digit()) {
        return why_out_of_limits(name, word);
    }
    if !word.is_empty() && word.bytes().all(is_digit_or_separator) {
        return "a number is written without separators";
    }
    "a number is written in digits alone"
}

// Which limits of this name a number exceeds.
fn why_out_of_limits(name: &str, word: &str) -> &'static str {
    match name {
        "PORT" | "metrics" => "a port is at most 65535",
        "shards" => "a set has 2 to 64 shards",
        "clients" => "a server has 1 to 1024 clients at once",
        "scrub" => "a store is scrubbed each 1 to 8760 hours",
        "scrub-rate" => "a scrub reads 1 to 10000 megabytes a second",
        "merge-at" if number_of(word.as_bytes()) == Some(0) => {
            "a merge is of at least one hash store"
        }
        "mergers" if number_of(word.as_bytes()) == Some(0) => {
            "at least one shard is merged at a time"
        }
        "merge-writes" if number_of(word.as_bytes()) == Some(0) => {
            "it is at least one entry for each row"
        }
        _ => "a number has at most ten digits, and is at most 4294967295",
    }
}

// Whether a byte is a digit, or divides digits in a number that people write.
fn is_digit_or_separator(byte: u8) -> bool {
    byte.is_ascii_digit() || matches!(byte, b'_' | b',' | b'.' | b'\'')
}

/// Whether the words ask for the version. The first word is the program's own.
pub fn asks_version(words: &[String]) -> bool {
    let word = words.get(1).map(String::as_str);
    matches!(word, Some("--version" | "-V"))
}

/// The forms to show for words that name no job: those of the job that they name, if they name one, and else all. The
/// first word is the program's own.
pub fn forms_for(words: &[String]) -> Forms {
    let Some(form) = words.get(1).and_then(|job| form_of(job)) else {
        return Forms::All;
    };
    if asks_help(words) {
        Forms::Help(form)
    } else {
        Forms::Of(form)
    }
}

/// The first fault of the words. The first word is the program's own. There is no fault if they ask for help or for the
/// version.
pub fn complaint_of(words: &[String]) -> Option<Complaint<'_>> {
    let Some(job) = words.get(1) else {
        return Some(Complaint::NoJob);
    };
    if matches!(job.as_str(), "--version" | "-V" | "help") || asks_help(words) {
        return None;
    }
    match form_of(job) {
        Some(form) => form_complaint(form, words),
        None => Some(Complaint::UnknownJob(job)),
    }
}

// Whether one of the words before the first word `--` asks for help.
fn asks_help(words: &[String]) -> bool {
    for word in words.iter().skip(1) {
        match word.as_str() {
            "--help" | "-h" => return true,
            "--" => return false,
            _ => {}
        }
    }
    false
}

// What is wrong with the words after the job's, which must have this form.
fn form_complaint(form: Form, words: &[String]) -> Option<Complaint<'_>> {
    let mut walk = Walk::new(form);
    for word in words.iter().skip(2) {
        if let Some(complaint) = walk.take(word) {
            return Some(complaint);
        }
    }
    walk.missing()
}

/// A walk over the words after a job's.
#[derive(Drop)]
struct Walk<'a> {
    form: Form,
    /// How many values were met.
    place: usize,
    /// The option whose operand is the next word, and what that is.
    awaited: Option<(&'static str, Operand)>,
    /// Which options of the form were met.
    met: [bool; MOST_OPTIONS],
    /// Whether the word `--` was met. After it every word is a value.
    is_past_options: bool,
    /// The address to listen on that other machines reach, if one was met.
    open_address: Option<&'a str>,
    /// The file of the store, if it was met.
    file: Option<&'a str>,
    /// Where backups are to be written, if that was met.
    backup: Option<&'a str>,
}

impl<'a> Walk<'a> {
    fn new(form: Form) -> Walk<'a> {
        Walk {
            form,
            place: 0,
            awaited: None,
            met: [false; MOST_OPTIONS],
            is_past_options: false,
            open_address: None,
            file: None,
            backup: None,
        }
    }

    // What is wrong with the next word.
    fn take(&mut self, word: &'a str) -> Option<Complaint<'a>> {
        let is_option = word.len() > 1 && word.starts_with('-');
        match self.awaited.take() {
            Some((name, operand)) if is_option => Some(Complaint::Lacks { name, operand }),
            Some((name, _)) => self.take_operand(name, word),
            None if is_option && !self.is_past_options => self.take_option(word),
            None => self.take_value(word),
        }
    }

    fn take_operand(&mut self, name: &'static str, word: &'a str) -> Option<Complaint<'a>> {
        if name == "bind" && !is_loopback(word) {
            self.open_address = Some(word);
        }
        if name == "backup" {
            self.backup = Some(word);
        }
        if is_value(name, word) {
            return None;
        }
        Some(Complaint::NoOperand { name, word })
    }

    fn take_value(&mut self, word: &'a str) -> Option<Complaint<'a>> {
        let Some(&name) = self.form.values.get(self.place) else {
            return Some(Complaint::TooMany(word));
        };
        self.place += 1;
        if name == "FILE" {
            self.file = Some(word);
        }
        if is_value(name, word) {
            return None;
        }
        Some(Complaint::NoValue { name, word })
    }

    fn take_option(&mut self, word: &'a str) -> Option<Complaint<'a>> {
        if word == "--" {
            self.is_past_options = true;
            return None;
        }
        let (name, operand) = match word.split_once('=') {
            Some((name, operand)) => (name, Some(operand)),
            None => (word, None),
        };
        let name = name.strip_prefix("--");
        for (option, met) in self.form.options.iter().zip(self.met.iter_mut()) {
            if name != Some(option.name) {
                continue;
            }
            if *met {
                return Some(Complaint::Twice(option.name));
            }
            *met = true;
            return match (option.operand, operand) {
                (Some(_), Some(operand)) => self.take_operand(option.name, operand),
                (None, Some(_)) => Some(Complaint::UnknownOption(word)),
                (Some(what), None) => {
                    self.awaited = Some((option.name, what));
                    None
                }
                (None, None) => None,
            };
        }
        Some(Complaint::UnknownOption(word))
    }

    // What is missing after the last word.
    fn missing(&self) -> Option<Complaint<'a>> {
        if let Some((name, operand)) = self.awaited {
            return Some(Complaint::Lacks { name, operand });
        }
        match self.form.values.get(self.place) {
            Some(name) => Some(Complaint::Missing(*name)),
            None => self.lacking(),
        }
    }

    // Which option was met without the one that it needs.
    fn lacking(&self) -> Option<Complaint<'a>> {
        for (option, met) in self.form.options.iter().zip(self.met.iter()) {
            if let Some(other) = option.needs
                && *met
                && !self.has_met(other)
            {
                return Some(Complaint::Needs {
                    name: option.name,
                    other,
                });
            }
        }
        match self.open_address {
            Some(address) if !self.has_met("password-file") => {
                Some(Complaint::Unguarded(address))
            }
            _ => self.record_of_set(),
        }
    }

    // That a record is asked for, and a set has none.
    fn record_of_set(&self) -> Option<Complaint<'a>> {
        if self.has_met("audit") && self.has_met("shards") {
            return Some(Complaint::RecordOfSet);
        }
        self.backup_in_store()
    }

    // That backups would be written to the file of the store.
    fn backup_in_store(&self) -> Option<Complaint<'a>> {
        let (Some(file), Some(path)) = (self.file, self.backup) else {
            return None;
        };
        let why = if path == file {
            "a backup is another file than the store's"
        } else if is_draft(file, path) {
            "a backup is written to PATH.new first, and that is the store's file"
        } else {
            return None;
        };
        Some(Complaint::BackupInStore { path, why })
    }

    // Whether the option of this name was met.
    fn has_met(&self, name: &str) -> bool {
        self.form
            .options
            .iter()
            .zip(self.met.iter())
            .any(|(option, met)| *met && option.name == name)
    }
}

// Whether a word may be the value of this name, or follow the option of this name.
fn is_value(name: &str, word: &str) -> bool {
    match name {
        "FILE" | "password-file" => true,
        "bind" => is_address(word),
        "backup" => !word.is_empty(),
        "ADDRESS" => is_contact(word),
        _ => number_of(word.as_bytes()).is_some_and(|number| is_number(name, number)),
    }
}

// Whether a number may be the value of this name.
fn is_number(name: &str, number: u32) -> bool {
    match name {
        "PORT" | "metrics" => number <= 65_535,
        "shards" => FEWEST_SHARDS <= number && number <= MOST_SHARDS,
        "clients" => 0 < number && number <= MOST_CLIENTS,
        "scrub" => 0 < number && number <= MOST_SCRUB,
        "scrub-rate" => 0 < number && number <= MOST_SCRUB_RATE,
        "merge-at" | "mergers" | "merge-writes" => 0 < number,
        _ => true,
    }
}
