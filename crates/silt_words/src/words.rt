// The words of the command line.
ghost use Rattle.std.specs.Prelude.{◌≡◌, Some, None, MatchResult, codes, map, option_map, string_bytes};
ghost use Rattle.clap.specs.Words.{first_of, found_of, rows_of, subcommand_rows_of};
ghost use Rattle.silt_words.specs.Commands.{access_in, address_given, clients_in, contact_given, contact_in, count_in, count_within, file_in, flag_in, format_options_in, job_in, job_met, job_named};
ghost use Rattle.silt_words.specs.Commands.{audit_in, check_in, dump_in, format_in, plan_in, run_in, shards_in, tend_in};
ghost use Rattle.silt_words.specs.Commands.{limit_in, may_listen, mergers_in, number_in, numbers_in, option_in, port_in, request_in, run_options_in, service_in};
ghost use Rattle.silt_words.specs.Commands.{backup_given, backup_in, metrics_in, scrub_in, scrub_rate_in};
ghost use Rattle.silt_words.specs.Jobs.{named, named_access, named_contact, named_service, on_set};
ghost use Rattle.silt_words.specs.declared.job.WordsError.TheVariants.{Usage};

use crate::address::{is_address, is_contact, is_loopback};
use crate::backup::may_hold_backup;
use crate::command::command;
use crate::job::{
    Access, Contact, FormatOptions, Job, Numbers, PlanRequest, RunOptions, Service, SetJob,
    SetWork, WordsError,
};
use clap::ArgMatches;
use clap::error::ErrorKind;
use silt_wire::number_of;
use std::alloc::Global;

/// The most clients that a server has at once.
pub const MOST_CLIENTS: u32 = 1024;

/// The most hours between two scrubs: a year.
pub const MOST_SCRUB: u32 = 8760;

/// The most megabytes a second that a scrub reads.
pub const MOST_SCRUB_RATE: u32 = 10_000;

/// The fewest and the most shards of a set.
pub const FEWEST_SHARDS: u32 = 2;

pub const MOST_SHARDS: u32 = 64;

fn number_at(matches: &ArgMatches<'_>, name: &str) -> Option<u32>
    ensures { result ≡ number_in (rows_of (found_of matches.now)) name.now }
{
    number_of(matches.get_str(name)?.as_bytes())
}

fn numbers_of(matches: &ArgMatches<'_>) -> Option<Numbers>
    ensures { result ≡ numbers_in (rows_of (found_of matches.now)) }
{
    Some(Numbers {
        value_len: number_at(matches, "V")?,
        buckets: number_at(matches, "B")?,
        log_capacity: number_at(matches, "CAP")?,
        logs: number_at(matches, "NL")?,
        hashes: number_at(matches, "NH")?,
        sorted_capacity: number_at(matches, "S")?,
    })
}

fn file_of<'a>(matches: &ArgMatches<'a>) -> Option<&'a str>
    ensures { option_map (λ file. file.now) result ≡ file_in (rows_of (found_of matches.now)) }
{
    matches.get_str("FILE")
}

fn port_of(matches: &ArgMatches<'_>) -> Option<u16>
    ensures { result ≡ port_in (rows_of (found_of matches.now)) }
{
    u16::try_from(number_at(matches, "PORT")?).ok()
}

// The number of an option, if it is given.
fn option_at(matches: &ArgMatches<'_>, name: &str) -> Option<Option<u32>>
    ensures { result ≡ option_in (rows_of (found_of matches.now)) name.now }
{
    match matches.get_str(name) {
        Some(text) => Some(Some(number_of(text.as_bytes())?)),
        None => Some(None),
    }
}

// The number of an option that sets a limit. 0 means no limit.
fn limit_at(matches: &ArgMatches<'_>, name: &str) -> Option<Option<u32>>
    ensures { result ≡ limit_in (rows_of (found_of matches.now)) name.now }
{
    match option_at(matches, name)? {
        Some(0) => Some(None),
        limit => Some(limit),
    }
}

// The number of an option that counts something. 0 is no such number.
fn count_at(matches: &ArgMatches<'_>, name: &str) -> Option<Option<u32>>
    ensures { result ≡ count_in (rows_of (found_of matches.now)) name.now }
{
    match option_at(matches, name)? {
        Some(0) => None,
        count => Some(count),
    }
}

// The number of an option that counts something, up to `most`.
fn count_within(matches: &ArgMatches<'_>, name: &str, most: u32) -> Option<Option<u32>>
    ensures { result ≡ count_within (rows_of (found_of matches.now)) name.now most }
{
    match count_at(matches, name)? {
        Some(count) if count > most => None,
        count => Some(count),
    }
}

// Of how many hash stores a merge is to begin.
fn merge_at_of(matches: &ArgMatches<'_>) -> Option<Option<u32>>
    ensures { result ≡ count_in (rows_of (found_of matches.now)) (codes "merge-at") }
{
    count_at(matches, "merge-at")
}

// Whether an option without a value is given.
fn is_given(matches: &ArgMatches<'_>, name: &str) -> bool
    ensures { result ≡ flag_in (rows_of (found_of matches.now)) name.now }
{
    match matches.get_str(name) {
        Some(text) => text == "true",
        None => false,
    }
}

// How the file of a new store is to be made.
fn format_options_of(matches: &ArgMatches<'_>) -> FormatOptions
    ensures { result ≡ format_options_in (rows_of (found_of matches.now)) }
{
    FormatOptions {
        force: is_given(matches, "force"),
        sparse: is_given(matches, "sparse"),
    }
}

// How the lines of a run are to be answered. Without background work no merge begins, so there is no number for it.
fn run_options_of(matches: &ArgMatches<'_>) -> Option<RunOptions>
    ensures { result ≡ run_options_in (rows_of (found_of matches.now)) }
{
    let merge_at = merge_at_of(matches)?;
    let tend = is_given(matches, "tend");
    if merge_at.is_some() && !tend {
        return None;
    }
    Some(RunOptions {
        tend,
        strict: is_given(matches, "strict"),
        merge_at,
    })
}

// The number of shards of a set, if it is given.
fn shards_of(matches: &ArgMatches<'_>) -> Option<Option<u32>>
    ensures { result ≡ shards_in (rows_of (found_of matches.now)) }
{
    match option_at(matches, "shards")? {
        Some(shards) if shards < FEWEST_SHARDS || shards > MOST_SHARDS => None,
        shards => Some(shards),
    }
}

// A job on the files of a set.
fn set_job<'a>(file: &'a str, shards: u32, work: SetWork) -> Job<'a>
    ensures { named result ≡ on_set file.entry.now shards work }
{
    Job::Set(SetJob { file, shards, work })
}

// The formatting of a file, or of all files of a set.
fn format_of<'a>(matches: &ArgMatches<'a>) -> Option<Job<'a>>
    ensures { option_map named result ≡ format_in (rows_of (found_of matches.now)) }
{
    let file = file_of(matches)?;
    let numbers = numbers_of(matches)?;
    let options = format_options_of(matches);
    match shards_of(matches)? {
        None => Some(Job::Format {
            file,
            numbers,
            options,
        }),
        Some(shards) => Some(set_job(file, shards, SetWork::Format { numbers, options })),
    }
}

// The run of a file, or of a set.
fn run_of<'a>(matches: &ArgMatches<'a>) -> Option<Job<'a>>
    ensures { option_map named result ≡ run_in (rows_of (found_of matches.now)) }
{
    let file = file_of(matches)?;
    let options = run_options_of(matches)?;
    match shards_of(matches)? {
        None => Some(Job::Run { file, options }),
        Some(shards) => Some(set_job(file, shards, SetWork::Run(options))),
    }
}

// The background work of a file, or of all files of a set.
fn tend_of<'a>(matches: &ArgMatches<'a>) -> Option<Job<'a>>
    ensures { option_map named result ≡ tend_in (rows_of (found_of matches.now)) }
{
    let file = file_of(matches)?;
    let merge_at = merge_at_of(matches)?;
    match shards_of(matches)? {
        None => Some(Job::Tend { file, merge_at }),
        Some(shards) => Some(set_job(file, shards, SetWork::Tend(merge_at))),
    }
}

// The check of a file, or of all files of a set.
fn check_of<'a>(matches: &ArgMatches<'a>) -> Option<Job<'a>>
    ensures { option_map named result ≡ check_in (rows_of (found_of matches.now)) }
{
    let file = file_of(matches)?;
    match shards_of(matches)? {
        None => Some(Job::Check { file }),
        Some(shards) => Some(set_job(file, shards, SetWork::Check)),
    }
}

// The dump of a file, or of all files of a set.
fn dump_of<'a>(matches: &ArgMatches<'a>) -> Option<Job<'a>>
    ensures { option_map named result ≡ dump_in (rows_of (found_of matches.now)) }
{
    let file = file_of(matches)?;
    match shards_of(matches)? {
        None => Some(Job::Dump { file }),
        Some(shards) => Some(set_job(file, shards, SetWork::Dump)),
    }
}

// The text of an option, if it is given.
fn text_at<'a>(matches: &ArgMatches<'a>, name: &str) -> Option<&'a str>
    ensures { option_map (λ text. text.now) result ≡ first_of name.now (rows_of (found_of matches.now)) }
{
    matches.get_str(name)
}

// The address that a text gives, if a text is given. None if the text is no address.
fn address_given(text: Option<&str>) -> Option<Option<&str>>
    ensures { option_map (option_map (λ address. address.now)) result ≡ address_given (option_map (λ text. text.now) text.entry) }
{
    match text {
        None => Some(None),
        Some(text) => {
            if is_address(text) {
                Some(Some(text))
            } else {
                None
            }
        }
    }
}

// Whether a server may listen at this address with this password's file: both are for Redis clients, and other machines
// reach it only with a password.
fn may_listen(resp: bool, address: Option<&str>, password_file: Option<&str>) -> bool
    ensures { result ≡ may_listen resp (option_map (λ text. text.now) address.entry) (option_map (λ file. file.now) password_file.entry) }
{
    match (address, password_file) {
        (None, None) => true,
        (Some(address), None) => resp && is_loopback(address),
        (_, Some(_)) => resp,
    }
}

// How many clients there may be at once.
fn clients_of(matches: &ArgMatches<'_>) -> Option<Option<u32>>
    ensures { result ≡ clients_in (rows_of (found_of matches.now)) }
{
    count_within(matches, "clients", MOST_CLIENTS)
}

fn access_of<'a>(matches: &ArgMatches<'a>) -> Option<Access<'a>>
    ensures { option_map named_access result ≡ access_in (rows_of (found_of matches.now)) }
{
    let address = address_given(text_at(matches, "bind"))?;
    let clients = clients_of(matches)?;
    let password_file = text_at(matches, "password-file");
    if !may_listen(is_given(matches, "resp"), address, password_file) {
        return None;
    }
    Some(Access {
        address,
        password_file,
        clients,
    })
}

// The most calls of the record, if one is kept. There is none of a set.
fn audit_of(matches: &ArgMatches<'_>) -> Option<Option<u32>>
    ensures { result ≡ audit_in (rows_of (found_of matches.now)) }
{
    let audit = option_at(matches, "audit")?;
    let shards = shards_of(matches)?;
    if audit.is_some() && shards.is_some() {
        return None;
    }
    Some(audit)
}

// How many shards of a set may be merged at a time. One store has no such number.
fn mergers_of(matches: &ArgMatches<'_>) -> Option<Option<u32>>
    ensures { result ≡ mergers_in (rows_of (found_of matches.now)) }
{
    let mergers = count_at(matches, "mergers")?;
    let shards = shards_of(matches)?;
    if mergers.is_some() && shards.is_none() {
        return None;
    }
    Some(mergers)
}

// After how many hours a served store is scrubbed.
fn scrub_of(matches: &ArgMatches<'_>) -> Option<Option<u32>>
    ensures { result ≡ scrub_in (rows_of (found_of matches.now)) }
{
    count_within(matches, "scrub", MOST_SCRUB)
}

// How many megabytes a second a scrub reads at most. A server that does not scrub has no such number.
fn scrub_rate_of(matches: &ArgMatches<'_>) -> Option<Option<u32>>
    ensures { result ≡ scrub_rate_in (rows_of (found_of matches.now)) }
{
    let rate = count_within(matches, "scrub-rate", MOST_SCRUB_RATE)?;
    let scrub = scrub_of(matches)?;
    if rate.is_some() && scrub.is_none() {
        return None;
    }
    Some(rate)
}

// The port of the page of metrics, if there is to be one.
fn metrics_of(matches: &ArgMatches<'_>) -> Option<Option<u16>>
    ensures { result ≡ metrics_in (rows_of (found_of matches.now)) }
{
    match option_at(matches, "metrics")? {
        Some(port) => Some(Some(u16::try_from(port).ok()?)),
        None => Some(None),
    }
}

// The path that a text gives backups of the store in this file, if a text is given. None if they may not be written there.
fn backup_given<'a>(file: &str, text: Option<&'a str>) -> Option<Option<&'a str>>
    ensures { option_map (option_map (λ path. path.now)) result ≡ backup_given file.now (option_map (λ text. text.now) text.entry) }
{
    match text {
        None => Some(None),
        Some(path) => {
            if may_hold_backup(file, path) {
                Some(Some(path))
            } else {
                None
            }
        }
    }
}

// The file that backups are written to, if there are to be any.
fn backup_of<'a>(matches: &ArgMatches<'a>) -> Option<Option<&'a str>>
    ensures { option_map (option_map (λ path. path.now)) result ≡ backup_in (rows_of (found_of matches.now)) }
{
    let file = file_of(matches)?;
    backup_given(file, text_at(matches, "backup"))
}

fn service_of<'a>(matches: &ArgMatches<'a>) -> Option<Service<'a>>
    ensures { option_map named_service result ≡ service_in (rows_of (found_of matches.now)) }
{
    Some(Service {
        file: file_of(matches)?,
        port: port_of(matches)?,
        access: access_of(matches)?,
        shards: shards_of(matches)?,
        audit: audit_of(matches)?,
        sessions: limit_at(matches, "sessions")?,
        idle: limit_at(matches, "idle")?,
        wait: option_at(matches, "wait")?,
        mergers: mergers_of(matches)?,
        merge_at: merge_at_of(matches)?,
        pipeline: is_given(matches, "pipeline"),
        resp: is_given(matches, "resp"),
        stay: is_given(matches, "stay"),
        scrub: scrub_of(matches)?,
        scrub_rate: scrub_rate_of(matches)?,
        metrics: metrics_of(matches)?,
        backup: backup_of(matches)?,
    })
}

fn request_of(matches: &ArgMatches<'_>) -> Option<PlanRequest>
    ensures { result ≡ request_in (rows_of (found_of matches.now)) }
{
    Some(PlanRequest {
        keys: number_at(matches, "KEYS")?,
        value_len: number_at(matches, "V")?,
        memory: option_at(matches, "memory")?,
        merge_writes: count_at(matches, "merge-writes")?,
    })
}

// The plan of a store, or of one shard of a set.
fn plan_of<'a>(matches: &ArgMatches<'a>) -> Option<Job<'a>>
    ensures { option_map named result ≡ plan_in (rows_of (found_of matches.now)) }
{
    let request = request_of(matches)?;
    match shards_of(matches)? {
        None => Some(Job::Plan(request)),
        Some(shards) => Some(Job::PlanSet { shards, request }),
    }
}

// Where a server is, if a text may say so.
fn contact_given(text: &str) -> Option<&str>
    ensures { option_map (λ address. address.now) result ≡ contact_given text.entry.now }
{
    if is_contact(text) { Some(text) } else { None }
}

// The server that a client speaks to.
fn contact_of<'a>(matches: &ArgMatches<'a>) -> Option<Contact<'a>>
    ensures { option_map named_contact result ≡ contact_in (rows_of (found_of matches.now)) }
{
    let address = contact_given(text_at(matches, "ADDRESS")?)?;
    Some(Contact {
        address,
        password_file: text_at(matches, "password-file"),
    })
}

fn job_of<'a>(name: &str, matches: &ArgMatches<'a>) -> Option<Job<'a>>
    ensures { option_map named result ≡ job_in name.now (rows_of (found_of matches.now)) }
{
    match name {
        "format" => format_of(matches),
        "script" => Some(Job::Script(numbers_of(matches)?)),
        "run" => run_of(matches),
        "tend" => tend_of(matches),
        "check" => check_of(matches),
        "dump" => dump_of(matches),
        "plan" => plan_of(matches),
        "serve" => Some(Job::Serve(service_of(matches)?)),
        "stop" => Some(Job::Stop(contact_of(matches)?)),
        "info" => Some(Job::Info(contact_of(matches)?)),
        _ => None,
    }
}

// The job of the command that was met.
fn job_met<'a>(matches: &ArgMatches<'a>) -> Option<Job<'a>>
    ensures { option_map named result ≡ job_met (subcommand_rows_of matches.now) }
{
    let (name, inner) = matches.subcommand()?;
    job_of(name, inner)
}

/// The job that the words name. The first word is the program's own.
///
/// # Errors
///
/// `Usage` if they name none, and out of memory.
pub fn read_words<'a>(alloc: Global, words: &'a [String]) -> Result<Job<'a>, WordsError>
    ensures { MatchResult result (λ job. job_named (map string_bytes words.entry.now) ≡ Some (named job))
        (λ error. error ≡ Usage → job_named (map string_bytes words.entry.now) ≡ None) }
{
    let command = command::<'a>(alloc)?;
    match command.try_get_matches_from(words) {
        Ok(matches) => job_met(&matches).ok_or(WordsError::Usage),
        Err(error) if error.kind() == ErrorKind::OutOfMemory => Err(WordsError::NoMemory),
        Err(_) => Err(WordsError::Usage),
    }
}
