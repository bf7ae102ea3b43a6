// How each job is called: the values and options behind its word. clap is given them, and people are shown them.

use std::fmt;

/// What follows an option.
#[derive(Clone, Copy, Debug)]
pub enum Operand {
    /// A number, and how it is shown.
    Number(&'static str),
    Address,
    Path,
}

impl Operand {
    // How it is shown behind its option.
    fn shown(&self) -> &'static str {
        match *self {
            Operand::Number(shown) => shown,
            Operand::Address => "ADDRESS",
            Operand::Path => "PATH",
        }
    }
}

impl fmt::Display for Operand {
    fn fmt<W: fmt::Write>(&self, f: &mut fmt::Formatter<W>) -> fmt::Result {
        f.write_str(match self {
            Operand::Number(_) => "a number",
            Operand::Address => "an address",
            Operand::Path => "a file",
        })
    }
}

/// An option of a job.
#[derive(Clone, Copy, Debug)]
pub struct Choice {
    /// Its name, without the two hyphens.
    pub name: &'static str,
    /// What follows it, if anything does.
    pub operand: Option<Operand>,
    /// The option without which it means nothing.
    pub needs: Option<&'static str>,
    /// What it does.
    text: &'static str,
}

/// The most options that a job has.
pub const MOST_OPTIONS: usize = 17;

/// How a job is called: what may follow its word.
#[derive(Clone, Copy, Debug)]
pub struct Form {
    pub job: &'static str,
    /// The names of its values, in order.
    pub values: &'static [&'static str],
    /// How its options are shown behind the values, if it has any.
    shown: Option<&'static str>,
    /// What the job does.
    text: &'static str,
    /// Its options, at most [`MOST_OPTIONS`].
    pub options: &'static [Choice],
    /// The lines that it replies to, in parts.
    input: &'static [&'static str],
}

const FORCE: Choice = Choice {
    name: "force",
    operand: None,
    needs: None,
    text: "formats a file that holds keys or other data; they are lost",
};

const SPARSE: Choice = Choice {
    name: "sparse",
    operand: None,
    needs: None,
    text: "gives the file its length alone, and does not write all of it",
};

const FORMAT_SHARDS: Choice = Choice {
    name: "shards",
    operand: Some(Operand::Number("M")),
    needs: None,
    text: "format: makes the files FILE.0, FILE.1 .., each one of M shards of a store, 2 to 64",
};

const RUN_SHARDS: Choice = Choice {
    name: "shards",
    operand: Some(Operand::Number("M")),
    needs: None,
    text: "run: replies with the M shards in the files FILE.0, FILE.1 .. as one store",
};

const TEND_SHARDS: Choice = Choice {
    name: "shards",
    operand: Some(Operand::Number("M")),
    needs: None,
    text: "tend: does that for each of the M shards in the files FILE.0, FILE.1 ..",
};

const CHECK_SHARDS: Choice = Choice {
    name: "shards",
    operand: Some(Operand::Number("M")),
    needs: None,
    text: "check: prints that of each of the M shards in the files FILE.0, FILE.1 ..",
};

const DUMP_SHARDS: Choice = Choice {
    name: "shards",
    operand: Some(Operand::Number("M")),
    needs: None,
    text: "dump: prints the lines of the M shards in the files FILE.0, FILE.1 ..",
};

const PLAN_SHARDS: Choice = Choice {
    name: "shards",
    operand: Some(Operand::Number("M")),
    needs: None,
    text: "plan: prints the six numbers of one of M shards, and what all of them take",
};

const SERVE_SHARDS: Choice = Choice {
    name: "shards",
    operand: Some(Operand::Number("M")),
    needs: None,
    text: "serve: serves the M shards in the files FILE.0, FILE.1 .. as one store; not with --audit",
};

const MERGERS: Choice = Choice {
    name: "mergers",
    operand: Some(Operand::Number("G")),
    needs: Some("shards"),
    text: "serve --shards: merges at most G shards at a time; any number if left out",
};

const TEND: Choice = Choice {
    name: "tend",
    operand: None,
    needs: None,
    text: "converts and merges between the lines, as long as work is due",
};

const STRICT: Choice = Choice {
    name: "strict",
    operand: None,
    needs: None,
    text: "ends with status 3 if a line was refused",
};

const MEMORY: Choice = Choice {
    name: "memory",
    operand: Some(Operand::Number("BYTES")),
    needs: None,
    text: "what the store may take of memory, merge included",
};

const MERGE_WRITES: Choice = Choice {
    name: "merge-writes",
    operand: Some(Operand::Number("E")),
    needs: None,
    text: "merging writes at most E entries for each row; 9 where possible if left out",
};

const AUDIT: Choice = Choice {
    name: "audit",
    operand: Some(Operand::Number("N")),
    needs: None,
    text: "refuses every call after the first N, which it records in memory; the record is not printed",
};

const SESSIONS: Choice = Choice {
    name: "sessions",
    operand: Some(Operand::Number("M")),
    needs: None,
    text: "ends after M sessions; 0 has no end",
};

const IDLE: Choice = Choice {
    name: "idle",
    operand: Some(Operand::Number("SECONDS")),
    needs: None,
    text: "closes a connection that sends nothing for so long; 0 never does",
};

const WAIT: Choice = Choice {
    name: "wait",
    operand: Some(Operand::Number("SECONDS")),
    needs: None,
    text: "how long a command waits for room; 10 if left out, 0 refuses at once",
};

const RUN_MERGE_AT: Choice = Choice {
    name: "merge-at",
    operand: Some(Operand::Number("K")),
    needs: Some("tend"),
    text: "run --tend: merges once there are K hash stores, and not only if no region is free",
};

const TEND_MERGE_AT: Choice = Choice {
    name: "merge-at",
    operand: Some(Operand::Number("K")),
    needs: None,
    text: "tend: merges only if there are K hash stores; any number if left out",
};

const SERVE_MERGE_AT: Choice = Choice {
    name: "merge-at",
    operand: Some(Operand::Number("K")),
    needs: None,
    text: "serve: merges once there are K hash stores; half of NH if left out",
};

const PIPELINE: Choice = Choice {
    name: "pipeline",
    operand: None,
    needs: None,
    text: "does the commands that a connection sent together with one flush",
};

const RESP: Choice = Choice {
    name: "resp",
    operand: None,
    needs: None,
    text: "speaks the protocol of Redis clients in place of lines",
};

const BIND: Choice = Choice {
    name: "bind",
    operand: Some(Operand::Address),
    needs: Some("resp"),
    text: "serve --resp: listens on this IP address; 127.0.0.1 if left out",
};

const PASSWORD_FILE: Choice = Choice {
    name: "password-file",
    operand: Some(Operand::Path),
    needs: Some("resp"),
    text: "serve --resp: asks clients for the password in the first line of this file",
};

const CLIENTS: Choice = Choice {
    name: "clients",
    operand: Some(Operand::Number("N")),
    needs: None,
    text: "serves at most N connections at once, 1 to 1024; 64 if left out",
};

const STAY: Choice = Choice {
    name: "stay",
    operand: None,
    needs: None,
    text: "goes on to serve if a write or a sync failed, and refuses what changes; else the server ends",
};

const SCRUB: Choice = Choice {
    name: "scrub",
    operand: Some(Operand::Number("HOURS")),
    needs: None,
    text: "reads the whole store each HOURS hours, 1 to 8760, and reports what is damaged",
};

const SCRUB_RATE: Choice = Choice {
    name: "scrub-rate",
    operand: Some(Operand::Number("MB")),
    needs: Some("scrub"),
    text: "serve --scrub: reads at most MB megabytes a second, 1 to 10000",
};

const METRICS: Choice = Choice {
    name: "metrics",
    operand: Some(Operand::Number("PORT")),
    needs: None,
    text: "a page of numbers for Prometheus at this port of this machine; 0 lets the system choose",
};

const BACKUP: Choice = Choice {
    name: "backup",
    operand: Some(Operand::Path),
    needs: None,
    text: "writes a backup to PATH when a client orders one; of a set, to a folder that PATH links to",
};

const STOP_PASSWORD: Choice = Choice {
    name: "password-file",
    operand: Some(Operand::Path),
    needs: None,
    text: "stop: sends the password in the first line of this file",
};

const INFO_PASSWORD: Choice = Choice {
    name: "password-file",
    operand: Some(Operand::Path),
    needs: None,
    text: "info: sends the password in the first line of this file",
};

/// The lines that every job with an input replies to.
const EVENTS: &str = "put KEY VALUE     sets the value of a key
delete KEY        deletes the value of a key
swap KEY OLD NEW  sets the value of a key to NEW if it is OLD; - is no value
get KEY           prints the value of a key
flush             makes all accepted commands safe from crashes
";

/// The line that asks for the facts of a store.
const FACTS: &str = "info              prints the numbers of the store, a line each
";

/// The line that ends a server.
const SHUTDOWN: &str = "shutdown          ends the server once all that wait have their replies
";

/// The line that orders a backup.
const BACKUP_LINE: &str = "backup            has a server with --backup write one
";

/// The lines for background work.
const STEPS: &str = "convert, merge    does one step of background work
";

/// The lines that divide a script into lives.
const STOPS: &str = "stop K FILL       crashes the life before it at its K-th write or sync
";

/// The forms of all jobs.
pub const FORMS: [Form; 10] = [
    Form {
        job: "format",
        values: &["FILE", "V", "B", "CAP", "NL", "NH", "S"],
        shown: Some("[OPTION]..."),
        text: "makes an empty store in a file",
        options: &[FORCE, SPARSE, FORMAT_SHARDS],
        input: &[],
    },
    Form {
        job: "run",
        values: &["FILE"],
        shown: Some("[OPTION]..."),
        text: "replies to the lines of the standard input",
        options: &[TEND, STRICT, RUN_MERGE_AT, RUN_SHARDS],
        input: &[EVENTS, FACTS, STEPS],
    },
    Form {
        job: "tend",
        values: &["FILE"],
        shown: Some("[OPTION]..."),
        text: "does all background work that is due",
        options: &[TEND_MERGE_AT, TEND_SHARDS],
        input: &[],
    },
    Form {
        job: "check",
        values: &["FILE"],
        shown: Some("[--shards M]"),
        text: "prints what the store in a file consists of",
        options: &[CHECK_SHARDS],
        input: &[],
    },
    Form {
        job: "dump",
        values: &["FILE"],
        shown: Some("[--shards M]"),
        text: "prints a line for each key that puts its value",
        options: &[DUMP_SHARDS],
        input: &[],
    },
    Form {
        job: "plan",
        values: &["KEYS", "V"],
        shown: Some("[OPTION]..."),
        text: "prints the six numbers of a store for so many keys",
        options: &[MEMORY, MERGE_WRITES, PLAN_SHARDS],
        input: &[],
    },
    Form {
        job: "script",
        values: &["V", "B", "CAP", "NL", "NH", "S"],
        shown: None,
        text: "runs the lives of the standard input in memory",
        options: &[],
        input: &[EVENTS, STEPS, STOPS],
    },
    Form {
        job: "serve",
        values: &["FILE", "PORT"],
        shown: Some("[OPTION]..."),
        text: "replies to the lines of a port's connections",
        options: &[
            AUDIT,
            SESSIONS,
            IDLE,
            WAIT,
            SERVE_MERGE_AT,
            PIPELINE,
            RESP,
            BIND,
            PASSWORD_FILE,
            CLIENTS,
            SERVE_SHARDS,
            MERGERS,
            STAY,
            SCRUB,
            SCRUB_RATE,
            METRICS,
            BACKUP,
        ],
        input: &[EVENTS, FACTS, SHUTDOWN, BACKUP_LINE],
    },
    Form {
        job: "stop",
        values: &["ADDRESS"],
        shown: Some("[OPTION]..."),
        text: "ends a server in order, and waits until it has ended",
        options: &[STOP_PASSWORD],
        input: &[],
    },
    Form {
        job: "info",
        values: &["ADDRESS"],
        shown: Some("[OPTION]..."),
        text: "prints the numbers of a server, a line each",
        options: &[INFO_PASSWORD],
        input: &[],
    },
];

/// What a value may be.
#[derive(Clone, Copy, Debug)]
struct Value {
    name: &'static str,
    text: &'static str,
}

/// What each value may be.
const VALUES: [Value; 10] = [
    Value {
        name: "FILE",
        text: "the file of the store",
    },
    Value {
        name: "V",
        text: "bytes of a value, 1 to 4096",
    },
    Value {
        name: "B",
        text: "buckets of a log's table, a power of two, 2 to 32768",
    },
    Value {
        name: "CAP",
        text: "rows of a log, 1 to 4 times B",
    },
    Value {
        name: "NL",
        text: "log regions, 2 to 8",
    },
    Value {
        name: "NH",
        text: "hash regions, 1 to 16",
    },
    Value {
        name: "S",
        text: "put rows of the store, and entries of a sorted region, 1 to 16777216",
    },
    Value {
        name: "KEYS",
        text: "keys that have values at one time",
    },
    Value {
        name: "PORT",
        text: "a port of this machine, at most 65535; 0 lets the system choose",
    },
    Value {
        name: "ADDRESS",
        text: "where a server is: a port of this machine, or an IP address and a port, as 10.0.0.1:7379 or [::1]:7379",
    },
];

/// How many characters have room in the columns of calls, values and options.
const CALL_WIDTH: usize = 44;

const VALUE_WIDTH: usize = 4;

const OPTION_WIDTH: usize = 16;

/// The form of the job of this word.
pub fn form_of(job: &str) -> Option<Form> {
    for form in FORMS {
        if form.job == job {
            return Some(form);
        }
    }
    None
}

/// Which forms people are shown.
#[derive(Clone, Copy, Debug)]
pub enum Forms {
    /// Those of all jobs.
    All,
    /// That of one job.
    Of(Form),
    /// That of one job, and the lines that it replies to.
    Help(Form),
}

impl fmt::Display for Forms {
    fn fmt<W: fmt::Write>(&self, f: &mut fmt::Formatter<W>) -> fmt::Result {
        match self {
            Forms::All => write_all_forms(f),
            Forms::Of(form) => write_form(form, f),
            Forms::Help(form) => {
                write_form(form, f)?;
                write_input(form, f)
            }
        }
    }
}

fn write_all_forms<W: fmt::Write>(f: &mut fmt::Formatter<W>) -> fmt::Result {
    for form in FORMS {
        write_call(&form, f)?;
    }
    f.write_str("\n")?;
    for value in VALUES {
        write_value(&value, f)?;
    }
    f.write_str("\n")?;
    for form in FORMS {
        write_options(form.options, f)?;
    }
    Ok(())
}

// Writes the form of one job, with what its values and options may be.
fn write_form<W: fmt::Write>(form: &Form, f: &mut fmt::Formatter<W>) -> fmt::Result {
    write_call(form, f)?;
    f.write_str("\n")?;
    for value in VALUES {
        if form.values.contains(&value.name) {
            write_value(&value, f)?;
        }
    }
    if !form.options.is_empty() {
        f.write_str("\n")?;
    }
    write_options(form.options, f)
}

// Writes how a job is called, and what it does.
fn write_call<W: fmt::Write>(form: &Form, f: &mut fmt::Formatter<W>) -> fmt::Result {
    let mut room = CALL_WIDTH;
    write_word("silt", &mut room, f)?;
    write_next(form.job, &mut room, f)?;
    for value in form.values {
        write_next(value, &mut room, f)?;
    }
    if let Some(shown) = form.shown {
        write_next(shown, &mut room, f)?;
    }
    write_text(form.text, room, f)
}

// Writes what a value may be.
fn write_value<W: fmt::Write>(value: &Value, f: &mut fmt::Formatter<W>) -> fmt::Result {
    let mut room = VALUE_WIDTH;
    write_word(value.name, &mut room, f)?;
    write_text(value.text, room, f)
}

fn write_options<W: fmt::Write>(options: &[Choice], f: &mut fmt::Formatter<W>) -> fmt::Result {
    for option in options {
        write_option(option, f)?;
    }
    Ok(())
}

// Writes how an option is written, and what it does.
fn write_option<W: fmt::Write>(option: &Choice, f: &mut fmt::Formatter<W>) -> fmt::Result {
    let mut room = OPTION_WIDTH;
    write_word("--", &mut room, f)?;
    write_word(option.name, &mut room, f)?;
    if let Some(operand) = option.operand {
        write_next(operand.shown(), &mut room, f)?;
    }
    write_text(option.text, room, f)
}

// Writes a word, and takes it from the room of its column.
fn write_word<W: fmt::Write>(
    word: &str,
    room: &mut usize,
    f: &mut fmt::Formatter<W>,
) -> fmt::Result {
    *room = room.saturating_sub(word.len());
    f.write_str(word)
}

// Writes a blank and a word.
fn write_next<W: fmt::Write>(
    word: &str,
    room: &mut usize,
    f: &mut fmt::Formatter<W>,
) -> fmt::Result {
    write_word(" ", room, f)?;
    write_word(word, room, f)
}

// Fills the room of a column, and ends the line with a text.
fn write_text<W: fmt::Write>(text: &str, room: usize, f: &mut fmt::Formatter<W>) -> fmt::Result {
    for _ in 0..room {
        f.write_str(" ")?;
    }
    writeln!(f, "  {text}")
}

// Writes the lines that the job of this form replies to.
fn write_input<W: fmt::Write>(form: &Form, f: &mut fmt::Formatter<W>) -> fmt::Result {
    if form.input.is_empty() {
        return Ok(());
    }
    f.write_str("\n")?;
    for part in form.input {
        f.write_str(part)?;
    }
    f.write_str(
        "
KEY is 40 hexadecimal digits, or = and a name. VALUE, OLD and NEW have two hexadecimal digits a byte.
docs/program.md has these lines, and the replies to them.
",
    )
}
