// The jobs of the program.
use std::alloc::AllocError;

/// The six numbers of a geometry, in the order of the command line. They may be out of its limits.
#[derive(Clone, Copy, Debug, PartialEq, Eq)]
pub struct Numbers {
    pub value_len: u32,
    pub buckets: u32,
    pub log_capacity: u32,
    pub logs: u32,
    pub hashes: u32,
    pub sorted_capacity: u32,
}

/// How the file of a new store is to be made.
#[derive(Clone, Copy, Debug, PartialEq, Eq)]
pub struct FormatOptions {
    /// Whether a file with keys or other data may be overwritten.
    pub force: bool,
    /// Whether a new file gets its length alone. Else all of it is written.
    pub sparse: bool,
}

/// How the lines of a run are to be answered.
#[derive(Clone, Copy, Debug, PartialEq, Eq)]
pub struct RunOptions {
    /// Whether the background work that is due is done between the lines.
    pub tend: bool,
    /// Whether the status says that a line was refused.
    pub strict: bool,
    /// Of how many hash stores, at least one, background work begins a merge. None if the option is left out. Only a run
    /// that does background work has a number.
    pub merge_at: Option<u32>,
}

/// Where a server listens, and who is let in.
#[derive(Clone, Copy, Debug)]
pub struct Access<'a> {
    /// The address to listen on, in digits. 127.0.0.1 if the option is left out.
    pub address: Option<&'a str>,
    /// The file whose first line is the password. None if all are let in.
    pub password_file: Option<&'a str>,
    /// How many clients are served at once, at least one. None if the option is left out.
    pub clients: Option<u32>,
}

/// How the store in a file is to be served.
#[derive(Clone, Copy, Debug)]
pub struct Service<'a> {
    /// The name of the file, or of the set.
    pub file: &'a str,
    /// The number of shards, 2 to 64, if a set is to be served.
    pub shards: Option<u32>,
    /// How many shards of a set, at least one, may be merged at a time. None if the option is left out.
    pub mergers: Option<u32>,
    /// The port to listen on. For 0 the system chooses one.
    pub port: u16,
    pub access: Access<'a>,
    /// The most calls of the record, if one is kept.
    pub audit: Option<u32>,
    /// After how many sessions, at least one, the server ends. None if it never does.
    pub sessions: Option<u32>,
    /// After how many seconds, at least one, a silent connection is closed. None if it never is.
    pub idle: Option<u32>,
    /// How many seconds a command waits for room at most. None if the option is left out.
    pub wait: Option<u32>,
    /// Of how many hash stores, at least one, the merger begins a merge. None if the option is left out.
    pub merge_at: Option<u32>,
    /// Whether the commands that a connection sent together are done as one batch, with one flush.
    pub pipeline: bool,
    /// Whether clients speak the protocol of Redis. If not, they send lines.
    pub resp: bool,
    /// Whether the server goes on if a write or a sync of its store failed.
    pub stay: bool,
    /// After how many hours, 1 to 8,760, all that the store names is read and compared with its digests. None if it never is.
    pub scrub: Option<u32>,
    /// How many megabytes a second, 1 to 10,000, such a pass reads at most. None if the option is left out.
    pub scrub_rate: Option<u32>,
    /// The port of the page of metrics, if there is one. For 0 the system chooses one.
    pub metrics: Option<u16>,
    /// The file that backups are written to, if the server makes any; of a set the link to the folder of its files.
    pub backup: Option<&'a str>,
}

/// A server that runs, and how a client is let in.
#[derive(Clone, Copy, Debug)]
pub struct Contact<'a> {
    /// A port of this machine, or an IP address in digits and a port.
    pub address: &'a str,
    /// The file whose first line is the password. None if no password is sent.
    pub password_file: Option<&'a str>,
}

/// What a store, or a set of shards, is to be planned for.
#[derive(Clone, Copy, Debug, PartialEq, Eq)]
pub struct PlanRequest {
    /// How many keys have values at one time.
    pub keys: u32,
    /// The bytes of a value.
    pub value_len: u32,
    /// The bytes of memory that the store, or the whole set, may use, if they are limited.
    pub memory: Option<u32>,
    /// How many entries merging may write for each row, if that is limited.
    pub merge_writes: Option<u32>,
}

/// What is to be done with the files of a set, each of which is a shard of one store.
#[derive(Clone, Copy, Debug, PartialEq, Eq)]
pub enum SetWork {
    /// Makes an empty store in each file, and makes it that shard of the set.
    Format {
        numbers: Numbers,
        options: FormatOptions,
    },
    /// Replies to lines with all stores as one.
    Run(RunOptions),
    /// Does all background work of each store. With a number it begins a merge only of so many hash stores, at least one.
    Tend(Option<u32>),
    /// Prints what each store consists of.
    Check,
    /// Prints a line for each key with a value, file by file.
    Dump,
}

/// A job on the files of a set.
#[derive(Clone, Copy, Debug)]
pub struct SetJob<'a> {
    /// The name of the set. A file has it, a dot, and the number of its shard.
    pub file: &'a str,
    /// The number of shards, 2 to 64.
    pub shards: u32,
    pub work: SetWork,
}

/// What the words ask for.
#[derive(Clone, Copy, Debug)]
pub enum Job<'a> {
    /// Makes an empty store in a file.
    Format {
        file: &'a str,
        numbers: Numbers,
        options: FormatOptions,
    },
    /// Replies to lines with a new store in memory.
    Script(Numbers),
    /// Replies to lines with the store in a file.
    Run {
        file: &'a str,
        options: RunOptions,
    },
    /// Does all background work of the store in a file.
    Tend {
        file: &'a str,
        /// Of how many hash stores, at least one, a merge begins. None if the option is left out.
        merge_at: Option<u32>,
    },
    /// Prints what the store in a file consists of.
    Check {
        file: &'a str,
    },
    /// Prints a line for each key with a value. The line is the put of that value.
    Dump {
        file: &'a str,
    },
    /// Does a job on the files of a set.
    Set(SetJob<'a>),
    /// Prints the numbers of a store for this many keys.
    Plan(PlanRequest),
    /// Prints the numbers of one shard of a set for this many keys.
    PlanSet {
        /// The number of shards, 2 to 64.
        shards: u32,
        request: PlanRequest,
    },
    /// Serves the sessions of a port with the store in a file, or with a set.
    Serve(Service<'a>),
    /// Ends a server in order, and waits until it has ended.
    Stop(Contact<'a>),
    /// Prints what a server says of itself.
    Info(Contact<'a>),
}

impl<'a> Job<'a> {
    ghost use Rattle.std.specs.Prelude.{◌≡◌, option_map};
    ghost use Rattle.silt_words.specs.Jobs.{job_file, job_shards};

    /// The name of the file that it works on, or of its set, if it works on one.
    pub fn file(&self) -> Option<&'a str>
        ensures { option_map (λ file. file.now) result ≡ job_file self.now }
    {
        match *self {
            Job::Format { file, .. } => Some(file),
            Job::Run { file, .. } => Some(file),
            Job::Tend { file, .. } => Some(file),
            Job::Check { file } => Some(file),
            Job::Dump { file } => Some(file),
            Job::Set(job) => Some(job.file),
            Job::Serve(service) => Some(service.file),
            Job::Script(_) => None,
            Job::Plan(_) => None,
            Job::PlanSet { .. } => None,
            Job::Stop(_) => None,
            Job::Info(_) => None,
        }
    }

    /// The number of the files that it works on, if these are a set.
    pub fn shards(&self) -> Option<u32>
        ensures { result ≡ job_shards self.now }
    {
        match *self {
            Job::Set(job) => Some(job.shards),
            Job::Serve(service) => service.shards,
            _ => None,
        }
    }
}

/// Why the words name no job.
#[derive(Clone, Copy, Debug, PartialEq, Eq)]
pub enum WordsError {
    /// The words are not those of a job, or they ask for help.
    Usage,
    /// Out of memory.
    NoMemory,
}

impl From<AllocError> for WordsError {
    ghost use Rattle.std.specs.Prelude.{◌≡◌};
    ghost use Rattle.silt_words.specs.declared.job.WordsError.TheVariants.{NoMemory};

    ghost from_gives = { λ _ error. error ≡ NoMemory };

    fn from(_error: AllocError) -> WordsError {
        WordsError::NoMemory
    }
}
