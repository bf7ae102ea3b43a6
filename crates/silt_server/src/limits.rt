// The limits of a server.
ghost use Rattle.std.specs.Prelude.{◌≡◌};
ghost use Rattle.silt_server.specs.Limits.{pipelines, settles_gets};

/// How many sessions there can be at once: each has a slot.
pub const MOST_SESSIONS: u64 = 1024;

/// What a server and its clients send each other.
#[derive(Clone, Copy, Debug, PartialEq, Eq)]
pub enum Protocol {
    /// Lines. Each that comes alone has a flush.
    Lines,
    /// Lines. All commands of one read are flushed together.
    PipelinedLines,
    /// The commands of Redis clients. All of one read are flushed together.
    Resp,
}

impl Protocol {
    /// Whether all commands of one read are flushed together.
    pub fn pipelines(self) -> bool
        ensures { result ≡ pipelines self }
    {
        !matches!(self, Protocol::Lines)
    }

    /// Whether a get waits for a flush if a crash may take away what it shows.
    pub fn settles_gets(self) -> bool
        ensures { result ≡ settles_gets self }
    {
        matches!(self, Protocol::Resp)
    }
}

/// The limits of a server, and its protocol.
#[derive(Clone, Copy, Debug, PartialEq, Eq)]
pub struct Limits {
    /// How many sessions to serve in all, or 0 for no limit.
    pub sessions: u32,
    /// How many sessions to serve at once, at most [`MOST_SESSIONS`].
    pub clients: u32,
    /// The SHA-1 digest of the password that Redis clients have to give, if there is one.
    pub password: Option<[u8; 20]>,
    /// The most calls to record. If None, calls are only counted.
    pub audit: Option<u64>,
    /// After how many seconds a silent connection is closed. If None or 0, never.
    pub idle: Option<u32>,
    /// How many seconds a command waits for room at most. 0: not at all.
    pub wait: u32,
    pub protocol: Protocol,
}
