// Steps of background work.

/// The result of one step of conversion or merging.
#[derive(Clone, Copy, Debug, PartialEq, Eq)]
pub enum Progress {
    /// There is nothing to do.
    Idle,
    /// There is work, but no region is free for it.
    Waiting,
    /// The work went one step further.
    Moved,
    /// The work is finished.
    Finished,
}
