// What the program runs on.

/// A host, and the source of its disks. What is done with them stands beside each job.
#[derive(Drop)]
pub struct Machine<'h, H, S> {
    pub rt: &'h H,
    pub source: S,
}
