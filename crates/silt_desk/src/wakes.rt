// The ways to wake the workers.

use crate::worker::{Due, Wake};
use crossbeam_channel::Sender;
use std::sync::Wait;

/// The ways to wake the converter and the merger.
#[derive(Drop)]
pub struct Wakes {
    pub converter: Sender<Wake>,
    pub merger: Sender<Wake>,
}

impl Wakes {
    /// Wakes each worker that has work. It leaves the others asleep: a worker takes the store's lock to find that it has
    /// nothing to do.
    pub fn go<R: Wait>(&self, rt: &R, due: Due) {
        if due.converts {
            wake(rt, &self.converter);
        }
        if due.begins {
            wake(rt, &self.merger);
        }
    }

    /// Tells both workers to end.
    pub fn stop<R: Wait>(&self, rt: &R) {
        let _ = self.converter.send(rt, Wake::Stop); // either may have ended
        let _ = self.merger.send(rt, Wake::Stop);
    }
}

/// Tells a thread that there may be work for it, unless a message to it already waits. So a channel never fills up if it
/// has room for one message of each thread that sends by this, and for one that stops the thread.
pub fn wake<R: Wait>(rt: &R, to: &Sender<Wake>) {
    if to.is_empty() {
        let _ = to.send(rt, Wake::Go); // the thread may have ended
    }
}
