// Work beside the sessions of a server.

use silt_desk::View;

/// Work beside the sessions of a server, in a thread of its own.
pub trait Cares: Sync {
    /// Works beside the sessions, with a view of each store, until they have ended or the server is to end. The board says so (see
    /// [`Board::has_ended`](silt_session::Board::has_ended)).
    fn care<V: View>(&self, views: &[V]);
}

/// No work.
#[derive(Drop)]
pub struct NoCare;

impl Cares for NoCare {
    fn care<V: View>(&self, _views: &[V]) {}
}
