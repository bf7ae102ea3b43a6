// Connections, each served in a thread of its own.
ghost use Rattle.std.specs.Prelude.{◌≡◌, ◌+◌, ◌<◌, ◌≤◌, false, length, take, IfOk, IfSome, IsNone};

use crate::counting_listener::{CountingListener, Listens};
use crate::limits::{Limits, Protocol};
use crate::written::{lack_thread, turn_away};
use silt_event::Counter;
use silt_inbox::InboxId;
use silt_session::{Board, Newcomer, SessionSlot, free_slot};
use std::alloc::Global;
use std::io::{self, ErrorKind};
use std::net::TcpStream;
use std::sync::atomic::{AtomicU64, Ordering};
use std::sync::{Mutex, Wait};
use std::thread;
use std::thread::Threads;

/// How many sessions wake a listener at most, once its server is to end: one is enough, unless the system has no socket for it.
const MOST_WAKES: u64 = 8;

// Whether an accept failed only for this connection, so that the next one may succeed.
fn is_passing(kind: ErrorKind) -> bool {
    matches!(
        kind,
        ErrorKind::Interrupted | ErrorKind::ConnectionAborted | ErrorKind::ConnectionReset
    )
}

/// Where connections are let in: the board that counts them, the limits, and the slots of the sessions, of which the first
/// `limits.clients` are given out.
#[derive(Drop)]
pub struct Door<'a, N: InboxId> {
    pub alloc: Global,
    pub board: &'a Board,
    pub limits: Limits,
    pub slots: &'a [Mutex<SessionSlot<N>>],
}

impl<'a, N: InboxId> Door<'a, N> {
    // The door of these.
    fn new(
        alloc: Global,
        board: &'a Board,
        limits: Limits,
        slots: &'a [Mutex<SessionSlot<N>>],
    ) -> Door<'a, N>
        ensures limits { result.limits ≡ limits }
        ensures slots { result.slots.now ≡ slots.now }
    {
        Door {
            alloc,
            board,
            limits,
            slots,
        }
    }
}

impl<N: InboxId> Door<'_, N> {
    // Writes to a connection that there is no slot for it. The listener waits for no client: it drops what the system does
    // not take at once.
    fn turn_away(&self, stream: &TcpStream) {
        self.board.count(Counter::RefusedConnections, 1);
        if stream.set_nonblocking(true).is_ok() {
            let mut out = stream;
            turn_away(self.alloc, &self.limits, &mut out);
        }
    }

    // The slots that are given out.
    fn open_slots(&self) -> &[Mutex<SessionSlot<N>>]
        ensures { result.now ≡ take self.now.limits.clients self.now.slots.now }
    {
        let count = self.slots.len().min(self.limits.clients as usize);
        &self.slots[..count]
    }

    // Gives a connection to a free slot, and returns the number of that. If there is none, the client gets a line that says
    // so, and the connection is closed.
    fn admit<R: Wait>(&self, rt: &R, newcomer: Newcomer) -> Option<usize>
        ensures slot { IfSome result (λ number. number < length self.now.slots.now) }
        ensures few { IfSome result (λ number. number < self.now.limits.clients) }
    {
        match free_slot(rt, self.open_slots()) {
            Some(number) => {
                self.slots[number].lock(rt).connect(newcomer);
                Some(number)
            }
            None => {
                self.turn_away(&newcomer.stream);
                None
            }
        }
    }

    // Writes to the connection in the slot of this number that there is no thread for it, closes it, and gives the slot back.
    fn give_up<R: Wait>(&self, rt: &R, number: usize) {
        let Some(slot) = self.slots.get(number) else {
            return;
        };
        self.board.count(Counter::RefusedConnections, 1);
        let mut slot = slot.lock(rt);
        if let Some(newcomer) = slot.connection() {
            lack(self.limits.protocol, &newcomer.stream);
        }
        slot.leave();
    }

    // Closes the connection in the slot of this number, if there is one, and gives the slot back.
    fn dismiss<R: Wait>(&self, rt: &R, number: Option<usize>) {
        let Some(slot) = self.slot_of(number) else {
            return;
        };
        let mut slot = slot.lock(rt);
        drop(slot.connection());
        slot.leave();
    }

    // The slot of a number, if there is one.
    fn slot_of(&self, number: Option<usize>) -> Option<&Mutex<SessionSlot<N>>> {
        self.slots.get(number?)
    }

    // Accepts a connection, and gives it to a free slot. None if the accept failed only for this connection, or if there
    // is no slot.
    fn admit_next<L: Listens, R: Wait>(
        &self,
        rt: &R,
        listener: &mut CountingListener<'_, L>,
    ) -> io::Result<Option<usize>>
        ensures slot { IfOk result (λ admitted. IfSome admitted (λ number. number < length self.now.slots.now)) }
        ensures few { IfOk result (λ admitted. IfSome admitted (λ number. number < self.now.limits.clients)) }
        ensures more { IfOk result (λ admitted. IfSome admitted (λ _. listener.new.accepted ≡ listener.old.accepted + 1)) }
        ensures least { listener.old.accepted ≤ listener.new.accepted }
    {
        match listener.accept() {
            Ok(newcomer) => Ok(self.admit(rt, newcomer)),
            Err(error) => pass(error),
        }
    }
}

// Writes to a connection that there is no thread for it. The listener waits for no client.
fn lack(protocol: Protocol, stream: &TcpStream) {
    if stream.set_nonblocking(true).is_ok() {
        let mut out = stream;
        lack_thread(protocol, &mut out);
    }
}

// No connection, or the error of an accept that ends the server.
fn pass(error: io::Error) -> io::Result<Option<usize>>
    ensures { IfOk result IsNone }
{
    if is_passing(error.kind()) {
        return Ok(None);
    }
    Err(error)
}

/// How a server came to accept no more connections.
#[derive(Drop)]
pub struct Accepted<'a, L: Listens> {
    listener: CountingListener<'a, L>,
    is_told: bool,
}

impl<'a, L: Listens> Accepted<'a, L> {
    fn new(listener: CountingListener<'a, L>, is_told: bool) -> Accepted<'a, L>
        ensures listener { result.listener ≡ listener.entry }
        ensures told { result.is_told ≡ is_told }
    {
        Accepted { listener, is_told }
    }
}

// Counts a connection that has a session from now on.
fn count_begun(board: &Board) {
    board.count(Counter::Connections, 1);
    board.count(Counter::OpenConnections, 1);
}

// Counts a connection whose session has ended. If the server is to end, the listener is woken, so that it hears of that, but not by
// each of many sessions.
fn count_ended<L: Listens>(board: &Board, listener: &L, wakes: &AtomicU64) {
    board.discount(Counter::OpenConnections, 1);
    if board.is_ending() && wakes.fetch_add(1, Ordering::SeqCst) < MOST_WAKES {
        listener.wake();
    }
}

/// Serves the connections of a listener, as many sessions as the limits say, and returns when all have ended. Each
/// session has a thread and a slot of its own, and `serve` runs the one in the slot of a number. A connection without a
/// slot or a thread is closed and not counted. Once the board tells that the server is to end, no more are accepted.
///
/// # Errors
///
/// The listener's.
pub fn accept_clients<
    'a,
    L: Listens + Sync,
    S: Sync,
    N: InboxId + Send + Sync,
    C: Fn(&S, usize) + Sync,
    R: Threads + Wait + Sync,
>(rt: &R, listener: &'a L, door: &Door<'_, N>, shared: &S, serve: &C) -> io::Result<Accepted<'a, L>>
    requires { C.IsAlwaysCallable serve.now }
    ensures { IfOk result (λ accepted. accepted.is_told ≡ false → door.now.limits.sessions ≤ accepted.listener.accepted) }
{
    let (alloc, board, limits, slots) = (door.alloc, door.board, door.limits, door.slots);
    let sessions = limits.sessions;
    let wakes = &AtomicU64::new(0);
    thread::scope(
        thread::scope_env(),
        rt,
        |scope| -> io::Result<Accepted<'_, L>>
            requires { C.IsAlwaysCallable serve.now }
            ensures { IfOk result (λ accepted. accepted.is_told ≡ false → sessions ≤ accepted.listener.accepted) }
        {
            let door = Door::new(alloc, board, limits, slots);
            let mut counting_listener = CountingListener::new(listener);
            let mut count = 0u32;
            for _ in rt.forever() {
                let admitted = door.admit_next(rt, &mut counting_listener)?;
                if board.is_ending() {
                    door.dismiss(rt, admitted);
                    return Ok(Accepted::new(counting_listener, true));
                }
                let Some(number) = admitted else {
                    continue;
                };
                let started = scope.spawn(
                    move ||
                        requires { C.IsAlwaysCallable serve.now }
                    {
                        count_begun(board);
                        serve(shared, number);
                        count_ended(board, listener, wakes);
                    },
                );
                if started.is_err() {
                    door.give_up(rt, number);
                    continue;
                }
                count = count.saturating_add(1);
                if count == sessions {
                    return Ok(Accepted::new(counting_listener, false));
                }
            }
            unreachable!()
        },
    )
}
