// The threads of a server.
ghost use Rattle.std.specs.Prelude.{◌≡◌};

use crossbeam_channel::Receiver;
use silt_desk::{Trace, Wake, Wakes};
use silt_disk::Disk;
use silt_session::{Board, Job, LogId, send_batches};
use std::sync::Wait;
use std::thread::Threads;
use std::{io, thread};

/// What the workers and the writer need, the ways to stop the converter and the merger, and the replier's end of its
/// channel.
#[derive(Drop)]
pub struct Parts<X, D: Disk, T: Trace, N: LogId> {
    pub merger: X,
    pub converter: X,
    pub writer: X,
    pub stops: Wakes,
    pub batches: Receiver<Vec<Job<D, T, N>>>,
}

// Runs the writer and the replier in threads of their own beside the sessions, until these have ended. They close the
// inbox: the writer ends when it is empty, and then the replier. None if the writer's thread cannot be started; then
// there are no sessions. If that of the replier cannot be started, the writer finds its channel disconnected.
fn write_beside<
    S: Sync,
    X: Send + Drop,
    Y: Send + Drop,
    D: Disk,
    T: Trace + Send,
    N: LogId + Send,
    C: Fn(&S, X) -> Y + Sync,
    F: Fn(&S) -> io::Result<()>,
    R: Threads + Wait + Sync,
>(
    rt: &R,
    shared: &S,
    writer: X,
    batches: Receiver<Vec<Job<D, T, N>>>,
    work: &C,
    sessions: &F,
) -> Option<(Y, io::Result<()>)>
    requires work { C.IsAlwaysCallable work.now }
    requires sessions { F.IsAlwaysCallable sessions.now }
{
    thread::scope(
        thread::scope_env(),
        rt,
        move |scope| -> Option<(Y, io::Result<()>)>
            requires { C.IsAlwaysCallable work.now × F.IsAlwaysCallable sessions.now }
        {
            let Ok(handle) = scope.spawn(
                move || -> Y
                    requires { C.IsAlwaysCallable work.now }
                { work(shared, writer) },
            ) else {
                return None;
            };
            let _ = scope.spawn(move || { send_batches(rt, batches) });
            let ended = sessions(shared);
            Some((handle.join(rt), ended))
        },
    )
}

// Does the first job in a thread of its own beside the second one. None if that thread cannot be started, and then neither
// is done, or if the second one gives none.
fn both<
    S: Sync,
    X: Send + Drop,
    Y,
    A: FnOnce(&S) -> X + Send,
    B: FnOnce(&S) -> Option<Y>,
    R: Threads + Wait,
>(rt: &R, shared: &S, first: A, second: B) -> Option<(X, Y)>
    requires first { A.IsAlwaysCallable first }
    requires second { B.IsAlwaysCallable second }
{
    thread::scope(
        thread::scope_env(),
        rt,
        move |scope| -> Option<(X, Y)>
            requires { A.IsAlwaysCallable first × B.IsAlwaysCallable second }
        {
            let Ok(handle) = scope.spawn(
                move || -> X
                    requires { A.IsAlwaysCallable first }
                { first(shared) },
            ) else {
                return None;
            };
            let done = second(shared);
            let ended = handle.join(rt);
            Some((ended, done?))
        },
    )
}

/// Does the care in a thread of its own beside the second job, which is told of behind it: so the care can end. None if the care has no
/// thread, and then neither is done, or if the second one gives none.
pub fn care_beside<S: Sync, Y, A: Fn(&S) + Sync, B: FnOnce(&S) -> Option<Y>, R: Threads + Wait>(
    rt: &R,
    board: &Board,
    shared: &S,
    care: &A,
    second: B,
) -> Option<Y>
    requires care { A.IsAlwaysCallable care.now }
    requires second { B.IsAlwaysCallable second }
{
    let (_, done) = both(
        rt,
        shared,
        move |shared: &S|
            requires { A.IsAlwaysCallable care.now }
        { care(shared) },
        move |shared: &S| -> Option<Y>
            requires { B.IsAlwaysCallable second }
        {
            let done = second(shared);
            board.sessions_ended();
            done
        },
    )?;
    Some(done)
}

/// What came back from the threads: from the merger, the converter and the writer, and from the sessions.
#[derive(Drop)]
pub struct Ended<Y> {
    pub merger: Y,
    pub converter: Y,
    pub writer: Y,
    pub sessions: io::Result<()>,
}

/// Runs the merger, the converter, the writer and the replier beside the sessions, until these have ended and all their
/// requests are done. Then each worker is stopped. The sessions close the inbox. None if the merger, the converter or the
/// writer has no thread; then there are no sessions.
pub fn run_beside<
    S: Sync,
    X: Send + Drop,
    Y: Send + Drop,
    D: Disk,
    T: Trace + Send,
    N: LogId + Send,
    C: Fn(&S, X) -> Y + Sync,
    F: Fn(&S) -> io::Result<()>,
    R: Threads + Wait + Sync,
>(rt: &R, shared: &S, parts: Parts<X, D, T, N>, work: &C, sessions: &F) -> Option<Ended<Y>>
    requires work { C.IsAlwaysCallable work.now }
    requires sessions { F.IsAlwaysCallable sessions.now }
{
    let (merger, converter, writer) = (parts.merger, parts.converter, parts.writer);
    let (stops, batches) = (parts.stops, parts.batches);
    let (stop_converter, stop_merger) = (stops.converter, stops.merger);
    let (merger, (converter, (writer, sessions))) = both(
        rt,
        shared,
        move |shared: &S| -> Y
            requires { C.IsAlwaysCallable work.now }
        { work(shared, merger) },
        move |shared: &S| -> Option<(Y, (Y, io::Result<()>))>
            requires { C.IsAlwaysCallable work.now × F.IsAlwaysCallable sessions.now }
        {
            let done = both(
                rt,
                shared,
                move |shared: &S| -> Y
                    requires { C.IsAlwaysCallable work.now }
                { work(shared, converter) },
                move |shared: &S| -> Option<(Y, io::Result<()>)>
                    requires { C.IsAlwaysCallable work.now × F.IsAlwaysCallable sessions.now }
                {
                    let done = write_beside(rt, shared, writer, batches, work, sessions);
                    let _ = stop_converter.send(rt, Wake::Stop); // the converter may have ended
                    done
                },
            );
            let _ = stop_merger.send(rt, Wake::Stop); // the merger may have ended
            done
        },
    )?;
    Some(Ended {
        merger,
        converter,
        writer,
        sessions,
    })
}

// Whether so many shards say that they run.
fn all_run<R: Wait>(rt: &R, heard: &Receiver<bool>, count: usize) -> bool {
    for _number in 0..count {
        match heard.recv(rt) {
            Ok(true) => {}
            _ => return false,
        }
    }
    true
}

/// Runs each shard in a thread of its own beside the sessions, until these have ended, and then closes the shards, which ends their
/// threads. Each shard says when it runs, or that it cannot. None if one of them cannot; then there are no sessions.
pub fn run_shards<
    S: Sync,
    X: Send + Drop,
    C: Fn(&S, X) + Sync,
    F: Fn(&S) -> io::Result<()>,
    E: Fn(&S),
    R: Threads + Wait + Sync,
>(
    rt: &R,
    shared: &S,
    shards: Vec<X>,
    heard: Receiver<bool>,
    work: &C,
    ends: (&F, &E),
) -> Option<io::Result<()>>
    requires work { C.IsAlwaysCallable work.now }
    requires sessions { F.IsAlwaysCallable ends.0.now }
    requires close { E.IsAlwaysCallable ends.1.now }
{
    let (sessions, close) = ends;
    thread::scope(
        thread::scope_env(),
        rt,
        move |scope| -> Option<io::Result<()>>
            requires { C.IsAlwaysCallable work.now × F.IsAlwaysCallable sessions.now × E.IsAlwaysCallable close.now }
        {
            let count = shards.len();
            let mut started = 0_usize;
            for shard in shards {
                let spawned = scope.spawn(
                    move ||
                        requires { C.IsAlwaysCallable work.now }
                    { work(shared, shard) },
                );
                if spawned.is_ok() {
                    started = started.saturating_add(1);
                }
            }
            let ended = if started == count && all_run(rt, &heard, count) {
                Some(sessions(shared))
            } else {
                None
            };
            close(shared);
            ended
        },
    )
}
