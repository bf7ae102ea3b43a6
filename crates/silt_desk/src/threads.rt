// Calls by two threads.

use std::thread;
use std::thread::Threads;

/// Two calls on one value, by two threads, until both are done. If no thread can be started, the first call is made last.
pub fn join_over<S: Sync, X: Send, Y, A: FnOnce(&S) -> X + Send, B: FnOnce(&S) -> Y, R: Threads>(
    rt: &R,
    shared: &S,
    first: A,
    second: B,
) -> (X, Y)
    requires first { A.IsAlwaysCallable first }
    requires second { B.IsAlwaysCallable second }
{
    thread::join(
        rt,
        move || -> X
            requires { A.IsAlwaysCallable first }
        { first(shared) },
        move || -> Y
            requires { B.IsAlwaysCallable second }
        { second(shared) },
    )
}
