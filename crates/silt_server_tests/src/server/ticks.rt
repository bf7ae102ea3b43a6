// How long the reads and the writes of a connection wait.

use crate::server::both_ends;
use silt_session::{Board, Inlet, Outlet, wait_by_ticks};
use std::io::{ErrorKind, Read, Write};
use std::net::{Net, TcpListener, TcpStream};
use std::sync::Wait;
use std::sync::atomic::AtomicU64;
use std::test::Fail;
use std::thread::{self, Threads};
use std::time::{Clock, Duration, Instant};

/// What a read or a write gave, and after how many milliseconds.
type Timed = (Result<usize, ErrorKind>, u64);

// Whether so many milliseconds passed, or up to three seconds more: a machine may be busy.
fn is_about(millis: u64, due: u64) -> bool {
    due <= millis.saturating_add(50) && millis <= due.saturating_add(3_000)
}

// How many milliseconds have passed.
fn millis_of(passed: Duration) -> u64 {
    u64::try_from(passed.as_millis()).unwrap_or(u64::MAX)
}

// A read from a client that sends nothing.
fn read_nothing<R: Net<Listener = TcpListener, Stream = TcpStream> + Wait + Clock>(
    rt: &R,
    board: &Board,
    idle: Option<u32>,
) -> Result<Timed, Fail> {
    let (near, far) = both_ends(rt)?;
    wait_by_ticks(&far)?;
    let began = Instant::now(rt)?;
    let mut inlet = Inlet {
        rt,
        stream: &far,
        board,
        idle,
    };
    let got = match inlet.read(&mut [0; 8]) {
        Ok(count) => Ok(count),
        Err(error) => Err(error.kind()),
    };
    let passed = Instant::now(rt)?.saturating_duration_since(began);
    drop(near);
    Ok((got, millis_of(passed)))
}

#[test]
fn a_read_of_a_silent_client_fails_after_its_time(rt: HostRuntime) -> Result<(), Fail> {
    let (got, millis) = read_nothing(&rt, &Board::new(&rt, false), Some(2))?;
    assert!(rt; got == Err(ErrorKind::WouldBlock) && is_about(millis, 2_000));
    Ok(())
}

// A read that goes on when the server is told to end.
fn read_and_end<R: Net<Listener = TcpListener, Stream = TcpStream> + Threads + Wait + Clock + Sync>(
    rt: &R,
) -> Result<Timed, Fail> {
    let board = Board::new(rt, false);
    let (timed, ()) = thread::join(
        rt,
        || -> Result<Timed, Fail> { read_nothing(rt, &board, None) },
        || {
            thread::sleep(rt, Duration::from_millis(200));
            board.end();
        },
    );
    timed
}

#[test]
fn a_read_ends_soon_after_its_server_is_told_to_end(rt: HostRuntime) -> Result<(), Fail> {
    let (got, millis) = read_and_end(&rt)?;
    assert!(rt; got == Ok(0) && is_about(millis, 1_000));
    Ok(())
}

// Writes the same bytes again and again until a write fails, and returns why.
fn write_on<R: Wait>(outlet: &mut Outlet<'_, R>, bytes: &[u8]) -> Result<usize, ErrorKind> {
    for _ in 0..2_000 {
        if let Err(error) = outlet.write_all(bytes) {
            return Err(error.kind());
        }
    }
    Ok(0)
}

// Writes to a client that takes nothing, until a write fails.
fn write_for_nobody<R: Net<Listener = TcpListener, Stream = TcpStream> + Wait + Clock>(
    rt: &R,
    board: &Board,
    idle: Option<u32>,
) -> Result<Timed, Fail> {
    let (near, far) = both_ends(rt)?;
    wait_by_ticks(&far)?;
    let cut = AtomicU64::new(0);
    let began = Instant::now(rt)?;
    let got = write_on(&mut Outlet::new(rt, &far, &cut, board, idle), &[0; 16_384]);
    let passed = Instant::now(rt)?.saturating_duration_since(began);
    drop(near);
    Ok((got, millis_of(passed)))
}

#[test]
fn a_write_fails_if_nothing_is_taken_for_too_long(rt: HostRuntime) -> Result<(), Fail> {
    let board = Board::new(&rt, false);
    let (got, millis) = write_for_nobody(&rt, &board, Some(2))?;
    assert!(rt; got == Err(ErrorKind::WouldBlock) && is_about(millis, 2_000));
    Ok(())
}

#[test]
fn a_server_that_ends_gives_a_client_two_ticks(rt: HostRuntime) -> Result<(), Fail> {
    let board = Board::new(&rt, false);
    board.end();
    let (got, millis) = write_for_nobody(&rt, &board, None)?;
    assert!(rt; got.is_err() && is_about(millis, 2_000));
    Ok(())
}
