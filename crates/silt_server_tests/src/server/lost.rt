// A session that gets no reply to a command ends, and its client is sent nothing more: the command
// may have been done.

use crate::server::both_ends;
use silt_event::{Event, Facts, Reply};
use silt_session::{AskBy, Asking, Board, Client, Outlet, Unanswered};
use silt_wire::{SessionEnd, session};
use std::alloc::Global;
use std::io::{self, Read};
use std::net::{Net, TcpListener, TcpStream};
use std::sync::Wait;
use std::sync::atomic::AtomicU64;
use std::test::Fail;
use std::time::Clock;

/// What comes back for events.
#[derive(Clone, Copy)]
enum Back {
    /// So many replies that no key has a value.
    Absent(usize),
    Nothing(Unanswered),
}

/// What comes back if facts are asked for.
const FACTS: Facts = Facts {
    stores: 1,
    failed: 0,
    commands: 3,
    charge: 2,
    capacity: 8,
    generation: 0,
    frozen_logs: 0,
    hash_stores: 0,
    sorted_entries: 0,
    converted_slots: 0,
    merge_steps: 0,
};

// What comes back for one event.
fn reply_of(back: Back) -> Result<Reply<()>, Unanswered> {
    match back {
        Back::Absent(_) => Ok(Reply::Absent),
        Back::Nothing(why) => Err(why),
    }
}

// What comes back for events that a session asks together.
fn replies_of(alloc: Global, back: Back) -> Result<Vec<Reply<()>>, Unanswered> {
    match back {
        Back::Absent(count) => absent(alloc, count),
        Back::Nothing(why) => Err(why),
    }
}

// So many replies that no key has a value.
fn absent(alloc: Global, count: usize) -> Result<Vec<Reply<()>>, Unanswered> {
    let mut replies = Vec::new(alloc);
    for _ in 0..count {
        if replies.push(Reply::Absent).is_err() {
            return Err(Unanswered::NoMemory);
        }
    }
    Ok(replies)
}

// How a session ends at this end of a connection if events are asked in this way: those of all lines together if it
// pipelines, and else one by one.
fn end_of<A: Asking, R: Wait + Clock>(
    rt: &R,
    alloc: Global,
    stream: &TcpStream,
    asking: A,
    pipelines: bool,
    lines: &[u8],
) -> SessionEnd
    requires { A.can_ask asking }
{
    let cut = AtomicU64::new(0);
    let board = Board::new(rt, false);
    let mut client = Client::new(2, asking, pipelines, &cut, rt, &board);
    let mut outlet = Outlet::new(rt, stream, &cut, &board, None);
    let mut reader = lines;
    session(alloc, 2, &mut reader, &mut outlet, &mut client)
}

// How a session ends at this end of a connection, which is then closed, if this comes back.
fn end_with<R: Wait + Clock>(
    rt: &R,
    alloc: Global,
    stream: TcpStream,
    back: Back,
    pipelines: bool,
    lines: &[u8],
) -> SessionEnd {
    let one = |_event: Event, _told: &u64| -> (Result<Reply<()>, Unanswered>, u64) {
        (reply_of(back), 0)
    };
    let all = |_events: Vec<Event>, _told: &u64| -> (Result<Vec<Reply<()>>, Unanswered>, u64) {
        (replies_of(alloc, back), 0)
    };
    let facts = || -> Facts { FACTS };
    let asking = AskBy {
        one: &one,
        all: &all,
        facts: &facts,
        told: 0_u64,
    };
    end_of(rt, alloc, &stream, asking, pipelines, lines)
}

// How the session ends if this comes back. Appends the bytes that the other end of the connection
// gets.
fn sent<R: Net<Listener = TcpListener, Stream = TcpStream> + Wait + Clock>(
    rt: &R,
    alloc: Global,
    back: Back,
    pipelines: bool,
    lines: &[u8],
    got: &mut Vec<u8>,
) -> io::Result<SessionEnd> {
    let (mut near, far) = both_ends(rt)?;
    let end = end_with(rt, alloc, far, back, pipelines, lines);
    near.read_to_end(got)?;
    Ok(end)
}

// Whether the session ends so, and its client gets these bytes.
fn ends_so<R: Net<Listener = TcpListener, Stream = TcpStream> + Wait + Clock>(
    rt: &R,
    alloc: Global,
    back: Back,
    pipelines: bool,
    lines: &[u8],
    due: (SessionEnd, &[u8]),
) -> io::Result<bool> {
    let mut got = Vec::new(alloc);
    let end = sent(rt, alloc, back, pipelines, lines, &mut got)?;
    Ok(end == due.0 && got.as_slice() == due.1)
}

const TWO_GETS: &[u8] = b"get =a\nget =b\n";

#[test]
fn sends_nothing_once_a_reply_did_not_come(rt: HostRuntime) -> Result<(), Fail> {
    let back = Back::Nothing(Unanswered::Lost);
    let due = (SessionEnd::WriteFault, b"".as_slice());
    for pipelines in [false, true] {
        assert!(rt;
            ends_so(
                &rt,
                rt.alloc(),
                back,
                pipelines,
                b"put =a 0102\nget =a\ninfo\n",
                due
            )?
        );
    }
    Ok(())
}

#[test]
fn sends_the_replies_that_come(rt: HostRuntime) -> Result<(), Fail> {
    let due = (SessionEnd::End, b"absent\nabsent\n".as_slice());
    for pipelines in [false, true] {
        assert!(rt; ends_so(&rt, rt.alloc(), Back::Absent(2), pipelines, TWO_GETS, due)?);
    }
    Ok(())
}

#[test]
fn sends_nothing_if_too_few_replies_come(rt: HostRuntime) -> Result<(), Fail> {
    let due = (SessionEnd::WriteFault, b"".as_slice());
    assert!(rt; ends_so(&rt, rt.alloc(), Back::Absent(1), true, TWO_GETS, due)?);
    Ok(())
}

#[test]
fn goes_on_if_memory_runs_out(rt: HostRuntime) -> Result<(), Fail> {
    let back = Back::Nothing(Unanswered::NoMemory);
    let due = (
        SessionEnd::End,
        b"refused 6 NoMemory\nrefused 6 NoMemory\n".as_slice(),
    );
    for pipelines in [false, true] {
        assert!(rt; ends_so(&rt, rt.alloc(), back, pipelines, TWO_GETS, due)?);
    }
    Ok(())
}
