// What the writer, the two workers and the replier need, and the ways to wake them.
ghost use Rattle.std.specs.Prelude.{◌≡◌, ◌++◌, ◌∷◌, [], List, IfOk, IfSome};
ghost use Rattle.silt_desk.specs.Seats.{SeatState};

use crossbeam_channel::{Receiver, Sender};
use silt_desk::{DeskId, Seat, Trace, Wake, Wakes};
use silt_disk::Disk;
use silt_session::{Job, LogId, replier_channel, room_channel};
use std::alloc::{AllocError, Global};

// How many messages a worker's channel holds. The writer, the other worker and the thread that stops it each send one
// at a time, so a send never waits for room. The channel allocates its memory when it is made, so a send is never out
// of memory.
const MESSAGES: usize = 4;

/// What a worker needs: its seat, where it is woken, how it wakes the other one, and how it tells the writer that there
/// may be room.
#[derive(Drop)]
pub struct Worker<N: DeskId> {
    pub seat: Seat<N>,
    pub wakes: Receiver<Wake>,
    pub other: Sender<Wake>,
    pub room: Sender<Wake>,
}

/// What the writer needs: its seat, how it wakes the workers, where it hears that there may be room, and its end of the
/// channel to the replier.
#[derive(Drop)]
pub struct WriterParts<D: Disk, T: Trace, N: DeskId + LogId> {
    pub seat: Seat<N>,
    pub wakes: Wakes,
    pub heard: Receiver<Wake>,
    pub replier: Sender<Vec<Job<D, T, N>>>,
}

/// What the writer and the workers need, the ways to stop the converter and the merger, and the replier's end of its
/// channel.
#[derive(Drop)]
pub struct Workers<D: Disk, T: Trace, N: DeskId + LogId> {
    pub writer: WriterParts<D, T, N>,
    pub converter: Worker<N>,
    pub merger: Worker<N>,
    pub stops: Wakes,
    pub batches: Receiver<Vec<Job<D, T, N>>>,
}

impl<D: Disk, T: Trace, N: DeskId + LogId> Workers<D, T, N> {
    /// The writer and the workers, with the last three of these seats. None if there are fewer than three, or if out of
    /// memory for the channels.
    pub fn new(alloc: Global, seats: Vec<Seat<N>>) -> Option<Workers<D, T, N>>
        ensures { IfSome result (λ workers. (others : List SeatState) × (seats.items ≡ others ++ workers.writer.seat ∷ workers.converter.seat ∷ workers.merger.seat ∷ [])) }
    {
        let mut seats = seats;
        let merger = seats.pop()?;
        let converter = seats.pop()?;
        let writer = seats.pop()?;
        Workers::seated(alloc, writer, converter, merger).ok()
    }

    // With a channel to the converter, one to the merger, one to the writer and one to the replier.
    fn seated(
        alloc: Global,
        writer: Seat<N>,
        converter: Seat<N>,
        merger: Seat<N>,
    ) -> Result<Workers<D, T, N>, AllocError>
        ensures { IfOk result (λ workers. (workers.writer.seat ≡ writer) × (workers.converter.seat ≡ converter) × (workers.merger.seat ≡ merger)) }
    {
        let (first, second) = two_ways(alloc)?;
        let (room, heard) = room_channel(alloc)?;
        let by_merger = room.clone()?;
        let (replier, batches) = replier_channel(alloc)?;
        Ok(Workers {
            writer: WriterParts {
                seat: writer,
                wakes: Wakes {
                    converter: first.by_writer,
                    merger: second.by_writer,
                },
                heard,
                replier,
            },
            converter: Worker {
                seat: converter,
                wakes: first.wakes,
                other: second.by_other,
                room,
            },
            merger: Worker {
                seat: merger,
                wakes: second.wakes,
                other: first.by_other,
                room: by_merger,
            },
            stops: Wakes {
                converter: first.by_stop,
                merger: second.by_stop,
            },
            batches,
        })
    }
}

// The way to a worker: where it is woken, and one sender for each thread that wakes it.
#[derive(Drop)]
struct Way {
    wakes: Receiver<Wake>,
    by_other: Sender<Wake>,
    by_writer: Sender<Wake>,
    by_stop: Sender<Wake>,
}

// A way to one worker.
fn make_way(alloc: Global) -> Result<Way, AllocError> {
    let (by_stop, wakes) = crossbeam_channel::bounded(alloc, MESSAGES)?;
    let by_other = by_stop.clone()?;
    let by_writer = by_stop.clone()?;
    Ok(Way {
        wakes,
        by_other,
        by_writer,
        by_stop,
    })
}

// A way to each of two workers.
fn two_ways(alloc: Global) -> Result<(Way, Way), AllocError> {
    let first = make_way(alloc)?;
    let second = make_way(alloc)?;
    Ok((first, second))
}
