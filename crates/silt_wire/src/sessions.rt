// Sessions: lines from a reader, and an answerer's replies to a writer.
ghost use Rattle.std.specs.Prelude.{◌≡◌, ◌≤◌, ◌<◌, ◌++◌, ◌∷◌, [], ℕ, List, Some, true, IfOk, OnOk, OnErr, IfErr, length, string_bytes, take};
ghost use Rattle.std.specs.Io.KnownBytes.{Appends};
ghost use Rattle.silt_wire.specs.LineBuffer.{HoldsBytes};
ghost use Rattle.silt_event.specs.Queries.{AnswersQuery};
ghost use Rattle.silt_wire.specs.Batches.{IsAnswerable, requests, tail_after};
ghost use Rattle.silt_wire.specs.Sessions.{Ends, IsBeginning, IsCut, ServesAll, ServesSome, asks, lines_after, rest_after};

use crate::batch::{Batch, Tail, push_tail};
use crate::line::LineFault;
use crate::line_buffer::LineBuffer;
use silt_event::Answerer;
use std::alloc::{AllocError, Global};
use std::io::{ErrorKind, Read, Write};
use thiserror::Error;

/// The most reads of a session.
const MOST_READS: u64 = (1 << 63) - 1;

/// The length of the buffer that `session` reads into.
const READ_LEN: usize = 4_096;

/// How a session ended.
#[derive(Clone, Copy, Debug, PartialEq, Eq, Error)]
pub enum SessionEnd {
    /// The reader has no more bytes, and all lines have their replies.
    #[error("all lines are answered")]
    End,
    /// A read failed, or there were too many. All lines that were read have their replies.
    #[error("a read failed")]
    ReadFault,
    /// A write failed. The bytes written are a first part of the replies.
    #[error("a write failed")]
    WriteFault,
    /// Out of memory. The bytes written are a first part of the replies.
    #[error("out of memory")]
    NoMemory,
}

/// Replies to the lines of a reader, whose values have `value_len` bytes, until the reader has no more bytes. It hands
/// over the events of all lines of one read in one call, and writes the replies before it reads again. It divides a read
/// after a line that asks for no event, and when the replies may be long. Bytes after the last line feed are no line.
/// An interrupted read or write is tried again.
///
/// If out of memory for a line or for the text of a reply, the session ends. It still writes the replies before that.
pub fn session<A: Answerer, R: Read, W: Write>(
    alloc: Global,
    value_len: usize,
    reader: &mut R,
    writer: &mut W,
    answerer: &mut A,
) -> SessionEnd
    requires { A.value_len answerer.old ≡ value_len }
    ensures ends { Ends (AnswersQuery A.answers A.administers) result value_len
        (record { answerer = answerer.old; remaining = R.remaining reader.old; contents = W.contents writer.old })
        (record { answerer = answerer.new; remaining = R.remaining reader.new; contents = W.contents writer.new }) }
    ensures stays { A.value_len answerer.new ≡ value_len }
{
    let mut buffer = [0; READ_LEN];
    session_over(alloc, value_len, &mut buffer, reader, writer, answerer)
}

/// Replies to the lines of a reader as `session` does, and reads into this buffer. The longer it is, the more lines are
/// handed over together.
pub fn session_over<A: Answerer, R: Read, W: Write>(
    alloc: Global,
    value_len: usize,
    buffer: &mut [u8],
    reader: &mut R,
    writer: &mut W,
    answerer: &mut A,
) -> SessionEnd
    requires len { A.value_len answerer.old ≡ value_len }

    // An empty buffer would look like the end of the reader.
    requires room { 0 < length buffer.old }
    ensures ends { Ends (AnswersQuery A.answers A.administers) result value_len
        (record { answerer = answerer.old; remaining = R.remaining reader.old; contents = W.contents writer.old })
        (record { answerer = answerer.new; remaining = R.remaining reader.new; contents = W.contents writer.new }) }
    ensures stays { A.value_len answerer.new ≡ value_len }
{
    let Ok(mut pending) = LineBuffer::new(alloc) else {
        return SessionEnd::NoMemory;
    };
    for _ in 0..MOST_READS {
        match reader.read(buffer) {
            Ok(0) => return SessionEnd::End,
            Ok(count) => match answer_read(
                alloc,
                value_len,
                &buffer[..count],
                &mut pending,
                writer,
                answerer,
            ) {
                Ok(()) => {}
                Err(end) => return end,
            },
            Err(error) if error.kind() == ErrorKind::Interrupted => {}
            Err(_) => return SessionEnd::ReadFault,
        }
    }
    SessionEnd::ReadFault
}

// Replies to the lines that the bytes of one read end, and writes the replies.
fn answer_read<A: Answerer, W: Write>(
    alloc: Global,
    value_len: usize,
    bytes: &[u8],
    pending: &mut LineBuffer,
    writer: &mut W,
    answerer: &mut A,
) -> Result<(), SessionEnd>
    requires { A.value_len answerer.old ≡ value_len }
    ensures stays { A.value_len answerer.new ≡ value_len }
    ensures holds { OnOk result ((p : List ℕ) → HoldsBytes pending.old p → HoldsBytes pending.new (rest_after p bytes.now)) }
    ensures all { OnOk result ((p : List ℕ) → HoldsBytes pending.old p → ServesAll (AnswersQuery A.answers A.administers) value_len p bytes.now
        answerer.old answerer.new (W.contents writer.old) (W.contents writer.new)) }
    ensures some { OnErr result ((p : List ℕ) → HoldsBytes pending.old p → ServesSome (AnswersQuery A.answers A.administers) value_len p bytes.now
        answerer.old answerer.new (W.contents writer.old) (W.contents writer.new)) }
    ensures cut { IfErr result IsCut }
{
    let mut done = 0;
    while done < bytes.len() {
        let (_, rest) = bytes.split_at(done);
        done += answer_part(alloc, value_len, rest, pending, writer, answerer)?;
    }
    Ok(())
}

// Replies to lines that the bytes end, in one call of the answerer, and writes the replies. Returns how many bytes were
// taken.
fn answer_part<A: Answerer, W: Write>(
    alloc: Global,
    value_len: usize,
    bytes: &[u8],
    pending: &mut LineBuffer,
    writer: &mut W,
    answerer: &mut A,
) -> Result<usize, SessionEnd>
    requires len { A.value_len answerer.old ≡ value_len }
    requires some { 0 < length bytes.now }
    ensures stays { A.value_len answerer.new ≡ value_len }
    ensures count { IfOk result (λ count. (0 < count) × (count ≤ length bytes.now)) }
    ensures holds { IfOk result (λ count. (p : List ℕ) → HoldsBytes pending.old p → HoldsBytes pending.new (rest_after p (take count bytes.now))) }
    ensures all { IfOk result (λ count. (p : List ℕ) → HoldsBytes pending.old p → ServesAll (AnswersQuery A.answers A.administers) value_len p (take count bytes.now)
        answerer.old answerer.new (W.contents writer.old) (W.contents writer.new)) }
    ensures some { OnErr result ((p : List ℕ) → HoldsBytes pending.old p → ServesSome (AnswersQuery A.answers A.administers) value_len p bytes.now
        answerer.old answerer.new (W.contents writer.old) (W.contents writer.new)) }
    ensures cut { IfErr result IsCut }
{
    let mut texts = String::new(alloc);
    let taken = take_part(alloc, value_len, bytes, pending, &mut texts, answerer);
    if !write_texts(writer, texts.as_bytes()) {
        return Err(SessionEnd::WriteFault);
    }
    match taken {
        Ok(count) => Ok(count),
        Err(_) => Err(SessionEnd::NoMemory),
    }
}

/// Writes texts and flushes them, and returns whether that succeeded. An interrupted write is tried again.
pub fn write_texts<W: Write>(writer: &mut W, texts: &[u8]) -> bool
    ensures some { (out : List ℕ) × IsBeginning out texts.now × Appends (W.contents writer.old) (W.contents writer.new) out }
    ensures all { result ≡ true → Appends (W.contents writer.old) (W.contents writer.new) texts.now }
{
    if !write_bytes(writer, texts) {
        return false;
    }
    match writer.flush() {
        Ok(()) => true,
        Err(_) => false,
    }
}

// Writes bytes, and returns whether all are written. An interrupted write is tried again.
fn write_bytes<W: Write>(writer: &mut W, bytes: &[u8]) -> bool
    ensures some { (out : List ℕ) × IsBeginning out bytes.now × Appends (W.contents writer.old) (W.contents writer.new) out }
    ensures all { result ≡ true → Appends (W.contents writer.old) (W.contents writer.new) bytes.now }
{
    let mut done = 0;
    for _ in 0..u64::MAX {
        if done >= bytes.len() {
            return true;
        }
        match writer.write(&bytes[done..]) {
            Ok(0) => return false,
            Ok(count) => done += count,
            Err(error) if error.kind() == ErrorKind::Interrupted => {}
            Err(_) => return false,
        }
    }
    false
}

// Takes bytes until a line has no valid request or the batch is full, and appends the replies to the lines that they end
// to the texts. Returns how many bytes were taken.
//
// If out of memory for a line, the lines before it are still answered. Only then comes the error.
fn take_part<A: Answerer>(
    alloc: Global,
    value_len: usize,
    bytes: &[u8],
    pending: &mut LineBuffer,
    texts: &mut String,
    answerer: &mut A,
) -> Result<usize, AllocError>
    requires len { A.value_len answerer.old ≡ value_len }
    requires some { 0 < length bytes.now }
    ensures stays { A.value_len answerer.new ≡ value_len }
    ensures count { IfOk result (λ count. (0 < count) × (count ≤ length bytes.now)) }
    ensures holds { IfOk result (λ count. (p : List ℕ) → HoldsBytes pending.old p → HoldsBytes pending.new (rest_after p (take count bytes.now))) }
    ensures all { IfOk result (λ count. (p : List ℕ) → HoldsBytes pending.old p → ServesAll (AnswersQuery A.answers A.administers) value_len p (take count bytes.now)
        answerer.old answerer.new (Some (string_bytes texts.old)) (Some (string_bytes texts.new))) }
    ensures some { OnErr result ((p : List ℕ) → HoldsBytes pending.old p → ServesSome (AnswersQuery A.answers A.administers) value_len p bytes.now
        answerer.old answerer.new (Some (string_bytes texts.old)) (Some (string_bytes texts.new))) }
{
    let mut batch = Batch::new(alloc);
    let gathered = gather(alloc, value_len, bytes, pending, &mut batch);
    batch.answer(alloc, texts, answerer)?;
    let gathered = gathered?;
    if let Some(tail) = gathered.tail {
        push_tail(alloc, tail, texts, answerer)?;
    }
    Ok(gathered.count)
}

// What was gathered of some bytes: how many were taken, and the last line, if it asks for no event.
#[derive(Clone, Copy)]
struct Gathered {
    count: usize,
    tail: Option<Tail>,
}

// Takes bytes, and adds the events of the lines that they end to the batch, until a line asks for no event or the
// batch is full. If out of memory, the batch has the events before.
fn gather(
    alloc: Global,
    value_len: usize,
    bytes: &[u8],
    pending: &mut LineBuffer,
    batch: &mut Batch,
) -> Result<Gathered, AllocError>
    requires ready { IsAnswerable value_len batch.old }
    requires some { 0 < length bytes.now }
    ensures ready { IsAnswerable value_len batch.new }
    ensures count { IfOk result (λ gathered. (0 < gathered.count) × (gathered.count ≤ length bytes.now)) }
    ensures holds { IfOk result (λ gathered. (p : List ℕ) → HoldsBytes pending.old p → HoldsBytes pending.new (rest_after p (take gathered.count bytes.now))) }
    ensures all { IfOk result (λ gathered. (p : List ℕ) → HoldsBytes pending.old p
        → requests batch.old ++ asks value_len (lines_after p (take gathered.count bytes.now)) ≡ requests batch.new ++ tail_after gathered.tail) }
    ensures some { (p : List ℕ) → HoldsBytes pending.old p
        → IsBeginning (requests batch.new) (requests batch.old ++ asks value_len (lines_after p bytes.now)) }
{
    let mut count = 0;
    while count < bytes.len() {
        let (_, rest) = bytes.split_at(count);
        let line = gather_line(alloc, value_len, rest, pending, batch)?;
        count += line.count;
        if line.tail.is_some() || batch.is_full() {
            return Ok(Gathered {
                count,
                tail: line.tail,
            });
        }
    }
    Ok(Gathered { count, tail: None })
}

// Takes bytes to the end of a line, and adds the event of the line to the batch; or takes all, if they end no line.
fn gather_line(
    alloc: Global,
    value_len: usize,
    bytes: &[u8],
    pending: &mut LineBuffer,
    batch: &mut Batch,
) -> Result<Gathered, AllocError>
    requires ready { IsAnswerable value_len batch.old }
    requires some { 0 < length bytes.now }
    ensures ready { IsAnswerable value_len batch.new }
    ensures count { IfOk result (λ gathered. (0 < gathered.count) × (gathered.count ≤ length bytes.now)) }
    ensures holds { IfOk result (λ gathered. (p : List ℕ) → HoldsBytes pending.old p → HoldsBytes pending.new (rest_after p (take gathered.count bytes.now))) }
    ensures all { IfOk result (λ gathered. (p : List ℕ) → HoldsBytes pending.old p
        → requests batch.old ++ asks value_len (lines_after p (take gathered.count bytes.now)) ≡ requests batch.new ++ tail_after gathered.tail) }
    ensures err { OnErr result (requests batch.new ≡ requests batch.old) }
{
    let taken = pending.take(bytes)?;
    if !taken.ends_line {
        return Ok(Gathered {
            count: taken.count,
            tail: None,
        });
    }
    let tail = gather_event(alloc, value_len, pending, batch)?;
    pending.clear();
    Ok(Gathered {
        count: taken.count,
        tail,
    })
}

// Adds the event of the line that has ended to the batch, if the line is not blank. If it asks for no event, returns what
// it asks for.
fn gather_event(
    alloc: Global,
    value_len: usize,
    pending: &LineBuffer,
    batch: &mut Batch,
) -> Result<Option<Tail>, AllocError>
    requires { IsAnswerable value_len batch.old }
    ensures ready { IsAnswerable value_len batch.new }
    ensures all { IfOk result (λ tail. (line : List ℕ) → HoldsBytes pending.now line
        → requests batch.old ++ asks value_len (line ∷ []) ≡ requests batch.new ++ tail_after tail) }
    ensures err { OnErr result (requests batch.new ≡ requests batch.old) }
{
    if pending.is_blank() {
        return Ok(None);
    }
    if let Some(admin) = pending.admin() {
        return Ok(Some(Tail::Admin(admin)));
    }
    match pending.parse(alloc, value_len) {
        Ok(event) => {
            batch.push(event, value_len)?;
            Ok(None)
        }
        Err(LineFault::NoMemory) => Err(AllocError),
        Err(fault) => Ok(Some(Tail::Fault(fault))),
    }
}
