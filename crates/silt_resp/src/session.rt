// Sessions: commands of a client from a reader, and an answerer's replies to a writer.
ghost use Rattle.std.specs.Prelude.{◌≡◌, ◌≤◌, ◌<◌, ℕ, List, None, Option, Some, IfErr, IfOk, IfSome, OnErr, OnOk, length, take};
ghost use Rattle.std.specs.Io.KnownBytes.{Appends};
ghost use Rattle.silt_event.specs.Queries.{AnswersQuery};
ghost use Rattle.silt_wire.specs.Http.{Guards, IsHttp};
ghost use Rattle.silt_resp.specs.Batches.{HoldsClient, IsBehind};
ghost use Rattle.silt_resp.specs.Sessions.{Client, EndsWith, IsCommandsEnd, RespEnds, ServesCommands, ServesSomeCommands, WritesAtMostFault, client_after, new_client};

use crate::asked_for::{asked_for, visitor_after};
use crate::batch::Batch;
use crate::command_buffer::CommandBuffer;
use crate::settings::{Settings, Visitor};
use silt_event::Answerer;
use silt_wire::{HttpGuard, write_texts};
use std::alloc::{AllocError, Global};
use std::io::{ErrorKind, Read, Write};
use thiserror::Error;

/// The most reads of a session.
const MOST_READS: u64 = (1 << 63) - 1;

/// How a session ended.
#[derive(Clone, Copy, Debug, PartialEq, Eq, Error)]
pub enum RespEnd {
    /// The reader has no more bytes, and all commands have their replies.
    #[error("all commands are answered")]
    End,
    /// A command closed it: a `QUIT`, or bytes that begin no command. It has its reply, and so have all before it.
    #[error("a command closed the session")]
    Closed,
    /// A read failed, or there were too many. All commands that were read have their replies.
    #[error("a read failed")]
    ReadFault,
    /// A write failed. The bytes written are a first part of the replies.
    #[error("a write failed")]
    WriteFault,
    /// Out of memory. The bytes written are a first part of the replies.
    #[error("out of memory")]
    NoMemory,
}

/// What a session keeps of its client.
#[derive(Drop)]
pub struct Talk {
    pub buffer: CommandBuffer,
    pub visitor: Visitor,
}

/// How many bytes were taken, and whether they close the client's stream.
#[derive(Clone, Copy)]
pub struct Gathered {
    pub count: usize,
    pub closes: bool,
}

impl Talk {
    ghost use Rattle.silt_resp.specs.Batches.{AsksFor, GainsAsked, GathersAsked, GathersSomeAsked, HoldsClient, HasLengths, IsBehind, KeepsAsked};
    ghost use Rattle.silt_resp.specs.Buffers.{HoldsCommand};
    ghost use Rattle.silt_resp.specs.Commands.{asked_for, visitor_after};
    ghost use Rattle.silt_resp.specs.Sessions.{Client, new_client};
    ghost use Rattle.silt_resp.specs.Stream.{Command as CommandOf, closes};

    fn new(alloc: Global, settings: &Settings) -> Self
        ensures { HoldsClient result (new_client settings.now) }
    {
        Talk {
            buffer: CommandBuffer::new(alloc),
            visitor: Visitor::new(settings),
        }
    }

    // Takes bytes, and adds the commands that they end to the batch, until one closes the stream or the batch is full. If out of
    // memory, the batch has the commands before.
    fn gather(
        &mut self,
        alloc: Global,
        settings: &Settings,
        bytes: &[u8],
        batch: &mut Batch,
    ) -> Result<Gathered, AllocError>
        requires ready { HasLengths settings.now.value_len batch.old }
        requires unended { batch.old.tail ≡ None }
        requires some { 0 < length bytes.now }
        ensures ready { HasLengths settings.now.value_len batch.new }
        ensures count { IfOk result (λ gathered. (0 < gathered.count) × (gathered.count ≤ length bytes.now)) }
        ensures behind { IfOk result (λ gathered. (client : Client) → HoldsClient self.old client
            → IsBehind settings.now client (take gathered.count bytes.now) gathered.closes self.new) }
        ensures all { IfOk result (λ gathered. (client : Client) → HoldsClient self.old client
            → GathersAsked settings.now client (take gathered.count bytes.now) batch.old batch.new) }
        ensures some { (client : Client) → HoldsClient self.old client → GathersSomeAsked settings.now client bytes.now batch.old batch.new }
    {
        let mut count = 0;
        while count < bytes.len() {
            let (_, rest) = bytes.split_at(count);
            let piece = self.gather_command(alloc, settings, rest, batch)?;
            count += piece.count;
            if piece.closes || batch.is_full() {
                return Ok(Gathered {
                    count,
                    closes: piece.closes,
                });
            }
        }
        Ok(Gathered {
            count,
            closes: false,
        })
    }

    // Takes bytes to the end of a command, and adds it to the batch; or takes all, if they end none.
    fn gather_command(
        &mut self,
        alloc: Global,
        settings: &Settings,
        bytes: &[u8],
        batch: &mut Batch,
    ) -> Result<Gathered, AllocError>
        requires ready { HasLengths settings.now.value_len batch.old }
        requires unended { batch.old.tail ≡ None }
        requires some { 0 < length bytes.now }
        ensures ready { HasLengths settings.now.value_len batch.new }
        ensures count { IfOk result (λ gathered. (0 < gathered.count) × (gathered.count ≤ length bytes.now)) }
        ensures behind { IfOk result (λ gathered. (client : Client) → HoldsClient self.old client
            → IsBehind settings.now client (take gathered.count bytes.now) gathered.closes self.new) }
        ensures all { IfOk result (λ gathered. (client : Client) → HoldsClient self.old client
            → GathersAsked settings.now client (take gathered.count bytes.now) batch.old batch.new) }
        ensures err { OnErr result (KeepsAsked batch.old batch.new) }
    {
        let taken = self.buffer.take(bytes)?;
        if !taken.ends_command {
            return Ok(Gathered {
                count: taken.count,
                closes: false,
            });
        }
        let closes = self.ask(alloc, settings, batch)?;
        Ok(Gathered {
            count: taken.count,
            closes,
        })
    }

    // Adds the command that has ended to the batch, and forgets it. Returns whether it closes the stream; then it is kept.
    fn ask(
        &mut self,
        alloc: Global,
        settings: &Settings,
        batch: &mut Batch,
    ) -> Result<bool, AllocError>
        requires ready { HasLengths settings.now.value_len batch.old }
        requires unended { batch.old.tail ≡ None }
        ensures ready { HasLengths settings.now.value_len batch.new }
        ensures all { IfOk result (λ ends. (command : CommandOf) → HoldsCommand self.old.buffer command
            → AsksFor settings.now command ends self.old self.new batch.old batch.new) }
        ensures err { OnErr result (KeepsAsked batch.old batch.new) }
    {
        let closes = self.push_command(alloc, settings, batch)?;
        if !closes {
            self.buffer.clear();
        }
        Ok(closes)
    }

    // Adds the command that has ended to the batch. Returns whether it closes the stream.
    fn push_command(
        &mut self,
        alloc: Global,
        settings: &Settings,
        batch: &mut Batch,
    ) -> Result<bool, AllocError>
        requires ready { HasLengths settings.now.value_len batch.old }
        requires unended { batch.old.tail ≡ None }
        ensures ready { HasLengths settings.now.value_len batch.new }
        ensures asked { OnOk result ((command : CommandOf) → HoldsCommand self.old.buffer command
            → GainsAsked batch.old batch.new (asked_for settings.now self.old.visitor command)) }
        ensures closes { IfOk result (λ ends. (command : CommandOf) → HoldsCommand self.old.buffer command → ends ≡ closes command) }
        ensures visitor { OnOk result ((command : CommandOf) → HoldsCommand self.old.buffer command
            → self.new.visitor ≡ visitor_after settings.now self.old.visitor command) }
        ensures err { OnErr result (KeepsAsked batch.old batch.new) }
    {
        let command = self.buffer.command();
        let asked = asked_for(alloc, settings, self.visitor, &command)?;
        batch.push(asked, settings.value_len)?;
        let closes = command.closes();
        let visitor = visitor_after(settings, self.visitor, &command);
        drop(command);
        self.visitor = visitor;
        Ok(closes)
    }
}

// Takes bytes until a command closes the stream or the batch is full, does the commands that they end, and appends the replies to
// the texts.
//
// If out of memory for a command, those before it are still done. Only then comes the error.
fn take_part<A: Answerer>(
    alloc: Global,
    settings: &Settings,
    bytes: &[u8],
    talk: &mut Talk,
    texts: &mut Vec<u8>,
    answerer: &mut A,
) -> Result<Gathered, AllocError>
    requires len { A.value_len answerer.old ≡ settings.now.value_len }
    requires some { 0 < length bytes.now }
    ensures stays { A.value_len answerer.new ≡ settings.now.value_len }
    ensures count { IfOk result (λ gathered. (0 < gathered.count) × (gathered.count ≤ length bytes.now)) }
    ensures behind { IfOk result (λ gathered. (client : Client) → HoldsClient talk.old client
        → IsBehind settings.now client (take gathered.count bytes.now) gathered.closes talk.new) }
    ensures all { IfOk result (λ gathered. (client : Client) → HoldsClient talk.old client
        → ServesCommands (AnswersQuery A.answers A.administers) settings.now client (take gathered.count bytes.now)
        answerer.old answerer.new (Some texts.old.items) (Some texts.new.items)) }
    ensures some { OnErr result ((client : Client) → HoldsClient talk.old client → ServesSomeCommands (AnswersQuery A.answers A.administers) settings.now client bytes.now
        answerer.old answerer.new (Some texts.old.items) (Some texts.new.items)) }
{
    let mut batch = Batch::new(alloc);
    let gathered = talk.gather(alloc, settings, bytes, &mut batch);
    batch.answer(alloc, texts, answerer)?;
    gathered
}

// Does commands that the bytes end, in one call of the answerer, and writes the replies. Returns how many bytes were taken.
fn answer_part<A: Answerer, W: Write>(
    alloc: Global,
    settings: &Settings,
    bytes: &[u8],
    talk: &mut Talk,
    writer: &mut W,
    answerer: &mut A,
) -> Result<usize, RespEnd>
    requires len { A.value_len answerer.old ≡ settings.now.value_len }
    requires some { 0 < length bytes.now }
    ensures stays { A.value_len answerer.new ≡ settings.now.value_len }
    ensures count { IfOk result (λ count. (0 < count) × (count ≤ length bytes.now)) }
    ensures holds { IfOk result (λ count. (client : Client) → HoldsClient talk.old client
        → HoldsClient talk.new (client_after settings.now client (take count bytes.now))) }
    ensures all { IfOk result (λ count. (client : Client) → HoldsClient talk.old client
        → ServesCommands (AnswersQuery A.answers A.administers) settings.now client (take count bytes.now)
        answerer.old answerer.new (W.contents writer.old) (W.contents writer.new)) }
    ensures ends { IfErr result (λ end. (client : Client) → HoldsClient talk.old client
        → EndsWith (AnswersQuery A.answers A.administers) end settings.now client bytes.now
        answerer.old answerer.new (W.contents writer.old) (W.contents writer.new)) }
    ensures cut { IfErr result IsCommandsEnd }
{
    let mut texts = Vec::new(alloc);
    let taken = take_part(alloc, settings, bytes, talk, &mut texts, answerer);
    if !write_texts(writer, &texts) {
        return Err(RespEnd::WriteFault);
    }
    match taken {
        Ok(gathered) => {
            if gathered.closes {
                return Err(RespEnd::Closed);
            }
            Ok(gathered.count)
        }
        Err(_) => Err(RespEnd::NoMemory),
    }
}

// Does the commands that the bytes of one read end, and writes the replies.
fn answer_read<A: Answerer, W: Write>(
    alloc: Global,
    settings: &Settings,
    bytes: &[u8],
    talk: &mut Talk,
    writer: &mut W,
    answerer: &mut A,
) -> Result<(), RespEnd>
    requires { A.value_len answerer.old ≡ settings.now.value_len }
    ensures stays { A.value_len answerer.new ≡ settings.now.value_len }
    ensures holds { OnOk result ((client : Client) → HoldsClient talk.old client
        → HoldsClient talk.new (client_after settings.now client bytes.now)) }
    ensures all { OnOk result ((client : Client) → HoldsClient talk.old client → ServesCommands (AnswersQuery A.answers A.administers) settings.now client bytes.now
        answerer.old answerer.new (W.contents writer.old) (W.contents writer.new)) }
    ensures ends { IfErr result (λ end. (client : Client) → HoldsClient talk.old client
        → EndsWith (AnswersQuery A.answers A.administers) end settings.now client bytes.now
        answerer.old answerer.new (W.contents writer.old) (W.contents writer.new)) }
    ensures cut { IfErr result IsCommandsEnd }
{
    let mut done = 0;
    while done < bytes.len() {
        let (_, rest) = bytes.split_at(done);
        done += answer_part(alloc, settings, rest, talk, writer, answerer)?;
    }
    Ok(())
}

// Does the commands of a reader, and writes the replies.
fn session_over<A: Answerer, R: Read, W: Write>(
    alloc: Global,
    settings: &Settings,
    buffer: &mut [u8],
    reader: &mut R,
    writer: &mut W,
    answerer: &mut A,
) -> RespEnd
    requires len { A.value_len answerer.old ≡ settings.now.value_len }
    requires room { 0 < length buffer.old }
    ensures { RespEnds (AnswersQuery A.answers A.administers) result settings.now (new_client settings.now)
        (record { answerer = answerer.old; remaining = R.remaining reader.old; contents = W.contents writer.old })
        (record { answerer = answerer.new; remaining = R.remaining reader.new; contents = W.contents writer.new }) }
{
    let mut talk = Talk::new(alloc, settings);
    for _ in 0..MOST_READS {
        match reader.read(buffer) {
            Ok(0) => return RespEnd::End,
            Ok(count) => match answer_read(
                alloc,
                settings,
                &buffer[..count],
                &mut talk,
                writer,
                answerer,
            ) {
                Ok(()) => {}
                Err(end) => return end,
            },
            Err(error) if error.kind() == ErrorKind::Interrupted => {}
            Err(_) => return RespEnd::ReadFault,
        }
    }
    RespEnd::ReadFault
}

/// Does the commands of a client until the reader has no more bytes or a command closes the session, and
/// writes one reply for each. It reads into this buffer. It hands over the events of all commands of one read in one call, and
/// writes the replies before it reads again. It divides a read only behind an admin command, whose reply is that of its moment, and
/// when the replies may have 65,536 bytes. A command that has not ended is not done. An interrupted read or write is tried again.
///
/// It ends at the first line of an HTTP request, and does nothing.
///
/// If out of memory for a command or for a reply, the session ends. It still writes the replies before that.
pub fn resp_session<A: Answerer, R: Read + Drop, W: Write>(
    alloc: Global,
    settings: &Settings,
    buffer: &mut [u8],
    reader: R,
    writer: &mut W,
    answerer: &mut A,
) -> RespEnd
    requires len { A.value_len answerer.old ≡ settings.now.value_len }

    // An empty buffer would look like the end of the reader.
    requires room { 0 < length buffer.old }
    ensures ends { (given : Option (List ℕ)) × (left : Option (List ℕ)) × Guards (R.remaining reader) given
        × RespEnds (AnswersQuery A.answers A.administers) result settings.now (new_client settings.now)
        (record { answerer = answerer.old; remaining = given; contents = W.contents writer.old })
        (record { answerer = answerer.new; remaining = left; contents = W.contents writer.new }) }

    // A first line that is too long has its error.
    ensures http { IfSome (R.remaining reader) (λ bytes. IsHttp bytes → (answerer.new ≡ answerer.old)
        × WritesAtMostFault (W.contents writer.old) (W.contents writer.new)) }
{
    let mut guard = HttpGuard::new(reader);
    session_over(alloc, settings, buffer, &mut guard, writer, answerer)
}
