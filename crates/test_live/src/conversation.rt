//! A two-way stream that gives one line at a time, and gives no more while an answer is owed.

ghost use Rattle.std.specs.Prelude.{◌≡◌, ◌<◌, [], ◌++◌, length, take, IfOk, OnErr};
ghost use Rattle.std.specs.Io.{ReadsAtMost, WritesAtMost};
ghost use Rattle.arb_model.specs.Renewal.{endless};
ghost use Rattle.arb_live.specs.Events.{asked, puts};
ghost use Rattle.arb_live.specs.Live.{NothingOwed};

use arb_config::Topology;
use arb_live::{Event, LiveFault, TwoWay, live, live_endless};
use std::alloc::{AllocError, Global};
use std::io;
use std::io::ErrorKind;

/// A line with its LF, where it has one, and the answer to it.
pub type Turn<'a> = (&'a [u8], &'a str);

/// A conversation: lines that are given one after another, and the answers that they must get.
#[derive(Drop)]
pub struct Conversation<'a> {
    /// Where memory comes from.
    alloc: Global,
    /// The turns that are to come.
    pub turns: &'a [Turn<'a>],
    /// What is left to give of a line.
    pub line: &'a [u8],
    /// The answer to it.
    pub answer: &'a str,
    /// How many bytes a call gives or takes at most.
    pub step: usize,
    /// How many calls of reading succeed.
    pub reads: usize,
    /// How many bytes are taken in all.
    pub room: usize,
    /// The answers to all lines that were given.
    pub due: Vec<u8>,
    /// The answers that came.
    pub written: Vec<u8>,
    /// How many bytes of them were flushed.
    pub flushed: usize,
    /// What took place.
    pub log: Vec<Event>,
    /// How many calls of reading failed.
    pub failed_reads: u64,
    /// How many calls of writing failed.
    pub failed_writes: u64,
}

/// That input was asked for, and that these bytes came.
fn asked(alloc: Global, bytes: &[u8]) -> Result<Vec<Event>, AllocError>
    ensures { IfOk result (λ events. events.items ≡ asked bytes.now) }
{
    let mut events = Vec::new(alloc);
    events.push(Event::Asked)?;
    for byte in bytes {
        events.push(Event::Got(*byte))?;
    }
    Ok(events)
}

/// That these bytes were written.
fn puts(alloc: Global, bytes: &[u8]) -> Result<Vec<Event>, AllocError>
    ensures { IfOk result (λ events. events.items ≡ puts bytes.now) }
{
    let mut events = Vec::new(alloc);
    for byte in bytes {
        events.push(Event::Put(*byte))?;
    }
    Ok(events)
}

impl<'a> Conversation<'a> {
    /// A conversation of these turns, in which a call gives or takes at most `step` bytes.
    pub fn new(alloc: Global, turns: &'a [Turn<'a>], step: usize) -> Conversation<'a>
        ensures { result.log.items ≡ [] }
    {
        Conversation {
            alloc,
            turns,
            line: &[],
            answer: "",
            step,
            reads: usize::MAX,
            room: usize::MAX,
            due: Vec::new(alloc),
            written: Vec::new(alloc),
            flushed: 0,
            log: Vec::new(alloc),
            failed_reads: 0,
            failed_writes: 0,
        }
    }

    /// Whether all answers that are due came, and were flushed.
    pub fn is_settled(&self) -> bool {
        self.written.as_slice() == self.due.as_slice() && self.flushed == self.written.len()
    }

    /// Gives bytes of the line, or begins the next one.
    fn give(&mut self, buffer: &mut [u8]) -> io::Result<usize>
        ensures bound { ReadsAtMost result buffer.new }
        ensures came { IfOk result (λ count. self.new.log.items ≡ self.old.log.items ++ asked (take count buffer.new)) }
        ensures none { OnErr result (self.new.log.items ≡ self.old.log.items) }
        ensures reads { self.new.failed_reads ≡ self.old.failed_reads }
        ensures writes { self.new.failed_writes ≡ self.old.failed_writes }
    {
        if self.reads == 0 || !self.is_settled() {
            return Err(io::Error::from(ErrorKind::Other));
        }
        if self.line.is_empty()
            && let [(line, answer), turns @ ..] = self.turns
        {
            self.line = line;
            self.answer = answer;
            self.turns = turns;
        }
        let count = self.step.min(buffer.len()).min(self.line.len());
        let (given, left) = self.line.split_at(count);
        if left.is_empty() && (count == 0 || given.ends_with(b"\n")) {
            self.due.extend_from_slice(self.answer.as_bytes())?;
            self.answer = "";
        }
        let events = asked(self.alloc, given)?;
        self.log.extend_from_slice(events.as_slice())?;
        buffer[..count].copy_from_slice(given);
        self.line = left;
        self.reads -= 1;
        Ok(count)
    }

    /// Takes bytes, as long as there is room.
    fn take(&mut self, bytes: &[u8]) -> io::Result<usize>
        ensures bound { WritesAtMost result bytes.now }
        ensures some { IfOk result (λ taken. 0 < length bytes.now → 0 < taken) }
        ensures written { IfOk result (λ taken. self.new.log.items ≡ self.old.log.items ++ puts (take taken bytes.now)) }
        ensures none { OnErr result (self.new.log.items ≡ self.old.log.items) }
        ensures reads { self.new.failed_reads ≡ self.old.failed_reads }
        ensures writes { self.new.failed_writes ≡ self.old.failed_writes }
    {
        let count = self.step.min(bytes.len()).min(self.room);
        if count == 0 && !bytes.is_empty() {
            return Err(io::Error::from(ErrorKind::WriteZero));
        }
        let taken = &bytes[..count];
        self.written.extend_from_slice(taken)?;
        let events = puts(self.alloc, taken)?;
        self.log.extend_from_slice(events.as_slice())?;
        self.room -= count;
        Ok(count)
    }
}

impl TwoWay for Conversation<'_> {
    ghost use Rattle.std.specs.Prelude.{None, Some};

    ghost told = { λ s. record { remaining = None; contents = None; events = Some s.log.items } };

    ghost failed_reads = { λ s. s.failed_reads };

    ghost failed_writes = { λ s. s.failed_writes };

    fn read(&mut self, buffer: &mut [u8]) -> io::Result<usize> {
        match self.give(buffer) {
            Ok(count) => Ok(count),
            Err(error) => {
                self.failed_reads = self.failed_reads.wrapping_add(1);
                Err(error)
            }
        }
    }

    fn write(&mut self, bytes: &[u8]) -> io::Result<usize> {
        match self.take(bytes) {
            Ok(count) => Ok(count),
            Err(error) => {
                self.failed_writes = self.failed_writes.wrapping_add(1);
                Err(error)
            }
        }
    }

    fn flush(&mut self) -> io::Result<()> {
        match self.log.push(Event::Flushed) {
            Ok(()) => {
                self.flushed = self.written.len();
                Ok(())
            }
            Err(error) => {
                self.failed_writes = self.failed_writes.wrapping_add(1);
                Err(io::Error::from(error))
            }
        }
    }
}

/// Holds a conversation with the arbiter of a machine. In what took place nothing is owed at a read.
pub fn hold(conversation: &mut Conversation<'_>, topology: &Topology) -> Result<(), LiveFault>
    requires { conversation.old.log.items ≡ [] }
    ensures { NothingOwed topology.now conversation.new.log.items }
{
    live(conversation, topology)
}

/// Holds one without a limit on orders. In what took place nothing is owed at a read.
pub fn hold_endless(
    conversation: &mut Conversation<'_>,
    topology: &Topology,
) -> Result<(), LiveFault>
    requires { conversation.old.log.items ≡ [] }
    ensures { NothingOwed (endless topology.now) conversation.new.log.items }
{
    live_endless(conversation, topology)
}
