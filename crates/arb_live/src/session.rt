//! A conversation: lines that come in pieces, each answered as soon as it is complete.

ghost use Rattle.std.specs.Prelude.{◌≡◌, ◌+◌, ◌<◌, ◌≤◌, ◌^◌, ◌++◌, [], length, IfOk, OnOk};
ghost use Rattle.arb_live.specs.Live.{opening_talk};
ghost use Rattle.arb_live.specs.Pieces.{Answered, IsAt, IsReady, Replied, after_line, begun_after, first_line, kept, kept_lines, last_line, reported};

use crate::answerer::Answerer;
use crate::heard::Heard;
use crate::orders::Orders;
use crate::sending::flush;
use crate::two_way::TwoWay;
use arb_config::Topology;
use arb_script::{MAX_LINE, WriteFault, usual_line};
use arb_share::text::len_before;
use arrayvec::ArrayVec;

/// How many bytes of a line are kept: one more than it may have, which tells that it is too long.
const KEPT_BYTES: usize = MAX_LINE + 1;

/// What answers lines, and what came of the next line.
#[derive(Drop)]
pub(crate) struct Session {
    /// What answers lines.
    pub answerer: Answerer,
    /// What is kept of the line that isn't complete yet.
    pub begun: ArrayVec<u8, KEPT_BYTES>,
}

/// Keeps more of a line, while there is room.
fn keep(begun: &mut ArrayVec<u8, KEPT_BYTES>, bytes: &[u8])
    ensures { begun.new.items ≡ kept (begun.old.items ++ bytes.now) }
{
    let most = bytes.len().min(KEPT_BYTES - begun.len());
    begun.try_extend_from_slice(&bytes[..most]).unwrap();
}

impl Session {
    /// A conversation with the arbiter of a machine, before all lines.
    pub(crate) fn new(topology: &Topology, orders: Orders) -> Session
        ensures opening { IsAt result.answerer (opening_talk (reported orders topology.now)) }
        ensures ready { IsReady topology.now result.answerer }
        ensures orders { result.answerer.orders ≡ orders }
        ensures empty { result.begun.items ≡ [] }
    {
        Session {
            answerer: Answerer::new(topology, orders),
            begun: ArrayVec::new(),
        }
    }

    /// Takes the first line off the front of bytes, answers it where it is complete, and gives what follows it. A line that
    /// lies whole in the bytes is answered where it lies, without a copy.
    fn take_any_line<'a, S: TwoWay>(
        &mut self,
        topology: &Topology,
        stream: &mut S,
        bytes: &'a [u8],
    ) -> Result<&'a [u8], WriteFault>
        requires ready { IsReady topology.now self.old.answerer }
        requires room { self.old.answerer.lines + 1 < 2 ^ 64 }
        ensures answered { Answered S.told S.failed_reads S.failed_writes topology.now
            stream.old stream.new self.old.answerer self.new.answerer result (kept_lines self.old.begun.items (first_line bytes.now)) }
        ensures begun { OnOk result (self.new.begun.items ≡ begun_after self.old.begun.items (first_line bytes.now)) }
        ensures rest { IfOk result (λ rest. rest.now ≡ after_line bytes.now) }
        ensures counted { self.new.answerer.lines ≤ self.old.answerer.lines + 1 }
    {
        let begun = self.begun.len();
        let (line, rest) = bytes.split_at(len_before(bytes, b'\n'));
        let [_, after @ ..] = rest else {
            keep(&mut self.begun, line);
            return Ok(rest);
        };
        if begun == 0 {
            let line = &line[..line.len().min(KEPT_BYTES)];
            self.answerer.answer_line(topology, stream, line)?;
            return Ok(after);
        }
        keep(&mut self.begun, line);
        self.answerer
            .answer_line(topology, stream, self.begun.as_slice())?;
        self.begun.clear();
        Ok(after)
    }

    /// Takes the first line off the front of bytes, answers it where it is complete, and gives what follows it. A usual line
    /// that lies whole in the bytes is found and read in one pass.
    fn take_line<'a, S: TwoWay>(
        &mut self,
        topology: &Topology,
        stream: &mut S,
        bytes: &'a [u8],
    ) -> Result<&'a [u8], WriteFault>
        requires ready { IsReady topology.now self.old.answerer }
        requires room { self.old.answerer.lines + 1 < 2 ^ 64 }
        ensures answered { Answered S.told S.failed_reads S.failed_writes topology.now
            stream.old stream.new self.old.answerer self.new.answerer result (kept_lines self.old.begun.items (first_line bytes.now)) }
        ensures begun { OnOk result (self.new.begun.items ≡ begun_after self.old.begun.items (first_line bytes.now)) }
        ensures rest { IfOk result (λ rest. rest.now ≡ after_line bytes.now) }
        ensures counted { self.new.answerer.lines ≤ self.old.answerer.lines + 1 }
    {
        let whole = self.begun.is_empty();
        if whole && let Some((given, used)) = usual_line(bytes) {
            self.answerer
                .answer_heard(topology, stream, Heard::Order(given))?;
            return Ok(&bytes[used..]);
        }
        self.take_any_line(topology, stream, bytes)
    }

    /// Takes the next bytes, and answers the lines that they complete.
    fn take_bytes<S: TwoWay>(
        &mut self,
        topology: &Topology,
        stream: &mut S,
        bytes: &[u8],
    ) -> Result<(), WriteFault>
        requires ready { IsReady topology.now self.old.answerer }
        requires room { self.old.answerer.lines + length bytes.now < 2 ^ 64 }
        ensures answered { Answered S.told S.failed_reads S.failed_writes topology.now
            stream.old stream.new self.old.answerer self.new.answerer result (kept_lines self.old.begun.items bytes.now) }
        ensures begun { OnOk result (self.new.begun.items ≡ begun_after self.old.begun.items bytes.now) }
        ensures counted { self.new.answerer.lines ≤ self.old.answerer.lines + length bytes.now }
    {
        let mut rest = bytes;
        while !rest.is_empty() {
            rest = self.take_line(topology, stream, rest)?;
        }
        Ok(())
    }

    /// Answers what came of a last line without LF, where there is any.
    fn finish<S: TwoWay>(&mut self, topology: &Topology, stream: &mut S) -> Result<(), WriteFault>
        requires ready { IsReady topology.now self.old.answerer }
        requires room { self.old.answerer.lines + 1 < 2 ^ 64 }
        ensures { Answered S.told S.failed_reads S.failed_writes topology.now
            stream.old stream.new self.old.answerer self.new.answerer result (last_line self.old.begun.items) }
    {
        if self.begun.is_empty() {
            return Ok(());
        }
        self.answerer
            .answer_line(topology, stream, self.begun.as_slice())
    }

    /// Takes the next bytes, answers the lines that they complete, and flushes the answers.
    pub(crate) fn reply<S: TwoWay>(
        &mut self,
        topology: &Topology,
        stream: &mut S,
        bytes: &[u8],
    ) -> Result<(), WriteFault>
        requires ready { IsReady topology.now self.old.answerer }
        requires room { self.old.answerer.lines + length bytes.now < 2 ^ 64 }
        ensures replied { Replied S.told S.failed_reads S.failed_writes topology.now
            stream.old stream.new self.old.answerer self.new.answerer result (kept_lines self.old.begun.items bytes.now) }
        ensures begun { OnOk result (self.new.begun.items ≡ begun_after self.old.begun.items bytes.now) }
        ensures counted { self.new.answerer.lines ≤ self.old.answerer.lines + length bytes.now }
    {
        self.take_bytes(topology, stream, bytes)?;
        flush(stream)
    }

    /// Answers what came of a last line without LF, where there is any, and flushes the answer.
    pub(crate) fn reply_last<S: TwoWay>(
        &mut self,
        topology: &Topology,
        stream: &mut S,
    ) -> Result<(), WriteFault>
        requires ready { IsReady topology.now self.old.answerer }
        requires room { self.old.answerer.lines + 1 < 2 ^ 64 }
        ensures { Replied S.told S.failed_reads S.failed_writes topology.now
            stream.old stream.new self.old.answerer self.new.answerer result (last_line self.old.begun.items) }
    {
        self.finish(topology, stream)?;
        flush(stream)
    }
}
