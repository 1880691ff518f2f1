//! A live arbiter.

ghost use Rattle.std.specs.Prelude.{◌≡◌, ◌≢◌, ◌⊎◌, ℕ, List, IfOk, IfSome, IsErrOf, OnOk};
ghost use Rattle.std.specs.Io.KnownBytes.{Appends, IsAtEnd};
ghost use Rattle.arb_share.specs.Text.{lines_of};
ghost use Rattle.arb_model.specs.Renewal.{endless};
ghost use Rattle.arb_live.specs.declared.event.Event.{Event as StreamEvent};
ghost use Rattle.arb_live.specs.Events.{Did};
ghost use Rattle.arb_live.specs.Live.{EndsWith, NothingOwed, live_report};
ghost use Rattle.arb_live.specs.Pieces.{reported};

use crate::fault::LiveFault;
use crate::orders::Orders;
use crate::session::Session;
use crate::two_way::TwoWay;
use arb_config::Topology;
use arb_script::WriteFault;

/// How many bytes are read at a time.
const CHUNK_BYTES: usize = 4_096;

/// How often input is asked for at most. At a million reads a second it is reached after seventy years.
const MAX_READS: u64 = 1 << 51;

/// Answers each line of a stream as it comes, until its end, with a limit on orders or without.
fn talk<S: TwoWay>(stream: &mut S, topology: &Topology, orders: Orders) -> Result<(), LiveFault>
    ensures talked { (events : List StreamEvent) × Did (S.told stream.old) (S.told stream.new) events
        × NothingOwed (reported orders topology.now) events × EndsWith (reported orders topology.now) result events }
    ensures written { OnOk result (IfSome (S.told stream.old).remaining (λ input.
        Appends (S.told stream.old).contents (S.told stream.new).contents (live_report (reported orders topology.now) (lines_of input)))) }
    ensures end { OnOk result (IfSome (S.told stream.old).remaining (λ _. IsAtEnd (S.told stream.new).remaining)) }
    ensures read { IsErrOf result LiveFault.Read → S.failed_reads stream.new ≢ S.failed_reads stream.old }
    ensures read_else { IsErrOf result LiveFault.Read ⊎ (S.failed_reads stream.new ≡ S.failed_reads stream.old) }
    ensures write { IsErrOf result LiveFault.Write → S.failed_writes stream.new ≢ S.failed_writes stream.old }
    ensures write_else { IsErrOf result LiveFault.Write ⊎ (S.failed_writes stream.new ≡ S.failed_writes stream.old) }
{
    let mut session = Session::new(topology, orders);
    let mut chunk = [0; CHUNK_BYTES];
    for _turn in 0..MAX_READS {
        let Ok(length) = stream.read(&mut chunk) else {
            return Err(LiveFault::Read);
        };
        if length == 0 {
            return match session.reply_last(topology, stream) {
                Ok(()) => Ok(()),
                Err(WriteFault) => Err(LiveFault::Write),
            };
        }
        let Ok(()) = session.reply(topology, stream, &chunk[..length]) else {
            return Err(LiveFault::Write);
        };
    }
    Err(LiveFault::TooManyReads)
}

/// Answers each line of a stream as it comes, until its end. An order gets its line of the report that
/// [`run`](arb_script::run) writes. A line whose only word is `cores` gets the owner table and a line `end`. A faulty line
/// gets `error: ` and its fault, as `error: line 2: S2 unknown order`, and changes nothing. A skipped one gets nothing.
/// Lines are numbered from 1, and each is counted. A last line without LF counts. All answers are written and flushed
/// before more input is asked for.
///
/// It takes no memory.
///
/// # Errors
/// [`LiveFault::Read`] where a call of reading failed; the complete lines are answered. [`LiveFault::Write`] where a call of
/// writing or flushing failed; a prefix of the answers was written. [`LiveFault::TooManyReads`] after 2^51 reads.
///
/// ```
/// let mut stream = Both::new(b"0.0 join\ncores\n".as_slice(), Vec::new(alloc));
/// live(&mut stream, &topology)?;
/// ```
pub fn live<S: TwoWay>(stream: &mut S, topology: &Topology) -> Result<(), LiveFault>
    // what took place: nothing is owed at a read, and what holds in the end
    ensures talked { (events : List StreamEvent) × Did (S.told stream.old) (S.told stream.new) events
        × NothingOwed topology.now events × EndsWith topology.now result events }

    // at the end of the input what is written is the live report of its lines
    ensures written { OnOk result (IfSome (S.told stream.old).remaining (λ input.
        Appends (S.told stream.old).contents (S.told stream.new).contents (live_report topology.now (lines_of input)))) }
    ensures end { OnOk result (IfSome (S.told stream.old).remaining (λ _. IsAtEnd (S.told stream.new).remaining)) }

    // a fault of reading or writing comes where a call of this conversation failed, and only there
    ensures read { IsErrOf result LiveFault.Read → S.failed_reads stream.new ≢ S.failed_reads stream.old }
    ensures read_else { IsErrOf result LiveFault.Read ⊎ (S.failed_reads stream.new ≡ S.failed_reads stream.old) }
    ensures write { IsErrOf result LiveFault.Write → S.failed_writes stream.new ≢ S.failed_writes stream.old }
    ensures write_else { IsErrOf result LiveFault.Write ⊎ (S.failed_writes stream.new ≡ S.failed_writes stream.old) }
{
    talk(stream, topology, Orders::Limited)
}

/// Answers each line of a stream as it comes, as [`live`] does, but orders have no limit: no answer says `full`. The number
/// of orders that the machine's text allows plays no part.
///
/// It takes no memory, however many orders come.
///
/// # Errors
/// Those of [`live`].
///
/// ```
/// let mut stream = Both::new(b"0.0 join\n0.0 status\n".as_slice(), Vec::new(alloc));
/// live_endless(&mut stream, &topology)?;
/// ```
pub fn live_endless<S: TwoWay>(stream: &mut S, topology: &Topology) -> Result<(), LiveFault>
    // what took place: nothing is owed at a read, and what holds in the end
    ensures talked { (events : List StreamEvent) × Did (S.told stream.old) (S.told stream.new) events
        × NothingOwed (endless topology.now) events × EndsWith (endless topology.now) result events }

    // at the end of the input what is written is the live report of its lines, of the machine without a limit
    ensures written { OnOk result (IfSome (S.told stream.old).remaining (λ input.
        Appends (S.told stream.old).contents (S.told stream.new).contents (live_report (endless topology.now) (lines_of input)))) }
    ensures end { OnOk result (IfSome (S.told stream.old).remaining (λ _. IsAtEnd (S.told stream.new).remaining)) }

    // a fault of reading or writing comes where a call of this conversation failed, and only there
    ensures read { IsErrOf result LiveFault.Read → S.failed_reads stream.new ≢ S.failed_reads stream.old }
    ensures read_else { IsErrOf result LiveFault.Read ⊎ (S.failed_reads stream.new ≡ S.failed_reads stream.old) }
    ensures write { IsErrOf result LiveFault.Write → S.failed_writes stream.new ≢ S.failed_writes stream.old }
    ensures write_else { IsErrOf result LiveFault.Write ⊎ (S.failed_writes stream.new ≡ S.failed_writes stream.old) }
{
    talk(stream, topology, Orders::Endless)
}
