//! Texts written on a two-way stream.

ghost use Rattle.std.specs.Prelude.{◌≡◌, ◌∷◌, [], OnOk, OnErr};
ghost use Rattle.arb_live.specs.declared.event.Event.TheVariants.{Flushed};
ghost use Rattle.arb_live.specs.Events.{Did};
ghost use Rattle.arb_live.specs.Sent.{Counts, Writes};

use crate::two_way::TwoWay;
use arb_script::WriteFault;

/// Writes all the bytes.
pub(crate) fn send<S: TwoWay>(stream: &mut S, bytes: &[u8]) -> Result<(), WriteFault>
    ensures sent { Writes S.told stream.old stream.new result bytes.now }
    ensures counts { Counts S.failed_writes S.failed_reads stream.old stream.new result }
{
    let mut rest = bytes;
    while !rest.is_empty() {
        let Ok(taken) = stream.write(rest) else {
            return Err(WriteFault);
        };
        rest = &rest[taken..];
    }
    Ok(())
}

/// Sends off what was written.
pub(crate) fn flush<S: TwoWay>(stream: &mut S) -> Result<(), WriteFault>
    ensures flushed { OnOk result (Did (S.told stream.old) (S.told stream.new) (Flushed ∷ [])) }
    ensures none { OnErr result (Did (S.told stream.old) (S.told stream.new) []) }
    ensures counts { Counts S.failed_writes S.failed_reads stream.old stream.new result }
{
    match stream.flush() {
        Ok(()) => Ok(()),
        Err(_) => Err(WriteFault),
    }
}
