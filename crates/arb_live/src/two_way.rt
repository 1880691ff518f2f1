//! A stream that is read and written.

ghost use Rattle.std.specs.Prelude.{◌≡◌, ◌⊎◌, ◌<◌, ℕ, [], ◌∷◌, length, take, IfOk, OnOk, OnErr};
ghost use Rattle.std.specs.Io.KnownBytes.{IsAtEnd};
ghost use Rattle.std.specs.Io.{ReadsAtMost, WritesAtMost};
ghost use Rattle.arb_live.specs.declared.event.Event.TheVariants.{Flushed};
ghost use Rattle.arb_live.specs.Events.{Told, Did, asked, puts};
ghost use Rattle.arb_live.specs.Sent.{Counts};

use std::io;

/// A reader and a writer in one, so that a contract can say what was read and what was written in turn.
pub trait TwoWay {
    /// What it tells of itself.
    ghost told: { Self → Told };

    /// A number that changes at each failed call of reading, and only there.
    ghost failed_reads: { Self → ℕ };

    /// A number that changes at each failed call of writing or flushing, and only there.
    ghost failed_writes: { Self → ℕ };

    /// Reads some of the bytes that are left into the front of `buffer`, and says how many: 0 only at the end, or
    /// where there is no room. A call that fails may have asked.
    fn read(&mut self, buffer: &mut [u8]) -> io::Result<usize>
        ensures bound { ReadsAtMost result buffer.new }
        ensures came { IfOk result (λ count. Did (told self.old) (told self.new) (asked (take count buffer.new))) }
        ensures end { IfOk result (λ count. count ≡ 0 → 0 < length buffer.new → IsAtEnd (told self.new).remaining) }
        ensures none { OnErr result (Did (told self.old) (told self.new) (asked []) ⊎ Did (told self.old) (told self.new) []) }
        ensures counts { Counts failed_reads failed_writes self.old self.new result };

    /// Takes some of the bytes from the front, and says how many. Taking none is a failure, unless there are none.
    fn write(&mut self, bytes: &[u8]) -> io::Result<usize>
        ensures bound { WritesAtMost result bytes.now }
        ensures some { IfOk result (λ taken. 0 < length bytes.now → 0 < taken) }
        ensures written { IfOk result (λ taken. Did (told self.old) (told self.new) (puts (take taken bytes.now))) }
        ensures none { OnErr result (Did (told self.old) (told self.new) []) }
        ensures counts { Counts failed_writes failed_reads self.old self.new result };

    /// Sends off what was written.
    fn flush(&mut self) -> io::Result<()>
        ensures flushed { OnOk result (Did (told self.old) (told self.new) (Flushed ∷ [])) }
        ensures none { OnErr result (Did (told self.old) (told self.new) []) }
        ensures counts { Counts failed_writes failed_reads self.old self.new result };
}
