//! Sources and sinks of bytes.
ghost use Rattle.std.specs.Prelude.{◌≡◌, ◌<◌, ℕ, List, Option, length, IfOk, OnOk};
ghost use Rattle.std.specs.Io.{ReadsAtMost, WritesAtMost};
ghost use Rattle.std.specs.Io.KnownBytes.{Keeps, ReadConsumes, WriteAppends};
ghost use Rattle.der_core.specs.Words.{CountsFailure};

use crate::error::Result;

/// A source of bytes. Of one that doesn't report which bytes it will give, as standard input, nothing is said of them.
pub trait Source {
    /// The bytes that reads will still give, if they are reported.
    ghost remaining: { Self → Option (List ℕ) };

    /// How many calls have failed.
    ghost failures: { Self → ℕ };

    /// Puts the next bytes into the front of the buffer, and returns how many. If it is 0 and the buffer isn't empty,
    /// none is left. An error is counted, and takes no byte.
    fn read(&mut self, buf: &mut [u8]) -> Result<usize>
        ensures bound { ReadsAtMost result buf.new }
        ensures bytes { ReadConsumes (remaining self.old) (remaining self.new) result buf.new }
        ensures faults { CountsFailure (failures self.old) (failures self.new) result };

    /// How many calls have failed. At its greatest value the count stays.
    fn faults(&self) -> u64
        ensures { result ≡ failures self.now };
}

/// A sink of bytes. Of one that doesn't report which bytes it took, as standard output, nothing is said of them.
pub trait Sink {
    /// The bytes that were taken, if they are reported.
    ghost contents: { Self → Option (List ℕ) };

    /// How many calls have failed.
    ghost failures: { Self → ℕ };

    /// All that was taken was flushed.
    ghost is_flushed: { Self → Type 0 };

    /// Takes a beginning of the bytes and returns its length: at least 1, unless there are no bytes. An error is
    /// counted, and takes no byte.
    fn write(&mut self, bytes: &[u8]) -> Result<usize>
        ensures bound { WritesAtMost result bytes.now }
        ensures progress { 0 < length bytes.now → IfOk result (λ n. 0 < n) }
        ensures bytes { WriteAppends (contents self.old) (contents self.new) result bytes.now }
        ensures faults { CountsFailure (failures self.old) (failures self.new) result };

    /// Takes no byte. After Ok all that was taken is flushed. An error is counted.
    fn flush(&mut self) -> Result<()>
        ensures bytes { Keeps (contents self.old) (contents self.new) }
        ensures faults { CountsFailure (failures self.old) (failures self.new) result }
        ensures flushed { OnOk result (is_flushed self.new) };

    /// How many calls have failed. At its greatest value the count stays.
    fn faults(&self) -> u64
        ensures { result ≡ failures self.now };
}

/// A sink that is closed in the end, as a file is.
pub trait Close: Sink {
    /// It was closed in this state: nothing is written to it any more.
    ghost is_closed: { Self → Type 0 };

    /// Closes the sink.
    fn close(self)
        ensures { is_closed self };
}
