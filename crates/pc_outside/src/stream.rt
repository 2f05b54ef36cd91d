//! Sources and sinks of bytes.
ghost use Rattle.std.specs.Prelude.{ℕ, ◌<◌, ◌≤◌, List, length, Option, IfOk, OnErr};
ghost use Rattle.std.specs.Io.KnownBytes.{ReadConsumes, WriteAppends};
ghost use Rattle.pc_word.specs.Count.{Rose};
ghost use Rattle.pc_outside.specs.Stream.{KeepsRest};

use crate::error::Failed;

/// Bytes that come in, in order.
pub trait Source {
    /// The bytes that are left; `None` where the source does not tell.
    ghost left: { Self → Option (List ℕ) };

    /// How many reads have failed.
    ghost faults: { Self → ℕ };

    /// Reads some of the bytes that are left into the start of `into`, and answers how many. Where what
    /// is left is told, 0 comes only at its end. It takes no memory.
    fn read(&mut self, into: &mut [u8]) -> Result<usize, Failed>
        requires { 0 < length into.old }
        ensures bound { IfOk result (λ n. n ≤ length into.old) }
        // At Ok the first bytes of what is left moved into the slice; after Failed all are still left.
        ensures bytes { ReadConsumes (left self.old) (left self.new) result into.new }
        ensures rest { KeepsRest result into.old into.new }
        ensures fault { OnErr result (Rose (faults self.old) (faults self.new)) }
        ensures counted { faults self.old ≤ faults self.new };
}

/// A place that takes bytes, in order.
pub trait Sink {
    /// The bytes that it has taken; `None` where the sink does not tell.
    ghost taken: { Self → Option (List ℕ) };

    /// How many writes have failed.
    ghost faults: { Self → ℕ };

    /// Writes some of the bytes from the start of `from`, at least one, and answers how many. To take
    /// none is a failure. It takes no memory.
    fn write(&mut self, from: &[u8]) -> Result<usize, Failed>
        requires { 0 < length from.now }
        ensures some { IfOk result (λ n. 0 < n) }
        ensures bound { IfOk result (λ n. n ≤ length from.now) }
        // At Ok it has taken that many more of the bytes; after Failed it has taken no more.
        ensures bytes { WriteAppends (taken self.old) (taken self.new) result from.now }
        ensures fault { OnErr result (Rose (faults self.old) (faults self.new)) }
        ensures counted { faults self.old ≤ faults self.new };
}
