//! Bytes in memory that are given away from the front.
ghost use Rattle.std.specs.Prelude.{◌≡◌, ◌++◌, take, drop};
ghost use Rattle.pc_outside.specs.InMemory.{given_count};

use std::marker::Model;

/// Bytes, and how many of them are gone. Contracts see those that are left.
#[derive(Drop)]
pub(crate) struct Rest {
    bytes: Vec<u8>,
    gone: usize,
}

impl Model for Rest {
    ghost use Rattle.std.specs.Prelude.{ℕ, ◌≤◌, List, length, drop};

    ghost Value = { List ℕ };

    ghost view = { λ a. drop a.gone a.bytes.items };

    ghost invariant = { λ a. a.gone ≤ length a.bytes.items };
}

impl Rest {
    /// All these bytes are left.
    pub(crate) fn new(bytes: Vec<u8>) -> Rest
        ensures { result ≡ bytes.items }
    {
        Rest { bytes, gone: 0 }
    }

    /// Gives as many bytes as are left and fit, and answers how many.
    pub(crate) fn give(&mut self, into: &mut [u8]) -> usize
        ensures count { result ≡ given_count self.old into.old }
        ensures given { into.new ≡ take result self.old ++ drop result into.old }
        ensures left { self.new ≡ drop result self.old }
    {
        let left = &self.bytes.as_slice()[self.gone..];
        let n = into.len().min(left.len());
        into[..n].copy_from_slice(&left[..n]);
        self.gone += n;
        n
    }
}
