ghost use Rattle.std.specs.Prelude.{◌≡◌, ◌<◌, ◌≤◌, ℕ, List, [], take, drop, length, Option, Some, is_err, IfOk, OnErr};
ghost use Rattle.sdb_io.specs.Faults.{CountsFault};

use thiserror::Error;

/// The source couldn't give its next bytes.
#[derive(Clone, Copy, Debug, PartialEq, Eq, Error)]
#[error("the source failed")]
pub struct SourceFault;

/// Where a script's bytes come from.
pub trait Source {
    // the bytes that are left, where they can be observed
    ghost left: { Self → Option (List ℕ) };

    // how many calls have failed
    ghost fault_count: { Self → ℕ };

    /// Moves the next bytes to the front of `into`, and says how many; 0 is the end, where `into` isn't
    /// empty. After a fault the same bytes are left.
    fn take(&mut self, into: &mut [u8]) -> Result<usize, SourceFault>
        ensures within { IfOk result (λ n. n ≤ length into.old) }
        ensures moved { (bytes : List ℕ) → left self.old ≡ Some bytes → IfOk result (λ n. (n ≤ length bytes)
            × (take n into.new ≡ take n bytes) × (left self.new ≡ Some (drop n bytes))) }
        ensures end { (bytes : List ℕ) → left self.old ≡ Some bytes → 0 < length into.old
            → IfOk result (λ n. n ≡ 0 → bytes ≡ []) }
        ensures kept { (bytes : List ℕ) → left self.old ≡ Some bytes → OnErr result (left self.new ≡ Some bytes) }
        ensures counted { CountsFault (is_err result) (fault_count self.old) (fault_count self.new) };

    /// How many calls have failed; at 2^64 - 1 the count stays.
    fn faults(&self) -> u64
        ensures { result ≡ fault_count self.now };
}
