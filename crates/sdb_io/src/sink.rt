ghost use Rattle.std.specs.Prelude.{◌≡◌, ℕ, [], ◌∷◌, is_err, OnOk, OnErr};
ghost use Rattle.sdb_io.specs.Faults.{CountsFault};
ghost use Rattle.sdb_io.specs.Output.{Gets, GetsPrefix, Output};

use thiserror::Error;

/// The sink couldn't take a whole piece.
#[derive(Clone, Copy, Debug, PartialEq, Eq, Error)]
#[error("the sink failed")]
pub struct SinkFault;

/// Where replies go.
pub trait Sink {
    ghost use Rattle.sdb_io.specs.Output.{Output};

    // what it has got so far, where it can be observed
    ghost got: { Self → Output };

    // how many calls have failed
    ghost fault_count: { Self → ℕ };

    /// Takes the bytes as one piece. After a fault a prefix of them was got, maybe none. Taking nothing of a piece
    /// that isn't empty is a fault.
    fn put(&mut self, bytes: &[u8]) -> Result<(), SinkFault>
        ensures ok { OnOk result (Gets (got self.old) (got self.new) (bytes.now ∷ [])) }
        ensures err { OnErr result (GetsPrefix (got self.old) (got self.new) [] bytes.now) }
        ensures counted { CountsFault (is_err result) (fault_count self.old) (fault_count self.new) };

    /// How many calls have failed; at 2^64 - 1 the count stays.
    fn faults(&self) -> u64
        ensures { result ≡ fault_count self.now };
}
