ghost use Rattle.std.specs.Prelude.{◌≡◌};

use sdb_base::Op;

/// What a queue says of a key.
#[derive(Clone, Copy, Debug)]
pub enum Lent<'a> {
    /// These bytes were put.
    Bytes(&'a [u8]),
    /// It was erased.
    Erased,
    /// Nothing.
    Silent,
}

impl<'a> Lent<'a> {
    ghost use Rattle.pdb_overlay.specs.Lending.{said_in};
    ghost use Rattle.pdb_overlay.specs.inner.Placing.{said_by};

    /// What an operation says of its key.
    pub(crate) fn of(op: &'a Op) -> Lent<'a>
        ensures { said_in result ≡ said_by op.now }
    {
        match op {
            Op::AddRef { bytes, .. } => Lent::Bytes(bytes.as_slice()),
            Op::DropRef { .. } => Lent::Silent,
            Op::Put { bytes, .. } => Lent::Bytes(bytes.as_slice()),
            Op::Erase { .. } => Lent::Erased,
        }
    }
}
