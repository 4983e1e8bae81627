ghost use Rattle.std.specs.Prelude.{◌≡◌};
ghost use Rattle.sdb_base.specs.TooLong.{first_too_long, value_length};

use crate::op::{Op, Ops};

// at most so many bytes in a value
const MOST_IN_VALUE: usize = 8_388_608;

/// The length of the first value that has more than 8,388,608 bytes; none where no operation has one.
pub fn too_long_value(ops: &Ops) -> Option<u64>
    ensures { result ≡ first_too_long ops.now }
{
    for op in ops.as_slice() {
        let len = length_of_value(op);
        if len > MOST_IN_VALUE {
            return Some(len as u64);
        }
    }
    None
}

// How many bytes the operation's value has.
fn length_of_value(op: &Op) -> usize
    ensures { result ≡ value_length op.now }
{
    match op {
        Op::AddRef { bytes, .. } | Op::Put { bytes, .. } => bytes.len(),
        Op::DropRef { .. } | Op::Erase { .. } => 0,
    }
}
