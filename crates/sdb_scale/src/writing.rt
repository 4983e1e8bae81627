ghost use Rattle.std.specs.Prelude.{◌≡◌, ◌↔◌, ◌^◌, ◌≤◌, ◌+◌, ◌<◌, ◌++◌, length, vec_len, vec_capacity, OnOk, OnErr, IsErrOf};
ghost use Rattle.sdb_scale.specs.Compact.{compact, string};

use crate::fault::ScaleFault;
use std::alloc::AllocError;

/// Appends the spelling of `n`. `TooLarge` comes exactly where `n` is 2^30 or more; an `Err` leaves
/// `out` as it was.
pub fn put_compact(out: &mut Vec<u8>, n: u32) -> Result<(), ScaleFault>
    ensures ok { OnOk result (out.new.items ≡ out.old.items ++ compact n) }
    ensures too_large { IsErrOf result ScaleFault.TooLarge ↔ (2 ^ 30 ≤ n) }
    ensures not_short { IsErrOf result ScaleFault.Short → ⊥ }
    ensures not_longer { IsErrOf result ScaleFault.NotShortest → ⊥ }
    ensures err { OnErr result (out.new.items ≡ out.old.items) }
{
    if n >= 1 << 30 {
        return Err(ScaleFault::TooLarge);
    }
    push_spelling(out, n)?;
    Ok(())
}

/// Appends `bytes` after their compact length. `TooLarge` comes exactly where there are 2^30 or more; an
/// `Err` leaves `out` as it was.
pub fn put_bytes(out: &mut Vec<u8>, bytes: &[u8]) -> Result<(), ScaleFault>
    ensures ok { OnOk result (out.new.items ≡ out.old.items ++ string bytes.now) }
    ensures too_large { IsErrOf result ScaleFault.TooLarge ↔ (2 ^ 30 ≤ length bytes.now) }
    ensures not_short { IsErrOf result ScaleFault.Short → ⊥ }
    ensures not_longer { IsErrOf result ScaleFault.NotShortest → ⊥ }
    ensures err { OnErr result (out.new.items ≡ out.old.items) }
{
    let len = bytes.len();
    if len >= 1 << 30 {
        return Err(ScaleFault::TooLarge);
    }
    // Room for both first: once the length is written, nothing can fail.
    out.reserve(4 + len)?;
    push_spelling(out, len as u32)?;
    out.extend_from_slice(bytes)?;
    Ok(())
}

// The spelling in its shortest mode, into the room that there is or into more.
#[tactic(auto, unfolding(crate::specs::Compact::compact))]
fn push_spelling(out: &mut Vec<u8>, n: u32) -> Result<(), AllocError>
    requires { n < 2 ^ 30 }
    ensures ok { OnOk result (out.new.items ≡ out.old.items ++ compact n) }
    ensures err { OnErr result (out.new.items ≡ out.old.items) }
    ensures len { vec_len out.new ≤ vec_len out.old + 4 }
    ensures capacity { vec_capacity out.old ≤ vec_capacity out.new }
{
    if n < 1 << 6 {
        out.extend_from_slice(&[(4 * n) as u8])
    } else if n < 1 << 14 {
        out.extend_from_slice(&((4 * n + 1) as u16).to_le_bytes())
    } else {
        out.extend_from_slice(&(4 * n + 2).to_le_bytes())
    }
}
