ghost use Rattle.std.specs.Prelude.{◌≡◌, ◌++◌, length, OnOk};
ghost use Rattle.sdb_base.specs.Nibbles.{nibbles_of};

use crate::frontier::Path;
use sdb_base::OutOfMemory;

/// Adds the nibbles of bytes, the high half of each first.
pub(crate) fn push_nibbles(path: &mut Path, bytes: &[u8]) -> Result<(), OutOfMemory>
    ensures { OnOk result (path.new.items ≡ path.old.items ++ nibbles_of bytes.now) }
{
    if bytes.is_empty() {
        return Ok(());
    }
    path.reserve(2 * bytes.len())?;
    for byte in bytes {
        path.push_reserved(byte / 16);
        path.push_reserved(byte % 16);
    }
    Ok(())
}

/// The nibbles of 32 bytes, the high half of each first.
pub(crate) fn nibbles_of_32(key: &[u8]) -> [u8; 64]
    requires { length key.now ≡ 32 }
    ensures { result ≡ nibbles_of key.now }
{
    let mut nibbles = [0u8; 64];
    for i in 0..32usize {
        nibbles[2 * i] = key[i] / 16;
        nibbles[2 * i + 1] = key[i] % 16;
    }
    nibbles
}
