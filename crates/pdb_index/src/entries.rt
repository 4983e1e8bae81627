ghost use Rattle.std.specs.Prelude.{◌≡◌, ◌≤◌, ◌↔◌, IsTrue};
ghost use Rattle.pdb_model.specs.Chunks.{CarriesKey, entry_of, entry_slot, entry_tier};

use crate::key_bits::key_bits;
use pdb_model::Address;

// the bits of a key that an entry has
const ENTRY_BITS: u8 = 24;

/// The entry of a value at this address: 24 bits of its key after the first `base`, then the tier in 8 bits and the slot
/// in 32. `base` is at most 16, the tier at most 15 and the slot at least 1, so that no entry is 0.
pub fn entry(base: u8, key: &[u8; 32], at: Address) -> u64
    requires base { base ≤ 16 }
    requires tier { at.tier ≤ 15 }
    requires slot { 1 ≤ at.slot }
    ensures { result ≡ entry_of base key.now at.tier at.slot }
{
    let bits = key_bits(base, ENTRY_BITS, key);
    bits * (1 << 40) + (at.tier as u64 * (1 << 32) + at.slot as u64)
}

/// Whether the bits of an entry are the key's. `base` is at most 16. An empty entry has the bits of a key where they are
/// all 0.
pub fn matches(base: u8, key: &[u8; 32], entry: u64) -> bool
    requires { base ≤ 16 }
    ensures { IsTrue result ↔ CarriesKey base key.now entry }
{
    entry / (1 << 40) == key_bits(base, ENTRY_BITS, key)
}

/// The address that an entry names. That of an empty entry is tier 0, slot 0, where no value lies.
pub fn address(entry: u64) -> Address
    ensures tier { result.tier ≡ entry_tier entry }
    ensures slot { result.slot ≡ entry_slot entry }
{
    Address {
        tier: (entry / (1 << 32) % 256) as u8,
        slot: (entry % (1 << 32)) as u32,
    }
}
