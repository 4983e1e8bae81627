ghost use Rattle.std.specs.Prelude.{◌≡◌, ◌+◌, ◌*◌, ◌<◌, ◌≤◌, Some};
ghost use Rattle.pdb_cells.specs.Sizes.{size_of};
ghost use Rattle.pdb_model.specs.Files.{table_file};
ghost use Rattle.pdb_model.specs.Tiers.{before_value, slot_size, tier_of};

use pdb_cells::SLOT_SIZES;

/// The tier of values in parts.
pub(crate) const PARTS_TIER: u8 = 15;

/// The size of a tier's slots, in bytes.
pub(crate) fn slot_len(tier: u8) -> usize
    requires { tier ≤ 15 }
    ensures size { result ≡ slot_size tier }
    ensures range { (64 ≤ result) × (result ≤ 32768) }
{
    SLOT_SIZES[usize::from(tier)]
}

/// The tier of a value of so many bytes.
pub(crate) fn tier_for(len: usize) -> u8
    requires { len ≤ 8388608 }
    ensures tier { result ≡ tier_of len }
    ensures range { result ≤ 15 }
    ensures fits { result < 15 → before_value + len ≤ slot_size result }
{
    match 44 + len {
        0..=64 => 0,
        65..=96 => 1,
        97..=128 => 2,
        129..=160 => 3,
        161..=192 => 4,
        193..=256 => 5,
        257..=320 => 6,
        321..=512 => 7,
        513..=768 => 8,
        769..=1024 => 9,
        1025..=2048 => 10,
        2049..=4096 => 11,
        4097..=8192 => 12,
        8193..=16384 => 13,
        16385..=32768 => 14,
        _ => PARTS_TIER,
    }
}

/// The file of a column's table of a tier.
pub(crate) fn file_of(column: u8, tier: u8) -> u16
    requires column { column ≤ 1 }
    requires tier { tier ≤ 15 }
    ensures file { result ≡ table_file column tier }
    ensures sized { size_of result ≡ Some (slot_size tier) }
{
    18 + 32 * u16::from(column) + u16::from(tier)
}
