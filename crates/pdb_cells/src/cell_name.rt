ghost use Rattle.std.specs.Prelude.{◌≡◌};
ghost use Rattle.pdb_cells.specs.Sizes.{column_size_of, size_of};

/// The file of the head cells, of which a column has one, at its own number.
pub const HEAD_FILE: u16 = 9;

/// The sizes of the slots of tiers 0 to 15, in bytes.
pub const SLOT_SIZES: [usize; 16] = [
    64, 96, 128, 160, 192, 256, 320, 512, 768, 1024, 2048, 4096, 8192, 16384, 32768, 4096,
];

/// The name of a cell: its file and its index there. A cell begins at its index times its size.
#[derive(Clone, Copy, Debug, PartialEq, Eq, PartialOrd, Ord, Hash)]
pub struct CellName {
    /// The number of the file.
    pub file: u16,
    /// The number of the cell in its file, counted from 0, below 2^32.
    pub index: u64,
}

/// The size of the cells of a file, in bytes. None exactly for a file without cells.
pub fn size(file: u16) -> Option<usize>
    ensures { result ≡ size_of file }
{
    match file {
        HEAD_FILE => Some(256),
        16..=47 => column_size(file - 16),
        48..=65 => column_size(file - 48),
        _ => None,
    }
}

// the size of the cells of a column's file, counted from its first
fn column_size(file: u16) -> Option<usize>
    ensures { result ≡ column_size_of file }
{
    if file < 2 {
        return Some(512);
    }
    let tier = file as usize - 2;
    if tier < SLOT_SIZES.len() {
        Some(SLOT_SIZES[tier])
    } else {
        None
    }
}
