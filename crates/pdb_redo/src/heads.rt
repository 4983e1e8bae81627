ghost use Rattle.std.specs.Prelude.{◌≡◌, ◌≤◌, OnOk, is_err, length};
ghost use Rattle.sdb_io.specs.Faults.{CountsFault};

use pdb_cells::{CellName, HEAD_FILE};

/// The size of a head cell.
pub(crate) const HEAD_SIZE: usize = 256;

/// The head cells of both columns.
#[derive(Clone, Copy)]
pub(crate) struct Heads {
    pub(crate) first: [u8; 256],
    pub(crate) second: [u8; 256],
}

impl Heads {
    ghost use Rattle.std.specs.Option.{option_map};
    ghost use Rattle.pdb_redo.specs.Heads.{head_in, heads_after};

    /// The head cell of this name, if it is one of the two.
    pub(crate) fn get(&self, name: CellName) -> Option<&[u8; 256]>
        ensures { option_map (λ b. b.now) result ≡ head_in self.now name }
    {
        if name.file != HEAD_FILE {
            return None;
        }
        match name.index {
            0 => Some(&self.first),
            1 => Some(&self.second),
            _ => None,
        }
    }

    /// Sets the head cell of this name, if it is one of the two.
    pub(crate) fn put(&mut self, name: CellName, bytes: &[u8])
        requires { name.file ≡ 9 → length bytes.now ≡ 256 }
        ensures { self.new ≡ heads_after self.old name bytes.now }
    {
        if name.file != HEAD_FILE {
            return;
        }
        match name.index {
            0 => self.first.copy_from_slice(bytes),
            1 => self.second.copy_from_slice(bytes),
            _ => {}
        }
    }
}
