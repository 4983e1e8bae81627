ghost use Rattle.std.specs.Prelude.{◌≡◌};
ghost use Rattle.pdb_model.specs.Logs.{IsLogFile};

/// The number of a log file, 1 to 4.
#[derive(Clone, Copy, Debug, PartialEq, Eq)]
pub(crate) struct RingFile {
    pub(crate) number: u16,
    ghost in_ring: { IsLogFile number },
}

impl RingFile {
    ghost use Rattle.pdb_log.specs.Standing.{next_in_ring};

    /// File 1.
    pub(crate) fn first() -> RingFile
        ensures { result.number ≡ 1 }
    {
        RingFile { number: 1 }
    }

    /// The file after this one in the ring 1, 2, 3, 4, 1.
    pub(crate) fn next(&self) -> RingFile
        ensures { result.number ≡ next_in_ring self.now.number }
    {
        if self.number == 4 {
            RingFile { number: 1 }
        } else {
            RingFile {
                number: self.number + 1,
            }
        }
    }
}
