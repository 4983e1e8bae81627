ghost use Rattle.std.specs.Prelude.{◌≡◌};
ghost use Rattle.sdb_script.specs.declared.line.LineFault.TheVariants.{OutOfMemory};

use crate::stage::Stage;
use sdb_base::{Block, StageAnswer};
use sdb_model::{Refusal, Reply, Task};
use std::alloc::{AllocError, AllocFailed};
use thiserror::Error;

/// A line of a script.
#[derive(Debug, Drop)]
pub enum Line {
    /// An empty line or a comment, which gets no reply.
    Blank,
    /// `new B`: begins a new database.
    New {
        /// The number of bits of its index at first, 0 to 16.
        base: u8,
    },
    /// `genesis ID W CHANGE ..`: the first block.
    Genesis {
        /// The pruning window, 1 to 4,096.
        window: u32,
        /// The block; its parent is 32 zero bytes.
        block: Block,
    },
    /// A line that is one job: `import ID PARENT CHANGE ..`, `read ID KEY`, `next ID KEY`, `list ID PREFIX` or
    /// `root ID`.
    Job {
        /// The job's task.
        task: Task,
    },
    /// `log`, `flush`, `enact`, `clean` or `grow`: one step of this stage of the pipeline.
    Stage(Stage),
}

/// The reply to a line.
#[derive(Debug, Drop)]
pub enum LineReply {
    /// To `new`.
    New,
    /// To `genesis`.
    Genesis,
    /// To a job.
    Job(Reply),
    /// To a line of a stage: what the stage answered.
    Stage(StageAnswer),
    /// To a line that is no job, and was refused: a second `genesis`.
    Refused(Refusal),
}

/// Why a text gave no line.
#[derive(Clone, Copy, Debug, PartialEq, Eq, Error)]
pub enum LineFault {
    /// The text is no line.
    #[error("the text is no line of a script")]
    NotInGrammar,
    /// There is no memory for the line's parts.
    #[error("out of memory")]
    OutOfMemory,
}

impl From<AllocError> for LineFault {
    ghost from_gives = { λ _ e. e ≡ OutOfMemory };

    fn from(_e: AllocError) -> LineFault {
        LineFault::OutOfMemory
    }
}

impl<T: Drop> From<AllocFailed<T>> for LineFault {
    ghost from_gives = { λ _ e. e ≡ OutOfMemory };

    fn from(_e: AllocFailed<T>) -> LineFault {
        LineFault::OutOfMemory
    }
}
