ghost use Rattle.std.specs.Prelude.{◌≡◌, ◌<◌, ℕ, IfErr, IfOk, IsErr, IsErrOf, None, OnErr};
ghost use Rattle.sdb_io.specs.Faults.{CountsFault};
ghost use Rattle.sdb_base.specs.Keeping.{Commits, IsCause, disk_failed};
ghost use Rattle.sdb_base.specs.declared.numbers.KeepFault.{KeepFault};
ghost use Rattle.sdb_base.specs.declared.numbers.KeeperCall.TheVariants as calls;
ghost use Rattle.pdb_pipe.specs.Faults.{IsDue};
ghost use Rattle.pdb_pipe.specs.Going.{ComesAfter};
ghost use Rattle.pdb_pipe.specs.Stages.{TakesStep};
ghost use Rattle.pdb_pipe.specs.Standing.{StandsFor, pipeline_of};
ghost use Rattle.sdb_script.specs.declared.Stage.{Stage};
ghost use Rattle.sdb_serve.specs.StageLines.{stage_answered};
ghost use Rattle.sdb_serve.specs.inner.Steps.{call_of};

use pdb_disk::Disk;
use pdb_pipe::Database;
use sdb_base::{KeepFault, StageAnswer, Stages};
use sdb_script::Stage;

/// The answer of one step of a stage of a database. One that isn't stopped doesn't answer that it is.
pub(crate) fn answer_stage<D: Disk>(
    db: &mut Database<D>,
    stage: Stage,
) -> Result<StageAnswer, KeepFault>
    ensures of_stage { IfOk result (λ answer. stage_answered answer ≡ stage) }
    ensures steps { IfOk result (λ answer. TakesStep D.tells D.clock D.past db.old answer db.new) }
    ensures unchanged { OnErr result (pipeline_of db.new ≡ pipeline_of db.old) }
    ensures stands { (commits : Commits) → StandsFor D.tells D.clock D.past db.old commits → StandsFor D.tells D.clock D.past db.new commits }
    ensures after { ComesAfter D.clock D.past D.fault_count db.old db.new }
    ensures counted { CountsFault (disk_failed result) (D.fault_count db.old.redo.log.disk) (D.fault_count db.new.redo.log.disk) }
    ensures unstopped { (call : ℕ) → db.old.redo.stopped ≡ None → IsErrOf result (KeepFault.Stopped call) → ⊥ }
    ensures waits { stage ≡ Stage.Log → db.old.redo.stopped ≡ None → IsErr result
        → (pipeline_of db.old).numbers.logged < (pipeline_of db.old).numbers.accepted }
    ensures cause { IfErr result (IsCause (IsDue D.tells D.clock D.past db.new (call_of stage))) }
    ensures log_before { stage ≡ Stage.Log → IfErr result (IsCause (IsDue D.tells D.clock D.past db.old calls.Log)) }
    ensures clean_before { stage ≡ Stage.Clean → IfErr result (IsCause (IsDue D.tells D.clock D.past db.old calls.Clean)) }
{
    match stage {
        Stage::Log => Ok(StageAnswer::Logged(db.log()?)),
        Stage::Flush => Ok(StageAnswer::Flushed(db.flush()?)),
        Stage::Enact => Ok(StageAnswer::Enacted(db.enact()?)),
        Stage::Clean => Ok(StageAnswer::Cleaned(db.clean()?)),
        Stage::Grow => Ok(StageAnswer::Grown(db.grow()?)),
    }
}
