ghost use Rattle.std.specs.Prelude.{◌≡◌, ◌≢◌, ◌+◌, ℕ, [], All, Err, IfErr, IfOk, None, OnErr, OnOk, Some};
ghost use Rattle.sdb_io.specs.Faults.{CountsFault};
ghost use Rattle.sdb_base.specs.Keeping.{Commits, IsCause, disk_failed};
ghost use Rattle.sdb_base.specs.Pipeline.{StepsUncrowded};
ghost use Rattle.sdb_base.specs.declared.numbers.KeepFault.{KeepFault};
ghost use Rattle.sdb_base.specs.declared.numbers.KeeperCall.TheVariants as calls;
ghost use Rattle.sdb_base.specs.declared.numbers.StageAnswer.TheVariants as answers;
ghost use Rattle.pdb_cells.specs.Puts.{IsWholeCell, NoCellTwice};
ghost use Rattle.pdb_log.specs.Ledger.{IsEmptyFile};
ghost use Rattle.pdb_log.specs.Tallies.{Tally};
ghost use Rattle.pdb_model.specs.Logs.{IsLogFile};
ghost use Rattle.pdb_redo.specs.Tallies.{IsRedoTally};

use crate::database::Database;
use crate::faults::of_redo;
use crate::planning::planned;
use pdb_cells::{Cells, Puts};
use pdb_disk::Disk;
use sdb_base::{Grown, KeepFault, Keeper, Logged, Stages};

impl<D: Disk> Database<D> {
    ghost use Rattle.pdb_pipe.specs.Faults.{EndsLog, IsDue, StopsWith};
    ghost use Rattle.pdb_pipe.specs.Going.{ComesAfter};
    ghost use Rattle.pdb_pipe.specs.Stages.{TakesTime, TallyGoes};
    ghost use Rattle.pdb_pipe.specs.Standing.{StandsFor, pipeline_of};
    ghost use Rattle.pdb_pipe.specs.inner.StageLogging.{CarryOut};

    /// Logs a record of these puts as the next commit, which leaves the queue where that is done.
    fn append(&mut self, puts: Puts) -> Result<Logged, KeepFault>
        requires whole { All IsWholeCell puts }
        requires once { NoCellTwice puts }
        requires waits { self.old.queue ≢ [] }
        requires running { self.old.redo.stopped ≡ None }
        ensures steps { IfOk result (λ r. StepsUncrowded (pipeline_of self.old) (answers.Logged r) (pipeline_of self.new)) }
        ensures time { IfOk result (λ r. TakesTime (answers.Logged r) (D.clock self.old.redo.log.disk) (D.clock self.new.redo.log.disk)) }
        ensures tally { (t : Tally) → IsRedoTally self.old.redo t
            → IfOk result (λ r. (u : Tally) × TallyGoes (answers.Logged r) t u × IsRedoTally self.new.redo u) }
        ensures unchanged { OnErr result (pipeline_of self.new ≡ pipeline_of self.old) }
        ensures stands { (commits : Commits) → StandsFor D.tells D.clock D.past self.old commits
            → CarryOut D.clock D.past self.old commits puts → StandsFor D.tells D.clock D.past self.new commits }
        ensures after { ComesAfter D.clock D.past D.fault_count self.old self.new }
        ensures counted { CountsFault (disk_failed result) (D.fault_count self.old.redo.log.disk) (D.fault_count self.new.redo.log.disk) }
        ensures cause { IfErr result (IsCause (IsDue D.tells D.clock D.past self.new calls.Log)) }
        ensures ends { IfErr result (IsCause (EndsLog self.old)) }
        ensures stops { StopsWith (D.clock self.new.redo.log.disk) self.new.redo.stopped result }
    {
        // the disk's count of faults fits its type, so that it can't fall
        let _faults = self.redo.faults();
        let number = self.redo.recorded().appended + 1;
        match self.redo.append(self.alloc, number, puts) {
            Ok(_) => {
                self.queue.pop();
                Ok(Logged::Commit(number))
            }
            Err(fault) => Err(of_redo(fault)),
        }
    }
}

impl<D: Disk> Stages for Database<D> {
    ghost use Rattle.pdb_pipe.specs.Faults.{IsDue, LogStops, StopsWith};
    ghost use Rattle.pdb_pipe.specs.Going.{ComesAfter, ComesAfterWith};
    ghost use Rattle.pdb_pipe.specs.Stages.{TakesStep};
    ghost use Rattle.pdb_pipe.specs.Standing.{StandsFor, pipeline_of};

    ghost steps = { λ a answer b. TakesStep D.tells D.clock D.past a answer b };

    /// Logs the oldest commit in the queue by one record; it is `Idle` exactly where there is none. A commit that finds no room in its
    /// index is `IndexFull` and stays in the queue.
    fn log(&mut self) -> Result<Logged, KeepFault>
        ensures steps { IfOk result (λ r. TakesStep D.tells D.clock D.past self.old (answers.Logged r) self.new) }
        ensures unchanged { OnErr result (pipeline_of self.new ≡ pipeline_of self.old) }
        ensures stands { (commits : Commits) → StandsFor D.tells D.clock D.past self.old commits
            → StandsFor D.tells D.clock D.past self.new commits }
        ensures later { (commits : Commits) → StandsFor D.tells D.clock D.past self.old commits
            → ComesAfterWith D.clock D.past D.fault_count self.old commits self.new commits }
        ensures after { ComesAfter D.clock D.past D.fault_count self.old self.new }
        ensures counted { CountsFault (disk_failed result) (D.fault_count self.old.redo.log.disk) (D.fault_count self.new.redo.log.disk) }
        ensures cause { IfErr result (IsCause (IsDue D.tells D.clock D.past self.new calls.Log)) }
        ensures cause_before { IfErr result (IsCause (IsDue D.tells D.clock D.past self.old calls.Log)) }
        ensures stopped { (call : ℕ) → self.old.redo.stopped ≡ Some call → result ≡ Err (KeepFault.Stopped call) }
        ensures empty { (pipeline_of self.old).numbers.logged ≡ (pipeline_of self.old).numbers.accepted → self.old.redo.stopped ≡ None
            → result ≡ Ok Logged.Idle }
        ensures stops { self.old.redo.stopped ≡ None → LogStops D.tells D.clock D.past D.fault_count self.old result self.new }
    {
        if let Some(call) = self.redo.stopped() {
            return Err(KeepFault::Stopped { call });
        }
        let Some(ops) = self.queue.oldest() else {
            return Ok(Logged::Idle);
        };
        match planned(self.alloc, &mut self.redo, ops) {
            Ok(puts) => self.append(puts),
            Err(fault) => Err(fault),
        }
    }

    /// Makes all records safe from a crash, and answers how many commits are logged.
    fn flush(&mut self) -> Result<u64, KeepFault>
        ensures steps { IfOk result (λ r. TakesStep D.tells D.clock D.past self.old (answers.Flushed r) self.new) }
        ensures unchanged { OnErr result (pipeline_of self.new ≡ pipeline_of self.old) }
        ensures stands { (commits : Commits) → StandsFor D.tells D.clock D.past self.old commits
            → StandsFor D.tells D.clock D.past self.new commits }
        ensures later { (commits : Commits) → StandsFor D.tells D.clock D.past self.old commits
            → ComesAfterWith D.clock D.past D.fault_count self.old commits self.new commits }
        ensures after { ComesAfter D.clock D.past D.fault_count self.old self.new }
        ensures counted { CountsFault (disk_failed result) (D.fault_count self.old.redo.log.disk) (D.fault_count self.new.redo.log.disk) }
        ensures cause { IfErr result (IsCause (IsDue D.tells D.clock D.past self.new calls.Flush)) }
        ensures stopped { (call : ℕ) → self.old.redo.stopped ≡ Some call → result ≡ Err (KeepFault.Stopped call) }
        ensures stops { self.old.redo.stopped ≡ None → StopsWith (D.clock self.new.redo.log.disk) self.new.redo.stopped result }
    {
        // the disk's count of faults fits its type, so that it can't fall
        let _faults = self.redo.faults();
        match self.redo.flush() {
            Ok(commits) => Ok(commits),
            Err(fault) => Err(of_redo(fault)),
        }
    }

    /// Writes the cells of the oldest flushed record that isn't enacted to their files, and answers its number of commits; none
    /// exactly where there is no such record.
    fn enact(&mut self) -> Result<Option<u64>, KeepFault>
        ensures steps { IfOk result (λ r. TakesStep D.tells D.clock D.past self.old (answers.Enacted r) self.new) }
        ensures unchanged { OnErr result (pipeline_of self.new ≡ pipeline_of self.old) }
        ensures stands { (commits : Commits) → StandsFor D.tells D.clock D.past self.old commits
            → StandsFor D.tells D.clock D.past self.new commits }
        ensures later { (commits : Commits) → StandsFor D.tells D.clock D.past self.old commits
            → ComesAfterWith D.clock D.past D.fault_count self.old commits self.new commits }
        ensures after { ComesAfter D.clock D.past D.fault_count self.old self.new }
        ensures counted { CountsFault (disk_failed result) (D.fault_count self.old.redo.log.disk) (D.fault_count self.new.redo.log.disk) }
        ensures cause { IfErr result (IsCause (IsDue D.tells D.clock D.past self.new calls.Enact)) }
        ensures stopped { (call : ℕ) → self.old.redo.stopped ≡ Some call → result ≡ Err (KeepFault.Stopped call) }
        ensures stops { self.old.redo.stopped ≡ None → StopsWith (D.clock self.new.redo.log.disk) self.new.redo.stopped result }
    {
        // the disk's count of faults fits its type, so that it can't fall
        let _faults = self.redo.faults();
        match self.redo.enact() {
            Ok(commits) => Ok(commits),
            Err(fault) => Err(of_redo(fault)),
        }
    }

    /// Passes what is enacted by the gate, and answers how many commits that are; the log files are empty then where every record was
    /// enacted.
    fn clean(&mut self) -> Result<u64, KeepFault>
        ensures steps { IfOk result (λ r. TakesStep D.tells D.clock D.past self.old (answers.Cleaned r) self.new) }
        ensures unchanged { OnErr result (pipeline_of self.new ≡ pipeline_of self.old) }
        ensures stands { (commits : Commits) → StandsFor D.tells D.clock D.past self.old commits
            → StandsFor D.tells D.clock D.past self.new commits }
        ensures later { (commits : Commits) → StandsFor D.tells D.clock D.past self.old commits
            → ComesAfterWith D.clock D.past D.fault_count self.old commits self.new commits }
        ensures after { ComesAfter D.clock D.past D.fault_count self.old self.new }
        ensures counted { CountsFault (disk_failed result) (D.fault_count self.old.redo.log.disk) (D.fault_count self.new.redo.log.disk) }
        ensures cause { IfErr result (IsCause (IsDue D.tells D.clock D.past self.new calls.Clean)) }
        ensures cause_before { IfErr result (IsCause (IsDue D.tells D.clock D.past self.old calls.Clean)) }
        ensures stopped { (call : ℕ) → self.old.redo.stopped ≡ Some call → result ≡ Err (KeepFault.Stopped call) }
        ensures stops { self.old.redo.stopped ≡ None → StopsWith (D.clock self.new.redo.log.disk) self.new.redo.stopped result }
        ensures empty { (commits : Commits) → StandsFor D.tells D.clock D.past self.old commits → (pipeline_of self.old).waiting ≡ []
            → OnOk result ((j : ℕ) → IsLogFile j → IsEmptyFile (D.past self.new.redo.log.disk (D.clock self.new.redo.log.disk) j)) }
    {
        // the disk's count of faults fits its type, so that it can't fall
        let _faults = self.redo.faults();
        match self.redo.clean() {
            Ok(commits) => {
                self.cleaned = commits;
                Ok(commits)
            }
            Err(fault) => Err(of_redo(fault)),
        }
    }

    /// Is `Idle`: no index grows.
    fn grow(&mut self) -> Result<Grown, KeepFault>
        ensures steps { IfOk result (λ r. TakesStep D.tells D.clock D.past self.old (answers.Grown r) self.new) }
        ensures unchanged { OnErr result (pipeline_of self.new ≡ pipeline_of self.old) }
        ensures stands { (commits : Commits) → StandsFor D.tells D.clock D.past self.old commits
            → StandsFor D.tells D.clock D.past self.new commits }
        ensures later { (commits : Commits) → StandsFor D.tells D.clock D.past self.old commits
            → ComesAfterWith D.clock D.past D.fault_count self.old commits self.new commits }
        ensures after { ComesAfter D.clock D.past D.fault_count self.old self.new }
        ensures counted { CountsFault (disk_failed result) (D.fault_count self.old.redo.log.disk) (D.fault_count self.new.redo.log.disk) }
        ensures cause { IfErr result (IsCause (IsDue D.tells D.clock D.past self.new calls.Grow)) }
        ensures stopped { (call : ℕ) → self.old.redo.stopped ≡ Some call → result ≡ Err (KeepFault.Stopped call) }
        ensures same { self.new ≡ self.old }
    {
        match self.redo.stopped() {
            Some(call) => Err(KeepFault::Stopped { call }),
            None => Ok(Grown::Idle),
        }
    }
}
