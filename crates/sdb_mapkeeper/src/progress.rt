ghost use Rattle.std.specs.Prelude.{◌≡◌, ◌<◌, ◌≤◌, ◌+◌, ◌-◌, ◌^◌};
ghost use Rattle.sdb_base.specs.Pipeline.{StepsUncrowded, with_commit};
ghost use Rattle.sdb_mapkeeper.specs.Uncrowded.{uncrowded};
ghost use Rattle.sdb_base.specs.declared.numbers.StageAnswer.TheVariants as answers;

use sdb_base::{Logged, Numbers};

/// How far commits have come where each is logged by a record of its own.
#[derive(Drop)]
pub(crate) struct Progress {
    numbers: Numbers,
    ghost flushed_first: { numbers.enacted ≤ numbers.flushed },
    ghost logged_first: { numbers.flushed ≤ numbers.logged },
    ghost accepted_first: { numbers.logged ≤ numbers.accepted },
}

impl Progress {
    /// No commits.
    pub(crate) fn new() -> Progress
        ensures { result.numbers ≡ record { accepted = 0; logged = 0; flushed = 0; enacted = 0; cleaned = 0 } }
    {
        Progress {
            numbers: Numbers {
                accepted: 0,
                logged: 0,
                flushed: 0,
                enacted: 0,
                cleaned: 0,
            },
        }
    }

    /// How many commits have come how far.
    pub(crate) fn numbers(&self) -> Numbers
        ensures { result ≡ self.now.numbers }
    {
        self.numbers
    }

    /// Accepts a commit, where fewer than 2^64 - 1 were, and answers its number.
    pub(crate) fn accept(&mut self) -> u64
        requires { self.old.numbers.accepted < 2 ^ 64 - 1 }
        ensures number { result ≡ self.old.numbers.accepted + 1 }
        ensures accepted { uncrowded self.new.numbers ≡ with_commit (uncrowded self.old.numbers) }
    {
        self.numbers.accepted += 1;
        self.numbers.accepted
    }

    /// Logs the oldest commit that isn't logged.
    pub(crate) fn log(&mut self) -> Logged
        ensures steps { StepsUncrowded (uncrowded self.old.numbers) (answers.Logged result) (uncrowded self.new.numbers) }
        ensures accepted { self.new.numbers.accepted ≡ self.old.numbers.accepted }
    {
        if self.numbers.logged == self.numbers.accepted {
            return Logged::Idle;
        }
        self.numbers.logged += 1;
        Logged::Commit(self.numbers.logged)
    }

    #[tactic(auto, using(crate::proofs::Records::waiting_length))]
    /// Flushes what is logged, and answers how many commits that are.
    pub(crate) fn flush(&mut self) -> u64
        ensures steps { StepsUncrowded (uncrowded self.old.numbers) (answers.Flushed result) (uncrowded self.new.numbers) }
        ensures accepted { self.new.numbers.accepted ≡ self.old.numbers.accepted }
    {
        self.numbers.flushed = self.numbers.logged;
        self.numbers.flushed
    }

    /// Enacts the oldest flushed record that isn't enacted, and answers its number of commits.
    pub(crate) fn enact(&mut self) -> Option<u64>
        ensures steps { StepsUncrowded (uncrowded self.old.numbers) (answers.Enacted result) (uncrowded self.new.numbers) }
        ensures accepted { self.new.numbers.accepted ≡ self.old.numbers.accepted }
    {
        if self.numbers.enacted == self.numbers.flushed {
            return None;
        }
        self.numbers.enacted += 1;
        Some(self.numbers.enacted)
    }

    /// Cleans what is enacted, and answers how many commits that are.
    pub(crate) fn clean(&mut self) -> u64
        ensures steps { StepsUncrowded (uncrowded self.old.numbers) (answers.Cleaned result) (uncrowded self.new.numbers) }
        ensures accepted { self.new.numbers.accepted ≡ self.old.numbers.accepted }
    {
        self.numbers.cleaned = self.numbers.enacted;
        self.numbers.cleaned
    }
}
