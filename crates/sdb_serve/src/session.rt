ghost use Rattle.std.specs.Prelude.{◌≡◌, ◌≢◌, ◌⊎◌, ◌+◌, ◌^◌, ◌≤◌, ◌<◌, ◌++◌, ◌∷◌, [], ℕ, List, length, Option, Some, None, IfErr, IfOk, OnOk, OnErr, IsErrOf, is_some, not, vec_len, vec_capacity};
ghost use Rattle.sdb_script.specs.Grammar.{line_of};
ghost use Rattle.sdb_script.specs.LineTexts.{IsBlock, IsWithin};
ghost use Rattle.sdb_script.specs.declared.line.Line.TheVariants as lines;
ghost use Rattle.sdb_serve.specs.Given.{given_disk};
ghost use Rattle.sdb_serve.specs.Marks.{Reached, first_reached};
ghost use Rattle.sdb_serve.specs.Playing.{MayPlay};
ghost use Rattle.sdb_serve.specs.Runs.{BeginsWith, Run};
ghost use Rattle.sdb_serve.specs.Session.{reply_lines};
ghost use Rattle.sdb_serve.specs.inner.Pieces.{as_piece};

use crate::blocks::BlockMap;
use crate::cause::{Cause, of_creating, of_job, of_keeper};
use crate::jobs::answer_job;
use crate::outcome::{Mark, Outcome};
use crate::stages::answer_stage;
use crate::status::Status;
use pdb_disk::Disk;
use pdb_pipe::Database;
use pdb_redo::CreateFault;
use sdb_base::{Block, Items, Keeper, StageAnswer};
use sdb_model::{Refusal, Reply, Task};
use sdb_script::{Line, LineFault, LineReply, Stage, parse_line, reply_text};
use std::alloc::{AllocError, Global};

// At most so many bytes of a script are read.
const MOST_BYTES: u64 = 1 << 40;

/// Carries out the lines of a script, one after another.
#[derive(Drop)]
pub(crate) struct Session<D> {
    alloc: Global,
    // the pruning window of genesis, by which nothing is pruned yet
    window: u32,
    // the disk, before `new`
    disk: Option<D>,
    // the blocks over a database on the disk, after `new`
    blocks: Option<BlockMap<Database<D>>>,
    marks: Vec<Mark>,
    // the bytes of the lines so far, line feeds included
    read: u64,
    lines: u64,
    ghost within: { read ≤ 2 ^ 40 },
    ghost few: { lines ≤ read },
    ghost one: { is_some disk ≡ not (is_some blocks) },
}

fn parsed(alloc: Global, line: &[u8]) -> Result<Line, Cause>
    ensures line { IfOk result (λ l. line_of line.now ≡ Some l) }
    ensures within { IfOk result IsWithin }
    ensures refused { IsErrOf result Cause.BadLine → line_of line.now ≡ None }
    ensures cause { IfErr result (λ cause. (cause ≡ Cause.BadLine) ⊎ (cause ≡ Cause.Memory)) }
{
    match parse_line(alloc, line) {
        Ok(parsed) => Ok(parsed),
        Err(LineFault::NotInGrammar) => Err(Cause::BadLine),
        Err(LineFault::OutOfMemory) => Err(Cause::Memory),
    }
}

fn write_reply(
    alloc: Global,
    reply: &Option<LineReply>,
    text: &mut Vec<u8>,
) -> Result<(), AllocError>
    ensures { OnOk result (reply_lines reply.now ≡ as_piece text.new.items) }
{
    text.clear();
    if let Some(reply) = reply {
        reply_text(alloc, reply, text)?;
        text.push(b'\n')?;
    }
    Ok(())
}

impl<D: Disk + Drop> Session<D> {
    ghost use Rattle.sdb_serve.specs.inner.Steps.{CountsDisk, HasAnswered, LineEnds, StageTaken, StopsRun};
    ghost use Rattle.sdb_serve.specs.inner.Stores.{Represents, disk_count};
    ghost use Rattle.pdb_pipe.specs.Standing.{pipeline_of};

    /// Nothing was read, and this is the disk.
    pub(crate) fn new(alloc: Global, disk: D) -> Session<D>
        ensures represents { Represents D.tells D.clock D.past disk result (first_reached (given_disk D.tells D.clock D.past disk)) }
        ensures faults { disk_count D.fault_count result ≡ D.fault_count disk }
        ensures lines { result.lines ≡ 0 }
        ensures read { result.read ≡ 0 }
    {
        Session {
            alloc,
            window: 0,
            disk: Some(disk),
            blocks: None,
            marks: Vec::new(alloc),
            read: 0,
            lines: 0,
        }
    }

    /// How many lines were answered.
    pub(crate) fn lines(&self) -> u64
        ensures { result ≡ self.now.lines }
    {
        self.lines
    }

    /// A run's end with this status: the disk, without what isn't logged, and the marks.
    pub(crate) fn into_outcome(self, status: Status) -> Outcome<D>
        ensures status { result.status ≡ status }
        ensures clock { D.clock result.disk ≡ disk_count D.clock self }
        ensures faults { D.fault_count result.disk ≡ disk_count D.fault_count self }
        ensures marks { result.marks ≡ self.marks.items }
        ensures kept { (disk : D) → self.disk ≡ Some disk → result.disk ≡ disk }
    {
        let Session {
            alloc: _,
            window: _,
            disk,
            blocks,
            marks,
            read: _,
            lines: _,
        } = self;
        let disk = match (disk, blocks) {
            (_, Some(blocks)) => blocks.into_keeper().into_disk(),
            (Some(disk), None) => disk,
            (None, None) => unreachable!(),
        };
        Outcome {
            status,
            disk,
            marks: Items::from_vec(marks),
        }
    }

    /// `new`: makes a database.
    fn begin(&mut self, base: u8) -> Result<Option<LineReply>, Cause>
        requires { base ≤ 16 }
        ensures answer { (given : D) (a : Reached) → Represents D.tells D.clock D.past given self.old a
            → IfOk result (λ reply. HasAnswered D.tells D.clock D.past given a (lines.New base) reply self.new) }
        ensures fails { (given : D) (a : Reached) → Represents D.tells D.clock D.past given self.old a
            → IfErr result (λ cause. LineEnds D.tells D.clock D.past given a (lines.New base) cause self.new) }
        ensures counted { (given : D) → CountsDisk D.tells D.clock D.past given D.fault_count (IsErrOf result Cause.Disk) self.old self.new }
        ensures of_line { IfErr result (λ cause. (cause ≢ Cause.Source) × (cause ≢ Cause.End)) }
        ensures lines { (self.new.lines ≡ self.old.lines) × (self.new.read ≡ self.old.read) }
    {
        if self.blocks.is_some() {
            return Err(Cause::BadLine);
        }
        self.marks.reserve(1)?;
        let Some(disk) = self.disk.take() else {
            return Err(Cause::BadLine);
        };
        match Database::create(self.alloc, disk, base) {
            Ok(db) => {
                self.marks.push_reserved(Mark {
                    line: self.lines + 1,
                    calls: db.calls(),
                    accepted: 0,
                    flushed: 0,
                });
                self.blocks = Some(BlockMap::new(self.alloc, db));
                Ok(Some(LineReply::New))
            }
            Err(fault) => {
                let CreateFault { fault, disk } = fault;
                self.disk = Some(disk);
                Err(of_creating(fault))
            }
        }
    }

    /// `genesis`: accepts the first block.
    fn genesis(&mut self, window: u32, block: Block) -> Result<Option<LineReply>, Cause>
        requires { IsBlock block }
        ensures answer { (given : D) (a : Reached) → Represents D.tells D.clock D.past given self.old a
            → IfOk result (λ reply. HasAnswered D.tells D.clock D.past given a (lines.Genesis window block) reply self.new) }
        ensures fails { (given : D) (a : Reached) → Represents D.tells D.clock D.past given self.old a
            → IfErr result (λ cause. LineEnds D.tells D.clock D.past given a (lines.Genesis window block) cause self.new) }
        ensures counted { (given : D) → CountsDisk D.tells D.clock D.past given D.fault_count (IsErrOf result Cause.Disk) self.old self.new }
        ensures of_line { IfErr result (λ cause. (cause ≢ Cause.Source) × (cause ≢ Cause.End)) }
        ensures lines { (self.new.lines ≡ self.old.lines) × (self.new.read ≡ self.old.read) }
    {
        match &mut self.blocks {
            None => Err(Cause::BadLine),
            Some(blocks) => {
                if !blocks.is_empty() {
                    return Ok(Some(LineReply::Refused(Refusal::HasGenesis)));
                }
                match blocks.genesis(block) {
                    Ok(()) => {
                        self.window = window;
                        Ok(Some(LineReply::Genesis))
                    }
                    Err(fault) => Err(of_job(fault)),
                }
            }
        }
    }

    /// A job's line.
    fn job(&mut self, task: Task) -> Result<Option<LineReply>, Cause>
        requires { IsWithin (lines.Job task) }
        ensures answer { (given : D) (a : Reached) → Represents D.tells D.clock D.past given self.old a
            → IfOk result (λ reply. HasAnswered D.tells D.clock D.past given a (lines.Job task) reply self.new) }
        ensures fails { (given : D) (a : Reached) → Represents D.tells D.clock D.past given self.old a
            → IfErr result (λ cause. LineEnds D.tells D.clock D.past given a (lines.Job task) cause self.new) }
        ensures counted { (given : D) → CountsDisk D.tells D.clock D.past given D.fault_count (IsErrOf result Cause.Disk) self.old self.new }
        ensures of_line { IfErr result (λ cause. (cause ≢ Cause.Source) × (cause ≢ Cause.End)) }
        ensures lines { (self.new.lines ≡ self.old.lines) × (self.new.read ≡ self.old.read) }
    {
        match &mut self.blocks {
            None => Err(Cause::BadLine),
            Some(blocks) => {
                if blocks.is_empty() {
                    return Ok(Some(LineReply::Job(Reply::Refused(Refusal::NoGenesis))));
                }
                match answer_job(blocks, task) {
                    Ok(reply) => Ok(Some(LineReply::Job(reply))),
                    Err(fault) => Err(of_job(fault)),
                }
            }
        }
    }

    /// A stage's line; there is room for a mark.
    fn take_step(&mut self, stage: Stage) -> Result<StageAnswer, Cause>
        ensures answer { (given : D) (a : Reached) → Represents D.tells D.clock D.past given self.old a
            → IfOk result (λ answer. StageTaken D.tells D.clock D.past given a stage answer self.new) }
        ensures fails { (given : D) (a : Reached) → Represents D.tells D.clock D.past given self.old a
            → IfErr result (λ cause. LineEnds D.tells D.clock D.past given a (lines.Stage stage) cause self.new) }
        ensures counted { (given : D) → CountsDisk D.tells D.clock D.past given D.fault_count (IsErrOf result Cause.Disk) self.old self.new }
        ensures of_line { IfErr result (λ cause. (cause ≢ Cause.Source) × (cause ≢ Cause.End)) }
        ensures lines { (self.new.lines ≡ self.old.lines) × (self.new.read ≡ self.old.read) }
        ensures marks { self.new.marks ≡ self.old.marks }
    {
        match &mut self.blocks {
            None => Err(Cause::BadLine),
            Some(blocks) => match answer_stage(&mut blocks.keeper, stage) {
                Ok(answer) => Ok(answer),
                Err(fault) => Err(of_keeper(fault)),
            },
        }
    }

    /// A stage's line.
    fn step(&mut self, stage: Stage) -> Result<Option<LineReply>, Cause>
        ensures answer { (given : D) (a : Reached) → Represents D.tells D.clock D.past given self.old a
            → IfOk result (λ reply. HasAnswered D.tells D.clock D.past given a (lines.Stage stage) reply self.new) }
        ensures fails { (given : D) (a : Reached) → Represents D.tells D.clock D.past given self.old a
            → IfErr result (λ cause. LineEnds D.tells D.clock D.past given a (lines.Stage stage) cause self.new) }
        ensures counted { (given : D) → CountsDisk D.tells D.clock D.past given D.fault_count (IsErrOf result Cause.Disk) self.old self.new }
        ensures of_line { IfErr result (λ cause. (cause ≢ Cause.Source) × (cause ≢ Cause.End)) }
        ensures lines { (self.new.lines ≡ self.old.lines) × (self.new.read ≡ self.old.read) }
    {
        self.marks.reserve(1)?;
        let answer = self.take_step(stage)?;
        if let StageAnswer::Flushed(flushed) = answer {
            self.mark(flushed);
        }
        Ok(Some(LineReply::Stage(answer)))
    }

    /// Adds the mark of a flush that was answered so.
    fn mark(&mut self, flushed: u64)
        requires { vec_len self.old.marks < vec_capacity self.old.marks }
        ensures marked { (m : BlockMap (Database D)) → self.old.blocks ≡ Some m → self.new.marks.items ≡ self.old.marks.items ++ record {
          line = self.old.lines + 1;
          calls = D.clock m.keeper.redo.log.disk;
          accepted = (pipeline_of m.keeper).numbers.accepted;
          flushed = flushed;
        } ∷ [] }
        ensures rest { self.new ≡ record self.old { marks = self.new.marks } }
    {
        if let Some(blocks) = &self.blocks {
            self.marks.push_reserved(Mark {
                line: self.lines + 1,
                calls: blocks.keeper.calls(),
                accepted: blocks.keeper.numbers().accepted,
                flushed,
            });
        }
    }

    /// Carries out a line.
    fn answer(&mut self, line: Line) -> Result<Option<LineReply>, Cause>
        requires { IsWithin line }
        ensures answer { (given : D) (a : Reached) → Represents D.tells D.clock D.past given self.old a
            → IfOk result (λ reply. HasAnswered D.tells D.clock D.past given a line reply self.new) }
        ensures fails { (given : D) (a : Reached) → Represents D.tells D.clock D.past given self.old a
            → IfErr result (λ cause. LineEnds D.tells D.clock D.past given a line cause self.new) }
        ensures counted { (given : D) → CountsDisk D.tells D.clock D.past given D.fault_count (IsErrOf result Cause.Disk) self.old self.new }
        ensures of_line { IfErr result (λ cause. (cause ≢ Cause.Source) × (cause ≢ Cause.End)) }
        ensures lines { (self.new.lines ≡ self.old.lines) × (self.new.read ≡ self.old.read) }
    {
        match line {
            Line::Blank => Ok(None),
            Line::New { base } => self.begin(base),
            Line::Genesis { window, block } => self.genesis(window, block),
            Line::Job { task } => self.job(task),
            Line::Stage(stage) => self.step(stage),
        }
    }

    /// Answers a line: its reply, with a line feed, replaces what is in `text`, and a line that gets none leaves it
    /// empty. After an `Err` the session isn't used again.
    pub(crate) fn play_line(&mut self, line: &[u8], text: &mut Vec<u8>) -> Result<(), Cause>
        ensures answer { (given : D) (a : Reached) → Represents D.tells D.clock D.past given self.old a
            → OnOk result ((b : Reached) × MayPlay (given_disk D.tells D.clock D.past given) a line.now (as_piece text.new.items) b
            × Represents D.tells D.clock D.past given self.new b) }
        ensures stops { (given : D) (r : Run) (rest : List ℕ) → Represents D.tells D.clock D.past given self.old r.at
            → BeginsWith r.more line.now rest → IfErr result (λ cause. StopsRun D.tells D.clock D.past given cause r self.new) }
        ensures counted { (given : D) → CountsDisk D.tells D.clock D.past given D.fault_count (IsErrOf result Cause.Disk) self.old self.new }
        ensures of_line { IfErr result (λ cause. (cause ≢ Cause.Source) × (cause ≢ Cause.End)) }
        ensures lines { OnOk result (self.new.lines ≡ self.old.lines + 1) }
        ensures read { OnOk result (self.new.read ≡ self.old.read + (length line.now + 1)) }
        ensures stopped { OnErr result (self.new.lines ≡ self.old.lines) }
    {
        let taken = line.len() as u64 + 1;
        if self.read + taken > MOST_BYTES {
            return Err(Cause::BadLine);
        }
        let parsed = parsed(self.alloc, line)?;
        let reply = self.answer(parsed)?;
        write_reply(self.alloc, &reply, text)?;
        self.read += taken;
        self.lines += 1;
        Ok(())
    }
}
