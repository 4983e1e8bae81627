//! The top call: it reads a script from a source, carries out its lines in a database on a disk, and writes a reply line for each
//! to a sink.
//!
//! A block is a number and a root, and the stored nodes of all states lie under their hashes in the database that the line `new`
//! makes. Contracts see a run by the lines that it has read: what is written are their reply lines and the last line of the status,
//! each by one call of the sink. Where the disk tells its content and no two different nodes have one hash, each reply is that of the
//! definitions: a read that of the fold of the key changes from genesis along the block's chain, a root that of the trie of this
//! fold; else it is one of its kind, and refusals, numbers and the stages' replies are the definitions' in any case. Each status comes
//! by its cause alone, the run stops at its first fault, and no more than 65,536 bytes beyond the line where it stops are read. `new`
//! and each `flush` leave a mark: the disk's clock at the answer, and how many commits are to outlast a crash from then on. A bad
//! line (`Cause::BadLine`) is one that isn't in the grammar (`LineFault` of the layer below), that may not come where it is, that
//! takes the script past its most bytes, or that isn't ended. The definitions are `Jobs`, `StageLines`, `Session`, `BlockCommits`,
//! `Given`, `Crowding`, `Replies`, `Marks`, `Playing`, `Runs` and `Statuses` in `specs/`; `specs/inner` is the crate's own. Which
//! words, source, sink and disk there are is left to the program.
#![tactic(auto)]

mod blocks;
mod cause;
mod entry;
mod jobs;
mod laws;
mod nodes;
mod outcome;
mod serve;
mod session;
mod stages;
mod status;

pub use cause::Cause;
pub use entry::run;
pub use laws::{
    a_clear_run_is_the_models, a_script_has_its_most_bytes, a_stage_has_one_answer,
    commits_come_in_order, first_bad_line_is_one, known_ends, marks_rise,
};
pub use outcome::{Mark, Marks, Outcome};
pub use status::Status;
