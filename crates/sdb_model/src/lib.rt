//! What the store means: accepted blocks, their chains, numbers and states, and what a task asks and gets.
//!
//! A block has the state of its parent with its own changes applied in their order, so a block's state is the
//! fold of the key changes from genesis along its chain. The definitions are in `specs/Blocks`; those of states
//! and tries are handed on from the crate below, so that all other crates find the model's words here. Contracts
//! name them, and none of them retells how the store keeps what it keeps. The types are those of the tasks that
//! are asked and of the replies, and the functions are laws.
#![tactic(auto)]

mod laws;
mod task;

pub use laws::{block_state_is_parents_with_changes, later_blocks_change_no_other};
pub use task::{Refusal, Reply, Task};
