//! Where bytes come from and go to: the traits `Source` and `Sink`, and both in memory.
//!
//! Contracts see a source by the bytes that it has left and a sink by the bytes that it has got and the pieces in which
//! they came, where these can be observed; of a terminal nothing can. Each counts its faults exactly: a call that
//! fails raises the count of its own object by one, or leaves it at its end, and any other call leaves it. After a
//! source's fault the same bytes are left, and after a sink's nothing or a prefix of the piece was got. That the real
//! streams keep this is left to the program that makes them.
#![tactic(auto)]

mod memory;
mod sink;
mod source;

pub use memory::{MemSink, MemSource};
pub use sink::{Sink, SinkFault};
pub use source::{Source, SourceFault};

/// A call found no memory.
pub type OutOfMemory = std::alloc::AllocError;
