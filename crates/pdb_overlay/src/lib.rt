//! Commits that wait to be logged, and what the newest operation of a key says.
//!
//! A commit is a list of operations of `sdb_base`. A contract sees a `Queue` as the list of its commits, the oldest first:
//! `push` adds one at the end, `oldest` lends the first, and `pop` drops it. `lend` answers a key by the newest operation
//! that says something of it, and lends that operation's bytes; it finds it by the key, so that its time doesn't grow with
//! the number of commits. What a key holds that no commit here speaks of, and when commits are logged, is left to the
//! layers above.
//!
//! ```text
//! let mut queue = Queue::new(alloc);
//! queue.push(ops)?;
//! match queue.lend(1, b"key") { Lent::Bytes(bytes) => .., Lent::Erased => .., Lent::Silent => .. }
//! if let Some(ops) = queue.oldest() { .. }      // logged
//! queue.pop();
//! ```
#![tactic(auto)]

mod commit_places;
mod key_places;
mod laws;
mod lent;
mod place;
mod places;
mod queue;

pub use laws::{known_sayings, newest_is_of_the_last};
pub use lent::Lent;
pub use queue::Queue;
