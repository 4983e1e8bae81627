ghost use Rattle.std.specs.Prelude.{◌^◌, ◌<◌, ◌≤◌, All, IfOk, List, length};
ghost use Rattle.trie_model.specs.Nodes.{PathNode, nodes_without, stored_nodes};
ghost use Rattle.trie_model.specs.State.{State};
ghost use Rattle.trie_model.specs.Trie.{trie_root};
ghost use Rattle.trie_change.specs.Deltas.{IsDeltaOf};
ghost use Rattle.trie_change.specs.Frontier.{IsLimited};
ghost use Rattle.trie_change.specs.inner.Pieces.{all_items};
ghost use Rattle.trie_change.specs.inner.Settled.{AreEnough};

use crate::build::root_of;
use crate::diff::Diff;
use crate::frontier::{Fed, Piece};
use sdb_base::{HashList, NodeHash, NodeList, OutOfMemory};
use std::alloc::{AllocError, Global};

/// What a change makes of the stored nodes of a state.
#[derive(Debug, Drop)]
pub struct Delta {
    /// The root of the changed state.
    pub root: NodeHash,
    /// The nodes that the changed state has and the one before has not at their paths, by rising path; fewer than 2^32, each of
    /// at most 4,200,000 bytes.
    pub puts: NodeList,
    /// The hashes of the nodes that the state before has and the changed one has not at their paths, by rising path; fewer
    /// than 2^32.
    pub drops: HashList,
}

// So many nodes are not held: of 32 bytes and more each, they would take hundreds of gigabytes.
const MOST_NODES: usize = 0x1_0000_0000;

/// What is put and dropped where the items are what is known of the changed trie, and these nodes were fed of the one before.
pub(crate) fn delta_of(alloc: Global, items: &[Piece], fed: Vec<Fed>) -> Result<Delta, OutOfMemory>
    requires limited { All IsLimited (all_items items.now) }
    ensures settled { (old : List PathNode) (m2 : State) → AreEnough old m2 fed.items (all_items items.now)
        → IfOk result (λ d. IsDeltaOf d (trie_root m2) (nodes_without (stored_nodes m2) old) (nodes_without old (stored_nodes m2))) }
    ensures few { IfOk result (λ d. (length d.puts < 2 ^ 32) × (length d.drops < 2 ^ 32)) }
    ensures short { IfOk result (λ d. All (λ n. length n.bytes ≤ 4200000) d.puts) }
{
    let mut diff = Diff::over(alloc, fed)?;
    let root = root_of(alloc, &mut diff, items)?;
    let (puts, drops) = diff.ended()?;
    if puts.len() >= MOST_NODES || drops.len() >= MOST_NODES {
        return Err(AllocError);
    }
    Ok(Delta {
        root,
        puts: NodeList::from_vec(puts),
        drops: HashList::from_vec(drops),
    })
}
