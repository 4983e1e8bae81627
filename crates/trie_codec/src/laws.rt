ghost use Rattle.std.specs.Prelude.{◌≡◌, ℕ, ◌<◌, ◌≤◌, List, [], ◌∷◌, ◌++◌, All, replicate, None, Some, Err, Ok};
ghost use Rattle.trie_model.specs.Node.{IsNode, Node, empty_node, spelling};
ghost use Rattle.trie_codec.specs.Reading.{first_node, node_of_bytes, reads_inline, whole};

use crate::fault::CodecFault;

/// What some bytes read as, by computing: one of each fault, the node of the empty trie, a leaf, and a branch with an
/// inline child.
pub fn known_readings()
    ensures short { node_of_bytes (0x42 ∷ 0xaa ∷ []) ≡ Err CodecFault.Short }
    ensures header { node_of_bytes (0x20 ∷ []) ≡ Err CodecFault.BadHeader }
    ensures padding { node_of_bytes (0x41 ∷ 0xfa ∷ 0x04 ∷ 0x01 ∷ []) ≡ Err CodecFault.BadPadding }
    ensures long_length { node_of_bytes (0x42 ∷ 0xaa ∷ 0x01 ∷ 0x00 ∷ []) ≡ Err CodecFault.BadLength }
    ensures bitmap { node_of_bytes (0x80 ∷ 0x00 ∷ 0x00 ∷ []) ≡ Err CodecFault.BadBitmap }
    ensures trailing { node_of_bytes (0x42 ∷ 0xaa ∷ 0x04 ∷ 0x01 ∷ 0x99 ∷ []) ≡ Err CodecFault.Trailing }
    ensures child { node_of_bytes (0x81 ∷ 0x00 ∷ 0x03 ∷ 0x00 ∷ 0x00 ∷ []) ≡ Err CodecFault.BadChild }
    ensures empty { node_of_bytes (0x00 ∷ []) ≡ Ok empty_node }
    ensures leaf { node_of_bytes (0x42 ∷ 0xaa ∷ 0x00 ∷ [])
        ≡ Ok (record { partial = 10 ∷ 10 ∷ []; value = Some []; children = replicate 16 None }) }
    ensures branch { node_of_bytes
        (0xc2 ∷ 0xaa ∷ 0x00 ∷ 0x08 ∷ 0x04 ∷ 0x01 ∷ 0x10 ∷ 0x41 ∷ 0x0b ∷ 0x04 ∷ 0x02 ∷ [])
        ≡ Ok (record {
          partial = 10 ∷ 10 ∷ [];
          value = Some (1 ∷ []);
          children = replicate 11 None ++ Some (0x41 ∷ 0x0b ∷ 0x04 ∷ 0x02 ∷ []) ∷ replicate 4 None;
        }) }
{}

/// What is written is read: in front of any bytes a node's spelling reads as the node, and ends where it ends. So no two
/// nodes share a spelling, and none begins another.
pub fn what_is_written_is_read()
    ensures front { (n : Node) (rest : List ℕ) → IsNode n
        → first_node (reads_inline 32) (spelling n ++ rest) ≡ Ok (n, rest) }
    ensures whole { (n : Node) → IsNode n → node_of_bytes (spelling n) ≡ Ok n }
    ensures one { (m n : Node) (x y : List ℕ) → IsNode m → IsNode n
        → spelling m ++ x ≡ spelling n ++ y → (m ≡ n) × (x ≡ y) }
{}

/// What is read was written: bytes that read as a node are its spelling, and its parts are those of a node.
pub fn what_is_read_was_written()
    ensures front { (n : Node) (bytes rest : List ℕ) → All (λ b. b < 256) bytes
        → first_node (reads_inline 32) bytes ≡ Ok (n, rest) → IsNode n × (bytes ≡ spelling n ++ rest) }
    ensures whole { (n : Node) (bytes : List ℕ) → All (λ b. b < 256) bytes
        → node_of_bytes bytes ≡ Ok n → IsNode n × (bytes ≡ spelling n) }
{}

/// Bytes that follow change no fault but `Short`, and a node that is followed by any is `Trailing`.
pub fn faults_stay()
    ensures faults { (bytes more : List ℕ) (f : CodecFault) → (f ≡ CodecFault.Short → ⊥)
        → node_of_bytes bytes ≡ Err f → node_of_bytes (bytes ++ more) ≡ Err f }
    ensures nodes { (bytes more : List ℕ) (n : Node) → (more ≡ [] → ⊥)
        → node_of_bytes bytes ≡ Ok n → node_of_bytes (bytes ++ more) ≡ Err CodecFault.Trailing }
{}

/// Where more than 32 levels of inline children could be read, no other bytes would be, and none as another node.
pub fn more_levels_read_nothing_more()
    ensures { (levels : ℕ) (bytes : List ℕ) → 32 ≤ levels
        → whole (first_node (reads_inline levels) bytes) ≡ node_of_bytes bytes }
{}
