ghost use Rattle.std.specs.Prelude.{◌≡◌, IfSome, Some};
ghost use Rattle.pdb_model.specs.Gates.{IsGateSlot, gate_bytes};
ghost use Rattle.pdb_model.specs.declared.gate_slot.GateSlot.{GateSlot};

use crate::layout::{add, number_at, seal};
use arrayvec::ArrayVec;
use pdb_model::GateSlot;

/// A gate slot's 64 bytes.
#[tactic(auto, unfolding(pdb_model::specs::Gates::gate_bytes))]
pub fn gate_bytes(g: &GateSlot) -> [u8; 64]
    ensures { result ≡ gate_bytes g.now }
{
    let mut layout = ArrayVec::<u8, 64>::new();
    add(&mut layout, b"SDBGATE1");
    add(&mut layout, &g.sequence.to_le_bytes());
    add(&mut layout, &g.number.to_le_bytes());
    add(&mut layout, &g.commits.to_le_bytes());
    add(&mut layout, &[0; 24]);
    seal(layout)
}

/// The gate of a slot's bytes at a place, 0 or 1. None exactly where the slot isn't whole there: its 64 bytes spell no
/// gate, or one that lies at the other place.
pub fn read_gate(bytes: &[u8; 64], place: u8) -> Option<GateSlot>
    ensures whole { (g : GateSlot) → IsGateSlot bytes.now place g → result ≡ Some g }
    ensures only { IfSome result (λ g. IsGateSlot bytes.now place g) }
{
    let g = GateSlot {
        sequence: number_at(bytes, 8),
        number: number_at(bytes, 16),
        commits: number_at(bytes, 24),
    };
    if g.sequence % 2 == u64::from(place) && gate_bytes(&g) == *bytes {
        Some(g)
    } else {
        None
    }
}
