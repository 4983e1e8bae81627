ghost use Rattle.std.specs.Prelude.{◌≡◌, ◌≤◌, ◌<◌, ◌^◌, ℕ, IfSome, Some};
ghost use Rattle.pdb_model.specs.Records.{IsHeader, header_bytes};
ghost use Rattle.pdb_record.specs.Heads.{IsHeaderOf};
ghost use Rattle.pdb_record.specs.declared.heads.Head.{Head};

use crate::layout::{add, number_at, seal};
use arrayvec::ArrayVec;

// a body has at most so many bytes
const MOST_IN_BODY: u64 = 1 << 62;

/// What a record's header says.
#[derive(Clone, Copy, Debug, PartialEq, Eq)]
pub struct Head {
    /// The record's number, from 1 on.
    pub number: u64,
    /// The number of commits in all records up to and with this one.
    pub commits: u64,
    /// The length of its body in bytes, at most 2^62.
    pub body: u64,
    /// The number of its puts.
    pub puts: u64,
}

/// A header's 48 bytes.
#[tactic(auto, unfolding(pdb_model::specs::Records::header_bytes))]
pub(crate) fn header_bytes(h: &Head) -> [u8; 48]
    ensures { result ≡ header_bytes h.now.number h.now.commits h.now.body h.now.puts }
{
    let mut layout = ArrayVec::<u8, 48>::new();
    add(&mut layout, b"SDBR");
    add(&mut layout, &[0; 4]);
    add(&mut layout, &h.number.to_le_bytes());
    add(&mut layout, &h.commits.to_le_bytes());
    add(&mut layout, &h.body.to_le_bytes());
    add(&mut layout, &h.puts.to_le_bytes());
    seal(layout)
}

/// What a record's header says. None exactly where its 48 bytes break a rule: the first bytes, the zeros, the checksum,
/// a number from 1 on, a body of at most 2^62 bytes.
pub fn header(bytes: &[u8; 48]) -> Option<Head>
    ensures whole { (h : Head) → IsHeaderOf bytes.now h → result ≡ Some h }
    ensures only { IfSome result (λ h. IsHeaderOf bytes.now h) }
{
    let h = Head {
        number: number_at(bytes, 8),
        commits: number_at(bytes, 16),
        body: number_at(bytes, 24),
        puts: number_at(bytes, 32),
    };
    if h.number >= 1 && h.body <= MOST_IN_BODY && header_bytes(&h) == *bytes {
        Some(h)
    } else {
        None
    }
}
