ghost use Rattle.std.specs.Prelude.{◌≡◌, ◌≤◌, ◌+◌, ℕ, List, All, IfNone, IfSome, IsSomeAnd, MatchBool, OnSome, Some, drop, length, take};
ghost use Rattle.pdb_model.specs.Records.{HasRecord, IsEndOfLog, Record};
ghost use Rattle.pdb_record.specs.Heads.{IsHeaderOf};
ghost use Rattle.pdb_record.specs.Scans.{Shows};
ghost use Rattle.pdb_record.specs.inner.Sealing.{IsSealed};
ghost use Rattle.pdb_record.specs.declared.heads.Head.{Head};

use crate::counting::count_puts;
use crate::encoding::AROUND_BODY;
use crate::heads::{Head, header};
use crate::layout::checksum;
use crate::put_refs::PutRefs;
use crate::record_ref::RecordRef;
use crate::repeats::has_no_cell_twice;

// a header takes so many bytes
const HEADER: usize = 48;

// a checksum takes so many bytes
const CHECKSUM: usize = 8;

/// Whether the log ends where these bytes begin.
pub(crate) fn is_end(left: &[u8]) -> bool
    ensures { MatchBool result (IsEndOfLog left.now 0) (¬ IsEndOfLog left.now 0) }
{
    are_zeros(&left[..left.len().min(HEADER)])
}

/// Whether all bytes are zeros.
fn are_zeros(bytes: &[u8]) -> bool
    ensures { MatchBool result (All (λ b. b ≡ 0) bytes.now) (¬ All (λ b. b ≡ 0) bytes.now) }
{
    for byte in bytes {
        if *byte != 0 {
            return false;
        }
    }
    true
}

/// The record with which some bytes begin. None exactly where they begin with none that is whole.
pub(crate) fn first_record(left: &[u8]) -> Option<RecordRef<'_>>
    ensures whole { (x : Record) → HasRecord left.now 0 x → IsSomeAnd result (λ r. Shows r x) }
    ensures some { IfSome result (λ r. (x : Record) × HasRecord left.now 0 x × Shows r x) }
    ensures within { IfSome result (λ r. 56 + length r.body.now ≤ length left.now) }
    ensures borrowed { IfSome result (λ r. r.body.ref_ptr ≡ (left.entry.ref_ptr.0, left.entry.ref_ptr.1 + 48)) }
{
    let head = first_head(left)?;
    let body = sealed_body(left, head.body)?;
    let count = count_puts(body)?;
    if count != head.puts || !has_no_cell_twice(PutRefs { left: body }) {
        return None;
    }
    Some(RecordRef {
        number: head.number,
        commits: head.commits,
        puts: head.puts,
        body,
    })
}

/// The header with which some bytes begin. None exactly where they begin with none that keeps the rules.
fn first_head(left: &[u8]) -> Option<Head>
    ensures whole { (h : Head) → IsHeaderOf (take 48 left.now) h → result ≡ Some h }
    ensures only { IfSome result (λ h. IsHeaderOf (take 48 left.now) h) }
    ensures long { OnSome result (48 ≤ length left.now) }
{
    if left.len() < HEADER {
        return None;
    }
    let mut bytes = [0; HEADER];
    bytes.copy_from_slice(&left[..HEADER]);
    header(&bytes)
}

/// The body of so many bytes after a header. None exactly where the bytes end too early, or the checksum of header and
/// body doesn't come after it.
fn sealed_body(left: &[u8], len: u64) -> Option<&[u8]>
    ensures none { IfNone result ((body rest : List ℕ) → length body ≡ len → 48 ≤ length left.now → ¬ IsSealed left.now body rest) }
    ensures some { IfSome result (λ b. IsSealed left.now b.now (drop (56 + len) left.now)) }
    ensures within { IfSome result (λ b. (length b.now ≡ len) × (56 + len ≤ length left.now)) }
    ensures borrowed { IfSome result (λ b. b.ref_ptr ≡ (left.entry.ref_ptr.0, left.entry.ref_ptr.1 + 48)) }
{
    if left.len() < AROUND_BODY || len > (left.len() - AROUND_BODY) as u64 {
        return None;
    }
    let end = HEADER + len as usize;
    let stored = &left[end..end + CHECKSUM];
    if stored == checksum(&left[..end]).as_slice() {
        Some(&left[HEADER..end])
    } else {
        None
    }
}
