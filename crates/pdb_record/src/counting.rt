ghost use Rattle.std.specs.Prelude.{◌≡◌, ℕ, List, All, IfSome, Some, length};
ghost use Rattle.pdb_cells.specs.Puts.{IsWholeCell};
ghost use Rattle.pdb_cells.specs.declared.Put.{Put};
ghost use Rattle.pdb_model.specs.Records.{body_bytes};

use crate::put_refs::PutRefs;

/// How many puts of whole cells a body has. None exactly where it isn't just such puts.
pub(crate) fn count_puts(body: &[u8]) -> Option<u64>
    ensures whole { (ps : List Put) → body.now ≡ body_bytes ps → All IsWholeCell ps → result ≡ Some (length ps) }
    ensures only { IfSome result (λ n. (ps : List Put) × (body.now ≡ body_bytes ps) × All IsWholeCell ps × (n ≡ length ps)) }
{
    let mut puts = PutRefs { left: body };
    let mut count = 0;
    while let Some(_put) = puts.next() {
        count += 1;
    }
    if puts.left.is_empty() {
        Some(count)
    } else {
        None
    }
}
