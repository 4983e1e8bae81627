ghost use Rattle.std.specs.Prelude.{◌≡◌, ◌⊎◌, ◌↔◌, ℕ, ◌+◌, ◌^◌, ◌<◌, ◌++◌, List, length, IfOk, IsOkAnd, IsErrOf};
ghost use Rattle.sdb_scale.specs.Compact as spec;
ghost use Rattle.sdb_scale.specs.Compact.{IsCutOff, IsNotShortest, EndsEarly, IsTooLarge, string};

use crate::fault::ScaleFault;

/// The compact number at the front, and the bytes after it. `Short` comes exactly where the bytes end
/// before the number does, `NotShortest` where it is in a longer mode than it needs, `TooLarge` where
/// its first byte has the mode for larger numbers.
#[tactic(auto, unfolding(crate::specs::Compact::compact))]
pub fn compact(bytes: &[u8]) -> Result<(u32, &[u8]), ScaleFault>
    ensures found { IfOk result (λ f. (f.0 < 2 ^ 30)
        × (bytes.entry.now ≡ spec.compact f.0 ++ f.1.now)) }
    // The rest is borrowed from the input: it begins right after the number.
    ensures place { IfOk result (λ f. f.1.ref_ptr
        ≡ (bytes.entry.ref_ptr.0, bytes.entry.ref_ptr.1 + length (spec.compact f.0))) }
    // What is spelled in front is read.
    ensures only { (n : ℕ) (rest : List ℕ) → n < 2 ^ 30 → bytes.entry.now ≡ spec.compact n ++ rest
        → IsOkAnd result (λ f. (f.0 ≡ n) × (f.1.now ≡ rest)) }
    ensures short { IsErrOf result ScaleFault.Short ↔ EndsEarly bytes.entry.now }
    ensures not_shortest { IsErrOf result ScaleFault.NotShortest ↔ IsNotShortest bytes.entry.now }
    ensures too_large { IsErrOf result ScaleFault.TooLarge ↔ IsTooLarge bytes.entry.now }
    ensures takes_no_memory { IsErrOf result ScaleFault.OutOfMemory → ⊥ }
{
    let [first, rest @ ..] = bytes else {
        return Err(ScaleFault::Short);
    };
    match first % 4 {
        0 => Ok((u32::from(first / 4), rest)),
        1 => {
            let [second, rest @ ..] = rest else {
                return Err(ScaleFault::Short);
            };
            let n = u32::from(u16::from_le_bytes([*first, *second])) / 4;
            if n < 1 << 6 {
                return Err(ScaleFault::NotShortest);
            }
            Ok((n, rest))
        }
        2 => {
            let [second, third, fourth, rest @ ..] = rest else {
                return Err(ScaleFault::Short);
            };
            let n = u32::from_le_bytes([*first, *second, *third, *fourth]) / 4;
            if n < 1 << 14 {
                return Err(ScaleFault::NotShortest);
            }
            Ok((n, rest))
        }
        _ => Err(ScaleFault::TooLarge),
    }
}

/// The byte string at the front, without its length, and the bytes after it. Its faults are those of
/// its length; `Short` comes also where fewer bytes follow the length than it says.
pub fn byte_string(bytes: &[u8]) -> Result<(&[u8], &[u8]), ScaleFault>
    ensures found { IfOk result (λ f. (length f.0.now < 2 ^ 30)
        × (bytes.entry.now ≡ string f.0.now ++ f.1.now)) }
    // Both are borrowed from the input: the string begins right after its length, the rest after it.
    ensures string_place { IfOk result (λ f. f.0.ref_ptr
        ≡ (bytes.entry.ref_ptr.0, bytes.entry.ref_ptr.1 + length (spec.compact (length f.0.now)))) }
    ensures rest_place { IfOk result (λ f. f.1.ref_ptr
        ≡ (bytes.entry.ref_ptr.0, bytes.entry.ref_ptr.1 + length (string f.0.now))) }
    // What is spelled in front is read.
    ensures only { (s rest : List ℕ) → length s < 2 ^ 30 → bytes.entry.now ≡ string s ++ rest
        → IsOkAnd result (λ f. (f.0.now ≡ s) × (f.1.now ≡ rest)) }
    ensures short { IsErrOf result ScaleFault.Short
        ↔ (EndsEarly bytes.entry.now ⊎ IsCutOff bytes.entry.now) }
    ensures not_shortest { IsErrOf result ScaleFault.NotShortest ↔ IsNotShortest bytes.entry.now }
    ensures too_large { IsErrOf result ScaleFault.TooLarge ↔ IsTooLarge bytes.entry.now }
    ensures takes_no_memory { IsErrOf result ScaleFault.OutOfMemory → ⊥ }
{
    let (len, rest) = compact(bytes)?;
    let len = len as usize;
    if rest.len() < len {
        return Err(ScaleFault::Short);
    }
    Ok((&rest[..len], &rest[len..]))
}
