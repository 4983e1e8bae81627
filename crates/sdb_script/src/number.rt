ghost use Rattle.std.specs.Prelude.{◌≡◌, ◌<◌, ◌≤◌, ◌↔◌, IsTrue, length, slice_index, nat_le, None, Some, option_and_then, if◌then◌else◌};
ghost use Rattle.sdb_script.specs.Numbers.{digits_value, number_within};

// The number that the digits spell, up to `high`.
fn digits(word: &[u8], high: u32) -> Option<u32>
    requires { high ≤ 4096 }
    ensures { result ≡ option_and_then (λ n. if nat_le n high then Some n else None)
        (digits_value 0 word.now) }
{
    let mut value = 0;
    for digit in word {
        if !digit.is_ascii_digit() {
            return None;
        }
        value = 10 * value + u32::from(*digit - b'0');
        if value > high {
            return None;
        }
    }
    Some(value)
}

fn has_leading_zero(word: &[u8]) -> bool
    ensures { IsTrue result ↔ ((slice_index word.now 0 ≡ 48) × (1 < length word.now)) }
{
    word.len() > 1 && word[0] == b'0'
}

// The number that the word spells, from `low` to `high`.
pub(crate) fn parse_number(word: &[u8], low: u32, high: u32) -> Option<u32>
    requires { high ≤ 4096 }
    ensures { result ≡ number_within low high word.now }
{
    if word.is_empty() || has_leading_zero(word) {
        return None;
    }
    let value = digits(word, high)?;
    if value < low { None } else { Some(value) }
}
