ghost use Rattle.std.specs.Prelude.{◌≡◌, ◌≤◌, Some, option_and_then};
ghost use Rattle.std.specs.Option.{option_map};
ghost use Rattle.sdb_script.specs.inner.Reading.{IsParsed, fault_of};
ghost use Rattle.sdb_script.specs.Words.{id_of, bytes_of, change_to, deletion_of, change_of, most_in_key, most_in_value};

use crate::cursor::cut;
use crate::line::LineFault;
use hex::FromHexError;
use sdb_base::{BlockId, Bytes, Change};
use std::alloc::Global;

const MOST_IN_KEY: usize = 1024;

const MOST_IN_VALUE: usize = 4194304;

// The id that the word spells.
pub(crate) fn parse_id(word: &[u8]) -> Option<BlockId>
    ensures { result ≡ id_of word.now }
{
    if word.is_empty() || word.len() > 64 {
        return None;
    }
    let mut bytes = [0u8; 32];
    let start = 32 - word.len() / 2;
    hex::decode_to_slice(word, &mut bytes[start..]).ok()?;
    Some(BlockId(bytes))
}

fn fault_of(error: FromHexError) -> LineFault
    ensures { result ≡ fault_of error }
{
    match error {
        FromHexError::OutOfMemory => LineFault::OutOfMemory,
        _ => LineFault::NotInGrammar,
    }
}

// The bytes that the word spells, at most `most`.
fn parse_bytes(alloc: Global, word: &[u8], most: usize) -> Result<Bytes, LineFault>
    requires { most ≤ 4194304 }
    ensures { IsParsed result (bytes_of most word.now) }
{
    if word == b"-".as_slice() {
        return Ok(Bytes::new(alloc));
    }
    if word.is_empty() || word.len() > 2 * most {
        return Err(LineFault::NotInGrammar);
    }
    match hex::decode(alloc, word) {
        Ok(bytes) => Ok(Bytes::from_vec(bytes)),
        Err(error) => Err(fault_of(error)),
    }
}

// `KEY=VALUE`, cut at the first `=`.
fn parse_setting(alloc: Global, key: &[u8], value: &[u8]) -> Result<Change, LineFault>
    ensures { IsParsed result (option_and_then (λ key. option_map (λ value. change_to key (Some value))
        (bytes_of most_in_value value.now)) (bytes_of most_in_key key.now)) }
{
    let key = parse_bytes(alloc, key, MOST_IN_KEY)?;
    let value = parse_bytes(alloc, value, MOST_IN_VALUE)?;
    Ok(Change {
        trie: Bytes::new(alloc),
        key,
        value: Some(value),
    })
}

// `KEY!`.
fn parse_deletion(alloc: Global, word: &[u8]) -> Result<Change, LineFault>
    ensures { IsParsed result (deletion_of word.now) }
{
    let (key, Some([])) = cut(word, b'!') else {
        return Err(LineFault::NotInGrammar);
    };
    Ok(Change {
        trie: Bytes::new(alloc),
        key: parse_bytes(alloc, key, MOST_IN_KEY)?,
        value: None,
    })
}

// The change that the word spells.
#[tactic(auto, unfolding(crate::specs::Words::change_of))]
pub(crate) fn parse_change(alloc: Global, word: &[u8]) -> Result<Change, LineFault>
    ensures { IsParsed result (change_of word.now) }
{
    match cut(word, b'=') {
        (key, Some(value)) => parse_setting(alloc, key, value),
        (_, None) => parse_deletion(alloc, word),
    }
}

// The key that the word spells.
pub(crate) fn parse_key(alloc: Global, word: &[u8]) -> Result<Bytes, LineFault>
    ensures { IsParsed result (bytes_of most_in_key word.now) }
{
    parse_bytes(alloc, word, MOST_IN_KEY)
}
