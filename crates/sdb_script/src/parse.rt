ghost use Rattle.std.specs.Prelude.{◌≡◌, Some, None, IfOk, IsErrOf};
ghost use Rattle.sdb_script.specs.Grammar.{line_of, is_blank, new_line, genesis_line, import_line, id_and_key, read_line, next_line, list_line, root_line, stage_line, line_of_words, words_of};
ghost use Rattle.sdb_script.specs.LineTexts.{IsWithin};
ghost use Rattle.sdb_script.specs.inner.Reading.{IsParsed, words_left};

use crate::changes::parse_changes;
use crate::cursor::{first_word, next_word};
use crate::line::{Line, LineFault};
use crate::number::parse_number;
use crate::stage::parse_stage_name;
use crate::word::{parse_id, parse_key};
use sdb_base::{Block, BlockId, Bytes};
use sdb_model::Task;
use std::alloc::Global;

/// At most so many bytes are in a line, without its line feed.
pub const MOST_IN_LINE: usize = 16777216;

#[tactic(auto, unfolding(crate::specs::Grammar::is_blank))]
fn is_blank(line: &[u8]) -> bool
    ensures { result ≡ is_blank line.now }
{
    match line {
        [] => true,
        [b'#', rest @ ..] => !rest.contains(&b'\n'),
        _ => false,
    }
}

// The line of the words after `new`.
#[tactic(auto, unfolding(crate::specs::Grammar::new_line))]
fn parse_new(words: Option<&[u8]>) -> Option<Line>
    ensures { result ≡ new_line (words_left words.entry) }
{
    let (base, rest) = next_word(words)?;
    if rest.is_some() {
        return None;
    }
    let base = parse_number(base, 0, 16)?;
    Some(Line::New { base: base as u8 })
}

// The line of the words after `genesis`.
#[tactic(auto, unfolding(crate::specs::Grammar::genesis_line))]
fn parse_genesis(alloc: Global, words: Option<&[u8]>) -> Result<Line, LineFault>
    ensures { IsParsed result (genesis_line (words_left words.entry)) }
{
    let (id, words) = next_word(words).ok_or(LineFault::NotInGrammar)?;
    let (window, words) = next_word(words).ok_or(LineFault::NotInGrammar)?;
    let id = parse_id(id).ok_or(LineFault::NotInGrammar)?;
    let window = parse_number(window, 1, 4096).ok_or(LineFault::NotInGrammar)?;
    let block = Block {
        id,
        parent: BlockId([0; 32]),
        changes: parse_changes(alloc, words)?,
        version: 0,
    };
    Ok(Line::Genesis { window, block })
}

// The line of the words after `import`.
#[tactic(auto, unfolding(crate::specs::Grammar::import_line))]
fn parse_import(alloc: Global, words: Option<&[u8]>) -> Result<Line, LineFault>
    ensures { IsParsed result (import_line (words_left words.entry)) }
{
    let (id, words) = next_word(words).ok_or(LineFault::NotInGrammar)?;
    let (parent, words) = next_word(words).ok_or(LineFault::NotInGrammar)?;
    let id = parse_id(id).ok_or(LineFault::NotInGrammar)?;
    let parent = parse_id(parent).ok_or(LineFault::NotInGrammar)?;
    let block = Block {
        id,
        parent,
        changes: parse_changes(alloc, words)?,
        version: 0,
    };
    Ok(Line::Job {
        task: Task::Import(block),
    })
}

// The block and the key that the words spell, `ID KEY`.
#[tactic(auto, unfolding(crate::specs::Grammar::id_and_key))]
fn parse_id_and_key(alloc: Global, words: Option<&[u8]>) -> Result<(BlockId, Bytes), LineFault>
    ensures { IsParsed result (id_and_key (words_left words.entry)) }
{
    let (id, words) = next_word(words).ok_or(LineFault::NotInGrammar)?;
    let (key, rest) = next_word(words).ok_or(LineFault::NotInGrammar)?;
    if rest.is_some() {
        return Err(LineFault::NotInGrammar);
    }
    let id = parse_id(id).ok_or(LineFault::NotInGrammar)?;
    let key = parse_key(alloc, key)?;
    Ok((id, key))
}

// The line of the words after `read`.
fn parse_read(alloc: Global, words: Option<&[u8]>) -> Result<Line, LineFault>
    ensures { IsParsed result (read_line (words_left words.entry)) }
{
    let (id, key) = parse_id_and_key(alloc, words)?;
    Ok(Line::Job {
        task: Task::Read { id, key },
    })
}

// The line of the words after `next`.
fn parse_next(alloc: Global, words: Option<&[u8]>) -> Result<Line, LineFault>
    ensures { IsParsed result (next_line (words_left words.entry)) }
{
    let (id, key) = parse_id_and_key(alloc, words)?;
    Ok(Line::Job {
        task: Task::Next { id, key },
    })
}

// The line of the words after `list`.
fn parse_list(alloc: Global, words: Option<&[u8]>) -> Result<Line, LineFault>
    ensures { IsParsed result (list_line (words_left words.entry)) }
{
    let (id, prefix) = parse_id_and_key(alloc, words)?;
    Ok(Line::Job {
        task: Task::List { id, prefix },
    })
}

// The line of the words after `root`.
#[tactic(auto, unfolding(crate::specs::Grammar::root_line))]
fn parse_root(words: Option<&[u8]>) -> Option<Line>
    ensures { result ≡ root_line (words_left words.entry) }
{
    let (id, rest) = next_word(words)?;
    if rest.is_some() {
        return None;
    }
    let id = parse_id(id)?;
    Some(Line::Job {
        task: Task::Root { id },
    })
}

// The line of a stage's name, which no words follow.
#[tactic(auto, using(crate::proofs::Longer::stage_longer), unfolding(crate::specs::Grammar::stage_line))]
fn parse_stage(word: &[u8], words: Option<&[u8]>) -> Option<Line>
    ensures { result ≡ stage_line word.now (words_left words.entry) }
{
    match words {
        None => Some(Line::Stage(parse_stage_name(word)?)),
        Some(_) => None,
    }
}

// The line of a text of words.
#[tactic(auto, unfolding(crate::specs::Grammar::line_of_words))]
fn parse_words(alloc: Global, line: &[u8]) -> Result<Line, LineFault>
    ensures { IsParsed result (line_of_words (words_of line.now)) }
{
    let (word, words) = first_word(line);
    if word == b"new".as_slice() {
        parse_new(words).ok_or(LineFault::NotInGrammar)
    } else if word == b"genesis".as_slice() {
        parse_genesis(alloc, words)
    } else if word == b"import".as_slice() {
        parse_import(alloc, words)
    } else if word == b"read".as_slice() {
        parse_read(alloc, words)
    } else if word == b"next".as_slice() {
        parse_next(alloc, words)
    } else if word == b"list".as_slice() {
        parse_list(alloc, words)
    } else if word == b"root".as_slice() {
        parse_root(words).ok_or(LineFault::NotInGrammar)
    } else {
        parse_stage(word, words).ok_or(LineFault::NotInGrammar)
    }
}

/// The line of a text, which is given without its line feed; it keeps the language's limits. `NotInGrammar` comes
/// only where the text is no line, `OutOfMemory` for want of memory alone.
#[tactic(auto, unfolding(crate::specs::Grammar::line_of))]
pub fn parse_line(alloc: Global, line: &[u8]) -> Result<Line, LineFault>
    ensures line { IfOk result (λ l. line_of line.now ≡ Some l) }
    ensures within { IfOk result IsWithin }
    ensures not_in_grammar { IsErrOf result LineFault.NotInGrammar → line_of line.now ≡ None }
{
    if line.len() > MOST_IN_LINE {
        return Err(LineFault::NotInGrammar);
    }
    if is_blank(line) {
        return Ok(Line::Blank);
    }
    parse_words(alloc, line)
}
