ghost use Rattle.sdb_script.specs.Grammar.{changes_of};
ghost use Rattle.sdb_script.specs.inner.Reading.{IsParsed, words_left};

use crate::cursor::next_word;
use crate::line::LineFault;
use crate::word::parse_change;
use sdb_base::Changes;
use std::alloc::Global;

const MOST_CHANGES: usize = 65536;

// The changes that the words left spell, one a word.
pub(crate) fn parse_changes(alloc: Global, words: Option<&[u8]>) -> Result<Changes, LineFault>
    ensures { IsParsed result (changes_of (words_left words.entry)) }
{
    let mut changes = Changes::new(alloc);
    let mut rest = words;
    'words: while let Some((word, after)) = next_word(rest) {
        if changes.len() == MOST_CHANGES {
            return Err(LineFault::NotInGrammar);
        }
        let change = parse_change(alloc, word)?;
        changes.push(change)?;
        rest = after;
    }
    Ok(changes)
}
