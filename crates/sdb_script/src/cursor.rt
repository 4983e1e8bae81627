ghost use Rattle.std.specs.Prelude.{◌≡◌, ◌==◌, ◌<◌, [], ◌∷◌, length, is_some, IfSome, IfNone, MatchOption};
ghost use Rattle.std.specs.List.{before_first, after_first, list_any, position};
ghost use Rattle.sdb_script.specs.Grammar.{words_of};
ghost use Rattle.sdb_script.specs.inner.Reading.{words_left};

// The first place of a byte.
fn find(text: &[u8], at: u8) -> Option<usize>
    ensures { result ≡ position (λ c. c == at) text.now }
{
    text.iter().position(|c| *c == at)
}

// The bytes before the first `at`, and those after it where there is one.
pub(crate) fn cut(text: &[u8], at: u8) -> (&[u8], Option<&[u8]>)
    ensures before { result.0.now ≡ before_first (λ c. c == at) text.now }
    ensures found { is_some result.1 ≡ list_any (λ c. c == at) text.now }
    ensures after { IfSome result.1 (λ rest. rest.now ≡ after_first (λ c. c == at) text.now) }
    ensures none { IfNone result.1 (result.0.now ≡ text.now) }
{
    match find(text, at) {
        Some(i) => (&text[..i], Some(&text[i + 1..])),
        None => (text, None),
    }
}

// The first word of a text, and the rest of the text where more words follow.
pub(crate) fn first_word(text: &[u8]) -> (&[u8], Option<&[u8]>)
    ensures { words_of text.now ≡ result.0.now ∷ words_left result.1 }
{
    cut(text, b' ')
}

// The next word where one is left, and the words after it.
pub(crate) fn next_word(words: Option<&[u8]>) -> Option<(&[u8], Option<&[u8]>)>
    ensures { MatchOption result (words_left words.entry ≡ [])
        (λ x. words_left words.entry ≡ x.0.now ∷ words_left x.1) }
{
    words.map(first_word)
}
