//! The words of a line.
ghost use Rattle.std.specs.Prelude.{◌≡◌, ◌==◌, [], ◌∷◌, not, MatchOption, position};
ghost use Rattle.std.specs.Str.{bytes_eq};
ghost use Rattle.dmc_text.specs.Words.{is_space, words};

/// The index of the first byte that is no space.
fn first_other(text: &[u8]) -> Option<usize>
    ensures { result ≡ position (λ b. not (is_space b)) text.now }
{
    text.iter().position(|byte| *byte != b' ')
}

/// The index of a byte's first occurrence.
pub(crate) fn first_of(text: &[u8], sought: u8) -> Option<usize>
    ensures { result ≡ position (λ b. b == sought) text.now }
{
    text.iter().position(|byte| *byte == sought)
}

/// The first word of a text, and what follows it. `None` if there is no word.
pub fn first_word(text: &[u8]) -> Option<(&[u8], &[u8])>
    ensures { MatchOption result (words text.now ≡ [])
        (λ found. words text.now ≡ found.0.now ∷ words found.1.now) }
{
    let text = &text[first_other(text)?..];
    let end = first_of(text, b' ').unwrap_or(text.len());
    Some(text.split_at(end))
}

/// Whether a word has this spelling.
pub(crate) fn spells(word: &[u8], text: &[u8]) -> bool
    ensures { result ≡ bytes_eq word.now text.now }
{
    word == text
}
