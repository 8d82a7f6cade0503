//! Which code is asked about.
ghost use Rattle.std.specs.Prelude.{◌≡◌, ◌==◌, ◌∷◌, [], ◌<◌, length, map, option_map, MatchOption, IfSome};
ghost use Rattle.std.specs.List.{slice_split};
ghost use Rattle.ssign.specs.Explanation.{asked_of, asked_word, is_asked};

/// Whether the word may be a code. The `ssign:` before a refusal isn't one.
fn is_asked(word: &str) -> bool
    ensures { result ≡ is_asked word.now }
{
    !word.is_empty() && word != "ssign:"
}

/// What stands before the first space, and after it.
fn split_at_space(text: &str) -> Option<(&str, &str)>
    ensures parts { MatchOption result (slice_split (λ octet. octet == 32) text.now ≡ text.now ∷ [])
        (λ x. slice_split (λ octet. octet == 32) text.now ≡ x.0.now ∷ slice_split (λ octet. octet == 32) x.1.now) }
    ensures shorter { IfSome result (λ x. length x.1.now < length text.now) }
{
    text.split_once(' ')
}

/// The first word of a text, between its spaces, that may be a code.
pub fn asked_word(text: &str) -> Option<&str>
    ensures { option_map (λ word. word.now) result ≡ asked_word text.now }
{
    let mut rest = text;
    while let Some((word, after)) = split_at_space(rest) {
        if is_asked(word) {
            return Some(word);
        }
        rest = after;
    }
    if is_asked(rest) {
        return Some(rest);
    }
    None
}

/// The first such word of several texts, so that a refusal may be given as it was printed, in quotes or without.
pub fn asked_of<'a>(texts: &[&'a str]) -> Option<&'a str>
    ensures { option_map (λ word. word.now) result ≡ asked_of (map (λ text. text.now) texts.now) }
{
    for text in texts {
        if let Some(word) = asked_word(text) {
            return Some(word);
        }
    }
    None
}
