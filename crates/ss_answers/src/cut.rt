//! Cutting a text at its first line feed, and a line at its first space.
ghost use Rattle.std.specs.Prelude.{◌≡◌, ◌++◌, ◌∷◌, ◌<◌, length, IfSome, MatchOption};
ghost use Rattle.ss_octets.specs.Ascii.{lf, sp};
ghost use Rattle.ss_answers.specs.Lines.{Lacks};

use ss_octets::cut_first;

const LINE_FEED: u8 = b'\n';

const SPACE: u8 = b' ';

/// What stands before the first line feed, and what stands after it.
pub fn cut_ended_line(text: &[u8]) -> Option<(&[u8], &[u8])>
    ensures cut { MatchOption result (Lacks lf text.now)
        (λ parts. Lacks lf parts.0.now × (text.now ≡ parts.0.now ++ lf ∷ parts.1.now)) }
    ensures shorter { IfSome result (λ parts. length parts.1.now < length text.now) }
{
    cut_first(text, LINE_FEED)
}

/// What stands before the first space, and what stands after it.
pub fn cut_word(text: &[u8]) -> Option<(&[u8], &[u8])>
    ensures { MatchOption result (Lacks sp text.now)
        (λ parts. Lacks sp parts.0.now × (text.now ≡ parts.0.now ++ sp ∷ parts.1.now)) }
{
    cut_first(text, SPACE)
}
