// A text split at a byte.
ghost use Rattle.std.specs.Prelude.{◌≡◌, ◌==◌, ◌+◌, ◌≤◌, ◌∷◌, IfSome, MatchOption, None, Some, length, position};
ghost use Rattle.std.specs.Option.{option_copied};
ghost use Rattle.fs_path.specs.Split.{split_once, pieces, pieces_of_rest, bytes_from};

/// The place of the first `at`.
pub fn find_byte(text: &[u8], at: u8) -> Option<usize>
    ensures { result ≡ position (λ b. b == at) text.now }
{
    text.iter().position(|byte| *byte == at)
}

/// The text before the first `at` and the text after it, or `None` where there is no `at`.
#[tactic(auto, using(crate::proofs::SplitLemmas::split_missing))]
pub fn split_once(text: &[u8], at: u8) -> Option<(&[u8], &[u8])>
    ensures parts { MatchOption result (split_once at text.now ≡ None) (λ parts. split_once at text.now ≡ Some (parts.0.now, parts.1.now)) }
    ensures shorter { IfSome result (λ parts. length parts.0.now + length parts.1.now + 1 ≤ length text.now) }
{
    let place = find_byte(text, at)?;
    Some((&text[..place], &text[place + 1..]))
}

/// The first piece of a text whose pieces have one `at` between them, and the text after that `at`, if there is one.
#[tactic(auto, using(crate::proofs::SplitLemmas::pieces_found, crate::proofs::SplitLemmas::pieces_missing))]
pub fn first_piece(text: &[u8], at: u8) -> (&[u8], Option<&[u8]>)
    ensures pieces { pieces at text.now ≡ result.0.now ∷ pieces_of_rest at (option_copied result.1) }
    ensures lengths { length result.0.now + bytes_from (option_copied result.1) ≡ length text.now }
{
    match find_byte(text, at) {
        Some(place) => (&text[..place], Some(&text[place + 1..])),
        None => (text, None),
    }
}

/// The first line of a text and the text after its line feed, or `None` where there is no line feed.
pub fn next_line(text: &[u8]) -> Option<(&[u8], &[u8])>
    ensures line { MatchOption result (split_once 10 text.now ≡ None) (λ parts. split_once 10 text.now ≡ Some (parts.0.now, parts.1.now)) }
    ensures shorter { IfSome result (λ parts. length parts.0.now + length parts.1.now + 1 ≤ length text.now) }
{
    split_once(text, b'\n')
}
