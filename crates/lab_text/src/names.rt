// What a level, a category or a grade may be called.
ghost use Rattle.std.specs.Prelude.{◌≡◌};
ghost use Rattle.std.specs.List.{list_all};
ghost use Rattle.lab_text.specs.Names.{is_letter, is_name_part, is_label_name};

pub fn is_letter(byte: u8) -> bool
    ensures { result ≡ is_letter byte }
{
    byte.is_ascii_alphabetic()
}

pub fn is_name_part(byte: u8) -> bool
    ensures { result ≡ is_name_part byte }
{
    is_letter(byte) || matches!(byte, b'0'..=b'9' | b'_' | b'-')
}

fn are_name_parts(bytes: &[u8]) -> bool
    ensures { result ≡ list_all is_name_part bytes.now }
{
    bytes.iter().all(|byte| is_name_part(*byte))
}

/// Whether a level, a category or a grade may have this name.
pub fn is_label_name(word: &[u8]) -> bool
    ensures { result ≡ is_label_name word.now }
{
    match word {
        [first, rest @ ..] => is_letter(*first) && rest.len() <= 30 && are_name_parts(rest),
        [] => false,
    }
}
