// The words of a line from the left.
ghost use Rattle.std.specs.Prelude.{◌≡◌, ◌≤◌, not, false, true, length};
ghost use Rattle.std.specs.List.{prefix_len};
ghost use Rattle.fs_path.specs.Words.{is_space};
ghost use Rattle.aud_record.specs.Results.{AnswersAs};
ghost use Rattle.aud_record.specs.Words.{is_no_memory, Reads, quoted_len, word_len, first_word, after_word, after_space, value_at_end, value_and_rest};

use crate::fault::Fault;

// How many bytes of a quoted word stand after its opening quote.
fn quoted_len(text: &[u8]) -> usize
    ensures value { result ≡ quoted_len false text.now }
    ensures within { result ≤ length text.now }
{
    let mut escaped = false;
    for (at, byte) in text.iter().enumerate() {
        if *byte == b'"' && !escaped {
            return at + 1;
        }
        escaped = *byte == b'\\' && !escaped;
    }
    text.len()
}

// How many bytes stand before the first space.
fn bare_len(text: &[u8]) -> usize
    ensures value { result ≡ prefix_len (λ b. not (is_space b)) text.now }
    ensures within { result ≤ length text.now }
{
    text.iter().take_while(|byte| **byte != b' ').count()
}

// How many bytes the first word has.
#[tactic(auto, unfolding(crate::specs::Words::word_len))]
fn word_len(left: &[u8]) -> usize
    ensures value { result ≡ word_len left.now }
    ensures within { result ≤ length left.now }
{
    let [first, inner @ ..] = left else {
        return 0;
    };
    if *first == b'"' {
        1 + quoted_len(inner)
    } else {
        bare_len(left)
    }
}

// What stands after the space that is due.
#[tactic(auto, unfolding(crate::specs::Words::after_space))]
fn after_space(left: &[u8]) -> Result<&[u8], Fault>
    ensures { AnswersAs is_no_memory (λ rest. rest.now) result (after_space left.now) }
{
    match left {
        [b' ', rest @ ..] => Ok(rest),
        _ => Err(Fault::Syntax(left.len())),
    }
}

/// The word that is due, and what stands after it.
#[derive(Clone, Copy)]
pub struct Due<'a> {
    // The line from the word on.
    left: &'a [u8],
    pub word: &'a [u8],
    rest: &'a [u8],
    pub ghost word_is: { word.now ≡ first_word left.now },
    pub ghost rest_is: { rest.now ≡ after_word left.now },
}

/// What is left of a line.
#[derive(Drop)]
pub struct Words<'a> {
    left: &'a [u8],
}

impl<'a> Due<'a> {
    // The word with which a text begins.
    fn first(left: &'a [u8]) -> Due<'a>
        ensures { result.left.now ≡ left.now }
    {
        let (word, rest) = left.split_at(word_len(left));
        Due { left, word, rest }
    }
}

impl<'a> Words<'a> {
    /// All of a line.
    pub fn new(line: &'a [u8]) -> Words<'a>
        ensures { result.left.now ≡ line.now }
    {
        Words { left: line }
    }

    /// The first word.
    pub fn first(&self) -> Due<'a>
        ensures { result.left.now ≡ self.now.left.now }
    {
        Due::first(self.left)
    }

    /// The word after the space that is due.
    pub fn next(&self) -> Result<Due<'a>, Fault>
        ensures { AnswersAs is_no_memory (λ due. due.left.now) result (after_space self.now.left.now) }
    {
        Ok(Due::first(after_space(self.left)?))
    }

    /// The value of the word, if it has one. What stands after the word is left then.
    #[tactic(auto, unfolding(crate::specs::Words::fault_of))]
    pub fn or_syntax<T>(&mut self, due: Due<'a>, parsed: Option<T>) -> Result<T, Fault>
        ensures { Reads result (value_and_rest false due.entry.left.now parsed) self.new.left.now }
    {
        let value = parsed.ok_or(Fault::Syntax(due.left.len()))?;
        self.left = due.rest;
        Ok(value)
    }

    /// The value of a word of a list, if it has one. What stands after the word is left then.
    #[tactic(auto, unfolding(crate::specs::Words::fault_of))]
    pub fn or_unknown<T>(&mut self, due: Due<'a>, parsed: Option<T>) -> Result<T, Fault>
        ensures { Reads result (value_and_rest true due.entry.left.now parsed) self.new.left.now }
    {
        if due.word.is_empty() {
            return self.or_syntax(due, parsed);
        }
        let value = parsed.ok_or(Fault::UnknownWord(due.left.len()))?;
        self.left = due.rest;
        Ok(value)
    }

    /// The value, if the line ends here.
    #[tactic(auto, unfolding(crate::specs::Words::value_at_end))]
    pub fn value_at_end<T: Drop>(&self, value: T) -> Result<T, Fault>
        ensures { AnswersAs is_no_memory (λ x. x) result (value_at_end value self.now.left.now) }
    {
        match self.left {
            [] => Ok(value),
            [b' ', rest @ ..] => Err(Fault::Syntax(rest.len())),
            _ => Err(Fault::Syntax(self.left.len())),
        }
    }
}
