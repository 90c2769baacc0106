// The words of a line.
ghost use Rattle.std.specs.Prelude.{◌≡◌, ◌↔◌, [], ◌∷◌, ◌++◌, ◌<◌, true, OnOk, IfOk, IfSome, MatchOption, None, Some};
ghost use Rattle.std.specs.List.{list_all, prefix_len};
ghost use Rattle.fs_path.specs.LineForm.{HasWords};
ghost use Rattle.fs_path.specs.Words.{words_of, is_blank, quoted_text, with_quotes_if_needed, spelling, is_plain, is_bare, is_bare_text, hex_value, hex_pair, escape_value, first_item, items_of, is_apart, leading_word, first_word, trim_spaces, hex_digit, item_text, suffix_after};

use crate::split::split_once;
use crate::{ByteList, List, NoMemory};
use std::alloc::Global;
use std::marker::Model;

/// The most bytes that a line of an input has, without its line feed.
pub const MAX_LINE: usize = 2_048;

// Each byte that a bare word may have stands at its own place, and a point at every other place.
static BARE_MAP: [u8; 256] = *b"\
    ................................\
    .!.#$%&'()*+,-./0123456789:;<=>?\
    @ABCDEFGHIJKLMNOPQRSTUVWXYZ[.]^_\
    `abcdefghijklmnopqrstuvwxyz{|}~.\
    ................................\
    ................................\
    ................................\
    ................................";

// For how many words the list of them has room from the start.
const USUAL_WORDS: usize = 6;

/// Where the bytes of a word are.
#[derive(Debug, Drop)]
enum Storage<'a> {
    /// In its line.
    InLine(&'a [u8]),
    /// In a list of their own, since its text in the line has escapes.
    Apart(ByteList),
}

/// The bytes of a word, seen as the list of them.
#[derive(Debug)]
pub struct WordBytes<'a> {
    alloc: Global,
    storage: Storage<'a>,
}

impl<'a> Model for WordBytes<'a> {
    ghost use Rattle.std.specs.Prelude.{List, ℕ};
    ghost use Rattle.fs_path.specs.Storage.{bytes_at};

    ghost Value = { List ℕ };

    ghost view = { λ w. bytes_at w.storage };
}

// Written out, so that a drop is one call, whether or not the bytes have memory of their own.
impl<'a> Drop for WordBytes<'a> {
    fn drop(self) {
        let WordBytes {
            alloc: _,
            storage: _,
        } = self;
    }
}

impl<'a> WordBytes<'a> {
    // These bytes of a line.
    fn in_line(alloc: Global, bytes: &'a [u8]) -> WordBytes<'a>
        ensures { result ≡ bytes.now }
    {
        WordBytes {
            alloc,
            storage: Storage::InLine(bytes),
        }
    }

    // These bytes.
    fn apart(alloc: Global, bytes: ByteList) -> WordBytes<'a>
        ensures { result ≡ bytes }
    {
        WordBytes {
            alloc,
            storage: Storage::Apart(bytes),
        }
    }

    /// The bytes.
    pub fn items(&self) -> &[u8]
        ensures { result.now ≡ self.now }
    {
        match &self.storage {
            Storage::InLine(bytes) => bytes,
            Storage::Apart(bytes) => bytes.items(),
        }
    }

    /// A list of the bytes.
    pub fn to_list(&self) -> Result<ByteList, NoMemory>
        ensures { IfOk result (λ list. list ≡ self.now) }
    {
        ByteList::from_slice(self.alloc, self.items())
    }
}

/// A word of a line, without its quotes and escapes.
#[derive(Debug)]
pub struct LineWord<'a> {
    /// Whether it is written between quotes.
    pub quoted: bool,
    /// Its bytes.
    pub bytes: WordBytes<'a>,
}

impl<'a> Drop for LineWord<'a> {
    fn drop(self) {
        let LineWord {
            quoted: _,
            bytes: _,
        } = self;
    }
}

// Whether a byte stands for itself between quotes.
fn is_plain(byte: u8) -> bool
    ensures { result ≡ is_plain byte }
{
    matches!(byte, 0x20..=0x7e) && byte != b'"' && byte != b'\\'
}

// Whether a bare word may have a byte.
fn is_bare(byte: u8) -> bool
    ensures { result ≡ is_bare byte }
{
    BARE_MAP[byte as usize] == byte
}

// The value of a hexadecimal digit.
fn hex_value(byte: u8) -> Option<u8>
    ensures value { result ≡ hex_value byte }
    ensures small { IfSome result (λ value. value < 16) }
{
    match byte {
        b'0'..=b'9' => Some(byte - b'0'),
        b'a'..=b'f' => Some(byte - b'a' + 10),
        b'A'..=b'F' => Some(byte - b'A' + 10),
        _ => None,
    }
}

// The byte that two hexadecimal digits denote, and the text after them.
fn hex_pair(text: &[u8]) -> Option<(u8, &[u8])>
    ensures { MatchOption result (hex_pair text.now ≡ None) (λ pair. hex_pair text.now ≡ Some (pair.0, pair.1.now)) }
{
    let [high, low, rest @ ..] = text else {
        return None;
    };
    let high = hex_value(*high)?;
    let low = hex_value(*low)?;
    Some((16 * high + low, rest))
}

// The byte that an escape denotes, from after its backslash, and the text after the escape.
fn escape_value(text: &[u8]) -> Option<(u8, &[u8])>
    ensures { MatchOption result (escape_value text.now ≡ None) (λ item. escape_value text.now ≡ Some (item.0, item.1.now)) }
{
    let [first, rest @ ..] = text else {
        return None;
    };
    match *first {
        b'"' | b'\\' => Some((*first, rest)),
        b'x' => hex_pair(rest),
        _ => None,
    }
}

// The byte that the first item between quotes denotes, and the text after the item.
fn first_item(text: &[u8]) -> Option<(u8, &[u8])>
    ensures { MatchOption result (first_item text.now ≡ None) (λ item. first_item text.now ≡ Some (item.0, item.1.now)) }
{
    let [first, rest @ ..] = text else {
        return None;
    };
    match *first {
        b'\\' => escape_value(rest),
        byte if is_plain(byte) => Some((byte, rest)),
        _ => None,
    }
}

// The bytes between quotes, from after the first quote, and the text after the second.
fn between_quotes(alloc: Global, text: &[u8]) -> Result<Option<(ByteList, &[u8])>, NoMemory>
    ensures { IfOk result (λ parsed. MatchOption parsed (items_of text.now ≡ None) (λ items. items_of text.now ≡ Some (items.0, items.1.now))) }
{
    let mut bytes = ByteList::new(alloc);
    let mut left = text;
    while let [first, after @ ..] = left {
        if *first == b'"' {
            return Ok(Some((bytes, after)));
        }
        let Some((byte, more)) = first_item(left) else {
            return Ok(None);
        };
        bytes.push(byte)?;
        left = more;
    }
    Ok(None)
}

// Whether all bytes stand for themselves between quotes.
fn are_plain(bytes: &[u8]) -> bool
    ensures { result ≡ list_all is_plain bytes.now }
{
    bytes.iter().all(|byte| is_plain(*byte))
}

// The bytes between quotes and the text after the second, where all of them stand for themselves.
#[tactic(auto, using(crate::proofs::WordLemmas::plain_items))]
fn plain_items(text: &[u8]) -> Option<(&[u8], &[u8])>
    ensures { IfSome result (λ items. items_of text.now ≡ Some (items.0.now, items.1.now)) }
{
    let (bytes, rest) = split_once(text, b'"')?;
    if are_plain(bytes) {
        Some((bytes, rest))
    } else {
        None
    }
}

// The bytes of a quoted word, from after its first quote, and the text after the word.
fn quoted_bytes(alloc: Global, text: &[u8]) -> Result<Option<(WordBytes<'_>, &[u8])>, NoMemory>
    ensures { IfOk result (λ parsed. MatchOption parsed (items_of text.now ≡ None) (λ items. items_of text.now ≡ Some (items.0, items.1.now))) }
{
    if let Some((bytes, rest)) = plain_items(text) {
        return Ok(Some((WordBytes::in_line(alloc, bytes), rest)));
    }
    let Some((bytes, rest)) = between_quotes(alloc, text)? else {
        return Ok(None);
    };
    Ok(Some((WordBytes::apart(alloc, bytes), rest)))
}

// How many bytes that a bare word may have begin a text.
fn bare_len(text: &[u8]) -> usize
    ensures { result ≡ prefix_len is_bare text.now }
{
    text.iter().take_while(|byte| is_bare(**byte)).count()
}

// The word that begins a text, and the text after it, whatever that is.
fn leading_word(alloc: Global, text: &[u8]) -> Result<Option<(LineWord<'_>, &[u8])>, NoMemory>
    ensures { IfOk result (λ parsed. MatchOption parsed (leading_word text.now ≡ None) (λ word. leading_word text.now ≡ Some (word.0, word.1.now))) }
{
    if let [b'"', inner @ ..] = text {
        let Some((bytes, rest)) = quoted_bytes(alloc, inner)? else {
            return Ok(None);
        };
        return Ok(Some((
            LineWord {
                quoted: true,
                bytes,
            },
            rest,
        )));
    }
    let count = bare_len(text);
    if count == 0 {
        return Ok(None);
    }
    let bytes = WordBytes::in_line(alloc, &text[..count]);
    Ok(Some((
        LineWord {
            quoted: false,
            bytes,
        },
        &text[count..],
    )))
}

// Whether a word may end before a text.
fn is_apart(text: &[u8]) -> bool
    ensures { result ≡ is_apart text.now }
{
    match text {
        [] => true,
        [first, ..] => *first == b' ',
    }
}

// The word that begins a text, and the text after it: none, or one that begins with a space.
fn first_word(alloc: Global, text: &[u8]) -> Result<Option<(LineWord<'_>, &[u8])>, NoMemory>
    ensures { IfOk result (λ parsed. MatchOption parsed (first_word text.now ≡ None) (λ word. first_word text.now ≡ Some (word.0, word.1.now))) }
{
    let Some((word, rest)) = leading_word(alloc, text)? else {
        return Ok(None);
    };
    if !is_apart(rest) {
        return Ok(None);
    }
    Ok(Some((word, rest)))
}

// A text without the spaces that begin it.
fn trim_spaces(text: &[u8]) -> &[u8]
    ensures { result.now ≡ trim_spaces text.now }
{
    let mut left = text;
    while let [b' ', more @ ..] = left {
        left = more;
    }
    left
}

/// The words of a line, where it has the form of one: bare and quoted words with spaces between them and at both ends.
pub fn words_of(alloc: Global, line: &[u8]) -> Result<Option<List<LineWord<'_>>>, NoMemory>
    ensures parsed { IfOk result (λ parsed. parsed ≡ words_of line.now) }
    ensures exact { IfOk result (λ parsed. (words : List LineWord) → (parsed ≡ Some words) ↔ HasWords line.now words) }
{
    let mut words = List::with_capacity(alloc, USUAL_WORDS)?;
    let mut left = trim_spaces(line);
    while !left.is_empty() {
        let Some((word, rest)) = first_word(alloc, left)? else {
            return Ok(None);
        };
        words.push(word)?;
        left = trim_spaces(rest);
    }
    Ok(Some(words))
}

/// Whether a line is blank: it has no words, or its first byte that is no space is `#`.
#[tactic(auto, unfolding(crate::specs::Words::is_blank))]
pub fn is_blank(line: &[u8]) -> bool
    ensures { result ≡ is_blank line.now }
{
    match trim_spaces(line) {
        [] => true,
        [first, ..] => *first == b'#',
    }
}

// A hexadecimal digit.
fn hex_digit(value: u8) -> u8
    requires { value < 16 }
    ensures { result ≡ hex_digit value }
{
    if value <= 9 {
        b'0' + value
    } else {
        b'a' + (value - 10)
    }
}

fn put_item(text: &mut Vec<u8>, byte: u8) -> Result<(), NoMemory>
    ensures { OnOk result (text.new.items ≡ text.old.items ++ item_text byte) }
{
    if byte == b'"' || byte == b'\\' {
        return text.extend_from_slice(&[b'\\', byte]);
    }
    if is_plain(byte) {
        text.push(byte)?;
        return Ok(());
    }
    text.extend_from_slice(&[b'\\', b'x', hex_digit(byte / 16), hex_digit(byte % 16)])
}

/// Writes bytes as a quoted word.
#[tactic(auto, unfolding(crate::specs::Words::quoted_text))]
pub fn put_quoted(text: &mut Vec<u8>, bytes: &[u8]) -> Result<(), NoMemory>
    ensures text { OnOk result (text.new.items ≡ text.old.items ++ quoted_text bytes.now) }
    ensures read_back { OnOk result (words_of (suffix_after text.old.items text.new.items) ≡ Some (record { quoted = true; bytes = bytes.now } ∷ [])) }
{
    text.push(b'"')?;
    for byte in bytes {
        put_item(text, *byte)?;
    }
    text.push(b'"')?;
    Ok(())
}

fn are_bare(bytes: &[u8]) -> bool
    ensures { result ≡ list_all is_bare bytes.now }
{
    bytes.iter().all(|byte| is_bare(*byte))
}

// Whether bytes can be written as a bare word.
#[tactic(auto, using(std::proofs::lemmas::Bool::Decides::nat_tests))]
fn is_bare_text(bytes: &[u8]) -> bool
    ensures { result ≡ is_bare_text bytes.now }
{
    !bytes.is_empty() && are_bare(bytes)
}

/// Writes bytes as a word, between quotes exactly where they can't be a bare word.
pub fn put_word(text: &mut Vec<u8>, bytes: &[u8]) -> Result<(), NoMemory>
    ensures { OnOk result (text.new.items ≡ text.old.items ++ spelling (with_quotes_if_needed bytes.now)) }
{
    if is_bare_text(bytes) {
        text.extend_from_slice(bytes)
    } else {
        put_quoted(text, bytes)
    }
}
