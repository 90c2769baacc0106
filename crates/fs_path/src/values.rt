// Numbers, modes and groups as words.
ghost use Rattle.std.specs.Prelude.{◌≡◌, ◌+◌, ◌%◌, ◌&&◌, ◌<◌, ◌≤◌, ◌^◌, ◌++◌, List, nat_le, map, ◌==◌, length, IsTrue, Some, OnOk, IfOk, IfSome};
ghost use Rattle.std.specs.Fmt.{decimal};
ghost use Rattle.std.specs.List.{list_all, slice_split};
ghost use Rattle.fs_path.specs.Options.{keep_if};
ghost use Rattle.fs_path.specs.Values.{is_digit, digits_value, numeral, number_of, mode_of, is_mode, numbers_of, groups_of, mode_text, groups_text};
ghost use Rattle.fs_path.specs.Words.{suffix_after};

use crate::{List, NoMemory};
use itoa::Buffer;
use std::alloc::Global;

const MAX_NUMBER: u64 = u32::MAX as u64;

/// All bits that four octal digits have.
pub const MAX_MODE: u16 = 0o7777;

/// The bit of these that no mode has.
pub const STICKY: u16 = 0o1000;

const MAX_GROUPS: usize = 16;

// The value of digits, where all of the bytes are digits and the value is at most `high`.
fn digits_value(word: &[u8], base: u64, high: u64) -> Option<u64>
    requires some_base { 1 ≤ base }
    requires small_base { base ≤ 10 }
    requires small { high < 2 ^ 32 }
    ensures { result ≡ keep_if (list_all (is_digit base) word.now && nat_le (digits_value base 0 word.now) high) (digits_value base 0 word.now) }
{
    let mut value = 0;
    for byte in word {
        let digit = u64::from(*byte);
        if digit < 48 || digit >= 48 + base {
            return None;
        }
        value = base * value + (digit - 48);
        if value > high {
            return None;
        }
    }
    Some(value)
}

/// A number of 1 to `most` digits, from `low` to `high`.
#[tactic(auto, using(std::proofs::lemmas::Bool::Decides::nat_tests), unfolding(crate::specs::Values::numeral))]
pub fn numeral(word: &[u8], base: u64, most: usize, low: u64, high: u64) -> Option<u64>
    requires some_base { 1 ≤ base }
    requires small_base { base ≤ 10 }
    requires small { high < 2 ^ 32 }
    ensures value { result ≡ numeral base most low high word.now }
    ensures within { IfSome result (λ n. n ≤ high) }
{
    if word.is_empty() || word.len() > most {
        return None;
    }
    let value = digits_value(word, base, high)?;
    (low <= value).then_some(value)
}

/// A number: 1 to 10 decimal digits, of a value that fits 32 bits.
pub fn number_of(word: &[u8]) -> Option<u32>
    ensures { result ≡ number_of word.now }
{
    let number = numeral(word, 10, 10, 0, MAX_NUMBER)?;
    Some(number as u32)
}

/// Whether bits are a mode: permission and set-id bits, within octal 6777.
pub fn is_mode(bits: u16) -> bool
    ensures { result ≡ is_mode bits }
{
    bits <= MAX_MODE && bits / STICKY % 2 == 0
}

/// A mode: 1 to 4 octal digits without the bit 1000.
pub fn mode_of(word: &[u8]) -> Option<u16>
    ensures { result ≡ mode_of word.now }
{
    let bits = numeral(word, 8, 4, 0, u64::from(MAX_MODE))? as u16;
    is_mode(bits).then_some(bits)
}

// The numbers that words denote, where each denotes one.
fn numbers_of(alloc: Global, words: &[&[u8]]) -> Result<Option<List<u32>>, NoMemory>
    ensures { IfOk result (λ parsed. parsed ≡ numbers_of (map (λ word. word.now) words.now)) }
{
    let mut numbers = List::new(alloc);
    for word in words {
        let Some(number) = number_of(word) else {
            return Ok(None);
        };
        numbers.push(number)?;
    }
    Ok(Some(numbers))
}

// The pieces between commas.
fn parts_of(alloc: Global, word: &[u8]) -> Result<Vec<&[u8]>, NoMemory>
    ensures { IfOk result (λ parts. map (λ part. part.now) parts.items ≡ slice_split (λ b. b == 44) word.now) }
{
    word.split(|byte| *byte == b',').collect(alloc)
}

/// Supplementary groups: `-`, or 1 to 16 numbers with commas between them.
#[tactic(auto, unfolding(crate::specs::Values::groups_of))]
pub fn groups_of(alloc: Global, word: &[u8]) -> Result<Option<List<u32>>, NoMemory>
    ensures { IfOk result (λ parsed. parsed ≡ groups_of word.now) }
{
    if word == b"-".as_slice() {
        return Ok(Some(List::new(alloc)));
    }
    let parts = parts_of(alloc, word)?;
    if parts.len() > MAX_GROUPS {
        return Ok(None);
    }
    numbers_of(alloc, parts.as_slice())
}

/// Writes a number in decimal.
#[inline(always)]
pub fn put_number(text: &mut Vec<u8>, n: u64) -> Result<(), NoMemory>
    ensures text { OnOk result (text.new.items ≡ text.old.items ++ decimal n) }
    ensures read_back { OnOk result (n ≤ u32.MAX → number_of (suffix_after text.old.items text.new.items) ≡ Some n) }
{
    text.extend_from_slice(Buffer::new().format(n).as_bytes())
}

// The last octal digit of a number.
fn octal_digit(n: u16) -> u8
    ensures { result ≡ 48 + n % 8 }
{
    b'0' + (n % 8) as u8
}

/// Writes a mode as four octal digits.
#[tactic(auto, unfolding(crate::specs::Values::mode_text))]
pub fn put_mode(text: &mut Vec<u8>, mode: u16) -> Result<(), NoMemory>
    ensures text { OnOk result (text.new.items ≡ text.old.items ++ mode_text mode) }
    ensures read_back { OnOk result (IsTrue (is_mode mode) → mode_of (suffix_after text.old.items text.new.items) ≡ Some mode) }
{
    text.extend_from_slice(&[
        octal_digit(mode / 512),
        octal_digit(mode / 64),
        octal_digit(mode / 8),
        octal_digit(mode),
    ])
}

/// Writes groups: `-` where there are none, else the numbers with commas between them.
#[tactic(auto, unfolding(crate::specs::Values::groups_text))]
pub fn put_groups(text: &mut Vec<u8>, groups: &[u32]) -> Result<(), NoMemory>
    ensures text { OnOk result (text.new.items ≡ text.old.items ++ groups_text groups.now) }
    ensures read_back { OnOk result (length groups.now ≤ 16 → groups_of (suffix_after text.old.items text.new.items) ≡ Some groups.now) }
{
    let [first, more @ ..] = groups else {
        text.push(b'-')?;
        return Ok(());
    };
    put_number(text, u64::from(*first))?;
    for group in more {
        text.push(b',')?;
        put_number(text, u64::from(*group))?;
    }
    Ok(())
}
