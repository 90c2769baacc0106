// Lines of a source, read one after another.
ghost use Rattle.std.specs.Prelude.{◌≡◌, ◌==◌, ◌+◌, ◌^◌, ◌<◌, ◌≤◌, [], ◌∷◌, ◌++◌, length, take, true, false, position, IfOk};
ghost use Rattle.io_ends.specs.Faults.{CountsFault};
ghost use Rattle.io_ends.specs.Lines.{Advances, HoldsLine, has_line_feed, first_line};
ghost use Rattle.io_ends.specs.Seeking.{Looks, Seeks};
ghost use Rattle.io_ends.specs.Whole.{CountsRead};

use crate::buffer::Buffer;
use crate::whole::CHUNK;
use crate::{Failed, ReadError, Source};
use fs_path::MAX_LINE;
use memchr::memchr;
use std::alloc::{AllocError, Global};
use std::marker::Model;

/// What a reader of lines answers.
#[derive(Clone, Copy, Debug, PartialEq, Eq)]
pub enum Next {
    /// A line.
    Line,
    /// The source ended after a line, or before the first one.
    End,
    /// The source ended inside a line.
    Unended,
    /// More than 2,048 bytes of one line are within the limit.
    LongLine,
    /// The source has more bytes than the limit, and no whole line is left before it.
    TooMuch,
}

// What the bytes that are held say of their first line.
#[derive(Clone, Copy)]
enum Look {
    // It has this length.
    Line(usize),
    // It is too long.
    LongLine,
    // It goes on past the limit.
    TooMuch,
    // No more than a part of it is held.
    Part,
}

// The place of the first line feed.
#[tactic(auto, using(crate::proofs::LineFeeds::first_line_feed))]
fn find_line_feed(text: &[u8]) -> Option<usize>
    ensures { result ≡ position (λ b. b == 10) text.now }
{
    memchr(b'\n', text)
}

// The length of the first line of a text, whose first `searched` bytes have no line feed.
fn first_line_len(text: &[u8], searched: usize) -> usize
    requires within { searched ≤ length text.now }
    requires none { has_line_feed (take searched text.now) ≡ false }
    ensures { result ≡ length (first_line text.now) }
{
    match find_line_feed(&text[searched..]) {
        Some(at) => searched + at,
        None => text.len(),
    }
}

// Looks at the bytes that are held. The first `searched` of them have no line feed.
fn look_at(held: &[u8], room: usize, searched: usize) -> Look
    requires within { searched ≤ length (take room held.now) }
    requires none { has_line_feed (take searched held.now) ≡ false }
    ensures { Looks result held.now room }
{
    let counted = &held[..held.len().min(room)];
    let length = first_line_len(counted, searched);
    if length > MAX_LINE {
        Look::LongLine
    } else if length < counted.len() {
        Look::Line(length)
    } else if counted.len() < held.len() {
        Look::TooMuch
    } else {
        Look::Part
    }
}

// Reads until the first line is found, or cannot be. Each byte is looked at once.
fn seek<S: Source>(buffer: &mut Buffer, source: &mut S, room: usize) -> Result<Look, Failed>
    requires few { length buffer.old ≤ room + 1 }
    requires small { room ≤ 2 ^ 24 }
    ensures seeks { Seeks result buffer.old buffer.new room (S.view source.old).left (S.view source.new).left }
    ensures quiet { HoldsLine buffer.old room → source.new ≡ source.old }
    ensures counts { CountsFault (S.view source.old).faults (S.view source.new).faults result }
{
    let mut searched = 0;
    loop {
        let look = look_at(buffer.held(), room, searched);
        let Look::Part = look else {
            return Ok(look);
        };
        searched = buffer.held().len();
        if buffer.fill(source, room + 1)? == 0 {
            return Ok(look);
        }
    }
}

/// A reader of the lines of a source, each ended by a line feed. Over its life it takes at most `limit` bytes and one
/// more. It reads 4,096 bytes at a time, or fewer at its limit, and only while it holds no whole line.
#[derive(Debug)]
pub struct Lines {
    buffer: Buffer,
    // How many bytes of the buffer are the last line and its line feed.
    given: usize,
    // How many bytes after these are within the limit.
    room: usize,
    number: u32,
    more: bool,
}

impl Drop for Lines {
    fn drop(self) {
        let Lines {
            buffer: _,
            given: _,
            room: _,
            number: _,
            more: _,
        } = self;
    }
}

impl Model for Lines {
    ghost use Rattle.std.specs.Prelude.{◌≡◌, ◌+◌, ◌-◌, ◌^◌, ◌<◌, ◌≤◌, true, [], ◌∷◌, ◌++◌, drop, length, take};
    ghost use Rattle.io_ends.specs.LinesState.{LinesState};

    ghost Value = { LinesState };

    ghost view = { λ a. record { line = take (a.given - 1) a.buffer; held = drop a.given a.buffer; room = a.room; number = a.number; more = a.more } };

    ghost invariant = { λ a. (a.given ≤ length a.buffer) × (length (drop a.given a.buffer) ≤ a.room + 1) × (a.room ≤ 2 ^ 24) × (a.more ≡ true → a.number + a.room ≤ 2 ^ 24)
        × (a.more ≡ true → 0 < a.number → take a.given a.buffer ≡ take (a.given - 1) a.buffer ++ 10 ∷ []) };
}

impl Lines {
    /// A reader of the lines among the first `limit` bytes of a source. It allocates its memory at once.
    pub fn new(alloc: Global, limit: u64) -> Result<Self, AllocError>
        requires { limit ≤ 2 ^ 24 }
        ensures { IfOk result (λ lines. lines ≡ record { line = []; held = []; room = limit; number = 0; more = true }) }
    {
        let buffer = Buffer::new(alloc)?;
        Ok(Lines {
            buffer,
            given: 0,
            room: limit as usize,
            number: 0,
            more: true,
        })
    }

    /// The last line, without its line feed. It is empty where the last answer was no line.
    pub fn line(&self) -> &[u8]
        ensures { result.now ≡ self.now.line }
    {
        &self.buffer.held()[..self.given.saturating_sub(1)]
    }

    /// The last line with its line feed. It is empty where the last answer was no line.
    pub fn ended_line(&self) -> &[u8]
        ensures { self.now.more ≡ true → 0 < self.now.number → result.now ≡ self.now.line ++ 10 ∷ [] }
    {
        &self.buffer.held()[..self.given]
    }

    /// The number of the line that was asked for last, counted from 1. It is 0 before the first.
    pub fn number(&self) -> u32
        ensures { result ≡ self.now.number }
    {
        self.number
    }

    /// Whether more lines may be asked for: each answer so far was a line.
    pub fn more(&self) -> bool
        ensures { result ≡ self.now.more }
    {
        self.more
    }

    /// Reads the next line, which `line` then lends. It does not allocate, so a read that fails is its only error.
    pub fn next<S: Source>(&mut self, source: &mut S) -> Result<Next, ReadError>
        requires { self.old.more ≡ true }
        ensures advances { Advances result self.old self.new (S.view source.old).left (S.view source.new).left }
        // A line that is held is given without a read.
        ensures quiet { HoldsLine self.old.held self.old.room → source.new ≡ source.old }
        ensures counts { CountsRead result (S.view source.old).faults (S.view source.new).faults }
    {
        self.buffer.consume(self.given);
        self.given = 0;
        self.number += 1;
        self.more = false;
        let Ok(look) = seek(&mut self.buffer, source, self.room) else {
            return Err(ReadError::Failed);
        };
        match look {
            Look::Line(length) => {
                self.given = length + 1;
                self.room -= length + 1;
                self.more = true;
                Ok(Next::Line)
            }
            Look::LongLine => Ok(Next::LongLine),
            Look::TooMuch => Ok(Next::TooMuch),
            Look::Part if self.buffer.held().is_empty() => Ok(Next::End),
            Look::Part => Ok(Next::Unended),
        }
    }
}
