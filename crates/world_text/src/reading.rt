// The reading of a world.
ghost use Rattle.std.specs.Prelude.{IfOk, IfErr};
ghost use Rattle.world_text.specs.declared.format.Format.TheVariants.{One, Two};
ghost use Rattle.world_text.specs.CanBeRead.{IsWorldText};
ghost use Rattle.world_text.specs.Reading.{read_text, IsRead, IsNotRead};

use crate::{Expecting, Format, Parsed, WorldError, WorldText, parse_line};
use fs_path::next_line;
use std::alloc::Global;

// The world that a text in this format gives.
fn read_in(alloc: Global, due: Format, text: &[u8]) -> Result<WorldText, WorldError>
    ensures read { IfOk result (IsRead (read_text due text.now)) }
    ensures world { IfOk result IsWorldText }
    ensures none { IfErr result (IsNotRead (read_text due text.now)) }
{
    let mut expecting = Expecting::Format(due);
    let mut rest = text;
    let mut number = 1;
    while let Some((line, after)) = next_line(rest) {
        expecting = match parse_line(alloc, expecting, line)? {
            Parsed::Refuses(fault) => return Err(WorldError::at(number, fault)),
            Parsed::GoesOn(expecting) => expecting,
            Parsed::Begins(world) => return Ok(world),
        };
        rest = after;
        number += 1;
    }
    Err(WorldError::Syntax(number))
}

impl WorldText {
    /// The world that a text gives, up to the line `script`; what stands after that line is not looked at.
    pub fn read(alloc: Global, text: &[u8]) -> Result<WorldText, WorldError>
        ensures read { IfOk result (IsRead (read_text Two text.now)) }
        ensures world { IfOk result IsWorldText }
        ensures none { IfErr result (IsNotRead (read_text Two text.now)) }
    {
        read_in(alloc, Format::Two, text)
    }

    /// The same of a text in the old format. The program reads such a text line by line, and calls `parse_line`.
    pub fn read_old(alloc: Global, text: &[u8]) -> Result<WorldText, WorldError>
        ensures read { IfOk result (IsRead (read_text One text.now)) }
        ensures world { IfOk result IsWorldText }
        ensures none { IfErr result (IsNotRead (read_text One text.now)) }
    {
        read_in(alloc, Format::One, text)
    }
}
