//! The engine of a session: reads an input line by line, plays each call of its script as soon as it is read, and
//! writes records and replies, over any kernel and any ends.
#![tactic(auto)]

mod checking;
mod ending;
mod generated;
mod handling;
mod judging;
mod keeping;
mod opening;
mod playing;
mod reading;
mod replying;
mod reporter;
mod reporting;
mod texts;
mod upgrading;

pub use checking::check_script;
pub use ending::{CommandWord, Fault, InputEnd, Part};
pub use generated::Generated;
pub use judging::Judge;
pub use keeping::{Kept, keep_script};
pub use opening::{Opened, OpenedWorld, open_input};
pub use playing::{Played, play_script};
pub use reading::{LineRules, NextLine, read_next};
pub use replying::ReplyLine;
pub use reporter::{Reporter, answer, note_all, report_last, write_head};
pub use reporting::{Report, Tally};
pub use texts::{Texts, end_line};
pub use upgrading::upgrade_script;
