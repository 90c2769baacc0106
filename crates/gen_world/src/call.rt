// Generated calls, and the lines that they are written as.
ghost use Rattle.std.specs.Prelude.{◌≡◌, ◌++◌, ◌∷◌, [], codes, IfOk, OnOk};
ghost use Rattle.std.specs.Fmt.{decimal};
ghost use Rattle.gen_world.specs.Calls.{call_line, call_of, directory_path, with_line_feed, file_path, words_of};

use crate::NoMemory;
use itoa::Buffer;

// What a generated call does.
#[derive(Clone, Copy)]
pub enum Action {
    Mkdir,
    Open,
    Close,
    Write,
    Read,
    Stat,
    Unlink,
    Readdir,
}

// The actions by their numbers.
const ACTIONS: [Action; 8] = [
    Action::Mkdir,
    Action::Open,
    Action::Close,
    Action::Write,
    Action::Read,
    Action::Stat,
    Action::Unlink,
    Action::Readdir,
];

// A generated call.
#[derive(Clone, Copy)]
pub struct Call {
    // The level of the process that makes it.
    pub level: u8,
    pub action: Action,
    // The number of the directory.
    pub directory: u8,
    // The number of the file in the directory, or of the descriptor.
    pub file: u8,
}

// Appends a number in decimal.
fn put_number(text: &mut Vec<u8>, n: u8) -> Result<(), NoMemory>
    ensures { OnOk result (text.new.items ≡ text.old.items ++ decimal n) }
{
    text.extend_from_slice(Buffer::new().format(n).as_bytes())
}

impl Call {
    // The call that a generated number stands for.
    pub fn from_number(number: u32) -> Call
        ensures { result ≡ call_of number }
    {
        let drawn = number / 65_536;
        Call {
            level: (drawn % 4) as u8,
            action: ACTIONS[(drawn / 16 % 8) as usize],
            directory: (drawn / 4 % 4) as u8,
            file: (drawn / 128 % 16) as u8,
        }
    }

    // Appends the path of the directory.
    fn put_directory(&self, text: &mut Vec<u8>) -> Result<(), NoMemory>
        ensures { OnOk result (text.new.items ≡ text.old.items ++ directory_path self.now) }
    {
        text.extend_from_slice(b"/d")?;
        put_number(text, self.directory)
    }

    // Appends a word, the path of the file and what follows.
    fn put_with_path(&self, text: &mut Vec<u8>, before: &[u8], after: &[u8]) -> Result<(), NoMemory>
        ensures { OnOk result (text.new.items ≡ text.old.items ++ (before.now ++ file_path self.now ++ after.now)) }
    {
        text.extend_from_slice(before)?;
        self.put_directory(text)?;
        text.extend_from_slice(b"/f")?;
        put_number(text, self.file)?;
        text.extend_from_slice(after)
    }

    // Appends a word, the number of the descriptor and what follows.
    fn put_with_descriptor(
        &self,
        text: &mut Vec<u8>,
        before: &[u8],
        after: &[u8],
    ) -> Result<(), NoMemory>
        ensures { OnOk result (text.new.items ≡ text.old.items ++ (before.now ++ decimal self.now.file ++ after.now)) }
    {
        text.extend_from_slice(before)?;
        put_number(text, self.file)?;
        text.extend_from_slice(after)
    }

    // Appends the words of the call after its tag.
    fn put_words(&self, text: &mut Vec<u8>) -> Result<(), NoMemory>
        ensures { OnOk result (text.new.items ≡ text.old.items ++ words_of self.now.action self.now) }
    {
        match self.action {
            Action::Mkdir => self.put_with_path(text, b"mkdir ", b" 0755"),
            Action::Open => self.put_with_path(text, b"open ", b" rwc 0644"),
            Action::Close => self.put_with_descriptor(text, b"close ", b""),
            Action::Write => self.put_with_descriptor(text, b"write ", b" \"x\""),
            Action::Read => self.put_with_descriptor(text, b"read ", b" 8"),
            Action::Stat => self.put_with_path(text, b"stat ", b""),
            Action::Unlink => self.put_with_path(text, b"unlink ", b""),
            Action::Readdir => {
                text.extend_from_slice(b"readdir ")?;
                self.put_directory(text)
            }
        }
    }

    // Appends the line of the call with its line feed.
    pub fn put_line(&self, text: &mut Vec<u8>) -> Result<(), NoMemory>
        ensures { OnOk result (text.new.items ≡ text.old.items ++ with_line_feed (call_line self.now)) }
    {
        text.extend_from_slice(b"1@l")?;
        put_number(text, self.level)?;
        text.extend_from_slice(b" ")?;
        self.put_words(text)?;
        text.extend_from_slice(b"\n")
    }
}
