// The form of a label's text.
ghost use Rattle.std.specs.Prelude.{◌≡◌, ◌≤◌, true, MatchOption};
ghost use Rattle.lab_text.specs.Text.{is_label_text, Breaks};
ghost use Rattle.lab_text.specs.Scan.{list_after, step};

use crate::NameList;
use crate::names::{is_letter, is_name_part};

const MAX_NAME: usize = 31;

// How far a text has been read.
#[derive(Clone, Copy)]
struct Scan {
    // The list of the current name.
    list: NameList,
    // How many bytes of the current name were read.
    len: usize,
}

// The list of the next name, where this byte may end a name of `list`.
fn list_after(list: NameList, byte: u8) -> Option<NameList>
    ensures { result ≡ list_after list byte }
{
    match list {
        NameList::Levels if byte == b':' => Some(NameList::Categories),
        NameList::Categories if byte == b',' => Some(NameList::Categories),
        NameList::Levels | NameList::Categories if byte == b'/' => Some(NameList::Grades),
        _ => None,
    }
}

// The state after one more byte, or `None` where no label's text goes on with it.
fn step(scan: Scan, byte: u8) -> Option<Scan>
    ensures { result ≡ step scan byte }
{
    if scan.len == 0 {
        return is_letter(byte).then_some(Scan { len: 1, ..scan });
    }
    if is_name_part(byte) {
        if scan.len >= MAX_NAME {
            return None;
        }
        return Some(Scan {
            len: scan.len + 1,
            ..scan
        });
    }
    let list = list_after(scan.list, byte)?;
    Some(Scan { list, len: 0 })
}

// The first place at which no label's text goes on as this one does, or its length where it ends too early. `None` where it has
// the form of a label's text.
pub fn syntax_fault(text: &[u8]) -> Option<usize>
    ensures { MatchOption result (is_label_text text.now ≡ true) (Breaks text.now) }
{
    let mut scan = Scan {
        list: NameList::Levels,
        len: 0,
    };
    for (at, byte) in text.iter().enumerate() {
        let Some(next) = step(scan, *byte) else {
            return Some(at);
        };
        scan = next;
    }
    (scan.len == 0).then_some(text.len())
}
