// The kinds of records.
ghost use Rattle.std.specs.Prelude.{◌≡◌};
ghost use Rattle.kern_model.specs.Named.{find_named};
ghost use Rattle.kern_model.specs.Records.{who_of};
ghost use Rattle.aud_record.specs.Events.{event_of, event_word, all_events};

use kern_model::{Pid, Rec};

/// The kind of a record.
#[derive(Clone, Copy, Debug, PartialEq, Eq)]
pub enum Event {
    Boot,
    Fork,
    Exec,
    Exit,
    CapSetProc,
    CapSetFile,
    MacSetProc,
    MacSetFile,
    Exercise,
    Deny,
    Switch,
    Note,
}

const EVENTS: [Event; 12] = [
    Event::Boot,
    Event::Fork,
    Event::Exec,
    Event::Exit,
    Event::CapSetProc,
    Event::CapSetFile,
    Event::MacSetProc,
    Event::MacSetFile,
    Event::Exercise,
    Event::Deny,
    Event::Switch,
    Event::Note,
];

impl Event {
    /// The kind of records with this word.
    #[tactic(auto, unfolding(kern_model::specs::Named::find_named))]
    pub fn from_word(word: &[u8]) -> Option<Event>
        ensures { result ≡ find_named event_word all_events word.now }
    {
        EVENTS.iter().copied().find(|event| word == event.word())
    }

    /// The kind of this record.
    pub fn of(rec: &Rec) -> Event
        ensures { result ≡ event_of rec.now }
    {
        match rec {
            Rec::Boot { .. } => Event::Boot,
            Rec::Fork { .. } => Event::Fork,
            Rec::Exec { .. } => Event::Exec,
            Rec::Exit { .. } => Event::Exit,
            Rec::CapSetProc { .. } => Event::CapSetProc,
            Rec::CapSetFile { .. } => Event::CapSetFile,
            Rec::MacSetProc { .. } => Event::MacSetProc,
            Rec::MacSetFile { .. } => Event::MacSetFile,
            Rec::Exercise(_) => Event::Exercise,
            Rec::Deny { .. } => Event::Deny,
            Rec::Switch { .. } => Event::Switch,
            Rec::Note { .. } => Event::Note,
        }
    }

    /// Its word.
    pub fn word(self) -> &'static [u8]
        ensures { result.now ≡ event_word self }
    {
        match self {
            Event::Boot => b"boot",
            Event::Fork => b"fork",
            Event::Exec => b"exec",
            Event::Exit => b"exit",
            Event::CapSetProc => b"cap_set_proc",
            Event::CapSetFile => b"cap_set_file",
            Event::MacSetProc => b"mac_set_proc",
            Event::MacSetFile => b"mac_set_file",
            Event::Exercise => b"exercise",
            Event::Deny => b"deny",
            Event::Switch => b"switch",
            Event::Note => b"note",
        }
    }
}

/// The process that a record is about.
pub fn who(rec: &Rec) -> Pid
    ensures { result ≡ who_of rec.now }
{
    match rec {
        Rec::Exercise(exercise) => exercise.who,
        Rec::Boot { who, .. }
        | Rec::Fork { who, .. }
        | Rec::Exec { who, .. }
        | Rec::Exit { who, .. }
        | Rec::CapSetProc { who, .. }
        | Rec::CapSetFile { who, .. }
        | Rec::MacSetProc { who, .. }
        | Rec::MacSetFile { who, .. }
        | Rec::Deny { who, .. }
        | Rec::Switch { who, .. }
        | Rec::Note { who, .. } => *who,
    }
}
