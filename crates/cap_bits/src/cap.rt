// The capabilities, their numbers and their names.
ghost use Rattle.std.specs.Prelude.{◌≡◌, ◌↔◌, ◌<◌, ◌≤◌, IsTrue, MatchOption, Some};
ghost use Rattle.cap_bits.specs.Cap.{cap_number, cap_name, is_name_of, cap_named};

/// A capability of the withdrawn draft IEEE P1003.1e. Each has a number, which is its place in this
/// list, counted from 0.
#[derive(Clone, Copy, Debug, PartialEq, Eq)]
pub enum Cap {
    /// Changing an object's owner, or its group to any other.
    Chown,
    /// Executing a file against its mode.
    DacExecute,
    /// Reading an object, or searching a directory, against its mode.
    DacReadSearch,
    /// Writing an object against its mode.
    DacWrite,
    /// Doing anything else that only an object's owner may do.
    Fowner,
    /// Keeping a file's set-id bits where a change would clear them.
    Fsetid,
    /// Signalling the processes of other users.
    Kill,
    /// Linking directories. Sets hold it, and no call checks it.
    LinkDir,
    /// Setting the capabilities of a file.
    Setfcap,
    /// Becoming any group.
    Setgid,
    /// Becoming any user.
    Setuid,
    /// Giving a label that does not dominate the old one.
    MacDowngrade,
    /// Reading against the labels.
    MacRead,
    /// Changing the label of a process.
    MacRelabelSubj,
    /// Giving a label that dominates the old one.
    MacUpgrade,
    /// Writing against the labels.
    MacWrite,
    /// Switching the audit trail on and off.
    AuditControl,
    /// Writing a record of one's own to the audit trail.
    AuditWrite,
}

/// How many capabilities there are.
pub const CAP_COUNT: usize = 18;

// Each capability once, in the order of their numbers.
const ALL: [Cap; CAP_COUNT] = [
    Cap::Chown,
    Cap::DacExecute,
    Cap::DacReadSearch,
    Cap::DacWrite,
    Cap::Fowner,
    Cap::Fsetid,
    Cap::Kill,
    Cap::LinkDir,
    Cap::Setfcap,
    Cap::Setgid,
    Cap::Setuid,
    Cap::MacDowngrade,
    Cap::MacRead,
    Cap::MacRelabelSubj,
    Cap::MacUpgrade,
    Cap::MacWrite,
    Cap::AuditControl,
    Cap::AuditWrite,
];

impl Cap {
    /// Its number, from 0 on.
    pub fn number(self) -> u8
        ensures number { result ≡ cap_number self }
        ensures few { result < CAP_COUNT }
    {
        self as u8
    }

    /// The capability with this number, if there is one.
    pub fn from_number(n: u8) -> Option<Cap>
        ensures number { MatchOption result (CAP_COUNT ≤ n) (λ cap. cap_number cap ≡ n) }
        ensures back { (cap : Cap) → cap_number cap ≡ n → result ≡ Some cap }
    {
        ALL.get(usize::from(n)).copied()
    }

    /// Its name, in lower case.
    pub fn name(self) -> &'static [u8]
        ensures { result.now ≡ cap_name self }
    {
        match self {
            Cap::Chown => b"cap_chown",
            Cap::DacExecute => b"cap_dac_execute",
            Cap::DacReadSearch => b"cap_dac_read_search",
            Cap::DacWrite => b"cap_dac_write",
            Cap::Fowner => b"cap_fowner",
            Cap::Fsetid => b"cap_fsetid",
            Cap::Kill => b"cap_kill",
            Cap::LinkDir => b"cap_link_dir",
            Cap::Setfcap => b"cap_setfcap",
            Cap::Setgid => b"cap_setgid",
            Cap::Setuid => b"cap_setuid",
            Cap::MacDowngrade => b"cap_mac_downgrade",
            Cap::MacRead => b"cap_mac_read",
            Cap::MacRelabelSubj => b"cap_mac_relabel_subj",
            Cap::MacUpgrade => b"cap_mac_upgrade",
            Cap::MacWrite => b"cap_mac_write",
            Cap::AuditControl => b"cap_audit_control",
            Cap::AuditWrite => b"cap_audit_write",
        }
    }

    // Whether this is its name, in any case of ASCII letters.
    fn has_name(self, name: &[u8]) -> bool
        ensures { result ≡ is_name_of name.now self }
    {
        self.name().eq_ignore_ascii_case(name)
    }

    /// The capability with this name, in which the case of ASCII letters does not count.
    #[tactic(auto, unfolding(crate::specs::Cap::cap_named))]
    pub fn from_name(name: &[u8]) -> Option<Cap>
        ensures found { result ≡ cap_named name.now }
        ensures exact { (cap : Cap) → (result ≡ Some cap) ↔ IsTrue (is_name_of name.now cap) }
    {
        ALL.iter().copied().find(|cap| cap.has_name(name))
    }
}
