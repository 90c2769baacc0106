// What is asked of an object whose content is read or changes.
ghost use Rattle.std.specs.Prelude.{◌≡◌};
ghost use Rattle.kern_model.specs.FileRows.{unprivileged};
ghost use Rattle.kern_model.specs.Kinds.{has_set_id, is_stream};
ghost use Rattle.kern_model.specs.Rules.{has_no_caps, is_plain};
ghost use Rattle.sys_lookup.specs.Rewriting.{kept_attr};
ghost use Rattle.sys_lookup.specs.StepOn.{StepOn};

use crate::caller::Caller;
use crate::shared::Metadata;
use cap_bits::{CapSet, FileCaps};
use chk_rules::{Checks, Stop};
use kern_model::limits::MAX_PERMISSIONS;
use kern_model::{Attr, Kind, Mode, Place};

impl Metadata {
    /// Whether the object is a pipe or a FIFO.
    pub fn is_stream(&self) -> bool
        ensures { result ≡ is_stream self.now.kind }
    {
        match self.kind {
            Kind::Fifo | Kind::Pipe => true,
            Kind::Dir | Kind::File => false,
        }
    }
}

impl Caller<'_> {
    /// The attributes that a file has once its content changes. Set-id bits and capabilities go, unless the caller may keep them.
    pub fn kept_attr(
        &self,
        checks: &mut Checks,
        file: &Metadata,
        place: Place,
    ) -> Result<Attr, Stop>
        ensures { StepOn checks.old file.now (λ s id. kept_attr s id place) result checks.new }
    {
        if self.fsetid(checks, file, is_plain(&file.attr), place)? {
            Ok(file.attr)
        } else {
            Ok(plain_attr(&file.attr))
        }
    }
}

// Whether there are neither set-id bits nor capabilities.
fn is_plain(attr: &Attr) -> bool
    ensures { result ≡ is_plain attr.now }
{
    !has_set_id(attr.mode) && has_no_caps(&attr.caps)
}

// Whether a file with these capabilities has none.
fn has_no_caps(caps: &FileCaps) -> bool
    ensures { result ≡ has_no_caps caps.now }
{
    caps.p == CapSet::none() && caps.i == CapSet::none()
}

// Whether a mode has a set-id bit.
#[tactic(auto, using(std::proofs::lemmas::Nat::Bits::shr_and_one))]
fn has_set_id(mode: Mode) -> bool
    ensures { result ≡ has_set_id mode }
{
    (mode >> 11) & 1 == 1 || (mode >> 10) & 1 == 1
}

// The attributes without set-id bits and capabilities.
fn plain_attr(attr: &Attr) -> Attr
    ensures { result ≡ unprivileged attr.now }
{
    Attr {
        mode: attr.mode & MAX_PERMISSIONS,
        caps: FileCaps::none(),
        ..*attr
    }
}
