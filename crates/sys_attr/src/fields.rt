// The calls `cap_get_file`, `cap_set_file`, `cap_get_fd`, `cap_set_fd`, `mac_get_file`, `mac_set_file`, `mac_get_fd` and `mac_set_fd`.
ghost use Rattle.std.specs.Prelude.{◌≡◌, Some, IsSome};
ghost use Rattle.std.specs.FinMap as map;
ghost use Rattle.kern_model.specs.State.{process_at};
ghost use Rattle.kern_model.specs.Valid.{IsValid};
ghost use Rattle.kern_model.specs.declared.calls.Answer.TheVariants as answer;
ghost use Rattle.sys_lookup.specs.PlaysRow.{PlaysRow};
ghost use Rattle.sys_attr.specs.Fields.{get_row, set_row};

use crate::changing::{give_attr, give_label};
use crate::file_caps::ask_caps;
use crate::labels::ask_label;
use crate::objects::{ObjectArgument, read_named, write_named};
use cap_bits::CapState;
use chk_rules::{Checks, refuse_if};
use kern_model::{Answer, Attr, Errno, Pid, Rec};
use lab_lattice::Label;
use sys_lookup::{CallResult, Caller, Effect, Shared};

/// What a call reads of an object.
#[derive(Clone, Copy, Debug, PartialEq, Eq)]
pub enum Field {
    /// The capability sets of a file.
    Caps,
    /// The label of an object.
    Label,
}

/// What a call sets of an object, with its new value.
#[derive(Clone, Copy)]
pub enum Setting {
    /// The capability sets of a file.
    Caps(CapState),
    /// The label of an object.
    Label(Label),
}

/// `cap_get_file`, `cap_get_fd`, `mac_get_file` and `mac_get_fd`: the capability sets of a file, or the label of an object.
pub fn get_field(
    shared: &Shared,
    checks: &mut Checks,
    who: &Pid,
    object: ObjectArgument<'_>,
    field: Field,
) -> CallResult
    requires living { IsSome (map.get shared.now.procs who.now) }
    ensures { PlaysRow shared.now checks.old (get_row shared.now (process_at shared.now who.now) object.entry field) result shared.now checks.new }
{
    let caller = Caller::new(shared, who);
    let object = read_named(&caller, checks, object)?;
    match field {
        Field::Caps => {
            refuse_if(!object.is_file(), Errno::EINVAL)?;
            Ok(Effect::answers(Answer::Caps(object.attr.caps.shown())))
        }
        Field::Label => Ok(Effect::answers(Answer::Mark(object.label))),
    }
}

/// `cap_set_file`, `cap_set_fd`, `mac_set_file` and `mac_set_fd`: a file gets capability sets, or an object gets a label.
pub fn set_field(
    shared: &mut Shared,
    checks: &mut Checks,
    who: &Pid,
    object: ObjectArgument<'_>,
    setting: Setting,
) -> CallResult
    requires valid { ∥ IsValid shared.old ∥₁ }
    requires living { IsSome (map.get shared.old.procs who.now) }
    ensures { PlaysRow shared.old checks.old (set_row shared.old who.now (process_at shared.old who.now) object.entry setting) result shared.new checks.new }
{
    let caller = Caller::new(shared, who);
    let (object, place) = write_named(&caller, checks, object)?;
    match setting {
        Setting::Caps(caps) => {
            let file_caps = ask_caps(&caller, checks, &object, &caps, place)?;
            let attr = Attr {
                caps: file_caps,
                ..object.attr
            };
            give_attr(shared, &object.id, attr);
            Ok(leaves(Rec::CapSetFile {
                who: *who,
                file: object.id,
                caps,
            }))
        }
        Setting::Label(label) => {
            ask_label(&caller, checks, &object, &label, place)?;
            give_label(shared, &object.id, label);
            Ok(leaves(Rec::MacSetFile {
                who: *who,
                object: object.id,
                old: object.label,
                new: label,
            }))
        }
    }
}

// The effect of a call that leaves a record of its own, and answers nothing.
fn leaves(own: Rec) -> Effect
    ensures { result ≡ record { answer = answer.Nothing; own = Some own } }
{
    Effect {
        answer: Answer::Nothing,
        own: Some(own),
    }
}
