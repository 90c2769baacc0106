// What a walk found, and what rows ask of it.
ghost use Rattle.std.specs.Prelude.{◌≡◌, None, Some, IfOk};
ghost use Rattle.kern_model.specs.State.{State};
ghost use Rattle.kern_model.specs.Walk.{or_missing, to_entry, to_entry_of_object, to_new_name, to_object};
ghost use Rattle.kern_model.specs.declared.numbers.Oid.{Oid as Number};
ghost use Rattle.chk_rules.specs.CheckLog.{CheckLog};
ghost use Rattle.chk_rules.specs.RowSteps.{GoesOn};
ghost use Rattle.sys_lookup.specs.Walks.{IsEntry, IsFound, IsLedTo, found_of};

use crate::last_name::LastName;
use chk_rules::Stop;
use kern_model::{Errno, Oid};

/// What a walk found. The last name is lent from the path.
#[derive(Debug, Drop)]
pub enum Found<'a> {
    /// The path has no names: where it starts.
    Start(Oid),
    /// The last directory, the last name, and the object that has it, if one does.
    Entry(Oid, LastName<'a>, Option<Oid>),
}

impl<'a> Found<'a> {
    /// The object at the end of the path, or a refusal where there is none.
    #[tactic(auto, unfolding(kern_model::specs::Row::judge, chk_rules::specs::RowSteps::EndsBy))]
    pub fn to_object(&self) -> Result<Oid, Stop>
        ensures step { (log : CheckLog) → GoesOn log (to_object (found_of self.now)) result log }
        ensures led { (s : State) (start : Number) → IsFound s start self.now → IfOk result (IsLedTo s start) }
    {
        match self {
            Found::Start(id) => Ok(*id),
            Found::Entry(_, _, object) => present(*object),
        }
    }

    /// The directory and the name of an object that is to be made, or a refusal where the name is taken.
    #[tactic(auto, unfolding(kern_model::specs::Row::judge, chk_rules::specs::RowSteps::EndsBy))]
    pub fn into_new_name(self) -> Result<(Oid, LastName<'a>), Stop>
        ensures entry { (s : State) (start : Number) → IsFound s start self.entry → IfOk result (λ e. IsEntry s e.0 e.1 None) }
        ensures step { (log : CheckLog) → GoesOn log (λ rest. to_new_name (found_of self.entry) (λ dir name. rest (dir, name))) result log }
    {
        match self {
            Found::Entry(dir, name, None) => Ok((dir, name)),
            Found::Start(_) | Found::Entry(_, _, Some(_)) => Err(Stop::Refused(Errno::EEXIST)),
        }
    }

    /// The directory, the name and its object, if it has one, or a refusal where the path has no names.
    #[tactic(auto, unfolding(kern_model::specs::Row::judge, chk_rules::specs::RowSteps::EndsBy))]
    pub fn into_entry(self) -> Result<(Oid, LastName<'a>, Option<Oid>), Stop>
        ensures entry { (s : State) (start : Number) → IsFound s start self.entry → IfOk result (λ e. IsEntry s e.0 e.1 e.2) }
        ensures step { (log : CheckLog) → GoesOn log (λ rest. to_entry (found_of self.entry) (λ dir name object. rest (dir, name, object))) result log }
    {
        match self {
            Found::Start(_) => Err(Stop::Refused(Errno::EBUSY)),
            Found::Entry(dir, name, object) => Ok((dir, name, object)),
        }
    }

    /// The directory, the name and its object, or a refusal where there is none.
    #[tactic(auto, unfolding(kern_model::specs::Row::judge, chk_rules::specs::RowSteps::EndsBy))]
    pub fn into_entry_of_object(self) -> Result<(Oid, LastName<'a>, Oid), Stop>
        ensures entry { (s : State) (start : Number) → IsFound s start self.entry → IfOk result (λ e. IsEntry s e.0 e.1 (Some e.2)) }
        ensures step { (log : CheckLog) → GoesOn log (λ rest. to_entry_of_object (found_of self.entry) (λ dir name id. rest (dir, name, id))) result log }
    {
        let (dir, name, object) = self.into_entry()?;
        let id = present(object)?;
        Ok((dir, name, id))
    }
}

/// The object, or a refusal where there is none.
#[tactic(auto, unfolding(kern_model::specs::Row::judge, chk_rules::specs::RowSteps::EndsBy))]
pub fn present(object: Option<Oid>) -> Result<Oid, Stop>
    ensures step { (log : CheckLog) → GoesOn log (or_missing object) result log }
    ensures some { IfOk result (λ id. object ≡ Some id) }
{
    match object {
        Some(id) => Ok(id),
        None => Err(Stop::Refused(Errno::ENOENT)),
    }
}
