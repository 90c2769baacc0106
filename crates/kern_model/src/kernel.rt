// What a kernel is to those who play calls on it.
ghost use Rattle.std.specs.Prelude.{◌≡◌, true, IfOk};
ghost use Rattle.kern_model.specs.State.{State};
ghost use Rattle.kern_model.specs.Step.{IsPlayed};
ghost use Rattle.kern_model.specs.Arguments.{is_call};

use crate::{Call, NoMemory, Outcome, Pid};

/// A kernel. The call table is its meaning.
pub trait Calls {
    /// Its state, which only a call that is done changes.
    ghost state: { Self → State };

    /// Plays a call of a process. After memory ran out nothing is promised of the state.
    fn call(&mut self, who: &Pid, call: &Call) -> Result<Outcome, NoMemory>
        requires arguments { is_call (state self.old).top call.now ≡ true }
        ensures played { IfOk result (λ outcome. IsPlayed (state self.old) who.now call.now outcome (state self.new)) };
}
