// The kernel.
ghost use Rattle.std.specs.Prelude.{◌≡◌, true, false, IfOk, IsErr, IsOk, OnErr, OnOk, option_map};
ghost use Rattle.std.specs.FinMap as map;
ghost use Rattle.kern_model.specs.Arguments.{is_call};
ghost use Rattle.kern_model.specs.Boot.{boot, boot_recs};
ghost use Rattle.kern_model.specs.Drawing.{NumbersGoOn};
ghost use Rattle.kern_model.specs.Refusals.{IsNamed};
ghost use Rattle.kern_model.specs.State.{Process};
ghost use Rattle.kern_model.specs.Step.{IsPlayed};
ghost use Rattle.kern_model.specs.Valid.{IsValid};
ghost use Rattle.kern_model.specs.World.{IsWorld};
ghost use Rattle.iso_laws.specs.Unnamed.{NeedsOnlyNamed};

use crate::boot::{load_objects, take_processes};
use crate::calls::play;
use cap_bits::CapState;
use kern_model::{Call, Calls, NoMemory, Outcome, Pid, PidList, RecList, World};
use lab_lattice::Label;
use std::alloc::Global;
use sys_lookup::{Caller, Shared};

/// A kernel. When memory runs out in a call it has failed, and it plays no further call. The state of a kernel that has not
/// failed is valid.
pub struct Kernel {
    alloc: Global,
    shared: Shared,
    failed: bool,
    ghost valid: { failed ≡ false → ∥ IsValid shared ∥₁ },
}

// Written out, so that a drop is one call.
impl Drop for Kernel {
    fn drop(self) {
        let Kernel {
            alloc: _,
            shared: _,
            failed: _,
        } = self;
    }
}

impl Kernel {
    ghost use Rattle.kern_core.specs.Kernel.{state_of, has_failed, IsStopped, TakesNoMemory};

    /// The kernel in the first state of a world, and a record for each process, in the order of the world's lines.
    #[tactic(auto, unfolding(crate::specs::Kernel::state_of, crate::specs::Kernel::has_failed))]
    pub fn boot(alloc: Global, world: &World) -> Result<(Kernel, RecList), NoMemory>
        requires world { IsWorld world.now }
        ensures state { IfOk result (λ b. state_of b.0 ≡ boot world.now) }
        ensures recs { IfOk result (λ b. b.1 ≡ boot_recs world.now) }
        ensures valid { IfOk result (λ b. IsValid (state_of b.0)) }
        ensures sound { IfOk result (λ b. has_failed b.0 ≡ false) }
    {
        Kernel::boot_from(alloc, world.copy(alloc)?)
    }

    /// The same as [`boot`](Kernel::boot). It uses the world up, so that the world and the kernel take less memory at a time.
    #[tactic(auto, unfolding(crate::specs::Kernel::state_of, crate::specs::Kernel::has_failed))]
    pub fn boot_from(alloc: Global, world: World) -> Result<(Kernel, RecList), NoMemory>
        requires world { IsWorld world }
        ensures state { IfOk result (λ b. state_of b.0 ≡ boot world) }
        ensures recs { IfOk result (λ b. b.1 ≡ boot_recs world) }
        ensures valid { IfOk result (λ b. IsValid (state_of b.0)) }
        ensures sound { IfOk result (λ b. has_failed b.0 ≡ false) }
    {
        let (mut shared, procs) = load_objects(alloc, world)?;
        let recs = take_processes(alloc, &mut shared, procs)?;
        Ok((Kernel::new(alloc, shared), recs))
    }

    // A kernel in a valid state.
    #[tactic(auto, unfolding(crate::specs::Kernel::state_of, crate::specs::Kernel::has_failed))]
    fn new(alloc: Global, shared: Shared) -> Kernel
        requires { IsValid shared }
        ensures state { state_of result ≡ shared }
        ensures valid { IsValid (state_of result) }
        ensures sound { has_failed result ≡ false }
    {
        Kernel {
            alloc,
            shared,
            failed: false,
        }
    }

    /// Plays one call of a process, and returns the reply and the records that it leaves. When memory runs out nothing is
    /// promised of the state. After that each call fails, whatever its arguments are.
    #[tactic(auto, unfolding(crate::specs::Kernel::state_of, crate::specs::Kernel::has_failed))]
    pub fn call(&mut self, who: &Pid, call: &Call) -> Result<Outcome, NoMemory>
        requires arguments { has_failed self.old ≡ false → is_call (state_of self.old).top call.now ≡ true }
        ensures played { IfOk result (λ outcome. IsPlayed (state_of self.old) who.now call.now outcome (state_of self.new)) }
        ensures kept { IfOk result (λ outcome. IsStopped outcome.reply → state_of self.new ≡ state_of self.old) }
        ensures valid { OnOk result (∥ IsValid (state_of self.new) ∥₁) }
        ensures named { IfOk result (λ outcome. IsNamed outcome.reply) }
        ensures numbers { OnOk result (NumbersGoOn (state_of self.old) (state_of self.new)) }
        ensures unnamed { IfOk result (λ outcome. NeedsOnlyNamed (state_of self.old) who.now call.now outcome.reply outcome.recs (state_of self.new)) }
        ensures sound { OnOk result ((has_failed self.new ≡ false) × (has_failed self.old ≡ false)) }
        ensures failed { OnErr result (has_failed self.new ≡ true) }
        ensures for_good { has_failed self.old ≡ true → IsErr result }
        ensures ready { has_failed self.old ≡ false → TakesNoMemory (state_of self.old) who.now call.now → IsOk result }
    {
        if self.failed {
            return Err(NoMemory);
        }
        let outcome = play(self.alloc, &mut self.shared, who, call);
        self.failed = outcome.is_err();
        outcome
    }

    /// Whether memory ran out in an earlier call.
    #[tactic(auto, unfolding(crate::specs::Kernel::has_failed))]
    pub fn failed(&self) -> bool
        ensures { result ≡ has_failed self.now }
    {
        self.failed
    }

    /// The capability sets of the living process with this number, if there is one.
    #[tactic(auto, unfolding(crate::specs::Kernel::state_of))]
    pub fn caps_of(&self, who: &Pid) -> Option<CapState>
        ensures { result ≡ option_map (λ (p : Process). p.caps) (map.get (state_of self.now).procs who.now) }
    {
        let caller = Caller::find(&self.shared, who)?;
        Some(caller.caps())
    }

    /// The label of the living process with this number, if there is one.
    #[tactic(auto, unfolding(crate::specs::Kernel::state_of))]
    pub fn label_of(&self, who: &Pid) -> Option<Label>
        ensures { result ≡ option_map (λ (p : Process). p.label) (map.get (state_of self.now).procs who.now) }
    {
        let caller = Caller::find(&self.shared, who)?;
        Some(caller.label())
    }

    /// The numbers of the living processes, by label and then by number.
    #[tactic(auto, unfolding(crate::specs::Kernel::state_of))]
    pub fn live(&self) -> Result<PidList, NoMemory>
        ensures { IfOk result (λ numbers. numbers ≡ map.keys (state_of self.now).procs) }
    {
        self.shared.live()
    }
}

impl Calls for Kernel {
    ghost use Rattle.std.specs.Prelude.{◌≡◌, true, IfOk};
    ghost use Rattle.kern_model.specs.Step.{IsPlayed};
    ghost use Rattle.kern_model.specs.Arguments.{is_call};
    ghost use Rattle.kern_core.specs.Kernel.{state_of};

    ghost state = { state_of };

    fn call(&mut self, who: &Pid, call: &Call) -> Result<Outcome, NoMemory>
        requires arguments { is_call (state_of self.old).top call.now ≡ true }
        ensures played { IfOk result (λ outcome. IsPlayed (state_of self.old) who.now call.now outcome (state_of self.new)) }
    {
        Kernel::call(self, who, call)
    }
}
