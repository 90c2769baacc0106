// Verdicts with ample memory: no clause says that there is one.
use cap_bits::{Cap, CapSet};
use chk_rules::{Checks, Stop, must};
use kern_model::{Check, CheckName, Pid, Place, Thing, Verdict};
use lab_lattice::bottom;
use std::alloc::Global;

const WHERE: Place = Place::First(1);

fn who() -> Pid {
    Pid {
        label: bottom(),
        n: 1,
    }
}

fn mac_read(holds: bool) -> Check {
    Check {
        name: CheckName::MacRead,
        holds,
        thing: Thing::Process(who()),
        thing_label: bottom(),
        new_label: None,
        place: WHERE,
    }
}

fn checks_with(alloc: Global, effective: CapSet) -> Checks {
    Checks::new(alloc, who(), bottom(), effective)
}

// Whether this check has this verdict.
fn has_verdict(checks: &mut Checks, check: &Check, verdict: Verdict) -> bool {
    checks.need(check) == Ok(verdict)
}

// Whether a call goes on after a check that fails, and both checks that fail are kept.
fn go_on(checks: &mut Checks) -> bool {
    has_verdict(checks, &mac_read(true), Verdict::Passed)
        && has_verdict(checks, &mac_read(false), Verdict::Exercised)
        && must(checks, &mac_read(false)).is_ok()
        && checks.exercises().len() == 2
}

fn call_goes_on(alloc: Global) -> bool {
    go_on(&mut checks_with(alloc, CapSet::none().with(Cap::MacRead)))
}

#[test]
fn capability_lets_a_call_go_on(rt: HostRuntime) {
    assert!(rt; call_goes_on(rt.alloc()));
}

// Whether a call stops at a check that fails.
fn stop(checks: &mut Checks) -> bool {
    must(checks, &mac_read(true)).is_ok()
        && has_verdict(checks, &mac_read(false), Verdict::Denied)
        && matches!(
            must(checks, &mac_read(false)),
            Err(Stop::Denied(CheckName::MacRead, WHERE))
        )
}

fn call_stops(alloc: Global) -> bool {
    let mut checks = checks_with(alloc, CapSet::none().with(Cap::MacWrite));
    stop(&mut checks) && checks.into_exercises().items().is_empty()
}

#[test]
fn call_stops_without_the_capability(rt: HostRuntime) {
    assert!(rt; call_stops(rt.alloc()));
}
