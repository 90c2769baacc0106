// The names and numbers, against a table.
use cap_bits::{Cap, CapSet, CapState, FileCaps, Flag};

const TABLE: [(Cap, u8, &[u8]); 18] = [
    (Cap::Chown, 0, b"cap_chown"),
    (Cap::DacExecute, 1, b"cap_dac_execute"),
    (Cap::DacReadSearch, 2, b"cap_dac_read_search"),
    (Cap::DacWrite, 3, b"cap_dac_write"),
    (Cap::Fowner, 4, b"cap_fowner"),
    (Cap::Fsetid, 5, b"cap_fsetid"),
    (Cap::Kill, 6, b"cap_kill"),
    (Cap::LinkDir, 7, b"cap_link_dir"),
    (Cap::Setfcap, 8, b"cap_setfcap"),
    (Cap::Setgid, 9, b"cap_setgid"),
    (Cap::Setuid, 10, b"cap_setuid"),
    (Cap::MacDowngrade, 11, b"cap_mac_downgrade"),
    (Cap::MacRead, 12, b"cap_mac_read"),
    (Cap::MacRelabelSubj, 13, b"cap_mac_relabel_subj"),
    (Cap::MacUpgrade, 14, b"cap_mac_upgrade"),
    (Cap::MacWrite, 15, b"cap_mac_write"),
    (Cap::AuditControl, 16, b"cap_audit_control"),
    (Cap::AuditWrite, 17, b"cap_audit_write"),
];

// Whether the capability has this number and this name, and is found by each.
fn is_known_by(cap: Cap, number: u8, name: &[u8]) -> bool {
    cap.number() == number
        && cap.name() == name
        && Cap::from_number(number) == Some(cap)
        && Cap::from_name(name) == Some(cap)
}

#[test]
fn names_and_numbers(rt: HostRuntime) {
    for (cap, number, name) in &TABLE {
        assert!(rt; is_known_by(*cap, *number, name), "{number}");
    }
}

#[test]
fn other_names_and_numbers(rt: HostRuntime) {
    assert!(rt; Cap::from_number(18).is_none());
    assert!(rt; Cap::from_name(b"Cap_MAC_Upgrade") == Some(Cap::MacUpgrade));
    assert!(rt; Cap::from_name(b"cap_chow").is_none() && Cap::from_name(b"").is_none());
}

#[test]
fn sets(rt: HostRuntime) {
    let (all, none) = (CapSet::all(), CapSet::none());
    let kill = none.with(Cap::Kill);
    let some = kill.with(Cap::AuditWrite);
    assert!(rt; some.has(Cap::Kill) && !some.has(Cap::LinkDir));
    assert!(rt; some.within(&all) && !all.within(&some));
    assert!(rt; some.without(Cap::Kill).union(kill) == some);
    assert!(rt; all.meet(some) == some && some.minus(all) == none);
}

#[test]
fn flags(rt: HostRuntime) {
    let mut state = CapState::none();
    state.set_flag(Cap::Kill, Flag::Permitted, true);
    assert!(rt; state.get_flag(Cap::Kill, Flag::Permitted));
    assert!(rt; !state.get_flag(Cap::Kill, Flag::Effective));
    state.set_flag(Cap::Kill, Flag::Permitted, false);
    assert!(rt; state == CapState::none());
}

// Whether a file can have this state, with this flag, and shows it.
fn is_shown(state: &CapState, flag: bool) -> bool {
    match FileCaps::from_state(state) {
        Some(file) => file.eff == flag && file.shown() == *state,
        None => false,
    }
}

#[test]
fn files(rt: HostRuntime) {
    let none = CapSet::none();
    let p = none.with(Cap::Chown).with(Cap::Kill);
    let i = none.with(Cap::Setgid).with(Cap::Setuid);
    let e = p.union(i);
    assert!(rt; is_shown(&CapState { e, i, p }, true));
    assert!(rt; is_shown(&CapState { e: none, i, p }, false));
    assert!(rt; is_shown(&CapState::none(), false));
    assert!(rt; FileCaps::from_state(&CapState { e: p, i, p }).is_none());
    assert!(rt; FileCaps::none().shown() == CapState::none());
}
