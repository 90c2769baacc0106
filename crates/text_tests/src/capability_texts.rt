// Texts and what they denote.
use cap_clause::CapTextError::{Empty, NoFlag, NoNames, NoOperator, UnknownName};
use cap_clause::*;
use std::alloc::Global;

// Whether a text denotes the state that is written so.
fn is_state(alloc: Global, text: &[u8], canonical: &[u8]) -> bool {
    let Ok(state) = cap_from_text(text) else {
        return false;
    };
    match cap_to_text(alloc, &state) {
        Ok(written) => written.as_slice() == canonical,
        Err(_) => false,
    }
}

// Whether a text denotes no state, for this cause.
fn is_no_state(text: &[u8], cause: CapTextError) -> bool {
    match cap_from_text(text) {
        Ok(_) => false,
        Err(found) => found == cause,
    }
}

// Whether a text denotes the set that is written so.
fn is_set(alloc: Global, text: &[u8], canonical: &[u8]) -> bool {
    let Ok(set) = set_from_text(text) else {
        return false;
    };
    match set_to_text(alloc, &set) {
        Ok(written) => written.as_slice() == canonical,
        Err(_) => false,
    }
}

// Whether a text denotes no set, for this cause.
fn is_no_set(text: &[u8], cause: CapTextError) -> bool {
    match set_from_text(text) {
        Ok(_) => false,
        Err(found) => found == cause,
    }
}

const ALL: &[u8] =
    b"cap_chown,cap_dac_execute,cap_dac_read_search,cap_dac_write,cap_fowner,cap_fsetid,cap_kill,cap_link_dir,cap_setfcap,cap_setgid,cap_setuid,cap_mac_downgrade,cap_mac_read,cap_mac_relabel_subj,cap_mac_upgrade,cap_mac_write,cap_audit_control,cap_audit_write";

const ALL_BUT_KILL: &[u8] =
    b"cap_chown,cap_dac_execute,cap_dac_read_search,cap_dac_write,cap_fowner,cap_fsetid,cap_link_dir,cap_setfcap,cap_setgid,cap_setuid,cap_mac_downgrade,cap_mac_read,cap_mac_relabel_subj,cap_mac_upgrade,cap_mac_write,cap_audit_control,cap_audit_write=ip cap_kill=p";

#[test]
fn states(rt: HostRuntime) {
    assert!(rt; is_state(rt.alloc(), b"=", b"="));
    assert!(rt; is_state(rt.alloc(), b"all=eip", b"all=eip"));
    assert!(rt; is_state(rt.alloc(), b"all=ip cap_kill-i", ALL_BUT_KILL));
    assert!(rt; is_state(rt.alloc(), b"CAP_CHOWN+e", b"cap_chown=e"));
    assert!(rt;
        is_state(
            rt.alloc(),
            b"cap_setuid=i cap_kill,CAP_CHOWN=pe",
            b"cap_chown,cap_kill=ep cap_setuid=i"
        )
    );
}

#[test]
fn actions(rt: HostRuntime) {
    assert!(rt; is_state(rt.alloc(), b"\t=p-p ", b"="));
    assert!(rt; is_state(rt.alloc(), b"cap_kill=eep+i-e", b"cap_kill=ip"));
    assert!(rt; is_state(rt.alloc(), b"cap_kill==e", b"cap_kill=e"));
}

#[test]
fn faults(rt: HostRuntime) {
    assert!(rt; is_no_state(b"", Empty));
    assert!(rt; is_no_state(b"cap_x+e", UnknownName(0)));
    assert!(rt; is_no_state(b"cap_chown", NoOperator(9)));
    assert!(rt; is_no_state(b"cap_chown+", NoFlag(10)));
    assert!(rt; is_no_state(b"cap_chown+ex", NoOperator(11)));
    assert!(rt; is_no_state(b"+e", NoNames(0)));
}

#[test]
fn later_faults(rt: HostRuntime) {
    assert!(rt; is_no_state(b"cap_kill=p -e", NoNames(11)));
    assert!(rt; is_no_state(b"cap_kill, cap_chown=e", UnknownName(9)));
    assert!(rt; is_no_state(b"cap_kill+e+", NoFlag(11)));
}

#[test]
fn sets(rt: HostRuntime) {
    assert!(rt; is_set(rt.alloc(), b"CAP_SETUID,cap_KILL", b"cap_kill,cap_setuid"));
    assert!(rt; is_set(rt.alloc(), b"NONE", b"none"));
    assert!(rt; is_set(rt.alloc(), ALL, b"all"));
    assert!(rt; is_no_set(b"", Empty));
    assert!(rt; is_no_set(b"cap_kill,none", UnknownName(9)));
}
