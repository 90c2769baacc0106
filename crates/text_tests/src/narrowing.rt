// What no clause says: worlds without some capabilities, by their texts.
use cap_bits::{Cap, CapSet};
use least_caps::{narrow, stands};
use std::alloc::Global;
use std::test::Fail;
use world_text::*;

// A world with three capabilities, and files with one or two of them.
const WHOLE: &[u8] = b"world 2\n\
    levels unc sec\n\
    categories\n\
    bound cap_kill,cap_mac_read\n\
    dir / 0777 0 0 unc\n\
    file /both 0755 10 10 unc \"\" \"cap_fowner,cap_kill=ep\"\n\
    file /one 0755 10 10 sec \"hello\" \"cap_kill=ei\"\n\
    proc unc 10 10 20 \"cap_kill,cap_mac_read=ep cap_fowner=i\"\n\
    script\n";

// The same without `cap_kill` and `cap_setuid`.
const NARROW: &[u8] = b"world 2\n\
    levels unc sec\n\
    categories\n\
    bound cap_mac_read\n\
    dir / 0777 0 0 unc\n\
    file /both 0755 10 10 unc \"\" \"cap_fowner=ep\"\n\
    file /one 0755 10 10 sec \"hello\"\n\
    proc unc 10 10 20 \"cap_fowner=i cap_mac_read=ep\"\n\
    script\n";

fn without(alloc: Global, text: &[u8], drop: &CapSet) -> Result<Vec<u8>, WorldError> {
    let WorldText { policy, world } = WorldText::read(alloc, text)?;
    let world = narrow(alloc, &world, drop)?;
    Ok(WorldText { policy, world }.write()?)
}

#[test]
fn two_are_dropped(rt: HostRuntime) -> Result<(), Fail> {
    let drop = CapSet::none().with(Cap::Kill).with(Cap::Setuid);
    assert!(rt; without(rt.alloc(), WHOLE, &drop)?.as_slice() == NARROW);
    Ok(())
}

#[test]
fn three_stand(rt: HostRuntime) -> Result<(), Fail> {
    let text = WorldText::read(rt.alloc(), WHOLE)?;
    let three = CapSet::none()
        .with(Cap::Fowner)
        .with(Cap::Kill)
        .with(Cap::MacRead);
    assert!(rt; stands(&text.world) == three);
    Ok(())
}
