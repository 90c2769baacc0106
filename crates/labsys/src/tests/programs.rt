// Programs that are played in turns: what each fault leaves, and a refused line.
use super::{ANSWERS, BOOT, Ends, Fails, HEADER, Pieces, REPLY, TRAIL};
use crate::Status;
use std::process::Abort;
use std::test::Fail;

// The worked world, whose process makes the worked call in its only turn.
const PROGRAMS: &[u8] = b"world 2\n\
    levels unc conf sec\n\
    categories a b\n\
    bound all\n\
    dir / 0777 0 0 unc\n\
    file /a 0644 10 10 sec \"hello\"\n\
    proc unc 10 10 - \"cap_mac_read=ep\"\n\
    script\n\
    slices unc\n\
    rounds 1\n\
    program 1@unc\n\
    do mac_get_file /a\n";

#[test]
fn a_fault_of_sched_leaves_the_pieces_before_it(rt: HostRuntime) -> Result<(), Fail> {
    let alloc = rt.alloc();
    let rows: [(Fails, Status, Pieces, Pieces); 7] = [
        // The second read finds the end, and no call was made before it.
        (Fails::Read(2), Status::ReadFault, &[], &[]),
        (Fails::Note(1), Status::TrailFault, &[], &[]),
        (Fails::Note(3), Status::TrailFault, &[], &[HEADER, BOOT]),
        (Fails::Write(1), Status::WriteFault, &[], TRAIL),
        (Fails::Write(2), Status::WriteFault, &[REPLY], TRAIL),
        (Fails::Nothing, Status::Done, ANSWERS, TRAIL),
        (Fails::Read(3), Status::Done, ANSWERS, TRAIL),
    ];
    for (fails, status, out, trail) in rows {
        assert!(rt;
            Ends::new(alloc, &[PROGRAMS], fails)?
                .run(alloc, &["sched", "trail.out"])?
                .is(alloc, status, out, trail)?,
            "{fails:?}"
        );
    }
    Ok(())
}

#[test]
fn a_refused_program_leaves_its_last_line(rt: HostRuntime) -> Result<(), Fail> {
    let alloc = rt.alloc();
    let input = [PROGRAMS, b"stop 1\n".as_slice()];
    let left = Ends::new(alloc, &input, Fails::Nothing)?.run(alloc, &["sched", "trail.out"])?;
    assert!(rt;
        left.is(
            alloc,
            Status::Refused,
            &[b"refused 13 script syntax\n"],
            &[]
        )?
    );
    Ok(())
}
