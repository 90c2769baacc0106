// Living processes, by the records of calls.
ghost use Rattle.std.specs.Prelude.{◌≡◌, OnOk};
ghost use Rattle.std.specs.FinMap as map;
ghost use Rattle.sched_progs.specs.Standings.{standings_after, standings_after_one};

use crate::last_reply::LastReply;
use crate::standing::{Standing, Standings};
use kern_model::{NoMemory, Pid, Rec};

/// Puts the caller of a call at a place, and there each child that it made, and takes away each process that ended.
pub fn follow(
    standings: &mut Standings,
    who: &Pid,
    mine: Standing,
    recs: &[Rec],
) -> Result<(), NoMemory>
    ensures { OnOk result (standings.new ≡ standings_after mine (map.insert standings.old who.now mine) recs.now) }
{
    standings.set(who, mine)?;
    for rec in recs {
        follow_one(standings, mine, rec)?;
    }
    Ok(())
}

// The same for one record.
fn follow_one(standings: &mut Standings, mine: Standing, rec: &Rec) -> Result<(), NoMemory>
    ensures { OnOk result (standings.new ≡ standings_after_one mine standings.old rec.now) }
{
    match rec {
        Rec::Fork { who: _, child } => {
            let place = Standing {
                last: LastReply::Fresh,
                ..mine
            };
            standings.set(child, place)
        }
        Rec::Exit { who, ending: _ } => {
            standings.remove(who);
            Ok(())
        }
        _ => Ok(()),
    }
}
