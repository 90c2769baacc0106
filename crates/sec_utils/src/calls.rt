// The calls that a utility makes.
ghost use Rattle.std.specs.Prelude.{◌≡◌, IfOk, true, length};
ghost use Rattle.sec_utils.specs.Calls.{call_on, calls_of, is_marked};

use crate::{NoMemory, Tool, Util};
use fs_path::{List, Path};
use kern_model::{Call, CallList};
use std::alloc::Global;

// The call for a path.
fn call_on(util: &Util, path: Path) -> Option<Call>
    ensures { result ≡ call_on util.now path }
{
    match util.tool {
        Tool::GetFcap => Some(Call::CapGetFile(path)),
        Tool::SetFcap => Some(Call::CapSetFile(path, util.caps)),
        Tool::GetFmac => Some(Call::MacGetFile(path)),
        Tool::SetFmac => Some(Call::MacSetFile(path, util.mark?)),
    }
}

/// The calls of a utility, one for each path in order. One that sets labels has a label to set.
#[tactic(auto, using(crate::proofs::ItemLaws::one_call_each), unfolding(crate::specs::Calls::calls_of))]
pub fn expand(alloc: Global, util: &Util) -> Result<CallList, NoMemory>
    requires { is_marked util.now ≡ true }
    ensures calls { IfOk result (λ calls. calls ≡ calls_of util.now) }
    ensures each { IfOk result (λ calls. length calls ≡ length util.now.paths) }
{
    let mut calls = List::new(alloc);
    for path in util.paths.items() {
        if let Some(call) = call_on(util, path.copy()?) {
            calls.push(call)?;
        }
    }
    Ok(calls)
}
