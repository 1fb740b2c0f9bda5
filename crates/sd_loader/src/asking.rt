//! The calls of the loader.
ghost use Rattle.std.specs.Prelude.{◌≡◌, ◌<◌, ◌≤◌, ◌+◌, ◌-◌, ◌^◌, length, Ok, IfOk, IfErr};
ghost use Rattle.sd_outside.specs.Causes.{Rose};
ghost use Rattle.sd_link.specs.Link.{Moves};
ghost use Rattle.sd_rpc_retry.specs.Calling.{AskFits};
ghost use Rattle.sd_rpc_retry.specs.Calls.{IsAnswerTo};
ghost use Rattle.sd_loader.specs.Served.{IsServers};
ghost use Rattle.sd_loader.specs.Trust.{Trusted};
ghost use Rattle.sd_rpc_retry.specs.Chain.{after_call};
ghost use Rattle.sd_loader.specs.Causes.{CallCame, IsStatusError, IsFault};
ghost use Rattle.sd_loader.specs.Went.{Went, load_fails};

use crate::errors::LoadError;
use sd_link::{Link, Stage};
use sd_outside::Addr;
use sd_rpc_retry::{Caller, Question, Tally};
use std::alloc::Global;

/// Makes the call of a step.
pub(crate) fn ask_at<L: Link, Q: Question>(
    alloc: Global,
    link: &mut L,
    caller: &mut Caller,
    step: Stage,
    dst: Addr,
    question: &Q,
) -> Result<Q::Told, LoadError>
    requires xid { caller.old.next_xid < 2 ^ 32 - 1 }
    requires tries { caller.old.tries ≤ 64 }
    requires wait { caller.old.wait ≤ 1000 }
    requires machine { length caller.old.machine ≤ 255 }
    requires fits { AskFits (Q.ask question.now) }
    ensures xid { caller.new ≡ after_call caller.old }
    ensures went { Moves (L.told link.old) (L.told link.new) (Went (CallCame step caller.old dst (Q.ask question.now) Q.shown result) (load_fails result) caller.old.next_xid caller.new.next_xid) }
    ensures answers { IfOk result (λ told. IsAnswerTo (Q.ask question.now) (Q.shown told)) }
    // What was answered is what the server says.
    ensures trusted { IfOk result (λ told. Moves (L.told link.old) (L.told link.new) (Trusted caller.old dst caller.new.next_xid (λ c. IsServers c caller.old dst (Q.ask question.now) (Ok (Q.shown told))))) }
    ensures error { IfErr result IsStatusError }
    ensures fault { IfErr result (λ why. IsFault why → Rose (L.faults link.old) (L.faults link.new)) }
    ensures faults { L.faults link.old ≤ L.faults link.new }
    ensures drained { L.drained link.new ≡ L.drained link.old }
{
    let mut tally = Tally { sends: 0, last: 0 };
    match caller.call(alloc, link, dst, question, &mut tally) {
        Ok(told) => Ok(told),
        Err(error) => Err(LoadError::Call { step, error }),
    }
}
