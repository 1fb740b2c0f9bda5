//! Mounting what is exported at a path.
ghost use Rattle.std.specs.Prelude.{◌≡◌, ◌<◌, ◌≤◌, ◌+◌, ◌-◌, ◌^◌, length, IfOk, IfErr};
ghost use Rattle.sd_outside.specs.Causes.{Rose};
ghost use Rattle.sd_config.specs.declared.stage.Stage.TheVariants as stage;
ghost use Rattle.sd_link.specs.Link.{Moves};
ghost use Rattle.sd_rpc_retry.specs.declared.calling.Ask.TheVariants as asks;
ghost use Rattle.sd_rpc_retry.specs.Lasting.{Lasts, Fails, most_asking_ticks};
ghost use Rattle.sd_rpc_retry.specs.Questions.{given};
ghost use Rattle.sd_loader.specs.Mounting.{IsMounted};
ghost use Rattle.sd_loader.specs.Trust.{Trusted};
ghost use Rattle.sd_rpc_retry.specs.Chain.{after_call};
ghost use Rattle.sd_loader.specs.Causes.{StatusCame, IsStatusError, IsFault};
ghost use Rattle.sd_loader.specs.Went.{load_fails};

use crate::asking::ask_at;
use crate::errors::LoadError;
use sd_link::{Link, Stage};
use sd_outside::{Addr, FHandle};
use sd_rpc_retry::{Caller, Mnt};
use std::alloc::Global;

/// Asks MOUNT for the handle of what is exported at a path of at most 1,024 bytes (RFC 1094, appendix A).
pub fn mount<L: Link>(
    alloc: Global,
    caller: &mut Caller,
    link: &mut L,
    dst: Addr,
    path: &[u8],
) -> Result<FHandle, LoadError>
    requires xid { caller.old.next_xid < 2 ^ 32 - 1 }
    requires tries { caller.old.tries ≤ 64 }
    requires wait { caller.old.wait ≤ 1000 }
    requires machine { length caller.old.machine ≤ 255 }
    requires path { length path.now ≤ 1024 }
    ensures xid { caller.new ≡ after_call caller.old }
    // Over a link that tells, this came of the call.
    ensures told { Moves (L.told link.old) (L.told link.new) (StatusCame stage.Mnt caller.old dst (asks.Mnt path.now) given result) }
    ensures lasts { Lasts most_asking_ticks (L.told link.old) (L.told link.new) }
    // Over a link that tells a world of a configuration, the handle is that of what is exported there.
    ensures mounted { IfOk result (λ file. Moves (L.told link.old) (L.told link.new) (Trusted caller.old dst caller.new.next_xid (λ c. IsMounted c path.now file))) }
    // Over every link a status that refuses isn't 0.
    ensures error { IfErr result IsStatusError }
    // The link failed exactly where the answer says so, and then its count of faults rose.
    ensures fails { Fails (load_fails result) (L.told link.old) (L.told link.new) }
    ensures fault { IfErr result (λ why. IsFault why → Rose (L.faults link.old) (L.faults link.new)) }
    ensures faults { L.faults link.old ≤ L.faults link.new }
    ensures drained { L.drained link.new ≡ L.drained link.old }
{
    match ask_at(alloc, link, caller, Stage::Mnt, dst, &Mnt { path }) {
        Ok(Ok(file)) => Ok(file),
        Ok(Err(status)) => Err(LoadError::Refused {
            step: Stage::Mnt,
            status,
        }),
        Err(why) => Err(why),
    }
}
