//! The calls of NFS on a walk (RFC 1094, section 2.2).
ghost use Rattle.std.specs.Prelude.{◌≡◌, ◌<◌, ◌≤◌, ◌+◌, ◌-◌, ◌^◌, ℕ, length, IfOk, IfErr};
ghost use Rattle.sd_outside.specs.Causes.{Rose};
ghost use Rattle.sd_nfs_msg.specs.declared.message.NfsArgs.TheVariants as nfs_asks;
ghost use Rattle.sd_config.specs.declared.stage.Stage.TheVariants as stage;
ghost use Rattle.sd_services.specs.Files.{exported};
ghost use Rattle.sd_services.specs.declared.node.Standing.TheVariants as standing;
ghost use Rattle.sd_link.specs.Link.{Moves};
ghost use Rattle.sd_rpc_retry.specs.declared.calling.Ask.TheVariants as asks;
ghost use Rattle.sd_rpc_retry.specs.Questions.{found, target, attributes};
ghost use Rattle.sd_loader.specs.Walk.{what_at};
ghost use Rattle.sd_loader.specs.Found.{IsFile, AreOf, IsFound};
ghost use Rattle.sd_loader.specs.Trust.{Trusted};
ghost use Rattle.sd_rpc_retry.specs.Chain.{after_call};
ghost use Rattle.sd_loader.specs.Causes.{StatusCame, IsStatusError, IsFault};
ghost use Rattle.sd_loader.specs.Went.{Went, load_fails};

use crate::asking::ask_at;
use crate::errors::LoadError;
use sd_link::{Link, Stage};
use sd_nfs_msg::Fattr;
use sd_outside::{Addr, FHandle};
use sd_rpc_retry::{Caller, Found, Getattr, Lookup, Readlink, Target};
use std::alloc::Global;

/// Asks which file a directory calls by a name.
pub(crate) fn lookup<L: Link>(
    alloc: Global,
    link: &mut L,
    caller: &mut Caller,
    nfs: Addr,
    dir: FHandle,
    name: &[u8],
) -> Result<Found, LoadError>
    requires xid { caller.old.next_xid < 2 ^ 32 - 1 }
    requires tries { caller.old.tries ≤ 64 }
    requires wait { caller.old.wait ≤ 1000 }
    requires machine { length caller.old.machine ≤ 255 }
    requires name { length name.now ≤ 255 }
    ensures xid { caller.new ≡ after_call caller.old }
    ensures went { Moves (L.told link.old) (L.told link.new) (Went (StatusCame stage.Lookup caller.old nfs (asks.Nfs (nfs_asks.Lookup dir name.now)) found result) (load_fails result) caller.old.next_xid caller.new.next_xid) }
    ensures trusted { IfOk result (λ told. Moves (L.told link.old) (L.told link.new) (Trusted caller.old nfs caller.new.next_xid (λ c. (number : ℕ) → IsFile c dir number → IsFound c number name.now told.file told.attr))) }
    ensures error { IfErr result IsStatusError }
    ensures fault { IfErr result (λ why. IsFault why → Rose (L.faults link.old) (L.faults link.new)) }
    ensures faults { L.faults link.old ≤ L.faults link.new }
    ensures drained { L.drained link.new ≡ L.drained link.old }
{
    match ask_at(
        alloc,
        link,
        caller,
        Stage::Lookup,
        nfs,
        &Lookup { dir, name },
    ) {
        Ok(Ok(found)) => Ok(found),
        Ok(Err(status)) => Err(LoadError::Refused {
            step: Stage::Lookup,
            status,
        }),
        Err(why) => Err(why),
    }
}

/// Asks which path a link names.
pub(crate) fn readlink<L: Link>(
    alloc: Global,
    link: &mut L,
    caller: &mut Caller,
    nfs: Addr,
    file: FHandle,
) -> Result<Target, LoadError>
    requires xid { caller.old.next_xid < 2 ^ 32 - 1 }
    requires tries { caller.old.tries ≤ 64 }
    requires wait { caller.old.wait ≤ 1000 }
    requires machine { length caller.old.machine ≤ 255 }
    ensures xid { caller.new ≡ after_call caller.old }
    ensures went { Moves (L.told link.old) (L.told link.new) (Went (StatusCame stage.Readlink caller.old nfs (asks.Nfs (nfs_asks.Readlink file)) target result) (load_fails result) caller.old.next_xid caller.new.next_xid) }
    ensures trusted { IfOk result (λ text. Moves (L.told link.old) (L.told link.new) (Trusted caller.old nfs caller.new.next_xid (λ c. (number : ℕ) → IsFile c file number → what_at (exported c).root number ≡ standing.Symlink text))) }
    ensures error { IfErr result IsStatusError }
    ensures fault { IfErr result (λ why. IsFault why → Rose (L.faults link.old) (L.faults link.new)) }
    ensures faults { L.faults link.old ≤ L.faults link.new }
    ensures drained { L.drained link.new ≡ L.drained link.old }
{
    match ask_at(
        alloc,
        link,
        caller,
        Stage::Readlink,
        nfs,
        &Readlink { file },
    ) {
        Ok(Ok(text)) => Ok(text),
        Ok(Err(status)) => Err(LoadError::Refused {
            step: Stage::Readlink,
            status,
        }),
        Err(why) => Err(why),
    }
}

/// Asks for the attributes of a file.
pub(crate) fn getattr<L: Link>(
    alloc: Global,
    link: &mut L,
    caller: &mut Caller,
    nfs: Addr,
    file: FHandle,
) -> Result<Fattr, LoadError>
    requires xid { caller.old.next_xid < 2 ^ 32 - 1 }
    requires tries { caller.old.tries ≤ 64 }
    requires wait { caller.old.wait ≤ 1000 }
    requires machine { length caller.old.machine ≤ 255 }
    ensures xid { caller.new ≡ after_call caller.old }
    ensures went { Moves (L.told link.old) (L.told link.new) (Went (StatusCame stage.Getattr caller.old nfs (asks.Nfs (nfs_asks.Getattr file)) attributes result) (load_fails result) caller.old.next_xid caller.new.next_xid) }
    ensures trusted { IfOk result (λ attr. Moves (L.told link.old) (L.told link.new) (Trusted caller.old nfs caller.new.next_xid (λ c. (number : ℕ) → IsFile c file number → AreOf c number attr))) }
    ensures error { IfErr result IsStatusError }
    ensures fault { IfErr result (λ why. IsFault why → Rose (L.faults link.old) (L.faults link.new)) }
    ensures faults { L.faults link.old ≤ L.faults link.new }
    ensures drained { L.drained link.new ≡ L.drained link.old }
{
    match ask_at(alloc, link, caller, Stage::Getattr, nfs, &Getattr { file }) {
        Ok(Ok(attr)) => Ok(attr),
        Ok(Err(status)) => Err(LoadError::Refused {
            step: Stage::Getattr,
            status,
        }),
        Err(why) => Err(why),
    }
}
