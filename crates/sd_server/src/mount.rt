//! The server's MOUNT: program 100005, version 1 (RFC 1094, appendix A).
ghost use Rattle.std.specs.Prelude.{◌≡◌, ◌≤◌, ◌++◌, map, IfOk, IfSome, OnOk};
ghost use Rattle.std.specs.List.{AllByRecursion};
ghost use Rattle.std.specs.Option.{option_map};
ghost use Rattle.sd_rpc_msg.specs.Layout.{OutcomeFits};
ghost use Rattle.sd_mount.specs.Layout.{args_kind, ArgsFit, ResultFits};
ghost use Rattle.sd_config.specs.Config.{IsConfig};
ghost use Rattle.sd_services.specs.Part.{ServerPart};
ghost use Rattle.sd_services.specs.RpcCalls.{spelled, answered, reply_to};
ghost use Rattle.sd_services.specs.MountReply.{mount_args_in, mount_answer, mounts_by, mounts_after, pair_of, item_of, mount, exports_of};
ghost use Rattle.sd_server.specs.Mounting.{MountHasRoom, Mounts, mount_found, mounts_found};
ghost use Rattle.sd_server.specs.Sessions.{after_change, MayChange};

use crate::coming::{Coming, arrive, auth_null, known, with_xid};
use crate::replies::Change;
use crate::service::Service;
use crate::setup::Setup;
use sd_mount::{
    ExportEntry, ExportItem, ExportList, MountArgs, MountList, MountPair, MountResult, PairList,
    TextList, read_mount_args, write_mount_result,
};
use sd_outside::{ByteList, NoMemory};
use sd_rpc_msg::{Outcome, Reply};
use sd_text::ip_list;
use std::alloc::Global;

/// The arguments that the bytes spell.
pub fn mount_args_in(
    alloc: Global,
    proc_no: u32,
    bytes: &[u8],
) -> Result<Option<MountArgs>, NoMemory>
    requires { proc_no ≤ 5 }
    ensures found { IfOk result (λ found. found ≡ option_map mount_args_in (spelled (args_kind proc_no) bytes.now)) }
    ensures fits { IfOk result (λ found. IfSome found ArgsFit) }
{
    known(read_mount_args(alloc, proc_no, bytes))
}

fn pair_of(alloc: Global, mount: &(u32, ByteList)) -> Result<MountPair, NoMemory>
    ensures { IfOk result (λ pair. pair ≡ pair_of mount.now) }
{
    Ok(MountPair {
        host: ip_list(alloc, mount.0)?,
        path: mount.1.copy()?,
    })
}

fn push_pairs(alloc: Global, list: &mut PairList, more: &[(u32, ByteList)]) -> Result<(), NoMemory>
    ensures { OnOk result (list.new ≡ list.old ++ map pair_of more.now) }
{
    for mount in more {
        list.push(pair_of(alloc, mount)?)?;
    }
    Ok(())
}

/// All mounts.
fn pairs(alloc: Global, mounts: &MountList) -> Result<PairList, NoMemory>
    ensures { IfOk result (λ list. list ≡ map pair_of mounts.now) }
{
    let mut list = PairList::empty(alloc);
    push_pairs(alloc, &mut list, mounts.list())?;
    Ok(list)
}

fn item_of(alloc: Global, entry: &ExportEntry) -> Result<ExportItem, NoMemory>
    ensures { IfOk result (λ item. item ≡ item_of entry.now) }
{
    let mut groups = TextList::empty(alloc);
    groups.push(entry.owner_name.copy()?)?;
    Ok(ExportItem {
        path: entry.path.copy()?,
        groups,
    })
}

fn push_items(alloc: Global, list: &mut ExportList, more: &[ExportEntry]) -> Result<(), NoMemory>
    ensures { OnOk result (list.new ≡ list.old ++ map item_of more.now) }
{
    for entry in more {
        list.push(item_of(alloc, entry)?)?;
    }
    Ok(())
}

/// All exports.
fn items(alloc: Global, setup: &Setup) -> Result<ExportList, NoMemory>
    ensures { IfOk result (λ list. list ≡ map item_of (exports_of setup.now)) }
{
    let mut list = ExportList::empty(alloc);
    push_items(alloc, &mut list, setup.exports().entries())?;
    Ok(list)
}

/// What a call from an address is answered.
fn mount_answer(
    alloc: Global,
    setup: &Setup,
    mounts: &MountList,
    from: u32,
    args: &MountArgs,
) -> Result<MountResult, NoMemory>
    ensures answer { IfOk result (λ answer. answer ≡ mount_answer setup.now mounts.now from args.now) }
    ensures rules { IsConfig setup.now }
{
    let exports = setup.exports();
    match args {
        MountArgs::Null => Ok(MountResult::Void),
        MountArgs::Mnt { path } => match exports.mnt(from, path.as_slice()) {
            Ok(file) => Ok(MountResult::Given(file)),
            Err(status) => Ok(MountResult::Refused { status }),
        },
        MountArgs::Dump => Ok(MountResult::Mounts(pairs(alloc, mounts)?)),
        MountArgs::Umnt { .. } => Ok(MountResult::Void),
        MountArgs::UmntAll => Ok(MountResult::Void),
        MountArgs::Export => Ok(MountResult::Exports(items(alloc, setup)?)),
    }
}

/// The same, which has room in a message.
fn mount_fitting(
    alloc: Global,
    setup: &Setup,
    mounts: &MountList,
    from: u32,
    args: &MountArgs,
) -> Result<MountResult, NoMemory>
    requires { AllByRecursion MountHasRoom mounts.now }
    ensures answer { IfOk result (λ answer. answer ≡ mount_answer setup.now mounts.now from args.now) }
    ensures fits { IfOk result ResultFits }
{
    mount_answer(alloc, setup, mounts, from, args)
}

/// What becomes of the mounts by a call from an address.
fn mount_change(setup: &Setup, from: u32, args: MountArgs) -> Change
    ensures mounts { (part : ServerPart) → after_change setup.now part result ≡ record part { mounts = mounts_by setup.now part.mounts from args } }
    ensures fit { (part : ServerPart) → ArgsFit args → MayChange setup.now part result }
{
    match args {
        MountArgs::Mnt { path } => match setup.exports().mnt(from, path.as_slice()) {
            Ok(_) => Change::Mounts { host: from, path },
            Err(_) => Change::Stays,
        },
        MountArgs::Umnt { path } => Change::Unmounts { host: from, path },
        MountArgs::UmntAll => Change::Leaves { host: from },
        MountArgs::Null => Change::Stays,
        MountArgs::Dump => Change::Stays,
        MountArgs::Export => Change::Stays,
    }
}

/// How a call goes, and what becomes of the mounts.
#[derive(Drop)]
struct Called {
    outcome: Option<Outcome>,
    change: Change,
}

/// A call with the arguments that were found.
fn mount_found(
    alloc: Global,
    setup: &Setup,
    mounts: &MountList,
    from: u32,
    found: Option<MountArgs>,
) -> Result<Called, NoMemory>
    requires room { AllByRecursion MountHasRoom mounts.now }
    requires fit { IfSome found ArgsFit }
    ensures outcome { IfOk result (λ called. called.outcome ≡ mount_found setup.now mounts.now from found) }
    ensures mounts { IfOk result (λ called. (part : ServerPart) → part.mounts ≡ mounts.now → Mounts setup.now part called.change (mounts_found setup.now mounts.now from found)) }
    ensures fits { IfOk result (λ called. IfSome called.outcome OutcomeFits) }
{
    match found {
        None => {
            let verf = auth_null(alloc);
            Ok(Called {
                outcome: Some(Outcome::GarbageArgs { verf }),
                change: Change::Stays,
            })
        }
        Some(args) => {
            let answer = mount_fitting(alloc, setup, mounts, from, &args)?;
            let results = write_mount_result(alloc, &answer)?;
            let verf = auth_null(alloc);
            Ok(Called {
                outcome: Some(Outcome::Success { verf, results }),
                change: mount_change(setup, from, args),
            })
        }
    }
}

/// The reply of MOUNT, and what becomes of the mounts.
#[derive(Drop)]
pub struct MountTurn {
    pub reply: Option<Reply>,
    pub change: Change,
}

/// What MOUNT does with a datagram from an address.
pub fn mount_turn(
    alloc: Global,
    setup: &Setup,
    mounts: &MountList,
    from: u32,
    body: &[u8],
) -> Result<MountTurn, NoMemory>
    requires { AllByRecursion MountHasRoom mounts.now }
    ensures reply { IfOk result (λ turn. turn.reply ≡ reply_to (mount setup.now mounts.now from) body.now) }
    ensures mounts { IfOk result (λ turn. (part : ServerPart) → part.mounts ≡ mounts.now → Mounts setup.now part turn.change (mounts_after setup.now mounts.now from body.now)) }
    ensures fits { IfOk result (λ turn. IfSome turn.reply (λ reply. OutcomeFits reply.outcome)) }
{
    match arrive(alloc, Service::Mount, body)? {
        Coming::Nowhere => Ok(MountTurn {
            reply: None,
            change: Change::Stays,
        }),
        Coming::Refused(reply) => Ok(MountTurn {
            reply: Some(reply),
            change: Change::Stays,
        }),
        Coming::Asks { xid, proc_no, args } => {
            let found = mount_args_in(alloc, proc_no, args.as_slice())?;
            let called = mount_found(alloc, setup, mounts, from, found)?;
            Ok(MountTurn {
                reply: with_xid(xid, called.outcome),
                change: called.change,
            })
        }
    }
}
