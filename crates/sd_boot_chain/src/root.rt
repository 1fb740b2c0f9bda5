//! How the client finds its root after its boot program was fetched: it asks for its name and for its root (bootparams), and
//! then for the port of MOUNT at the server of its root (RFC 1057, appendix A).
ghost use Rattle.std.specs.Prelude.{◌≡◌, ◌<◌, ◌≤◌, ◌+◌, ◌-◌, ◌^◌, length, codes, IfOk, IfErr, OnOk, Ok, Result, ◌*◌};
ghost use Rattle.sd_bootparams.specs.Layout.{name_limit, key_limit};
ghost use Rattle.sd_outside.specs.Causes.{Rose};
ghost use Rattle.sd_link.specs.Link.{Moves};
ghost use Rattle.sd_config.specs.declared.stage.Stage.TheVariants as stage;
ghost use Rattle.sd_rpc_retry.specs.declared.calling.CallError.TheVariants as error;
ghost use Rattle.sd_rpc_retry.specs.declared.calling.Answer.TheVariants as answers;
ghost use Rattle.sd_rpc_retry.specs.Calling.{AskFits};
ghost use Rattle.sd_rpc_retry.specs.Calls.{IsAnswerTo};
ghost use Rattle.sd_rpc_retry.specs.Lasting.{Lasts, most_asking_ticks, Fails};
ghost use Rattle.sd_boot_chain.specs.Failing.{call_fails};
ghost use Rattle.sd_rpc_retry.specs.Chain.{CallTold, after_call};
ghost use Rattle.sd_claims.specs.Booting.{portmapper, whoami_call, getfile_call, getport_call};
ghost use Rattle.sd_boot_chain.specs.Durations.{most_calls_ticks};
ghost use Rattle.sd_boot_chain.specs.Root.{CallCame, Names, Places, CallsCame, answer_without, answer_to};
ghost use Rattle.sd_claims.specs.AnyLink.{IsMet};
ghost use Rattle.sd_boot_chain.specs.Needs.{CallNeeds};

use sd_config::{Stage, Told};
use sd_link::Link;
use sd_outside::{Addr, BROADCAST_IP, ByteList, NoMemory};
use sd_portmap::PMAP_PORT;
use sd_rpc_retry::{CallError, Caller, Getfile, Getport, Named, Question, Tally, Whoami};
use std::alloc::Global;

/// MOUNT, version 1 (RFC 1094, appendix A).
const MOUNT: u32 = 100_005;

const MOUNT_VERSION: u32 = 1;

/// The call of a step has no answer.
#[derive(Clone, Copy)]
pub(crate) struct Unanswered {
    pub step: Stage,
    pub error: CallError,
}

/// The portmapper of a machine.
fn portmapper(ip: u32) -> Addr
    ensures { result ≡ portmapper ip }
{
    Addr {
        ip,
        port: PMAP_PORT,
    }
}

/// Makes the call of a step.
fn ask_at<L: Link, Q: Question>(
    alloc: Global,
    link: &mut L,
    caller: &mut Caller,
    step: Stage,
    dst: Addr,
    question: &Q,
) -> Result<Q::Told, Unanswered>
    requires xid { caller.old.next_xid < 2 ^ 32 - 1 }
    requires tries { caller.old.tries ≤ 64 }
    requires wait { caller.old.wait ≤ 1000 }
    requires machine { length caller.old.machine ≤ 255 }
    requires fits { AskFits (Q.ask question.now) }
    ensures xid { caller.new ≡ after_call caller.old }
    ensures told { Moves (L.told link.old) (L.told link.new) (CallCame (λ told. CallTold (Ok (Q.shown told))) caller.old (record { dst = dst; ask = Q.ask question.now }) result) }
    ensures answers { IfOk result (λ told. IsAnswerTo (Q.ask question.now) (Q.shown told)) }
    ensures step { IfErr result (λ why. why.step ≡ step) }
    ensures lasts { Lasts most_asking_ticks (L.told link.old) (L.told link.new) }
    ensures fault { IfErr result (λ why. why.error ≡ error.LinkFault → Rose (L.faults link.old) (L.faults link.new)) }
    ensures needs { CallNeeds (caller.old.tries * caller.old.wait) (IsMet (L.handed link.old) (L.handed link.new) (L.clock link.old) (L.clock link.new)) result }
    ensures counts { L.handed link.old ≤ L.handed link.new }
    ensures later { L.clock link.old ≤ L.clock link.new }
    ensures fails { Fails (call_fails result) (L.told link.old) (L.told link.new) }
    ensures faults { L.faults link.old ≤ L.faults link.new }
    ensures drained { L.drained link.new ≡ L.drained link.old }
{
    let mut tally = Tally { sends: 0, last: 0 };
    match caller.call(alloc, link, dst, question, &mut tally) {
        Ok(told) => Ok(told),
        Err(error) => Err(Unanswered { step, error }),
    }
}

/// Asks everyone for the client's name.
fn whoami<L: Link>(alloc: Global, link: &mut L, caller: &mut Caller) -> Result<Named, Unanswered>
    requires xid { caller.old.next_xid < 2 ^ 32 - 1 }
    requires tries { caller.old.tries ≤ 64 }
    requires wait { caller.old.wait ≤ 1000 }
    requires machine { length caller.old.machine ≤ 255 }
    ensures xid { caller.new ≡ after_call caller.old }
    ensures told { Moves (L.told link.old) (L.told link.new) (CallCame (λ named. Names named.from named.client) caller.old (whoami_call caller.old.ip) result) }
    ensures fits { IfOk result (λ named. length named.client ≤ name_limit) }
    ensures step { IfErr result (λ why. why.step ≡ stage.Whoami) }
    ensures lasts { Lasts most_asking_ticks (L.told link.old) (L.told link.new) }
    ensures fault { IfErr result (λ why. why.error ≡ error.LinkFault → Rose (L.faults link.old) (L.faults link.new)) }
    ensures needs { CallNeeds (caller.old.tries * caller.old.wait) (IsMet (L.handed link.old) (L.handed link.new) (L.clock link.old) (L.clock link.new)) result }
    ensures counts { L.handed link.old ≤ L.handed link.new }
    ensures later { L.clock link.old ≤ L.clock link.new }
    ensures fails { Fails (call_fails result) (L.told link.old) (L.told link.new) }
    ensures faults { L.faults link.old ≤ L.faults link.new }
    ensures drained { L.drained link.new ≡ L.drained link.old }
{
    let asked = Whoami { ip: caller.ip };
    let named = ask_at(
        alloc,
        link,
        caller,
        Stage::Whoami,
        portmapper(BROADCAST_IP),
        &asked,
    )?;
    Ok(named)
}

/// Asks who told the client's name for the server of the file that a key stands for, and gives its address.
fn getfile<L: Link>(
    alloc: Global,
    link: &mut L,
    caller: &mut Caller,
    named: Named,
    key: ByteList,
) -> Result<u32, Unanswered>
    requires xid { caller.old.next_xid < 2 ^ 32 - 1 }
    requires tries { caller.old.tries ≤ 64 }
    requires wait { caller.old.wait ≤ 1000 }
    requires machine { length caller.old.machine ≤ 255 }
    requires client { length named.client ≤ name_limit }
    requires key { length key ≤ key_limit }
    ensures xid { caller.new ≡ after_call caller.old }
    ensures told { Moves (L.told link.old) (L.told link.new) (CallCame Places caller.old (getfile_call named.from named.client key) result) }
    ensures step { IfErr result (λ why. why.step ≡ stage.Getfile) }
    ensures lasts { Lasts most_asking_ticks (L.told link.old) (L.told link.new) }
    ensures fault { IfErr result (λ why. why.error ≡ error.LinkFault → Rose (L.faults link.old) (L.faults link.new)) }
    ensures needs { CallNeeds (caller.old.tries * caller.old.wait) (IsMet (L.handed link.old) (L.handed link.new) (L.clock link.old) (L.clock link.new)) result }
    ensures counts { L.handed link.old ≤ L.handed link.new }
    ensures later { L.clock link.old ≤ L.clock link.new }
    ensures fails { Fails (call_fails result) (L.told link.old) (L.told link.new) }
    ensures faults { L.faults link.old ≤ L.faults link.new }
    ensures drained { L.drained link.new ≡ L.drained link.old }
{
    let dst = portmapper(named.from);
    let asked = Getfile {
        client: named.client,
        key,
    };
    let located = ask_at(alloc, link, caller, Stage::Getfile, dst, &asked)?;
    Ok(located.ip)
}

/// Asks a server for the port of MOUNT, which is 0 where it has none.
fn getport<L: Link>(
    alloc: Global,
    link: &mut L,
    caller: &mut Caller,
    server: u32,
) -> Result<u16, Unanswered>
    requires xid { caller.old.next_xid < 2 ^ 32 - 1 }
    requires tries { caller.old.tries ≤ 64 }
    requires wait { caller.old.wait ≤ 1000 }
    requires machine { length caller.old.machine ≤ 255 }
    ensures xid { caller.new ≡ after_call caller.old }
    ensures told { Moves (L.told link.old) (L.told link.new) (CallCame (λ port. CallTold (Ok (answers.Port port))) caller.old (getport_call server) result) }
    ensures step { IfErr result (λ why. why.step ≡ stage.Getport) }
    ensures lasts { Lasts most_asking_ticks (L.told link.old) (L.told link.new) }
    ensures fault { IfErr result (λ why. why.error ≡ error.LinkFault → Rose (L.faults link.old) (L.faults link.new)) }
    ensures needs { CallNeeds (caller.old.tries * caller.old.wait) (IsMet (L.handed link.old) (L.handed link.new) (L.clock link.old) (L.clock link.new)) result }
    ensures counts { L.handed link.old ≤ L.handed link.new }
    ensures later { L.clock link.old ≤ L.clock link.new }
    ensures fails { Fails (call_fails result) (L.told link.old) (L.told link.new) }
    ensures faults { L.faults link.old ≤ L.faults link.new }
    ensures drained { L.drained link.new ≡ L.drained link.old }
{
    let asked = Getport {
        prog: MOUNT,
        vers: MOUNT_VERSION,
    };
    let port = ask_at(
        alloc,
        link,
        caller,
        Stage::Getport,
        portmapper(server),
        &asked,
    )?;
    Ok(port)
}

/// Makes the three calls, of which the second asks for `root`, and gives the port of MOUNT, or 0 where there is none.
pub(crate) fn find_mount<L: Link>(
    alloc: Global,
    link: &mut L,
    caller: &mut Caller,
    root: ByteList,
) -> Result<u16, Unanswered>
    requires xid { caller.old.next_xid < 2 ^ 32 - 3 }
    requires tries { caller.old.tries ≤ 64 }
    requires wait { caller.old.wait ≤ 1000 }
    requires machine { length caller.old.machine ≤ 255 }
    requires root { root ≡ codes "root" }
    ensures calls { caller.new.next_xid ≤ caller.old.next_xid + 3 }
    ensures told { Moves (L.told link.old) (L.told link.new) (CallsCame caller.old result caller.new) }
    ensures lasts { Lasts most_calls_ticks (L.told link.old) (L.told link.new) }
    ensures fault { IfErr result (λ why. why.error ≡ error.LinkFault → Rose (L.faults link.old) (L.faults link.new)) }
    ensures needs { CallNeeds (caller.old.tries * caller.old.wait) (IsMet (L.handed link.old) (L.handed link.new) (L.clock link.old) (L.clock link.new)) result }
    ensures counts { L.handed link.old ≤ L.handed link.new }
    ensures later { L.clock link.old ≤ L.clock link.new }
    ensures fails { Fails (call_fails result) (L.told link.old) (L.told link.new) }
    ensures faults { L.faults link.old ≤ L.faults link.new }
    ensures drained { L.drained link.new ≡ L.drained link.old }
{
    let named = whoami(alloc, link, caller)?;
    let server = getfile(alloc, link, caller, named, root)?;
    let port = getport(alloc, link, caller, server)?;
    Ok(port)
}

/// The answer to a boot one of whose calls has no answer.
fn answer_without(unanswered: Unanswered) -> Result<Told, NoMemory>
    ensures { result ≡ answer_without unanswered.step unanswered.error }
{
    let step = unanswered.step;
    match unanswered.error {
        CallError::Timeout => Ok(Told::BootTimeout { step }),
        CallError::Flood => Ok(Told::BootFlood { step }),
        CallError::Denied { code } => Ok(Told::BootDenied { step, code }),
        CallError::LinkFault => Ok(Told::BootLinkFault),
        CallError::NoMemory => Err(NoMemory),
    }
}

/// The answer to a boot whose program was fetched.
pub(crate) fn answer_to(program: ByteList, found: Result<u16, Unanswered>) -> Result<Told, NoMemory>
    ensures { result ≡ answer_to program found }
{
    match found {
        Ok(0) => Ok(Told::BootNoPort),
        Ok(_) => Ok(Told::BootUnbuilt {
            step: Stage::Mnt,
            program,
        }),
        Err(unanswered) => answer_without(unanswered),
    }
}
