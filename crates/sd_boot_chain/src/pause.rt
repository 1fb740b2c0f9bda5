//! How the client lets time pass.
ghost use Rattle.std.specs.Prelude.{◌≡◌, ◌≤◌, IfOk, Ok};
ghost use Rattle.sd_outside.specs.Causes.{Rose};
ghost use Rattle.sd_link.specs.Link.{Moves};
ghost use Rattle.sd_rpc_retry.specs.Lasting.{Lasts, StaysBefore, Fails};
ghost use Rattle.sd_boot_chain.specs.Failing.{pause_fails, told_fails};
ghost use Rattle.sd_boot_chain.specs.Pause.{Passes, IsPause, IsWaitAnswer};
ghost use Rattle.sd_claims.specs.AnyLink.{IsMet, WaitNeeds, FaultIsCounted};
ghost use Rattle.sd_boot_chain.specs.Needs.{PauseNeeds};
ghost use Rattle.sd_link.specs.Tries.{flood_limit};
ghost use Rattle.sd_rpc_retry.specs.Sending.{RoseBy};

use sd_config::Told;
use sd_link::{Link, LinkError};
use sd_outside::NoMemory;
use sd_rpc_retry::FLOOD;

/// How a pause ended.
#[derive(Clone, Copy)]
enum Pause {
    /// The time passed.
    Over,
    /// So many packets came that it ends.
    Flood,
    /// The link failed.
    Fault,
}

/// Gets packets and drops them until this tick is reached.
fn drop_until<L: Link>(link: &mut L, until: u64) -> Result<Pause, NoMemory>
    ensures told { IfOk result (λ pause. Moves (L.told link.old) (L.told link.new) (Passes until pause)) }
    ensures goes { Moves (L.told link.old) (L.told link.new) (StaysBefore until) }
    ensures fault { IfOk result (λ pause. pause ≡ Pause.Fault → Rose (L.faults link.old) (L.faults link.new)) }
    ensures handed { IfOk result (λ pause. pause ≡ Pause.Flood → RoseBy flood_limit (L.handed link.old) (L.handed link.new)) }
    ensures reached { IfOk result (λ pause. pause ≡ Pause.Over → until ≤ L.clock link.new) }
    ensures counts { L.handed link.old ≤ L.handed link.new }
    ensures later { L.clock link.old ≤ L.clock link.new }
    ensures fails { Fails (pause_fails result) (L.told link.old) (L.told link.new) }
    ensures faults { L.faults link.old ≤ L.faults link.new }
    ensures drained { L.drained link.new ≡ L.drained link.old }
{
    for count in 0..FLOOD {
        match link.recv(until) {
            Ok(Some(packet)) => drop(packet),
            Ok(None) => return Ok(Pause::Over),
            Err(LinkError::Failed) => return Ok(Pause::Fault),
            Err(LinkError::NoMemory) => return Err(NoMemory),
        }
    }
    Ok(Pause::Flood)
}

/// Lets so many ticks pass.
fn pass_ticks<L: Link>(link: &mut L, ticks: u64) -> Result<Pause, NoMemory>
    requires { ticks ≤ 100000 }
    ensures told { IfOk result (λ pause. Moves (L.told link.old) (L.told link.new) (IsPause ticks pause)) }
    ensures goes { Lasts 100000 (L.told link.old) (L.told link.new) }
    ensures fault { IfOk result (λ pause. pause ≡ Pause.Fault → Rose (L.faults link.old) (L.faults link.new)) }
    ensures needs { IfOk result (PauseNeeds (ticks) (IsMet (L.handed link.old) (L.handed link.new) (L.clock link.old) (L.clock link.new))) }
    ensures counts { L.handed link.old ≤ L.handed link.new }
    ensures later { L.clock link.old ≤ L.clock link.new }
    ensures fails { Fails (pause_fails result) (L.told link.old) (L.told link.new) }
    ensures faults { L.faults link.old ≤ L.faults link.new }
    ensures drained { L.drained link.new ≡ L.drained link.old }
{
    let until = link.now() + ticks;
    drop_until(link, until)
}

/// Lets so many ticks pass, and answers how that went.
pub(crate) fn wait<L: Link>(link: &mut L, ticks: u64) -> Result<Told, NoMemory>
    requires { ticks ≤ 100000 }
    ensures goes { Lasts 100000 (L.told link.old) (L.told link.new) }
    // Over a link that tells, the answer is earned or caused by what happened,
    // and the command ends as its answer says.
    ensures caused { IfOk result (λ answer.
        Moves (L.told link.old) (L.told link.new) (IsWaitAnswer ticks answer)) }
    ensures fault { IfOk result (FaultIsCounted (L.faults link.old) (L.faults link.new)) }
    ensures needs { IfOk result (WaitNeeds (ticks) (IsMet (L.handed link.old) (L.handed link.new) (L.clock link.old) (L.clock link.new))) }
    ensures counts { L.handed link.old ≤ L.handed link.new }
    ensures later { L.clock link.old ≤ L.clock link.new }
    ensures fails { Fails (told_fails result) (L.told link.old) (L.told link.new) }
    ensures faults { L.faults link.old ≤ L.faults link.new }
    ensures drained { L.drained link.new ≡ L.drained link.old }
{
    match pass_ticks(link, ticks)? {
        Pause::Over => Ok(Told::WaitOk { ticks }),
        Pause::Flood => Ok(Told::WaitFlood { ticks }),
        Pause::Fault => Ok(Told::WaitLinkFault { ticks }),
    }
}
