//! How the client boots, as far as that is built: RARP, TFTP from the responder, and the calls that lead to its root.
ghost use Rattle.std.specs.Prelude.{◌≡◌, ◌≤◌, ◌+◌, ◌%◌, IfOk, OnOk, ◌*◌};
ghost use Rattle.sd_config.specs.declared.command.Command.TheVariants as commands;
ghost use Rattle.sd_config.specs.Config.{IsArch};
ghost use Rattle.sd_link.specs.Link.{Moves};
ghost use Rattle.sd_config.specs.Program.{program_name};
ghost use Rattle.sd_tftp.specs.Grammar.{HasNoZero};
ghost use Rattle.sd_rpc_retry.specs.Lasting.{Lasts, Fails};
ghost use Rattle.sd_boot_chain.specs.Failing.{told_fails};
ghost use Rattle.sd_boot_chain.specs.Durations.{most_ticks, most_boot_ticks, most_calls_ticks, most_calls, HasCallsLeft};
ghost use Rattle.sd_boot_chain.specs.Boot.{caller_of, IsBootAnswer};
ghost use Rattle.sd_boot_chain.specs.Root.{IsCallsAnswer};
ghost use Rattle.sd_boot_chain.specs.Step.{IsDone};
ghost use Rattle.sd_boot_chain.specs.Address.{shows_learned};
ghost use Rattle.sd_claims.specs.AnyLink.{IsMet, BootNeeds, FaultIsCounted};

use crate::address::Learned;
use crate::client::Client;
use crate::fetch::{Fetched, fetch};
use crate::root::{answer_to, find_mount};
use sd_config::{Stage, Told};
use sd_link::Link;
use sd_outside::{ByteList, NoMemory};
use sd_rpc_retry::Asked;
use std::alloc::Global;

/// The address as eight hexadecimal digits, and the architecture after a dot.
fn address_name(alloc: Global, arch: &[u8], ip: u32) -> Result<ByteList, NoMemory>
    ensures { IfOk result (λ name. name ≡ program_name arch.now ip) }
{
    let mut name = ByteList::from_vec(hex::encode_upper(alloc, ip.to_be_bytes())?.into_bytes());
    if !arch.is_empty() {
        name.push_slice(b".")?;
        name.push_slice(arch)?;
    }
    Ok(name)
}

/// The name under which a client with this architecture and this address asks for its boot program.
pub(crate) fn program_name(alloc: Global, arch: &[u8], ip: u32) -> Result<ByteList, NoMemory>
    requires { IsArch arch.now }
    ensures name { IfOk result (λ name. name ≡ program_name arch.now ip) }
    ensures clean { IfOk result HasNoZero }
{
    let name = address_name(alloc, arch, ip)?;
    Ok(name)
}

impl Client {
    /// Boots as far as that is built, and answers the command.
    pub fn boot<L: Link>(&mut self, link: &mut L) -> Result<Told, NoMemory>
        requires xid { HasCallsLeft self.old.next_xid }
        ensures same { self.new.config ≡ self.old.config }
        // Over a link that tells, the answer is earned or caused by what happened.
        ensures caused { IfOk result (λ answer.
            Moves (L.told link.old) (L.told link.new) (IsDone self.old commands.Boot answer self.new)) }
        ensures calls { self.new.next_xid ≤ self.old.next_xid + most_calls }
        ensures lasts { Lasts most_ticks (L.told link.old) (L.told link.new) }
        // The link failed exactly where the answer says so, and then its count of faults rose.
        ensures fails { Fails (told_fails result) (L.told link.old) (L.told link.new) }
        ensures fault { IfOk result (FaultIsCounted (L.faults link.old) (L.faults link.new)) }
        // Over every link an answer needs a packet, a flood its packets, and a timeout the whole time.
        ensures needs { IfOk result (BootNeeds (self.old.config.tries * self.old.config.wait) (IsMet (L.handed link.old) (L.handed link.new) (L.clock link.old) (L.clock link.new))) }
        ensures counts { L.handed link.old ≤ L.handed link.new }
        ensures later { L.clock link.old ≤ L.clock link.new }
        ensures faults { L.faults link.old ≤ L.faults link.new }
        ensures drained { L.drained link.new ≡ L.drained link.old }
    {
        let asked = self.learn_address(link)?;
        match asked {
            Asked::Answer(learned) => self.fetch_program(link, learned),
            Asked::Timeout => Ok(Told::BootTimeout { step: Stage::Rarp }),
            Asked::Flood => Ok(Told::BootFlood { step: Stage::Rarp }),
            Asked::Fault => Ok(Told::BootLinkFault),
        }
    }

    /// Fetches the boot program from the responder, from the next port, and then looks for the root.
    fn fetch_program<L: Link>(&mut self, link: &mut L, learned: Learned) -> Result<Told, NoMemory>
        requires xid { HasCallsLeft self.old.next_xid }
        ensures same { self.new.config ≡ self.old.config }
        ensures caused { IfOk result (λ answer.
            Moves (L.told link.old) (L.told link.new) (IsBootAnswer self.old (shows_learned learned) answer self.new)) }
        ensures calls { self.new.next_xid ≤ self.old.next_xid + most_calls }
        ensures lasts { Lasts most_boot_ticks (L.told link.old) (L.told link.new) }
        ensures fault { IfOk result (FaultIsCounted (L.faults link.old) (L.faults link.new)) }
        ensures needs { IfOk result (BootNeeds (self.old.config.tries * self.old.config.wait) (IsMet (L.handed link.old) (L.handed link.new) (L.clock link.old) (L.clock link.new))) }
        ensures counts { L.handed link.old ≤ L.handed link.new }
        ensures later { L.clock link.old ≤ L.clock link.new }
        ensures fails { Fails (told_fails result) (L.told link.old) (L.told link.new) }
        ensures faults { L.faults link.old ≤ L.faults link.new }
        ensures drained { L.drained link.new ≡ L.drained link.old }
    {
        let task = self.program_task(learned)?;
        self.count_boot();
        match fetch(self.alloc(), link, &task)? {
            Fetched::File(program) => self.find_root(link, learned.address, program),
            Fetched::Timeout => Ok(Told::BootTimeout { step: Stage::Tftp }),
            Fetched::Flood => Ok(Told::BootFlood { step: Stage::Tftp }),
            Fetched::Refused(code) => Ok(Told::BootRefused {
                step: Stage::Tftp,
                status: code as u32,
            }),
            Fetched::TooLarge(size) => Ok(Told::BootTooLarge { size }),
            Fetched::Fault => Ok(Told::BootLinkFault),
        }
    }

    /// Asks, from this address, where the root is, and for the port of MOUNT there.
    fn find_root<L: Link>(
        &mut self,
        link: &mut L,
        address: u32,
        program: ByteList,
    ) -> Result<Told, NoMemory>
        requires xid { HasCallsLeft self.old.next_xid }
        ensures same { self.new.config ≡ self.old.config }
        ensures boots { self.new.boots ≡ self.old.boots }
        ensures told { IfOk result (λ answer. Moves (L.told link.old) (L.told link.new) (IsCallsAnswer (caller_of self.old address) program answer self.new.next_xid)) }
        ensures calls { self.new.next_xid ≤ self.old.next_xid + most_calls }
        ensures lasts { Lasts most_calls_ticks (L.told link.old) (L.told link.new) }
        ensures fault { IfOk result (FaultIsCounted (L.faults link.old) (L.faults link.new)) }
        ensures needs { IfOk result (BootNeeds (self.old.config.tries * self.old.config.wait) (IsMet (L.handed link.old) (L.handed link.new) (L.clock link.old) (L.clock link.new))) }
        ensures counts { L.handed link.old ≤ L.handed link.new }
        ensures later { L.clock link.old ≤ L.clock link.new }
        ensures fails { Fails (told_fails result) (L.told link.old) (L.told link.new) }
        ensures faults { L.faults link.old ≤ L.faults link.new }
        ensures drained { L.drained link.new ≡ L.drained link.old }
    {
        let root = ByteList::from_slice(self.alloc(), b"root")?;
        let mut caller = self.caller(address);
        let found = find_mount(self.alloc(), link, &mut caller, root);
        self.set_next_xid(caller.next_xid);
        answer_to(program, found)
    }
}
