//! The diskless client.
ghost use Rattle.std.specs.Prelude.{◌≡◌, ◌≤◌, ◌+◌, ◌%◌, IfOk, ◌*◌, IfSome};
ghost use Rattle.sd_outside.specs.Causes.{Rose};
ghost use Rattle.sd_config.specs.Config.{IsClientConfig};
ghost use Rattle.sd_link.specs.Steps.{IsLawfulSoFar};
ghost use Rattle.sd_link.specs.Link.{Moves};
ghost use Rattle.sd_config.specs.Commands.{IsCommand};
ghost use Rattle.sd_claims.specs.Rarp.{rarp_request, rarp_hearing};
ghost use Rattle.sd_rpc_retry.specs.Lasting.{Lasts, most_asking_ticks, Fails};
ghost use Rattle.sd_rpc_retry.specs.Sending.{asked_fails, IsAskedFault};
ghost use Rattle.sd_boot_chain.specs.Failing.{told_fails};
ghost use Rattle.sd_rpc_retry.specs.Asking.{IsAsked};
ghost use Rattle.sd_boot_chain.specs.Address.{shows_learned, IsAddrAnswer};
ghost use Rattle.sd_claims.specs.Booting.{first_counts};
ghost use Rattle.sd_boot_chain.specs.Boot.{task_of, caller_of};
ghost use Rattle.sd_boot_chain.specs.Durations.{most_ticks, most_calls, HasCallsLeft};
ghost use Rattle.sd_boot_chain.specs.Fetch.{IsFetch, fetch_of};
ghost use Rattle.sd_boot_chain.specs.Step.{IsDone};
ghost use Rattle.sd_claims.specs.AnyLink.{IsMet, AddrNeeds, Needs, FaultIsCounted};
ghost use Rattle.sd_boot_chain.specs.Needs.{AskedNeeds};

use crate::address::{Learned, learn, own_address};
use crate::boot::program_name;
use crate::fetch::Task;
use crate::pause::wait;
use sd_config::{ClientConfig, Command, Told};
use sd_link::Link;
use sd_outside::{Addr, ByteList, NoMemory};
use sd_rpc_retry::{Asked, Caller};
use std::alloc::Global;
use std::marker::Model;

/// The first port from which a boot program is fetched, and how many there are.
const FIRST_PORT: u16 = 2048;

const PORTS: u16 = 32_768;

/// The port from which the client calls.
const CALLS_FROM: u16 = 1021;

/// A diskless client, seen as what it was given, how many of its boots reached TFTP and the number of its next call.
#[derive(Drop)]
pub struct Client {
    alloc: Global,
    config: ClientConfig,
    /// How many boots reached TFTP, modulo 32,768: each fetches from a port of its own.
    boots: u16,
    /// The number of the next call.
    next_xid: u32,
}

impl Model for Client {
    ghost use Rattle.std.specs.Prelude.{◌<◌};
    ghost use Rattle.sd_config.specs.Config.{IsClientConfig};
    ghost use Rattle.sd_boot_chain.specs.Step.{ClientView};

    ghost Value = { ClientView };

    ghost view = { λ client. record { config = client.config; boots = client.boots; next_xid = client.next_xid } };

    ghost invariant = { λ client. IsClientConfig client.config × (client.boots < 32768) };
}

impl Client {
    /// A client that was just switched on.
    pub fn new(alloc: Global, config: ClientConfig) -> Result<Client, NoMemory>
        requires { IsClientConfig config }
        ensures { IfOk result (λ client. client ≡ record { config = config; boots = 0; next_xid = 1 }) }
    {
        Ok(Client {
            alloc,
            config,
            boots: 0,
            next_xid: 1,
        })
    }

    pub(crate) fn alloc(&self) -> Global {
        self.alloc
    }

    /// Asks for one's own address.
    pub(crate) fn learn_address<L: Link>(&self, link: &mut L) -> Result<Asked<Learned>, NoMemory>
        ensures told { IfOk result (λ asked. Moves (L.told link.old) (L.told link.new)
            (IsAsked (rarp_request self.now.config.mac) (rarp_hearing self.now.config.mac) shows_learned self.now.config.tries self.now.config.wait asked)) }
        ensures lawful { IfOk result (λ asked. IfSome (L.told link.old) IsLawfulSoFar) }
        ensures lasts { Lasts most_asking_ticks (L.told link.old) (L.told link.new) }
        ensures fault { IfOk result (λ asked. IsAskedFault asked → Rose (L.faults link.old) (L.faults link.new)) }
        ensures needs { IfOk result (AskedNeeds (self.now.config.tries * self.now.config.wait) (IsMet (L.handed link.old) (L.handed link.new) (L.clock link.old) (L.clock link.new))) }
        ensures counts { L.handed link.old ≤ L.handed link.new }
        ensures later { L.clock link.old ≤ L.clock link.new }
        ensures fails { Fails (asked_fails result) (L.told link.old) (L.told link.new) }
        ensures faults { L.faults link.old ≤ L.faults link.new }
        ensures drained { L.drained link.new ≡ L.drained link.old }
    {
        learn(self.alloc, link, &self.config)
    }

    /// Asks for one's own address, and answers the command.
    fn answer_address<L: Link>(&self, link: &mut L) -> Result<Told, NoMemory>
        ensures lasts { Lasts most_asking_ticks (L.told link.old) (L.told link.new) }
        ensures caused { IfOk result (λ answer.
            Moves (L.told link.old) (L.told link.new) (IsAddrAnswer self.now.config answer)) }
        ensures fault { IfOk result (FaultIsCounted (L.faults link.old) (L.faults link.new)) }
        ensures needs { IfOk result (AddrNeeds (self.now.config.tries * self.now.config.wait) (IsMet (L.handed link.old) (L.handed link.new) (L.clock link.old) (L.clock link.new))) }
        ensures counts { L.handed link.old ≤ L.handed link.new }
        ensures later { L.clock link.old ≤ L.clock link.new }
        ensures fails { Fails (told_fails result) (L.told link.old) (L.told link.new) }
        ensures faults { L.faults link.old ≤ L.faults link.new }
        ensures drained { L.drained link.new ≡ L.drained link.old }
    {
        own_address(self.alloc, link, &self.config)
    }

    /// The next fetch of the boot program.
    pub(crate) fn program_task(&self, learned: Learned) -> Result<Task, NoMemory>
        ensures task { IfOk result (λ task. fetch_of task ≡ task_of self.now (shows_learned learned)) }
        ensures rules { IfOk result IsFetch }
    {
        let name = program_name(self.alloc, self.config.arch.as_slice(), learned.address)?;
        Ok(Task {
            me: Addr {
                ip: learned.address,
                port: FIRST_PORT + self.boots,
            },
            server: learned.responder,
            name,
            tries: self.config.tries,
            wait: self.config.wait,
        })
    }

    /// One more boot reaches TFTP.
    pub(crate) fn count_boot(&mut self)
        ensures same { self.new.config ≡ self.old.config }
        ensures counted { self.new.boots ≡ (self.old.boots + 1) % 32768 }
        ensures xid { self.new.next_xid ≡ self.old.next_xid }
    {
        self.boots = (self.boots + 1) % PORTS;
    }

    /// Who makes the next call, from this address.
    pub(crate) fn caller(&self, ip: u32) -> Caller
        ensures caller { result ≡ caller_of self.now ip }
        ensures tries { result.tries ≤ 64 }
        ensures wait { result.wait ≤ 1000 }
    {
        Caller {
            ip,
            port: CALLS_FROM,
            machine: ByteList::empty(self.alloc),
            next_xid: self.next_xid,
            tries: self.config.tries,
            wait: self.config.wait,
        }
    }

    /// The next call has this number.
    pub(crate) fn set_next_xid(&mut self, next_xid: u32)
        ensures { self.new ≡ record self.old { next_xid = next_xid } }
    {
        self.next_xid = next_xid;
    }

    /// Does one command over a link, and answers it.
    pub fn step<L: Link>(&mut self, link: &mut L, command: &Command) -> Result<Told, NoMemory>
        requires command { IsCommand command.now }
        requires xid { HasCallsLeft self.old.next_xid }
        ensures same { self.new.config ≡ self.old.config }
        // Over a link that tells, the answer is earned or caused by what happened,
        // and the command ends as its answer says.
        ensures caused { IfOk result (λ answer.
            Moves (L.told link.old) (L.told link.new) (IsDone self.old command.now answer self.new)) }
        ensures calls { self.new.next_xid ≤ self.old.next_xid + most_calls }
        // Whatever comes of it, a link that tells goes on telling.
        ensures lasts { Lasts most_ticks (L.told link.old) (L.told link.new) }
        // The link failed exactly where the answer says so, and then its count of faults rose.
        ensures fails { Fails (told_fails result) (L.told link.old) (L.told link.new) }
        ensures fault { IfOk result (FaultIsCounted (L.faults link.old) (L.faults link.new)) }
        // Over every link an answer that names a reply needs a packet, a flood its packets, and a timeout the whole time.
        ensures needs { IfOk result (Needs (self.old.config.tries * self.old.config.wait) (IsMet (L.handed link.old) (L.handed link.new) (L.clock link.old) (L.clock link.new)) command.now) }
        ensures counts { L.handed link.old ≤ L.handed link.new }
        ensures later { L.clock link.old ≤ L.clock link.new }
        ensures faults { L.faults link.old ≤ L.faults link.new }
        ensures drained { L.drained link.new ≡ L.drained link.old }
    {
        match command {
            Command::Addr => self.answer_address(link),
            Command::Boot => self.boot(link),
            Command::Wait { ticks } => wait(link, *ticks),
        }
    }
}
