//! How the client asks for its own address (RFC 903).
ghost use Rattle.std.specs.Prelude.{◌≡◌, ◌≤◌, IfOk, ◌*◌, IfSome};
ghost use Rattle.std.specs.Option.{option_map};
ghost use Rattle.sd_outside.specs.Causes.{Rose};
ghost use Rattle.sd_config.specs.Config.{IsClientConfig};
ghost use Rattle.sd_link.specs.Steps.{IsLawfulSoFar};
ghost use Rattle.sd_link.specs.Link.{Moves};
ghost use Rattle.sd_claims.specs.Rarp.{learned_from, rarp_request, rarp_hearing};
ghost use Rattle.sd_rpc_retry.specs.Lasting.{Lasts, most_asking_ticks, Fails};
ghost use Rattle.sd_rpc_retry.specs.Sending.{asked_fails, IsAskedFault};
ghost use Rattle.sd_boot_chain.specs.Failing.{told_fails};
ghost use Rattle.sd_rpc_retry.specs.Asking.{IsAsked};
ghost use Rattle.sd_boot_chain.specs.Address.{shows_learned, IsAddrAnswer};
ghost use Rattle.sd_claims.specs.AnyLink.{IsMet, AddrNeeds, FaultIsCounted};
ghost use Rattle.sd_boot_chain.specs.Needs.{AskedNeeds};

use sd_config::{ClientConfig, Stage, Told};
use sd_link::Link;
use sd_outside::{ByteList, Mac, NoMemory, Packet};
use sd_rarp::{RarpFrame, read_frame, write_frame};
use sd_rpc_retry::{Asked, Listener, Look, ask};
use std::alloc::Global;

/// What a reply tells.
#[derive(Clone, Copy)]
pub(crate) struct Learned {
    /// One's own address.
    pub address: u32,
    /// The address of the responder.
    pub responder: u32,
}

/// Who waits for a reply to this hardware address.
#[derive(Drop)]
struct AddressListener {
    mac: Mac,
}

impl Listener for AddressListener {
    ghost use Rattle.sd_claims.specs.Rarp.{Learned, rarp_hearing};
    ghost use Rattle.sd_boot_chain.specs.Address.{shows_learned};

    type Found = Learned;

    ghost Seen = { Learned };

    ghost hearing = { λ listener. rarp_hearing listener.mac };

    ghost shows = { λ listener found. shows_learned found };

    fn look(&mut self, packet: &Packet) -> Result<Look<Learned>, NoMemory> {
        match learned_from(self.mac, packet) {
            Some(learned) => Ok(Look::Match(learned)),
            None => Ok(Look::Other),
        }
    }
}

/// What a packet tells the one with this hardware address.
fn learned_from(mac: Mac, packet: &Packet) -> Option<Learned>
    ensures { option_map shows_learned result ≡ learned_from mac packet.now }
{
    match packet {
        Packet::Frame(bytes) => match read_frame(bytes.as_slice()) {
            Ok(
                RarpFrame::Reply {
                    sender_ip,
                    target,
                    target_ip,
                    ..
                },
            ) => {
                if target == mac {
                    Some(Learned {
                        address: target_ip,
                        responder: sender_ip,
                    })
                } else {
                    None
                }
            }
            Ok(RarpFrame::Request { .. }) => None,
            Err(_) => None,
        },
        Packet::Udp { .. } => None,
    }
}

/// The request for one's own address, to everyone.
fn rarp_request(alloc: Global, mac: Mac) -> Result<Packet, NoMemory>
    ensures { IfOk result (λ packet. packet ≡ rarp_request mac) }
{
    let frame = write_frame(&RarpFrame::Request {
        dst: Mac([255; 6]),
        src: mac,
        sender: mac,
        target: mac,
    });
    Ok(Packet::Frame(ByteList::from_slice(alloc, &frame)?))
}

/// Asks for one's own address.
pub(crate) fn learn<L: Link>(
    alloc: Global,
    link: &mut L,
    config: &ClientConfig,
) -> Result<Asked<Learned>, NoMemory>
    requires { IsClientConfig config.now }
    ensures told { IfOk result (λ asked. Moves (L.told link.old) (L.told link.new)
        (IsAsked (rarp_request config.now.mac) (rarp_hearing config.now.mac) shows_learned config.now.tries config.now.wait asked)) }
    ensures lawful { IfOk result (λ asked. IfSome (L.told link.old) IsLawfulSoFar) }
    ensures lasts { Lasts most_asking_ticks (L.told link.old) (L.told link.new) }
    ensures fault { IfOk result (λ asked. IsAskedFault asked → Rose (L.faults link.old) (L.faults link.new)) }
    ensures needs { IfOk result (AskedNeeds (config.now.tries * config.now.wait) (IsMet (L.handed link.old) (L.handed link.new) (L.clock link.old) (L.clock link.new))) }
    ensures counts { L.handed link.old ≤ L.handed link.new }
    ensures later { L.clock link.old ≤ L.clock link.new }
    ensures fails { Fails (asked_fails result) (L.told link.old) (L.told link.new) }
    ensures faults { L.faults link.old ≤ L.faults link.new }
    ensures drained { L.drained link.new ≡ L.drained link.old }
{
    let request = rarp_request(alloc, config.mac)?;
    let mut listener = AddressListener { mac: config.mac };
    let asked = ask(link, &request, &mut listener, config.tries, config.wait)?;
    Ok(asked)
}

/// Asks for one's own address, and answers the command.
pub(crate) fn own_address<L: Link>(
    alloc: Global,
    link: &mut L,
    config: &ClientConfig,
) -> Result<Told, NoMemory>
    requires { IsClientConfig config.now }
    ensures lasts { Lasts most_asking_ticks (L.told link.old) (L.told link.new) }
    // Over a link that tells, the answer is earned or caused by what happened,
    // and the command ends as its answer says.
    ensures caused { IfOk result (λ answer.
        Moves (L.told link.old) (L.told link.new) (IsAddrAnswer config.now answer)) }
    ensures fault { IfOk result (FaultIsCounted (L.faults link.old) (L.faults link.new)) }
    ensures needs { IfOk result (AddrNeeds (config.now.tries * config.now.wait) (IsMet (L.handed link.old) (L.handed link.new) (L.clock link.old) (L.clock link.new))) }
    ensures counts { L.handed link.old ≤ L.handed link.new }
    ensures later { L.clock link.old ≤ L.clock link.new }
    ensures fails { Fails (told_fails result) (L.told link.old) (L.told link.new) }
    ensures faults { L.faults link.old ≤ L.faults link.new }
    ensures drained { L.drained link.new ≡ L.drained link.old }
{
    match learn(alloc, link, config)? {
        Asked::Answer(learned) => Ok(Told::AddrOk {
            ip: learned.address,
        }),
        Asked::Timeout => Ok(Told::AddrTimeout),
        Asked::Flood => Ok(Told::AddrFlood { step: Stage::Rarp }),
        Asked::Fault => Ok(Told::AddrLinkFault),
    }
}
