//! How the client fetches a file by TFTP (RFC 1350).
ghost use Rattle.std.specs.Prelude.{◌≡◌, ◌≤◌, ◌*◌, IfOk, IfSome};
ghost use Rattle.sd_outside.specs.Causes.{Rose};
ghost use Rattle.sd_link.specs.Link.{Moves, IsReached};
ghost use Rattle.sd_tftp.specs.Grammar.{HasSpelling, HasNoZero};
ghost use Rattle.sd_tftp.specs.ReceiverTurn.{turn};
ghost use Rattle.sd_claims.specs.Fetching.{tftp_from, read_request, acknowledge, turn_away};
ghost use Rattle.sd_rpc_retry.specs.Asking.{IsNoMatch};
ghost use Rattle.sd_rpc_retry.specs.Lasting.{Lasts, Fails};
ghost use Rattle.sd_boot_chain.specs.Failing.{fetch_fails, IsFetchFault};
ghost use Rattle.sd_boot_chain.specs.Durations.{most_fetch_ticks};
ghost use Rattle.sd_boot_chain.specs.Fetch.{fetch_of, IsFetch, CameOf, GivesFile, IsFinished, Finishes, LooksAt};
ghost use Rattle.sd_claims.specs.AnyLink.{IsMet};
ghost use Rattle.sd_boot_chain.specs.Needs.{FetchNeeds};

use sd_link::{Link, LinkError};
use sd_outside::{Addr, ByteList, NoMemory, Packet};
use sd_rpc_retry::{Asked, Listener, Look, ask};
use sd_tftp::{Receiver, Step, TFTP_PORT, TftpError, TftpPacket, read_packet, write_packet};
use std::alloc::Global;

/// A file to fetch.
#[derive(Drop)]
pub(crate) struct Task {
    /// By which address and port.
    pub me: Addr,
    /// From which address.
    pub server: u32,
    /// Under which name, which holds no zero byte.
    pub name: ByteList,
    /// How often each request is sent.
    pub tries: u32,
    /// How many ticks each waits.
    pub wait: u64,
}

/// What came of a fetch.
#[derive(Drop)]
pub(crate) enum Fetched {
    /// The whole file.
    File(ByteList),
    /// No block and no ERROR came within the tries of a request.
    Timeout,
    /// A try got a flood.
    Flood,
    /// An ERROR with this code.
    Refused(u16),
    /// The last number came, with so many bytes, and the file goes on.
    TooLarge(u64),
    /// The link failed.
    Fault,
}

/// What moves a fetch on.
pub(crate) enum Progress {
    /// The awaited block, which gets an ACK.
    Block { to: Addr, number: u16, last: bool },
    /// An ERROR.
    Refused { code: u16 },
    /// The last number came.
    Over { got: u64 },
}

/// A packet of the client.
fn tftp_packet(alloc: Global, me: Addr, to: Addr, packet: &TftpPacket) -> Result<Packet, NoMemory>
    requires { HasSpelling packet.now }
    ensures { IfOk result (λ sent. sent ≡ tftp_from me to packet.now) }
{
    let body = write_packet(alloc, packet)?;
    Ok(Packet::Udp {
        src: me,
        dst: to,
        body,
    })
}

/// The ACK of a block.
fn acknowledge(alloc: Global, me: Addr, to: Addr, number: u16) -> Result<Packet, NoMemory>
    ensures { IfOk result (λ sent. sent ≡ acknowledge me to number) }
{
    tftp_packet(alloc, me, to, &TftpPacket::Ack { number })
}

/// `Unknown transfer ID'.
fn turn_away(alloc: Global, me: Addr, to: Addr) -> Result<Packet, NoMemory>
    ensures { IfOk result (λ sent. sent ≡ turn_away me to) }
{
    let message = ByteList::empty(alloc);
    tftp_packet(alloc, me, to, &TftpPacket::Error { code: 5, message })
}

impl Task {
    /// The request for the file.
    fn read_request(&self, alloc: Global) -> Result<Packet, NoMemory>
        requires { HasNoZero self.now.name }
        ensures { IfOk result (λ sent. sent ≡ read_request (fetch_of self.now)) }
    {
        let to = Addr {
            ip: self.server,
            port: TFTP_PORT,
        };
        let name = self.name.copy()?;
        let mode = ByteList::from_slice(alloc, b"octet")?;
        tftp_packet(alloc, self.me, to, &TftpPacket::Rrq { name, mode })
    }
}

/// Who waits for the next block.
#[derive(Drop)]
struct BlockListener {
    alloc: Global,
    me: Addr,
    receiver: Receiver,
}

impl Listener for BlockListener {
    ghost use Rattle.sd_tftp.specs.ReceiverTurn.{Turn};
    ghost use Rattle.sd_claims.specs.Fetching.{fetch_hearing};
    ghost use Rattle.sd_boot_chain.specs.Fetch.{shows_progress};

    type Found = Progress;

    ghost Seen = { Turn };

    ghost hearing = { λ listener. fetch_hearing listener.me listener.receiver };

    ghost shows = { λ listener found. shows_progress listener.receiver found };

    fn look(&mut self, packet: &Packet) -> Result<Look<Progress>, NoMemory> {
        let Packet::Udp { src, dst, body } = packet else {
            return Ok(Look::Other);
        };
        if dst.ip != self.me.ip || dst.port != self.me.port {
            return Ok(Look::Other);
        }
        match read_packet(self.alloc, body.as_slice()) {
            Ok(packet) => self.turn(*src, &packet),
            Err(TftpError::NoMemory) => Err(NoMemory),
            Err(_) => Ok(Look::Other),
        }
    }
}

impl BlockListener {
    /// What a TFTP packet from an address means.
    fn turn(&mut self, from: Addr, packet: &TftpPacket) -> Result<Look<Progress>, NoMemory>
        ensures same { self.new.me ≡ self.old.me }
        ensures turned { IfOk result (LooksAt self.old.me self.new.receiver (turn self.old.receiver from packet.now)) }
        ensures kept { IfOk result (λ look. IsNoMatch look → self.new ≡ self.old) }
    {
        match self.receiver.step(from, packet)? {
            Step::Ignored => Ok(Look::Other),
            Step::Stranger { to } => Ok(Look::Reply(turn_away(self.alloc, self.me, to)?)),
            Step::Again { to, number } => {
                Ok(Look::Reply(acknowledge(self.alloc, self.me, to, number)?))
            }
            Step::Took { to, number, last } => {
                Ok(Look::Match(Progress::Block { to, number, last }))
            }
            Step::Refused { code } => Ok(Look::Match(Progress::Refused { code })),
            Step::Over { got } => Ok(Look::Match(Progress::Over { got })),
        }
    }
}

/// Acknowledges the last block.
fn finish<L: Link>(link: &mut L, request: &Packet, receiver: Receiver) -> Result<Fetched, NoMemory>
    ensures told { IfOk result (λ came. Moves (L.told link.old) (L.told link.new) (Finishes request.now receiver came)) }
    ensures ended { IfOk result IsFinished }
    ensures lasts { Lasts 0 (L.told link.old) (L.told link.new) }
    ensures reached { IfSome (L.told link.new) IsReached }
    ensures fault { IfOk result (λ came. IsFetchFault came → Rose (L.faults link.old) (L.faults link.new)) }
    ensures counts { L.handed link.old ≤ L.handed link.new }
    ensures later { L.clock link.old ≤ L.clock link.new }
    ensures fails { Fails (fetch_fails result) (L.told link.old) (L.told link.new) }
    ensures faults { L.faults link.old ≤ L.faults link.new }
    ensures drained { L.drained link.new ≡ L.drained link.old }
{
    match link.send(request) {
        Ok(()) => Ok(Fetched::File(receiver.into_taken())),
        Err(LinkError::Failed) => Ok(Fetched::Fault),
        Err(LinkError::NoMemory) => Err(NoMemory),
    }
}

/// Fetches a file. Its bytes are joined as they come, and aren't copied again.
pub(crate) fn fetch<L: Link>(alloc: Global, link: &mut L, fetch: &Task) -> Result<Fetched, NoMemory>
    requires { IsFetch fetch.now }
    // Over a link that tells, this came of the fetch.
    ensures told { IfOk result (λ came. Moves (L.told link.old) (L.told link.new) (CameOf (fetch_of fetch.now) came)) }
    // Over a link that tells a world of the configuration, a file that comes from its server is the configured one of that name.
    ensures file { IfOk result (λ came. Moves (L.told link.old) (L.told link.new) (GivesFile (fetch_of fetch.now) came)) }
    ensures lasts { Lasts most_fetch_ticks (L.told link.old) (L.told link.new) }
    ensures fault { IfOk result (λ came. IsFetchFault came → Rose (L.faults link.old) (L.faults link.new)) }
    // Over every link an answer needs a packet, a flood its packets, and a timeout the whole time.
    ensures needs { IfOk result (FetchNeeds (fetch.now.tries * fetch.now.wait) (IsMet (L.handed link.old) (L.handed link.new) (L.clock link.old) (L.clock link.new))) }
    ensures counts { L.handed link.old ≤ L.handed link.new }
    ensures later { L.clock link.old ≤ L.clock link.new }
    ensures fails { Fails (fetch_fails result) (L.told link.old) (L.told link.new) }
    ensures faults { L.faults link.old ≤ L.faults link.new }
    ensures drained { L.drained link.new ≡ L.drained link.old }
{
    let mut request = fetch.read_request(alloc)?;
    let mut receiver = Receiver::new(alloc, fetch.server);
    'fetching: loop {
        let mut listener = BlockListener {
            alloc,
            me: fetch.me,
            receiver,
        };
        match ask(link, &request, &mut listener, fetch.tries, fetch.wait)? {
            Asked::Answer(Progress::Block { to, number, last }) => {
                receiver = listener.receiver;
                request = acknowledge(alloc, fetch.me, to, number)?;
                if last {
                    return finish(link, &request, receiver);
                }
            }
            Asked::Answer(Progress::Refused { code }) => return Ok(Fetched::Refused(code)),
            Asked::Answer(Progress::Over { got }) => return Ok(Fetched::TooLarge(got)),
            Asked::Timeout => return Ok(Fetched::Timeout),
            Asked::Flood => return Ok(Fetched::Flood),
            Asked::Fault => return Ok(Fetched::Fault),
        }
    }
}
