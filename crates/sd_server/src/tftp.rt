//! What the server does with TFTP datagrams (RFC 1350).
ghost use Rattle.std.specs.Prelude.{◌≡◌, ◌==◌, ◌||◌, if◌then◌else◌, true, IfOk, Ok, map};
ghost use Rattle.std.specs.List.{AllByRecursion};
ghost use Rattle.sd_tftp.specs.Grammar.{HasSpelling, tftp_port};
ghost use Rattle.sd_config.specs.Config.{IsConfig};
ghost use Rattle.sd_services.specs.Sessions.{tftp_packet, tftp_error, block_packet, is_octet, file_of, asked_for, requested, heard, not_known, transferred, tftp_reply, is_session_port};
ghost use Rattle.sd_config.specs.Program.{boot_file};
ghost use Rattle.sd_services.specs.Part.{ServerPart};
ghost use Rattle.sd_server.specs.Sessions.{session_of, bytes_at, Answers, IsSending};
ghost use Rattle.sd_server.specs.Stepping.{MayStep, after_step, begins_with, begun_with};

use crate::replies::{Answer, Change, quiet};
use crate::sessions::{Sending, bytes_at, place_of_file, session_at, session_port};
use sd_config::Config;
use sd_outside::{Addr, ByteList, NoMemory, Packet};
use sd_tftp::{
    Sender, SenderStep, TFTP_PORT, TftpError, TftpPacket, block_of, read_packet, write_packet,
};
use std::alloc::Global;

fn packet_from(
    alloc: Global,
    config: &Config,
    port: u16,
    to: Addr,
    packet: &TftpPacket,
) -> Result<Packet, NoMemory>
    requires { HasSpelling packet.now }
    ensures { IfOk result (λ out. out ≡ tftp_packet config.now port to packet.now) }
{
    let body = write_packet(alloc, packet)?;
    let src = Addr {
        ip: config.server.ip,
        port,
    };
    Ok(Packet::Udp { src, dst: to, body })
}

/// An ERROR with this code and an empty message, after which all stays.
fn refusal(
    alloc: Global,
    config: &Config,
    port: u16,
    to: Addr,
    code: u16,
) -> Result<Answer, NoMemory>
    ensures { IfOk result (λ a. (part : ServerPart) → Answers config.now part a (record { out = tftp_error config.now port to code; next = part })) }
{
    let message = ByteList::empty(alloc);
    let packet = packet_from(
        alloc,
        config,
        port,
        to,
        &TftpPacket::Error { code, message },
    )?;
    Ok(Answer {
        out: Some(packet),
        change: Change::Stays,
    })
}

/// The present block of a session, which has this number, as it is sent to its peer.
pub fn block_packet(
    alloc: Global,
    config: &Config,
    session: &Sending,
    number: u16,
) -> Result<Packet, NoMemory>
    requires sending { IsSending config.now session.now }
    requires present { number ≡ session.now.sender.block }
    ensures { IfOk result (λ out. out ≡ block_packet config.now (session_of config.now session.now)) }
{
    let file = bytes_at(config, session.file);
    let bytes = ByteList::from_slice(alloc, block_of(file, number))?;
    let port = session_port(session.number);
    packet_from(
        alloc,
        config,
        port,
        session.peer,
        &TftpPacket::Block { number, bytes },
    )
}

/// A session begins that sends the boot file at a place.
fn begins(
    alloc: Global,
    config: &Config,
    made: u64,
    tick: u64,
    from: Addr,
    file: usize,
) -> Result<Answer, NoMemory>
    requires { file_of config.now (begins_with config.now made tick from file) ≡ bytes_at config.now file }
    ensures { IfOk result (λ a. (part : ServerPart) → part.made ≡ made → Answers config.now part a (begun_with config.now part (begins_with config.now made tick from file))) }
{
    let session = Sending {
        number: made,
        file,
        peer: from,
        sender: Sender::new(from, tick),
    };
    let packet = block_packet(alloc, config, &session, 1)?;
    Ok(Answer {
        out: Some(packet),
        change: Change::Begins(session),
    })
}

/// A request for a file.
fn asked_for(
    alloc: Global,
    config: &Config,
    made: u64,
    tick: u64,
    from: Addr,
    name: &[u8],
) -> Result<Answer, NoMemory>
    ensures { IfOk result (λ a. (part : ServerPart) → part.made ≡ made → Answers config.now part a (asked_for config.now tick part from name.now (boot_file config.now name.now))) }
{
    match place_of_file(config, name) {
        None => Ok(refusal(alloc, config, TFTP_PORT, from, 1)?),
        Some(file) => Ok(begins(alloc, config, made, tick, from, file)?),
    }
}

fn is_octet(mode: &[u8]) -> bool
    ensures { result ≡ is_octet mode.now }
{
    mode.eq_ignore_ascii_case(b"octet")
}

/// A packet to the port for requests.
fn requested(
    alloc: Global,
    config: &Config,
    made: u64,
    tick: u64,
    from: Addr,
    packet: &TftpPacket,
) -> Result<Answer, NoMemory>
    ensures { IfOk result (λ a. (part : ServerPart) → part.made ≡ made → Answers config.now part a (requested config.now tick part from (Ok packet.now))) }
{
    match packet {
        TftpPacket::Rrq { name, mode } => {
            if is_octet(mode.as_slice()) {
                return Ok(asked_for(alloc, config, made, tick, from, name.as_slice())?);
            }
            Ok(refusal(alloc, config, TFTP_PORT, from, 4)?)
        }
        TftpPacket::Wrq { .. } => Ok(refusal(alloc, config, TFTP_PORT, from, 2)?),
        TftpPacket::Block { .. } => Ok(quiet(Change::Stays)),
        TftpPacket::Ack { .. } => Ok(quiet(Change::Stays)),
        TftpPacket::Error { .. } => Ok(quiet(Change::Stays)),
    }
}

/// What the sender of a session answered to a packet of its peer, and the sender then.
fn stepped(
    alloc: Global,
    config: &Config,
    session: &Sending,
    says: SenderStep,
    sender: Sender,
) -> Result<Answer, NoMemory>
    requires sending { IsSending config.now session.now }
    requires next { MayStep session.now says sender }
    ensures { IfOk result (λ a. (part : ServerPart) → Answers config.now part a (after_step config.now part session.now says sender)) }
{
    match says {
        SenderStep::Ignored => Ok(quiet(Change::Stays)),
        SenderStep::Stranger { .. } => Ok(quiet(Change::Stays)),
        SenderStep::Done => Ok(quiet(Change::Ends(session.number))),
        SenderStep::Next { number } => {
            let next = Sending {
                number: session.number,
                file: session.file,
                peer: session.peer,
                sender,
            };
            let packet = block_packet(alloc, config, &next, number)?;
            Ok(Answer {
                out: Some(packet),
                change: Change::Moves(next),
            })
        }
    }
}

/// A packet from a session's peer.
fn heard(
    alloc: Global,
    config: &Config,
    tick: u64,
    session: &Sending,
    packet: &TftpPacket,
) -> Result<Answer, NoMemory>
    requires config { IsConfig config.now }
    requires sending { IsSending config.now session.now }
    ensures { IfOk result (λ a. (part : ServerPart) → Answers config.now part a (heard config.now tick part (session_of config.now session.now) packet.now)) }
{
    let mut sender = session.sender.copy();
    let file = bytes_at(config, session.file);
    let says = sender.step(tick, session.peer, packet, file);
    stepped(alloc, config, session, says, sender)
}

/// A packet to a session's port from anyone else.
fn not_known(
    alloc: Global,
    config: &Config,
    port: u16,
    from: Addr,
    packet: &TftpPacket,
) -> Result<Answer, NoMemory>
    ensures { IfOk result (λ a. (part : ServerPart) → Answers config.now part a (not_known config.now part port from packet.now)) }
{
    match packet {
        TftpPacket::Error { .. } => Ok(quiet(Change::Stays)),
        TftpPacket::Ack { .. } => Ok(refusal(alloc, config, port, from, 5)?),
        TftpPacket::Block { .. } => Ok(refusal(alloc, config, port, from, 5)?),
        TftpPacket::Rrq { .. } => Ok(refusal(alloc, config, port, from, 5)?),
        TftpPacket::Wrq { .. } => Ok(refusal(alloc, config, port, from, 5)?),
    }
}

/// A packet to a session's port.
fn transferred(
    alloc: Global,
    config: &Config,
    sessions: &[Sending],
    tick: u64,
    from: Addr,
    port: u16,
    packet: &TftpPacket,
) -> Result<Answer, NoMemory>
    requires config { IsConfig config.now }
    requires each { AllByRecursion (IsSending config.now) sessions.now }
    ensures { IfOk result (λ a. (part : ServerPart) → part.sessions ≡ map (session_of config.now) sessions.now → Answers config.now part a (transferred config.now tick part port from (Ok packet.now))) }
{
    match session_at(config, sessions, port, from) {
        None => Ok(not_known(alloc, config, port, from, packet)?),
        Some(session) => Ok(heard(alloc, config, tick, &session, packet)?),
    }
}

/// Whether a port is one of TFTP.
pub fn is_tftp_port(port: u16) -> bool
    ensures { result ≡ ((port == tftp_port) || is_session_port port) }
{
    port == TFTP_PORT || (4096..8192).contains(&port)
}

/// A packet to a port of TFTP.
fn by_port(
    alloc: Global,
    config: &Config,
    sessions: &[Sending],
    made: u64,
    tick: u64,
    from: Addr,
    port: u16,
    packet: &TftpPacket,
) -> Result<Answer, NoMemory>
    requires config { IsConfig config.now }
    requires each { AllByRecursion (IsSending config.now) sessions.now }
    ensures { IfOk result (λ a. (part : ServerPart) → part.sessions ≡ map (session_of config.now) sessions.now → part.made ≡ made → Answers config.now part a (if port == tftp_port then requested config.now tick part from (Ok packet.now) else transferred config.now tick part port from (Ok packet.now))) }
{
    if port == TFTP_PORT {
        return Ok(requested(alloc, config, made, tick, from, packet)?);
    }
    Ok(transferred(alloc, config, sessions, tick, from, port, packet)?)
}

/// A datagram to a port of TFTP.
pub fn tftp_reply(
    alloc: Global,
    config: &Config,
    sessions: &[Sending],
    made: u64,
    tick: u64,
    from: Addr,
    port: u16,
    body: &[u8],
) -> Result<Answer, NoMemory>
    requires config { IsConfig config.now }
    requires each { AllByRecursion (IsSending config.now) sessions.now }
    requires port { ((port == tftp_port) || is_session_port port) ≡ true }
    ensures { IfOk result (λ a. (part : ServerPart) → part.sessions ≡ map (session_of config.now) sessions.now → part.made ≡ made → Answers config.now part a (tftp_reply config.now tick part from port body.now)) }
{
    match read_packet(alloc, body) {
        Ok(packet) => Ok(by_port(alloc, config, sessions, made, tick, from, port, &packet)?),
        Err(why) => match why {
            TftpError::NoMemory => Err(NoMemory),
            _ => Ok(quiet(Change::Stays)),
        },
    }
}
