//! The text of a RARP frame.

ghost use Rattle.std.specs.Prelude.{◌≡◌, ◌++◌, OnOk};
ghost use Rattle.sd_bootparams.specs.Layout.{ip_value};
ghost use Rattle.sd_text.specs.Kind as texts;
ghost use Rattle.sd_text.specs.Kind.{said, given, mac, ip};
ghost use Rattle.sd_text.specs.Grammar.{writes};
ghost use Rattle.sd_text.specs.Reading.{Takes};
ghost use Rattle.sd_show.specs.Lines.{macs, ends, host, request, response, frame, mac_value, macs_value, host_value, frame_value};

use sd_outside::{Mac, NoMemory};
use sd_rarp::RarpFrame;
use sd_text::{Class, LineError, TextReader, TextWriter, is_word};

/// NAME=MAC
#[tactic(auto, unfolding(sd_text::specs::Grammar::writes))]
fn push_mac(writer: &mut TextWriter, name: &[u8], address: &Mac) -> Result<(), NoMemory>
    ensures { OnOk result (writer.new ≡ writer.old ++ writes (said name.now mac) (mac_value address.now)) }
{
    writer.said(name)?;
    writer.mac(address)
}

/// NAME=IP
#[tactic(auto, unfolding(sd_text::specs::Grammar::writes))]
fn push_ip(writer: &mut TextWriter, name: &[u8], address: u32) -> Result<(), NoMemory>
    ensures { OnOk result (writer.new ≡ writer.old ++ writes (said name.now ip) (ip_value address)) }
{
    writer.said(name)?;
    writer.ip(address)
}

/// Two hardware addresses.
#[tactic(auto, unfolding(sd_text::specs::Grammar::writes))]
fn push_macs(
    writer: &mut TextWriter,
    name: &[u8],
    address: &Mac,
    other_name: &[u8],
    other: &Mac,
) -> Result<(), NoMemory>
    ensures { OnOk result (writer.new ≡ writer.old ++ writes (macs name.now other_name.now) (macs_value (address.now, other.now))) }
{
    push_mac(writer, name, address)?;
    push_mac(writer, other_name, other)
}

/// A hardware address and a protocol address.
#[tactic(auto, unfolding(sd_text::specs::Grammar::writes))]
fn push_host(
    writer: &mut TextWriter,
    name: &[u8],
    address: &Mac,
    ip_name: &[u8],
    host_ip: u32,
) -> Result<(), NoMemory>
    ensures { OnOk result (writer.new ≡ writer.old ++ writes (host name.now ip_name.now) (host_value (address.now, host_ip))) }
{
    push_mac(writer, name, address)?;
    push_ip(writer, ip_name, host_ip)
}

/// What follows `rarp`.
#[tactic(auto, unfolding(sd_text::specs::Grammar::writes))]
pub fn push_frame(writer: &mut TextWriter, packet: &RarpFrame) -> Result<(), NoMemory>
    ensures { OnOk result (writer.new ≡ writer.old ++ writes frame (frame_value packet.now)) }
{
    match packet {
        RarpFrame::Request {
            dst,
            src,
            sender,
            target,
        } => {
            writer.said(b"request")?;
            push_macs(writer, b" dst=", dst, b" src=", src)?;
            push_macs(writer, b" sender=", sender, b" target=", target)
        }
        RarpFrame::Reply {
            dst,
            src,
            sender,
            sender_ip,
            target,
            target_ip,
        } => {
            writer.said(b"reply")?;
            push_macs(writer, b" dst=", dst, b" src=", src)?;
            push_host(writer, b" sender=", sender, b" sender_ip=", *sender_ip)?;
            push_host(writer, b" target=", target, b" target_ip=", *target_ip)
        }
    }
}

/// NAME=MAC
#[tactic(auto, unfolding(sd_text::specs::Reading::reading))]
fn take_mac(reader: &mut TextReader, name: &[u8]) -> Result<Mac, LineError>
    ensures { Takes (said name.now mac) mac_value reader.old reader.new result }
{
    reader.said(name)?;
    reader.mac()
}

/// NAME=IP
#[tactic(auto, unfolding(sd_text::specs::Reading::reading))]
fn take_ip(reader: &mut TextReader, name: &[u8]) -> Result<u32, LineError>
    ensures { Takes (said name.now ip) ip_value reader.old reader.new result }
{
    reader.said(name)?;
    reader.ip()
}

/// Two hardware addresses.
#[tactic(auto, unfolding(sd_text::specs::Reading::reading))]
fn take_macs(reader: &mut TextReader, name: &[u8], other: &[u8]) -> Result<(Mac, Mac), LineError>
    ensures { Takes (macs name.now other.now) macs_value reader.old reader.new result }
{
    let first = take_mac(reader, name)?;
    let second = take_mac(reader, other)?;
    Ok((first, second))
}

/// The ends of a frame.
#[tactic(auto, unfolding(sd_text::specs::Reading::reading))]
fn take_ends(reader: &mut TextReader) -> Result<(Mac, Mac), LineError>
    ensures { Takes ends macs_value reader.old reader.new result }
{
    let (dst, src) = take_macs(reader, b" dst=", b" src=")?;
    Ok((dst, src))
}

/// A hardware address and a protocol address.
#[tactic(auto, unfolding(sd_text::specs::Reading::reading))]
fn take_host(reader: &mut TextReader, name: &[u8], ip_name: &[u8]) -> Result<(Mac, u32), LineError>
    ensures { Takes (host name.now ip_name.now) host_value reader.old reader.new result }
{
    let mac = take_mac(reader, name)?;
    let address = take_ip(reader, ip_name)?;
    Ok((mac, address))
}

/// What follows `rarp request`.
#[tactic(auto, unfolding(sd_text::specs::Reading::reading))]
fn take_request(reader: &mut TextReader) -> Result<RarpFrame, LineError>
    ensures { Takes (given 0 request) frame_value reader.old reader.new result }
{
    let (dst, src) = take_ends(reader)?;
    let (sender, target) = take_macs(reader, b" sender=", b" target=")?;
    Ok(RarpFrame::Request {
        dst,
        src,
        sender,
        target,
    })
}

/// What follows `rarp reply`.
#[tactic(auto, unfolding(sd_text::specs::Reading::reading))]
fn take_response(reader: &mut TextReader) -> Result<RarpFrame, LineError>
    ensures { Takes (given 1 response) frame_value reader.old reader.new result }
{
    let (dst, src) = take_ends(reader)?;
    let (sender, sender_ip) = take_host(reader, b" sender=", b" sender_ip=")?;
    let (target, target_ip) = take_host(reader, b" target=", b" target_ip=")?;
    Ok(RarpFrame::Reply {
        dst,
        src,
        sender,
        sender_ip,
        target,
        target_ip,
    })
}

/// What follows `rarp`.
#[tactic(auto, unfolding(sd_text::specs::Reading::reading, sd_text::specs::Reading::name_reading))]
pub fn take_frame(reader: &mut TextReader) -> Result<RarpFrame, LineError>
    ensures { Takes (texts.spaced frame) frame_value reader.old reader.new result }
{
    reader.said(b" ")?;
    let word = reader.front(Class::Name);
    if is_word(word, b"request") {
        return Ok(take_request(reader)?);
    }
    if is_word(word, b"reply") {
        return Ok(take_response(reader)?);
    }
    Err(LineError::Outside)
}
