//! A caller, and a link that brings replies.
ghost use Rattle.std.specs.Prelude.{◌≡◌, [], IfOk};

use sd_link::{MemLink, PacketTimes};
use sd_outside::{Addr, ByteList, FHandle, Packet};
use sd_rpc_retry::Caller;
use std::alloc::Global;
use std::test::Fail;

pub const CLIENT: Addr = Addr {
    ip: 0xc0a8_0102,
    port: 1021,
};

pub const FILE_SERVER: Addr = Addr {
    ip: 0xc0a8_0101,
    port: 2049,
};

/// The handle of the root directory.
pub const ROOT: FHandle = FHandle([0xaa; 32]);

/// The head of a reply that says SUCCESS.
const DONE: &str = "00000001 00000000 00*8 00000000";

/// The bytes of a row: an item is a word of eight hexadecimal digits, or `hh*n` for n equal bytes.
pub fn bytes_of(alloc: Global, items: &str) -> Result<ByteList, Fail> {
    let mut bytes = ByteList::empty(alloc);
    for item in items.split(' ') {
        match item.split_once('*') {
            Some((byte, times)) => {
                let byte = u8::from_str_radix(byte, 16)?;
                for _ in 0..times.parse::<u32>()? {
                    bytes.push_slice(&[byte])?;
                }
            }
            None => bytes.push_slice(&u32::from_str_radix(item, 16)?.to_be_bytes())?,
        }
    }
    Ok(bytes)
}

/// A link that brings these results at tick 1, one for each call from number 1 on, and fails such calls of its own.
pub fn link_with(
    alloc: Global,
    server: Addr,
    rows: &[&str],
    fail: &[u64],
) -> Result<MemLink, Fail> {
    let mut inbox = PacketTimes::empty(alloc);
    let mut xid: u32 = 0;
    for row in rows {
        xid = xid.wrapping_add(1);
        let mut body = ByteList::empty(alloc);
        body.push_slice(&xid.to_be_bytes())?;
        body.push_slice(bytes_of(alloc, DONE)?.as_slice())?;
        body.push_slice(bytes_of(alloc, row)?.as_slice())?;
        inbox.push((
            1,
            Packet::Udp {
                src: server,
                dst: CLIENT,
                body,
            },
        ))?;
    }
    Ok(MemLink::new(alloc, inbox, fail)?)
}

/// The caller whose first call is number 1.
pub fn caller(alloc: Global) -> Result<Caller, Fail>
    ensures { IfOk result (λ c. (c.next_xid ≡ 1) × (c.tries ≡ 2) × (c.wait ≡ 5) × (c.machine ≡ [])) }
{
    Ok(Caller {
        ip: CLIENT.ip,
        port: CLIENT.port,
        machine: ByteList::empty(alloc),
        next_xid: 1,
        tries: 2,
        wait: 5,
    })
}
