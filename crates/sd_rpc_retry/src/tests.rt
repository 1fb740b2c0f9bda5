//! Calls over a link in memory, against rows worked by hand.
ghost use Rattle.std.specs.Prelude.{◌≡◌, ◌≤◌, [], length, IfOk};
ghost use Rattle.sd_rpc_retry.specs.Calling.{AskFits};

mod asking;
mod file_rows;
mod files;
mod rows;

use super::*;
use rows::{
    BOOTPARAMS, CLIENT, EVERYONE, FILES, GETFILE_RELAYED, GETPORT, NAMES, OTHER, PORTMAPPER, PORTS,
    Row, WHOAMI, WHOAMI_RELAYED,
};
use sd_link::{MemLink, PacketTimes};
use sd_nfs_msg::{Fattr, NfsResult};
use sd_outside::{Addr, ByteList, FHandle, Packet};
use std::alloc::Global;
use std::process::Abort;
use std::test::Fail;

/// The bytes of a row.
fn bytes_of(alloc: Global, items: &str) -> Result<ByteList, Fail> {
    let mut bytes = ByteList::empty(alloc);
    for item in items.split(' ') {
        match item.split_once('*') {
            Some((byte, times)) => {
                let byte = u8::from_str_radix(byte, 16)?;
                for _ in 0..times.parse::<u32>()? {
                    bytes.push_slice(&[byte])?;
                }
            }
            None => bytes.push_slice(&u32::from_str_radix(item, 16)?.to_be_bytes())?,
        }
    }
    Ok(bytes)
}

/// The caller whose next call is number 7.
fn caller(alloc: Global, tries: u32) -> Result<Caller, Fail>
    ensures { IfOk result (λ c. (c.next_xid ≡ 7) × (c.tries ≡ tries) × (c.wait ≡ 5) × (c.machine ≡ [])) }
{
    Ok(Caller {
        ip: CLIENT.ip,
        port: CLIENT.port,
        machine: ByteList::empty(alloc),
        next_xid: 7,
        tries,
        wait: 5,
    })
}

fn text_of(bytes: &ByteList) -> Result<&str, Fail> {
    Ok(str::from_utf8(bytes.as_slice())?)
}

/// The first and the last byte of a handle.
fn handle_text(alloc: Global, file: &FHandle) -> Result<String, Fail> {
    let [first, .., last] = file.0;
    Ok(format!(in alloc; "{first:x}..{last:x}")?)
}

/// The kind, the size and the last word of attributes.
fn attr_text(alloc: Global, attr: &Fattr) -> Result<String, Fail> {
    Ok(format!(in alloc; "{}/{}/{}", attr.kind, attr.size, attr.ctime_u)?)
}

fn nfs_text(alloc: Global, done: &NfsResult) -> Result<String, Fail> {
    Ok(match done {
        NfsResult::Getattr { attr } => format!(in alloc; "getattr {}", attr_text(alloc, attr)?)?,
        NfsResult::Lookup { file, attr } => {
            let file = handle_text(alloc, file)?;
            format!(in alloc; "lookup {file} {}", attr_text(alloc, attr)?)?
        }
        NfsResult::Readlink { path } => format!(in alloc; "readlink {}", text_of(path)?)?,
        NfsResult::Read { attr, bytes } => {
            let bytes = text_of(bytes)?;
            format!(in alloc; "read {} {bytes}", attr_text(alloc, attr)?)?
        }
        NfsResult::Remove => format!(in alloc; "remove")?,
        _ => format!(in alloc; "another")?,
    })
}

/// What came of a call, its sends and its last tick.
fn shown(alloc: Global, answer: &Result<Answer, CallError>, tally: Tally) -> Result<String, Fail> {
    let answer = match answer {
        Ok(Answer::Port(port)) => format!(in alloc; "port {port}")?,
        Ok(
            Answer::Whoami {
                from,
                client,
                domain,
                router,
            },
        ) => {
            let client = text_of(client)?;
            let domain = text_of(domain)?;
            format!(in alloc; "whoami {from:x} {client} {domain} {router:x}")?
        }
        Ok(
            Answer::Getfile {
                from,
                server,
                ip,
                path,
            },
        ) => {
            let server = text_of(server)?;
            let path = text_of(path)?;
            format!(in alloc; "getfile {from:x} {server} {ip:x} {path}")?
        }
        Ok(Answer::Given(file)) => format!(in alloc; "given {}", handle_text(alloc, file)?)?,
        Ok(Answer::Nfs(done)) => nfs_text(alloc, done)?,
        Ok(Answer::Refused { status }) => format!(in alloc; "refused {status}")?,
        Err(why) => format!(in alloc; "{why:?}")?,
    };
    Ok(format!(in alloc; "{answer} {} {}", tally.sends, tally.last)?)
}

/// What comes of each row's datagrams, which all come at tick 1.
fn check(rt: &impl Abort, alloc: Global, dst: Addr, ask: &Ask, rows: &[Row]) -> Result<(), Fail>
    requires { AskFits ask.now }
{
    for (replies, comes) in rows {
        let mut inbox = PacketTimes::empty(alloc);
        for (src, dst, items) in *replies {
            let body = bytes_of(alloc, items)?;
            inbox.push((
                1,
                Packet::Udp {
                    src: *src,
                    dst: *dst,
                    body,
                },
            ))?;
        }
        let mut link = MemLink::new(alloc, inbox, &[])?;
        let mut caller = caller(alloc, 2)?;
        assert!(rt;
            caller.next_xid == 7
                && caller.tries == 2
                && caller.wait == 5
                && caller.machine.as_slice().is_empty()
        );
        let mut tally = Tally { sends: 0, last: 0 };
        let answer = caller.call(alloc, &mut link, dst, ask, &mut tally);
        assert_eq!(rt; shown(alloc, &answer, tally)?.as_str(), *comes);
        assert_eq!(rt; caller.next_xid, 8);
    }
    Ok(())
}

#[test]
fn ports_come_or_not(rt: HostRuntime) -> Result<(), Fail> {
    let ask = Ask::Getport {
        prog: 100_005,
        vers: 1,
    };
    check(&rt, rt.alloc(), PORTMAPPER, &ask, &PORTS)
}

#[test]
fn names_come_or_not(rt: HostRuntime) -> Result<(), Fail> {
    check(
        &rt,
        rt.alloc(),
        EVERYONE,
        &Ask::Whoami { ip: CLIENT.ip },
        &NAMES,
    )
}

#[test]
fn files_come_or_not(rt: HostRuntime) -> Result<(), Fail> {
    let client = ByteList::from_slice(rt.alloc(), b"sparky")?;
    let key = ByteList::from_slice(rt.alloc(), b"root")?;
    check(
        &rt,
        rt.alloc(),
        BOOTPARAMS,
        &Ask::Getfile { client, key },
        &FILES,
    )
}

#[test]
fn what_is_sent_is_spelled(rt: HostRuntime) -> Result<(), Fail> {
    let alloc = rt.alloc();
    let caller = caller(alloc, 2)?;
    let client = ByteList::from_slice(alloc, b"sparky")?;
    let key = ByteList::from_slice(alloc, b"root")?;
    let getport = Ask::Getport {
        prog: 100_005,
        vers: 1,
    };
    let whoami = Ask::Whoami { ip: CLIENT.ip };
    let getfile = Ask::Getfile { client, key };
    check_sent(&rt, alloc, &caller, PORTMAPPER, &getport, GETPORT)?;
    check_sent(&rt, alloc, &caller, EVERYONE, &whoami, WHOAMI_RELAYED)?;
    check_sent(&rt, alloc, &caller, BOOTPARAMS, &whoami, WHOAMI)?;
    check_sent(&rt, alloc, &caller, PORTMAPPER, &getfile, GETFILE_RELAYED)
}

/// What is sent for a question.
fn check_sent<Q: Question>(
    rt: &impl Abort,
    alloc: Global,
    caller: &Caller,
    to: Addr,
    question: &Q,
    items: &str,
) -> Result<(), Fail>
    requires machine { length caller.now.machine ≤ 255 }
    requires fits { AskFits (Q.ask question.now) }
{
    match caller.request(alloc, to, question)? {
        Packet::Frame(_) => assert!(rt; false),
        Packet::Udp { src, dst, body } => {
            assert_eq!(rt; src, CLIENT);
            assert_eq!(rt; dst, to);
            assert_eq!(rt; body.as_slice(), bytes_of(alloc, items)?.as_slice());
        }
    }
    Ok(())
}

/// So many empty datagrams at tick 1, and then the reply.
fn crowd(alloc: Global, count: u32) -> Result<PacketTimes, Fail> {
    let mut inbox = PacketTimes::empty(alloc);
    for _ in 0..count {
        let body = ByteList::empty(alloc);
        inbox.push((
            1,
            Packet::Udp {
                src: OTHER,
                dst: CLIENT,
                body,
            },
        ))?;
    }
    let body = bytes_of(alloc, "00000007 00000001 00000000 00*8 00000000 00000801")?;
    inbox.push((
        1,
        Packet::Udp {
            src: PORTMAPPER,
            dst: CLIENT,
            body,
        },
    ))?;
    Ok(inbox)
}

/// How a call of at most four tries ends: what comes, which calls of the link fail, and what comes of it. What comes is nothing, or
/// so many empty datagrams and then the reply.
type End = (Option<u32>, &'static [u64], &'static str);

fn check_ends(rt: &impl Abort, alloc: Global, ask: &Ask, ends: &[End]) -> Result<(), Fail>
    requires { AskFits ask.now }
{
    for (count, fail, comes) in ends {
        let inbox = match count {
            Some(count) => crowd(alloc, *count)?,
            None => PacketTimes::empty(alloc),
        };
        let mut link = MemLink::new(alloc, inbox, fail)?;
        let mut caller = caller(alloc, 4)?;
        let mut tally = Tally { sends: 0, last: 0 };
        let answer = caller.call(alloc, &mut link, PORTMAPPER, ask, &mut tally);
        assert_eq!(rt;
            shown(alloc, &answer, tally)?.as_str(),
            *comes,
            "{count:?} {fail:?}"
        );
    }
    Ok(())
}

#[test]
fn calls_end(rt: HostRuntime) -> Result<(), Fail> {
    let ask = Ask::Getport {
        prog: 100_005,
        vers: 1,
    };
    let ends: [End; 10] = [
        (Some(0), &[], "port 2049 1 0"),
        (Some(4095), &[], "port 2049 1 0"),
        (Some(4096), &[], "Flood 1 0"),
        (Some(0), &[0], "LinkFault 1 0"),
        (Some(0), &[1], "LinkFault 1 0"),
        (Some(1), &[2], "LinkFault 1 0"),
        // Each try is a send and a receive.
        (None, &[], "Timeout 4 15"),
        (None, &[2], "LinkFault 2 5"),
        (None, &[7], "LinkFault 4 15"),
        (None, &[8], "Timeout 4 15"),
    ];
    check_ends(&rt, rt.alloc(), &ask, &ends)
}
