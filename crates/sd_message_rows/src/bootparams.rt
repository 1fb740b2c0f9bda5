//! Messages and files against tables worked by hand, and the book.

mod rows;

use crate::items::{bytes_of, digits};
use rows::{ARGS, FILES, RESULTS};
use sd_bootparams::{
    Book, BpArgs, BpResult, Host, Hosts, Params, read_bp_args, read_bp_result, read_params,
    write_bp_args, write_bp_result,
};
use sd_outside::ByteList;
use std::alloc::Global;
use std::test::Fail;

fn args_text(alloc: Global, args: &BpArgs) -> Result<String, Fail> {
    match args {
        BpArgs::Null => Ok(format!(in alloc; "Null")?),
        BpArgs::Whoami { ip } => Ok(format!(in alloc; "Whoami {ip:08x}")?),
        BpArgs::Getfile { client, key } => {
            let client = digits(alloc, client.as_slice())?;
            let key = digits(alloc, key.as_slice())?;
            Ok(format!(in alloc; "Getfile {client} {key}")?)
        }
    }
}

fn result_text(alloc: Global, outcome: &BpResult) -> Result<String, Fail> {
    match outcome {
        BpResult::Void => Ok(format!(in alloc; "Void")?),
        BpResult::Whoami {
            client,
            domain,
            router,
        } => {
            let client = digits(alloc, client.as_slice())?;
            let domain = digits(alloc, domain.as_slice())?;
            Ok(format!(in alloc; "Whoami {client} {domain} {router:08x}")?)
        }
        BpResult::Getfile { server, ip, path } => {
            let server = digits(alloc, server.as_slice())?;
            let path = digits(alloc, path.as_slice())?;
            Ok(format!(in alloc; "Getfile {server} {ip:08x} {path}")?)
        }
    }
}

#[test]
fn arguments(rt: HostRuntime) -> Result<(), Fail> {
    let alloc = rt.alloc();
    for row in ARGS.lines() {
        let (number, row) = row.split_once(" | ").ok_or("no bar")?;
        let (items, want) = row.split_once(" | ").ok_or("no bar")?;
        let number = number.parse::<u32>()?.min(2);
        match read_bp_args(alloc, number, bytes_of(alloc, items)?.as_slice()) {
            Ok(args) => {
                assert_eq!(rt; args_text(alloc, &args)?.as_str(), want);
                let bytes = write_bp_args(alloc, &args)?;
                let again = read_bp_args(alloc, number, bytes.as_slice())?;
                assert_eq!(rt; args_text(alloc, &again)?.as_str(), want);
            }
            Err(e) => assert_eq!(rt; format!(in alloc; "{e:?}")?.as_str(), want, "{row}"),
        }
    }
    Ok(())
}

#[test]
fn results(rt: HostRuntime) -> Result<(), Fail> {
    let alloc = rt.alloc();
    for row in RESULTS.lines() {
        let (number, row) = row.split_once(" | ").ok_or("no bar")?;
        let (items, want) = row.split_once(" | ").ok_or("no bar")?;
        let number = number.parse::<u32>()?.min(2);
        match read_bp_result(alloc, number, bytes_of(alloc, items)?.as_slice()) {
            Ok(outcome) => {
                assert_eq!(rt; result_text(alloc, &outcome)?.as_str(), want);
                let bytes = write_bp_result(alloc, &outcome)?;
                let again = read_bp_result(alloc, number, bytes.as_slice())?;
                assert_eq!(rt; result_text(alloc, &again)?.as_str(), want);
            }
            Err(e) => assert_eq!(rt; format!(in alloc; "{e:?}")?.as_str(), want, "{row}"),
        }
    }
    Ok(())
}

#[test]
fn chars_are_written_with_their_sign(rt: HostRuntime) -> Result<(), Fail> {
    let alloc = rt.alloc();
    let args = BpArgs::Whoami { ip: 0xc0a8_0102 };
    let want = bytes_of(alloc, "00000001 ffffffc0 ffffffa8 00000001 00000002")?;
    assert_eq!(rt; write_bp_args(alloc, &args)?.as_slice(), want.as_slice());
    Ok(())
}

fn params_text(alloc: Global, params: &Params) -> Result<String, Fail> {
    let mut text = String::new(alloc);
    for client in params.clients() {
        text.push_str(" ")?;
        text.push_str(std::str::from_utf8(client.as_slice())?)?;
    }
    for entry in params.entries() {
        text.push_str(" |")?;
        for part in [&entry.client, &entry.key, &entry.server, &entry.path] {
            text.push_str(" ")?;
            text.push_str(std::str::from_utf8(part.as_slice())?)?;
        }
    }
    Ok(text)
}

#[test]
fn files(rt: HostRuntime) -> Result<(), Fail> {
    let alloc = rt.alloc();
    for (text, want) in FILES {
        match read_params(alloc, text.as_bytes()) {
            Ok(params) => assert_eq!(rt; params_text(alloc, &params)?.as_str(), want, "{text}"),
            Err(e) => assert_eq!(rt; format!(in alloc; "{e:?}")?.as_str(), want, "{text}"),
        }
    }
    Ok(())
}

#[test]
fn the_book(rt: HostRuntime) -> Result<(), Fail> {
    let alloc = rt.alloc();
    let file = b"sparky root=boss:/r\nspot root=boss:/t swap=who:/s\n";
    let params = read_params(alloc, file)?;
    assert!(rt; params.find(b"spot", b"root") == Some((b"boss".as_slice(), b"/t".as_slice())));
    assert!(rt; params.find(b"spot", b"dump").is_none());
    let mut hosts = Hosts::empty(alloc);
    for (name, ip) in [("boss", 1), ("sparky", 2), ("spot", 2), ("boss", 4)] {
        let name = ByteList::from_slice(alloc, name.as_bytes())?;
        hosts.push(Host { name, ip })?;
    }
    let book = Book::new(params, hosts, ByteList::from_slice(alloc, b"lab")?, 9);
    let sparky = Some((b"sparky".as_slice(), b"lab".as_slice(), 9));
    assert!(rt; book.whoami(2) == sparky);
    assert!(rt; book.whoami(1).is_none());
    assert!(rt; book.whoami(3).is_none());
    let root = Some((b"boss".as_slice(), 1, b"/t".as_slice()));
    assert!(rt; book.getfile(b"spot", b"root") == root);
    assert!(rt; book.getfile(b"spot", b"swap").is_none());
    assert!(rt; book.getfile(b"sparky", b"swap").is_none());
    Ok(())
}
