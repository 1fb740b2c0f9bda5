//! The rows of the root export (RFC 1094, 2.2).

ghost use Rattle.std.specs.Prelude.{◌≡◌, ◌≤◌, IfOk, length, take, drop, min, Some};
ghost use Rattle.sd_services.specs.Decisions.{on_root, lookup, looks_up, readlink, read, node_at, blocks_of, standing_blocks, all_blocks, statfs};
ghost use Rattle.sd_nfs_server.specs.Fits.{StandingFits, NodesFit};

use crate::attributes::root_attributes;
use crate::handle::fhandle_of;
use crate::names::called;
use crate::readdir::readdir;
use crate::status::{ISDIR, NOENT, NOTDIR, NXIO, ROFS};
use sd_nfs_msg::{NfsArgs, NfsResult};
use sd_outside::{ByteList, NoMemory};
use sd_services::{Node, Standing};
use std::alloc::Global;

/// What a LOOKUP of a live file gives (2.2.5).
fn looked_up(nodes: &[Node], number: u32) -> NfsResult
    requires fit { NodesFit nodes.now }
    requires low { 1 ≤ number }
    requires high { number ≤ length nodes.now }
    ensures { result ≡ looks_up nodes.now (Some number) }
{
    let node = &nodes[number as usize - 1];
    NfsResult::Lookup {
        file: fhandle_of(0, number),
        attr: root_attributes(number, &node.what),
    }
}

fn lookup(
    alloc: Global,
    nodes: &[Node],
    number: u32,
    node: &Node,
    name: &[u8],
) -> Result<NfsResult, NoMemory>
    requires fit { NodesFit nodes.now }
    requires low { 1 ≤ number }
    requires high { number ≤ length nodes.now }
    ensures { IfOk result (λ x. x ≡ lookup nodes.now number node.now.path node.now.what name.now) }
{
    match &node.what {
        Standing::Directory => match called(alloc, nodes, number, node.path.as_slice(), name)? {
            Some(found) => Ok(looked_up(nodes, found)),
            None => Ok(NfsResult::Refused { status: NOENT }),
        },
        _ => Ok(NfsResult::Refused { status: NOTDIR }),
    }
}

/// The text of a link (2.2.6).
fn readlink(what: &Standing) -> Result<NfsResult, NoMemory>
    ensures { IfOk result (λ x. x ≡ readlink what.now) }
{
    match what {
        Standing::Symlink { text } => Ok(NfsResult::Readlink { path: text.copy()? }),
        _ => Ok(NfsResult::Refused { status: NXIO }),
    }
}

/// The bytes from an offset on, as many as the count, 8,192 and the end allow.
fn range(bytes: &[u8], offset: u32, count: u32) -> &[u8]
    ensures { result.now ≡ take (min count 8192) (drop offset bytes.now) }
{
    let rest = match bytes.get(offset as usize..) {
        Some(rest) => rest,
        None => &bytes[bytes.len()..],
    };
    let len = (count.min(8192) as usize).min(rest.len());
    &rest[..len]
}

/// Bytes of a file (2.2.7).
fn read(
    alloc: Global,
    number: u32,
    what: &Standing,
    offset: u32,
    count: u32,
) -> Result<NfsResult, NoMemory>
    requires { StandingFits what.now }
    ensures { IfOk result (λ x. x ≡ read number what.now offset count) }
{
    match what {
        Standing::Directory => Ok(NfsResult::Refused { status: ISDIR }),
        Standing::File { bytes } => {
            let attr = root_attributes(number, what);
            let bytes = ByteList::from_slice(alloc, range(bytes.as_slice(), offset, count))?;
            Ok(NfsResult::Read { attr, bytes })
        }
        Standing::Symlink { .. } => Ok(NfsResult::Refused { status: NXIO }),
    }
}

fn blocks_of(bytes: &[u8]) -> u32
    requires { length bytes.now ≤ 33554432 }
    ensures is { result ≡ blocks_of (length bytes.now) }
    ensures few { result ≤ 4096 }
{
    (bytes.len() as u32 + 8191) / 8192
}

fn standing_blocks(what: &Standing) -> u32
    requires { StandingFits what.now }
    ensures is { result ≡ standing_blocks what.now }
    ensures few { result ≤ 4096 }
{
    match what {
        Standing::Directory => 0,
        Standing::File { bytes } => blocks_of(bytes.as_slice()),
        Standing::Symlink { text } => blocks_of(text.as_slice()),
    }
}

/// The blocks that all files and links take (2.2.18).
fn all_blocks(nodes: &[Node]) -> u32
    requires { NodesFit nodes.now }
    ensures { result ≡ all_blocks nodes.now }
{
    let mut blocks = 0;
    for node in nodes {
        blocks += standing_blocks(&node.what);
    }
    blocks
}

fn statfs(nodes: &[Node]) -> NfsResult
    requires { NodesFit nodes.now }
    ensures { result ≡ statfs (all_blocks nodes.now) }
{
    NfsResult::Statfs {
        tsize: 8192,
        bsize: 8192,
        blocks: all_blocks(nodes),
        bfree: 0,
        bavail: 0,
    }
}

/// What is decided on a call for a file of the root export.
pub fn on_root(
    alloc: Global,
    nodes: &[Node],
    number: u32,
    args: &NfsArgs,
) -> Result<NfsResult, NoMemory>
    requires fit { NodesFit nodes.now }
    requires low { 1 ≤ number }
    requires high { number ≤ length nodes.now }
    ensures { IfOk result (λ x. x ≡ on_root nodes.now number (node_at nodes.now number) args.now) }
{
    let node = &nodes[number as usize - 1];
    match args {
        NfsArgs::Null => Ok(NfsResult::Null),
        NfsArgs::Getattr { .. } => Ok(NfsResult::Getattr {
            attr: root_attributes(number, &node.what),
        }),
        NfsArgs::Lookup { name, .. } => Ok(lookup(alloc, nodes, number, node, name.as_slice())?),
        NfsArgs::Readlink { .. } => Ok(readlink(&node.what)?),
        NfsArgs::Read { offset, count, .. } => Ok(read(
            alloc, number, &node.what, *offset, *count,
        )?),
        NfsArgs::Readdir { cookie, count, .. } => Ok(readdir(
            alloc, nodes, number, node, cookie, *count,
        )?),
        NfsArgs::Statfs { .. } => Ok(statfs(nodes)),
        _ => Ok(NfsResult::Refused { status: ROFS }),
    }
}
