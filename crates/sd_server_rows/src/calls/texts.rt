//! Calls from texts, and texts of what is planned.

use sd_nfs_msg::{FHandle, Fattr, NfsArgs, NfsResult, Sattr};
use sd_nfs_server::{NfsPlan, Tree};
use sd_outside::ByteList;
use sd_script::read_script;
use std::alloc::Global;
use std::test::Fail;

/// The lines before those of a tree.
const HEADING: &str = "life 10
tries 4
wait 5
pages 1
server 080020000001 192.168.1.1 boss
client 080020010203 192.168.1.2 sparky example 192.168.1.1
";

/// The text with a name of 255 bytes for each `@`.
pub fn spelled(alloc: Global, text: &str) -> Result<String, Fail> {
    let mut whole = String::new(alloc);
    for (i, part) in text.split('@').enumerate() {
        if i > 0 {
            for _ in 0..255 {
                whole.push_str("n")?;
            }
        }
        whole.push_str(part)?;
    }
    Ok(whole)
}

/// The tree that these lines of a script describe.
pub fn tree_of(alloc: Global, lines: &str) -> Result<Tree, Fail> {
    let mut text = spelled(alloc, HEADING)?;
    text.push_str(spelled(alloc, lines)?.as_str())?;
    match read_script(alloc, text.as_str().as_bytes()) {
        Ok(script) => Ok(Tree::build(alloc, &script.config)?),
        Err(_) => Err("no script")?,
    }
}

/// The address of a caller.
pub fn address(name: &str) -> u32 {
    match name {
        "client" => 0xc0a8_0102,
        "server" => 0xc0a8_0101,
        _ => 0x0a00_0009,
    }
}

/// The two words of a text, the second empty where there is one alone.
fn two_words(text: &str) -> (&str, &str) {
    match text.split_once(' ') {
        Some(words) => words,
        None => (text, ""),
    }
}

fn number(text: &str) -> Result<u32, Fail> {
    Ok(text.parse::<u32>()?)
}

/// The handle of an export, a file, a generation and a last byte.
pub fn handle(text: &str) -> Result<FHandle, Fail> {
    let mut numbers = [0, 1, 1, 0];
    for (i, part) in text.split('.').enumerate() {
        if i < 4 {
            numbers[i] = number(part)?;
        }
    }
    let e = numbers[0].to_be_bytes();
    let f = numbers[1].to_be_bytes();
    let g = numbers[2].to_be_bytes();
    Ok(FHandle([
        b'S',
        b'D',
        b'H',
        b'1',
        e[0],
        e[1],
        e[2],
        e[3],
        f[0],
        f[1],
        f[2],
        f[3],
        g[0],
        g[1],
        g[2],
        g[3],
        0,
        0,
        0,
        0,
        0,
        0,
        0,
        0,
        0,
        0,
        0,
        0,
        0,
        0,
        0,
        u8::try_from(numbers[3])?,
    ]))
}

/// Attributes that are to be set: none but that of the name, which is to be 7.
fn attributes_to_set(name: &str) -> Sattr {
    let word = |own: &str| if name == own { 7 } else { 0xffff_ffff };
    Sattr {
        mode: word("mode"),
        uid: word("uid"),
        gid: word("gid"),
        size: word("size"),
        atime_s: word("atime"),
        atime_u: word("utime"),
        mtime_s: word("mtime"),
        mtime_u: word("vtime"),
    }
}

fn name_of(alloc: Global, text: &str) -> Result<ByteList, Fail> {
    Ok(ByteList::from_slice(alloc, spelled(alloc, text)?.as_str().as_bytes())?)
}

/// Bytes to write.
pub fn letters(alloc: Global, len: u32) -> Result<ByteList, Fail> {
    let mut bytes = ByteList::empty(alloc);
    for _ in 0..len {
        bytes.push_slice(b"A")?;
    }
    Ok(bytes)
}

/// A call of a procedure that would change a directory.
fn changing_call(
    alloc: Global,
    procedure: &str,
    dir: FHandle,
    text: &str,
) -> Result<NfsArgs, Fail> {
    let name = name_of(alloc, text)?;
    let set = attributes_to_set("");
    match procedure {
        "create" => Ok(NfsArgs::Create { dir, name, set }),
        "remove" => Ok(NfsArgs::Remove { dir, name }),
        "rename" => Ok(NfsArgs::Rename {
            dir,
            name,
            to_dir: handle("0.1.9")?,
            to_name: name_of(alloc, "x")?,
        }),
        "link" => Ok(NfsArgs::Link {
            from: dir,
            to_dir: handle("0.1.9")?,
            to_name: name,
        }),
        "symlink" => Ok(NfsArgs::Symlink {
            dir,
            name,
            path: name_of(alloc, "/")?,
            set,
        }),
        "mkdir" => Ok(NfsArgs::Mkdir { dir, name, set }),
        "rmdir" => Ok(NfsArgs::Rmdir { dir, name }),
        _ => Err("no procedure")?,
    }
}

/// The call that a text tells.
pub fn call_of(alloc: Global, text: &str) -> Result<NfsArgs, Fail> {
    let (procedure, words) = two_words(text);
    if procedure == "null" {
        return Ok(NfsArgs::Null);
    }
    let (file, words) = two_words(words);
    let file = handle(file)?;
    let (first, second) = two_words(words);
    match procedure {
        "getattr" => Ok(NfsArgs::Getattr { file }),
        "setattr" => Ok(NfsArgs::Setattr {
            file,
            set: attributes_to_set(first),
        }),
        "lookup" => Ok(NfsArgs::Lookup {
            dir: file,
            name: name_of(alloc, words)?,
        }),
        "readlink" => Ok(NfsArgs::Readlink { file }),
        "read" => Ok(NfsArgs::Read {
            file,
            offset: number(first)?,
            count: number(second)?,
            total: 7,
        }),
        "write" => Ok(NfsArgs::Write {
            file,
            begin: 7,
            offset: number(first)?,
            total: 7,
            bytes: letters(alloc, number(second)?)?,
        }),
        "readdir" => Ok(NfsArgs::Readdir {
            dir: file,
            cookie: number(first)?.to_be_bytes(),
            count: number(second)?,
        }),
        "statfs" => Ok(NfsArgs::Statfs { file }),
        _ => changing_call(alloc, procedure, file, words),
    }
}

fn attributes_text(alloc: Global, attr: &Fattr) -> Result<String, Fail> {
    let rest = [
        attr.uid,
        attr.gid,
        attr.rdev,
        attr.atime_s,
        attr.atime_u,
        attr.mtime_s,
        attr.mtime_u,
        attr.ctime_s,
        attr.ctime_u,
    ];
    if rest != [0; 9] || attr.blocksize != 8192 {
        return Err("other attributes")?;
    }
    let Fattr {
        kind,
        mode,
        nlink,
        size,
        ..
    } = *attr;
    let Fattr {
        blocks,
        fsid,
        fileid,
        ..
    } = *attr;
    let text = format!(in alloc; "{kind} {mode} {nlink} {size}")?;
    Ok(format!(in alloc; "{text} {blocks} {fsid} {fileid}")?)
}

/// The bytes of a READ: pairs of hexadecimal digits, and more than three bytes as the first, a star and their number.
fn bytes_text(alloc: Global, bytes: &[u8]) -> Result<String, Fail> {
    if bytes.is_empty() {
        return Ok(format!(in alloc; "-")?);
    }
    if bytes.len() > 3 {
        let first = bytes[0];
        for byte in bytes {
            if *byte != first {
                return Err("other bytes")?;
            }
        }
        let len = bytes.len();
        return Ok(format!(in alloc; "{first:02x}*{len}")?);
    }
    let mut text = String::new(alloc);
    for byte in bytes {
        text.push_str(format!(in alloc; "{byte:02x}")?.as_str())?;
    }
    Ok(text)
}

/// A name, and one of 255 bytes as `n*255`.
fn name_text(alloc: Global, name: &[u8]) -> Result<String, Fail> {
    if name.len() > 16 {
        let len = name.len();
        return Ok(format!(in alloc; "n*{len}")?);
    }
    let text = std::str::from_utf8(name)?;
    Ok(format!(in alloc; "{text}")?)
}

fn file_text(alloc: Global, file: &FHandle, attr: &Fattr) -> Result<String, Fail> {
    let fileid = attr.fileid;
    let text = format!(in alloc; "0.{fileid}")?;
    if handle(text.as_str())? != *file {
        return Err("another handle")?;
    }
    let attr = attributes_text(alloc, attr)?;
    Ok(format!(in alloc; "file {text} {attr}")?)
}

pub fn answer_text(alloc: Global, answer: &NfsResult) -> Result<String, Fail> {
    match answer {
        NfsResult::Null => Ok(format!(in alloc; "null")?),
        NfsResult::Refused { status } => Ok(format!(in alloc; "{status}")?),
        NfsResult::Getattr { attr } | NfsResult::Setattr { attr } | NfsResult::Write { attr } => {
            let attr = attributes_text(alloc, attr)?;
            Ok(format!(in alloc; "attr {attr}")?)
        }
        NfsResult::Lookup { file, attr } => file_text(alloc, file, attr),
        NfsResult::Readlink { path } => {
            let path = std::str::from_utf8(path.as_slice())?;
            Ok(format!(in alloc; "path {path}")?)
        }
        NfsResult::Read { attr, bytes } => {
            let attr = attributes_text(alloc, attr)?;
            let bytes = bytes_text(alloc, bytes.as_slice())?;
            Ok(format!(in alloc; "read {attr} {bytes}")?)
        }
        NfsResult::Readdir { entries, eof } => {
            let mut text = format!(in alloc; "dir ")?;
            for entry in entries.as_slice() {
                let name = name_text(alloc, entry.name.as_slice())?;
                let fileid = entry.fileid;
                let cookie = u32::from_be_bytes(entry.cookie);
                text.push_str(format!(in alloc; "{name}={fileid}@{cookie} ")?.as_str())?;
            }
            text.push_str(if *eof { "end" } else { "more" })?;
            Ok(text)
        }
        NfsResult::Statfs {
            tsize,
            bsize,
            blocks,
            bfree,
            bavail,
        } => Ok(format!(in alloc; "fs {tsize} {bsize} {blocks} {bfree} {bavail}")?),
        _ => Err("a change")?,
    }
}

/// The text of a plan.
pub fn plan_text(alloc: Global, plan: &NfsPlan) -> Result<String, Fail> {
    match plan {
        NfsPlan::Now(answer) => answer_text(alloc, answer),
        NfsPlan::Swap { done, at, len } => {
            let done = answer_text(alloc, done)?;
            Ok(format!(in alloc; "swap {at} {len}: {done}")?)
        }
    }
}
