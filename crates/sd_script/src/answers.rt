//! The answer lines of a transcript.

ghost use Rattle.std.specs.Prelude.{◌≡◌, ◌++◌, codes, OnOk, OnErr};
ghost use Rattle.std.specs.Fmt.{decimal};
ghost use Rattle.sd_script.specs.Answers.{answer_text, answer_line, stage_text};

use sd_config::{Stage, Told};
use sd_outside::{ByteList, NoMemory};
use sd_text::{ip_list, push_number, write_runs};
use std::alloc::Global;

/// The word for a stage.
fn stage_word(stage: Stage) -> &'static [u8]
    ensures { result.now ≡ stage_text stage }
{
    match stage {
        Stage::Rarp => b"rarp",
        Stage::Tftp => b"tftp",
        Stage::Whoami => b"whoami",
        Stage::Getfile => b"getfile",
        Stage::Getport => b"getport",
        Stage::Mnt => b"mnt",
        Stage::Lookup => b"lookup",
        Stage::Readlink => b"readlink",
        Stage::Read => b"read",
        Stage::Getattr => b"getattr",
        Stage::Wait => b"wait",
    }
}

/// Adds `addr ok IP`.
fn push_address(alloc: Global, ip: u32, line: &mut ByteList) -> Result<(), NoMemory>
    ensures { OnOk result (line.new ≡ line.old ++ answer_text (Told.AddrOk ip)) }
{
    line.push_slice(b"addr ok ")?;
    line.push_slice(ip_list(alloc, ip)?.as_slice())
}

/// Adds some words and the word for a step.
fn push_step(words: &[u8], step: Stage, line: &mut ByteList) -> Result<(), NoMemory>
    ensures { OnOk result (line.new ≡ line.old ++ (words.now ++ stage_text step)) }
{
    line.push_slice(words)?;
    line.push_slice(stage_word(step))
}

/// Adds `boot unbuilt STEP program BYTES`.
fn push_unbuilt(
    alloc: Global,
    step: Stage,
    program: &ByteList,
    line: &mut ByteList,
) -> Result<(), NoMemory>
    ensures { OnOk result (line.new ≡ line.old ++ answer_text (Told.BootUnbuilt step program.now)) }
{
    push_step(b"boot unbuilt ", step, line)?;
    line.push_slice(b" program ")?;
    write_runs(alloc, program.as_slice(), line)?;
    Ok(())
}

/// Adds some words and a number.
fn push_count(alloc: Global, words: &[u8], count: u64, line: &mut ByteList) -> Result<(), NoMemory>
    ensures { OnOk result (line.new ≡ line.old ++ (words.now ++ decimal count)) }
{
    line.push_slice(words)?;
    push_number(alloc, line, count)
}

/// Adds some words, the word for a step and a number.
fn push_code(
    alloc: Global,
    words: &[u8],
    step: Stage,
    code: u32,
    line: &mut ByteList,
) -> Result<(), NoMemory>
    ensures { OnOk result (line.new ≡ line.old ++ (words.now ++ stage_text step ++ codes " " ++ decimal code)) }
{
    push_step(words, step, line)?;
    push_count(alloc, b" ", u64::from(code), line)
}

/// Adds `wait N` and what stands behind it.
fn push_wait(alloc: Global, ticks: u64, end: &[u8], line: &mut ByteList) -> Result<(), NoMemory>
    ensures { OnOk result (line.new ≡ line.old ++ (codes "wait " ++ decimal ticks ++ end.now)) }
{
    line.push_slice(b"wait ")?;
    push_number(alloc, line, ticks)?;
    line.push_slice(end)
}

/// Adds an answer, without a line feed.
fn push_answer(alloc: Global, answer: &Told, line: &mut ByteList) -> Result<(), NoMemory>
    ensures { OnOk result (line.new ≡ line.old ++ answer_text answer.now) }
{
    match answer {
        Told::AddrOk { ip } => push_address(alloc, *ip, line),
        Told::AddrTimeout => line.push_slice(b"addr timeout rarp"),
        Told::AddrFlood { step } => push_step(b"addr flood ", *step, line),
        Told::AddrLinkFault => line.push_slice(b"addr linkfault"),
        Told::BootUnbuilt { step, program } => push_unbuilt(alloc, *step, program, line),
        Told::BootTimeout { step } => push_step(b"boot timeout ", *step, line),
        Told::BootFlood { step } => push_step(b"boot flood ", *step, line),
        Told::BootDenied { step, code } => push_code(alloc, b"boot denied ", *step, *code, line),
        Told::BootRefused { step, status } => push_code(
            alloc,
            b"boot refused ",
            *step,
            *status,
            line,
        ),
        Told::BootNoPort => line.push_slice(b"boot noport getport"),
        Told::BootTooLarge { size } => push_count(alloc, b"boot toolarge ", *size, line),
        Told::BootLinkFault => line.push_slice(b"boot linkfault"),
        Told::WaitOk { ticks } => push_wait(alloc, *ticks, b" ok", line),
        Told::WaitFlood { ticks } => push_wait(alloc, *ticks, b" flood wait", line),
        Told::WaitLinkFault { ticks } => push_wait(alloc, *ticks, b" linkfault", line),
    }
}

/// Writes an answer line, with its line feed, at the end of a text. A refused call changes nothing.
pub fn write_answer(alloc: Global, answer: &Told, text: &mut ByteList) -> Result<(), NoMemory>
    ensures ok { OnOk result (text.new ≡ text.old ++ answer_line answer.now) }
    ensures err { OnErr result (text.new ≡ text.old) }
{
    let mut line = ByteList::empty(alloc);
    push_answer(alloc, answer, &mut line)?;
    line.push_slice(b"\n")?;
    text.push_slice(line.as_slice())
}
