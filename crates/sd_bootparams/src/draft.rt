//! A bootparams file that is read line by line.

ghost use Rattle.std.specs.Prelude.{◌≡◌, ◌∷◌, [], map, ◌<◌, ◌&&◌, Err, IfOk, IfErr};
ghost use Rattle.sd_bootparams.specs.File.{IsFile, words_of, on_line, client_fault, item_fault, as_client, as_item, adding, has_client, has_key, is_too_long, same};
ghost use Rattle.sd_bootparams.specs.LineByLine.{in_place, one_in, after_word, after_words, after_line, line_parts, blank};
ghost use Rattle.sd_bootparams.specs.declared.params.ParamsError.TheVariants as errors;
ghost use Rattle.sd_bootparams.specs.Judging.{Judges, JudgesPiece, Adds, IsParamsError};

use crate::params::{Entry, Params, ParamsError, Why};
use crate::words::{Pieces, bare, begins_comment, cut_once, goes_on, has, is_text, same};
use sd_outside::{ByteList, NoMemory, split_line};
use std::alloc::Global;

/// What the next word is.
#[derive(Debug, Drop)]
pub enum Next {
    /// The client of a line.
    Client,
    /// An item of this client.
    ItemOf(ByteList),
    /// A part of a comment.
    Skipped,
}

/// What the lines so far say, and what the next word is.
#[derive(Debug, Drop)]
pub struct Draft {
    pub params: Params,
    pub next: Next,
}

fn bad(line: u64, why: Why) -> Result<(), ParamsError>
    ensures { result ≡ Err (errors.Bad line why) }
{
    Err(ParamsError::Bad { line, why })
}

/// Whether the client has a line.
pub(crate) fn has_client(params: &Params, client: &[u8]) -> bool
    ensures { result ≡ has_client params.now client.now }
{
    params
        .clients()
        .iter()
        .any(|other| same(other.as_slice(), client))
}

pub(crate) fn is_entry(entry: &Entry, client: &[u8], key: &[u8]) -> bool
    ensures { result ≡ (same entry.now.client client.now && same entry.now.key key.now) }
{
    same(entry.client.as_slice(), client) && same(entry.key.as_slice(), key)
}

fn is_too_long(key: &[u8], server: &[u8], path: &[u8]) -> bool
    ensures { result ≡ is_too_long key.now server.now path.now }
{
    key.len() > 32 || server.len() > 255 || path.len() > 1024
}

/// The client of a line.
fn add_client(alloc: Global, params: &mut Params, line: u64, text: &[u8]) -> Result<(), ParamsError>
    ensures { Adds (client_fault params.old text.now) line params.new (adding params.old (as_client (on_line line text.now) ∷ [])) result }
{
    if !is_text(text) {
        return bad(line, Why::NotText);
    }
    if has(text, b'=') {
        return bad(line, Why::NoName);
    }
    if text.len() > 255 {
        return bad(line, Why::TooLong);
    }
    if params.add_client(alloc, ByteList::from_slice(alloc, text)?)? {
        Ok(())
    } else {
        bad(line, Why::DoubleClient)
    }
}

/// An entry of copies.
fn entry_of(
    alloc: Global,
    client: &[u8],
    key: &[u8],
    server: &[u8],
    path: &[u8],
) -> Result<Entry, NoMemory>
    ensures { IfOk result (λ entry. entry ≡ record { client = client.now; key = key.now; server = server.now; path = path.now }) }
{
    Ok(Entry {
        client: ByteList::from_slice(alloc, client)?,
        key: ByteList::from_slice(alloc, key)?,
        server: ByteList::from_slice(alloc, server)?,
        path: ByteList::from_slice(alloc, path)?,
    })
}

/// An item of a client.
fn add_item(
    alloc: Global,
    params: &mut Params,
    client: &[u8],
    line: u64,
    text: &[u8],
) -> Result<(), ParamsError>
    ensures { Adds (item_fault params.old client.now text.now) line params.new (adding params.old (as_item client.now (on_line line text.now) ∷ [])) result }
{
    if !is_text(text) {
        return bad(line, Why::NotText);
    }
    let Some((key, value)) = cut_once(text, b'=') else {
        return bad(line, Why::NoEquals);
    };
    let Some((server, path)) = cut_once(value, b':') else {
        return bad(line, Why::NoColon);
    };
    if is_too_long(key, server, path) {
        return bad(line, Why::TooLong);
    }
    let entry = entry_of(alloc, client, key, server, path)?;
    if params.add_entry(alloc, entry)? {
        Ok(())
    } else {
        bad(line, Why::DoubleKey)
    }
}

/// The next word.
fn read_word(alloc: Global, draft: &mut Draft, line: u64, text: &[u8]) -> Result<(), ParamsError>
    ensures { Judges draft.old (one_in draft.old.next (on_line line text.now)) (after_word draft.old.next text.now) draft.new result }
{
    if begins_comment(text) {
        draft.next = Next::Skipped;
        return Ok(());
    }
    match &draft.next {
        Next::Client => {
            add_client(alloc, &mut draft.params, line, text)?;
            draft.next = Next::ItemOf(ByteList::from_slice(alloc, text)?);
            Ok(())
        }
        Next::ItemOf(client) => add_item(alloc, &mut draft.params, client.as_slice(), line, text),
        Next::Skipped => Ok(()),
    }
}

/// What stands between two blanks.
fn read_piece(alloc: Global, draft: &mut Draft, line: u64, piece: &[u8]) -> Result<(), ParamsError>
    ensures { JudgesPiece draft.old line piece.now draft.new result }
{
    if piece.is_empty() {
        return Ok(());
    }
    read_word(alloc, draft, line, piece)
}

fn read_pieces(
    alloc: Global,
    draft: &mut Draft,
    number: u64,
    text: &[u8],
) -> Result<(), ParamsError>
    ensures { Judges draft.old (in_place draft.old.next (map (on_line number) (words_of text.now))) (after_words draft.old.next (words_of text.now)) draft.new result }
{
    let mut pieces = Pieces::new(text);
    while let Some(piece) = pieces.next() {
        read_piece(alloc, draft, number, piece)?;
    }
    Ok(())
}

/// The next line of a file, with its line feed where it has one; `number` is the line that a refusal names. After an error the draft
/// says nothing more.
pub fn read_line(
    alloc: Global,
    draft: &mut Draft,
    number: u64,
    line: &[u8],
) -> Result<(), ParamsError>
    ensures { Judges draft.old (line_parts draft.old.next number line.now) (after_line draft.old.next line.now) draft.new result }
{
    read_pieces(alloc, draft, number, bare(line))?;
    if !goes_on(line) {
        draft.next = Next::Client;
    }
    Ok(())
}

/// A draft of which no line has come.
pub fn blank_draft(alloc: Global) -> Draft
    ensures { result ≡ blank }
{
    Draft {
        params: Params::empty(alloc),
        next: Next::Client,
    }
}

/// What a bootparams file says. `Bad` has the first word that is refused, from left to right: the line on which it begins, counted
/// from 1 with joined lines apart, and the first reason in the order of `Why`.
pub fn read_params(alloc: Global, text: &[u8]) -> Result<Params, ParamsError>
    ensures says { IfOk result (IsFile text.now) }
    ensures refused { IfErr result (IsParamsError text.now) }
{
    let mut draft = blank_draft(alloc);
    let mut rest = text;
    let mut number: u64 = 0;
    while !rest.is_empty() {
        let (line, after) = split_line(rest);
        number += 1;
        read_line(alloc, &mut draft, number, line)?;
        rest = after;
    }
    Ok(draft.params)
}
