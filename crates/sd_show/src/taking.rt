//! Reading the texts of values and of fields, whose bytes are written.

ghost use Rattle.std.specs.Prelude.{◌≡◌, ◌++◌, codes, OnOk};
ghost use Rattle.sd_xdr.specs.Kind as xdr;
ghost use Rattle.sd_xdr.specs.Kind.{number, list};
ghost use Rattle.sd_xdr.specs.Grammar.{writes};
ghost use Rattle.sd_bootparams.specs.Layout.{ip, ip_value};
ghost use Rattle.sd_text.specs.Kind.{any, word, digits, said};
ghost use Rattle.sd_text.specs.Reading.{Takes, TakesSaid};
ghost use Rattle.sd_show.specs.Forms.{as_number, as_ip, as_run, as_quoted, form_kind, text_kind, items, smaller};
ghost use Rattle.sd_show.specs.Fields.{field, checked, field_name, fields_kind, fields_text};
ghost use Rattle.sd_show.specs.Packing.{form_of, fields_of, TakesForm, TakesAs, TakesMore};

use crate::fields::Field;
use crate::form::{Fields, Form};
use sd_outside::NoMemory;
use sd_text::{LineError, TextReader};
use sd_xdr::XdrWriter;
use std::alloc::Global;

/// The most bytes of a datagram, which has fewer items.
pub const LONGEST: usize = 9216;

/// A number up to `most`, as a word.
pub fn take_word(reader: &mut TextReader, most: u32) -> Result<u32, LineError>
    ensures { Takes (word (digits 0 most)) number reader.old reader.new result }
{
    Ok(reader.number(0, u64::from(most))? as u32)
}

#[tactic(auto, unfolding(crate::specs::Packing::packs_as))]
fn take_number(reader: &mut TextReader, writer: &mut XdrWriter) -> Result<(), LineError>
    ensures { TakesForm (as_number xdr.any) writer.old reader.old writer.new reader.new result }
{
    let word = take_word(reader, 4_294_967_295)?;
    writer.u32(word)?;
    Ok(())
}

#[tactic(auto, unfolding(crate::specs::Packing::packs_as))]
fn take_flag(reader: &mut TextReader, writer: &mut XdrWriter) -> Result<(), LineError>
    ensures { TakesForm (as_number xdr.flag) writer.old reader.old writer.new reader.new result }
{
    let word = take_word(reader, 1)?;
    writer.u32(word)?;
    Ok(())
}

#[tactic(auto, unfolding(crate::specs::Packing::packs_as))]
fn take_port(reader: &mut TextReader, writer: &mut XdrWriter) -> Result<(), LineError>
    ensures { TakesForm (as_number (xdr.between 0 65535)) writer.old reader.old writer.new reader.new result }
{
    let word = take_word(reader, 65_535)?;
    writer.u32(word)?;
    Ok(())
}

/// An address: a type, which is 1, and four chars.
fn put_ip(writer: &mut XdrWriter, address: u32) -> Result<(), NoMemory>
    ensures { OnOk result (writer.new ≡ writer.old ++ writes ip (ip_value address)) }
{
    let [net, host, lh, impno] = address.to_be_bytes();
    writer.u32(1)?;
    writer.char(net)?;
    writer.char(host)?;
    writer.char(lh)?;
    writer.char(impno)?;
    Ok(())
}

#[tactic(auto, unfolding(crate::specs::Packing::packs_as))]
fn take_ip(reader: &mut TextReader, writer: &mut XdrWriter) -> Result<(), LineError>
    ensures { TakesForm as_ip writer.old reader.old writer.new reader.new result }
{
    let address = reader.ip()?;
    put_ip(writer, address)?;
    Ok(())
}

#[tactic(auto, unfolding(crate::specs::Packing::packs_as))]
fn take_fixed(
    alloc: Global,
    reader: &mut TextReader,
    writer: &mut XdrWriter,
    len: u32,
) -> Result<(), LineError>
    ensures { TakesForm (as_run (xdr.fixed len)) writer.old reader.old writer.new reader.new result }
{
    let bytes = reader.run(alloc, len as usize, len as usize)?;
    writer.opaque_fixed(bytes.as_slice())?;
    Ok(())
}

/// The smaller of two lengths.
fn smaller(one: usize, other: usize) -> usize
    ensures { result ≡ smaller one other }
{
    if one <= other { one } else { other }
}

#[tactic(auto, unfolding(crate::specs::Packing::packs_as))]
fn take_run(
    alloc: Global,
    reader: &mut TextReader,
    writer: &mut XdrWriter,
    most: u32,
) -> Result<(), LineError>
    ensures { TakesForm (as_run (xdr.upto most)) writer.old reader.old writer.new reader.new result }
{
    let bytes = reader.run(alloc, 0, smaller(most as usize, LONGEST))?;
    writer.opaque_var(bytes.as_slice())?;
    Ok(())
}

#[tactic(auto, unfolding(crate::specs::Packing::packs_as))]
fn take_quoted(
    alloc: Global,
    reader: &mut TextReader,
    writer: &mut XdrWriter,
    most: u32,
) -> Result<(), LineError>
    ensures { TakesForm (as_quoted most) writer.old reader.old writer.new reader.new result }
{
    let bytes = reader.quoted(alloc, most as usize)?;
    writer.opaque_var(bytes.as_slice())?;
    Ok(())
}

/// A value.
#[cycle(form)]
pub fn take_form(
    alloc: Global,
    reader: &mut TextReader,
    writer: &mut XdrWriter,
    form: &Form,
) -> Result<(), LineError>
    ensures { TakesForm (form_of form.now) writer.old reader.old writer.new reader.new result }
{
    match form {
        Form::Number => take_number(reader, writer),
        Form::Flag => take_flag(reader, writer),
        Form::Port => take_port(reader, writer),
        Form::Address => take_ip(reader, writer),
        Form::Fixed { len } => take_fixed(alloc, reader, writer, *len),
        Form::Run { most } => take_run(alloc, reader, writer, *most),
        Form::Quoted { most } => take_quoted(alloc, reader, writer, *most),
        Form::Pair(first, second) => {
            take_form(alloc, reader, writer, first)?;
            reader.said(b",")?;
            take_form(alloc, reader, writer, second)
        }
        Form::List(item) => {
            reader.said(b"[")?;
            take_items(alloc, reader, writer, item)?;
            reader.said(b"]")
        }
        Form::Row(inner) => {
            reader.said(b"(")?;
            take_form(alloc, reader, writer, inner)?;
            reader.said(b")")
        }
    }
}

/// What stands between brackets: each item behind the bool 1, and at the end the bool 0.
#[cycle(form)]
fn take_items(
    alloc: Global,
    reader: &mut TextReader,
    writer: &mut XdrWriter,
    item: &Form,
) -> Result<(), LineError>
    ensures { TakesAs (items (text_kind (form_of item.now))) (list (form_kind (form_of item.now))) writer.old reader.old writer.new reader.new result }
{
    if !reader.begins_other(b']') {
        writer.bool(false)?;
        return Ok(());
    }
    writer.bool(true)?;
    take_form(alloc, reader, writer, item)?;
    take_more(alloc, reader, writer, item)
}

/// The items behind the first.
#[cycle(form)]
fn take_more(
    alloc: Global,
    reader: &mut TextReader,
    writer: &mut XdrWriter,
    item: &Form,
) -> Result<(), LineError>
    ensures { TakesMore (text_kind (form_of item.now)) (form_kind (form_of item.now)) writer.old reader.old writer.new reader.new result }
{
    'taking: for _ in 0..LONGEST {
        if !reader.begins(b',') {
            writer.bool(false)?;
            return Ok(());
        }
        reader.said(b",")?;
        writer.bool(true)?;
        take_form(alloc, reader, writer, item)?;
    }
    writer.bool(false)?;
    Ok(())
}

fn take_word_of(reader: &mut TextReader, field: Field) -> Result<(), LineError>
    ensures { TakesSaid (field_name field) reader.old reader.new result }
{
    reader.said(field.name().as_bytes())
}

/// A space, and NAME=.
fn take_name(reader: &mut TextReader, field: Field) -> Result<(), LineError>
    ensures { TakesSaid (codes " " ++ (field_name field ++ codes "=")) reader.old reader.new result }
{
    reader.said(b" ")?;
    take_word_of(reader, field)?;
    reader.said(b"=")
}

/// A field.
fn take_field(
    alloc: Global,
    reader: &mut TextReader,
    writer: &mut XdrWriter,
    one: Field,
) -> Result<(), LineError>
    ensures { TakesAs (fields_text (field one)) (fields_kind (field one)) writer.old reader.old writer.new reader.new result }
{
    take_name(reader, one)?;
    take_form(alloc, reader, writer, &one.form())
}

/// A status.
#[tactic(auto, unfolding(sd_text::specs::Reading::reading))]
fn take_status(reader: &mut TextReader) -> Result<u32, LineError>
    ensures { Takes (said (codes " " ++ (field_name Field.Status ++ codes "=")) any) number reader.old reader.new result }
{
    take_name(reader, Field::Status)?;
    take_word(reader, 4_294_967_295)
}

/// Fields, whose bytes are written.
#[cycle(fields)]
#[tactic(auto, using(crate::proofs::Packed::nothing_packs))]
pub fn take_fields(
    alloc: Global,
    reader: &mut TextReader,
    writer: &mut XdrWriter,
    fields: &Fields,
) -> Result<(), LineError>
    ensures { TakesAs (fields_text (fields_of fields.now)) (fields_kind (fields_of fields.now)) writer.old reader.old writer.new reader.new result }
{
    match fields {
        Fields::Nothing => Ok(()),
        Fields::One(one) => take_field(alloc, reader, writer, *one),
        Fields::Both(first, second) => {
            take_fields(alloc, reader, writer, first)?;
            take_fields(alloc, reader, writer, second)
        }
        Fields::Numbered(_, inner) => take_fields(alloc, reader, writer, inner),
        Fields::Checked(inner) => take_checked(alloc, reader, writer, inner),
    }
}

/// A status, and the fields where it is 0.
#[cycle(fields)]
fn take_checked(
    alloc: Global,
    reader: &mut TextReader,
    writer: &mut XdrWriter,
    inner: &Fields,
) -> Result<(), LineError>
    ensures { TakesAs (fields_text (checked (fields_of inner.now))) (fields_kind (checked (fields_of inner.now))) writer.old reader.old writer.new reader.new result }
{
    let status = take_status(reader)?;
    writer.u32(status)?;
    if status != 0 {
        return Ok(());
    }
    take_fields(alloc, reader, writer, inner)
}
