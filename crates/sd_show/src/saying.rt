//! Writing the texts of values and of fields, which are read from their bytes.

ghost use Rattle.std.specs.Prelude.{◌≡◌, ◌++◌, codes, OnOk};
ghost use Rattle.sd_xdr.specs.Kind as xdr;
ghost use Rattle.sd_xdr.specs.Kind.{number, truth, list};
ghost use Rattle.sd_xdr.specs.Reading.{Takes};
ghost use Rattle.sd_bootparams.specs.Layout.{ip, ip_value};
ghost use Rattle.sd_show.specs.Forms.{as_number, as_ip, as_run, as_quoted, form_kind, text_kind, items};
ghost use Rattle.sd_show.specs.Fields.{field, checked, field_name};
ghost use Rattle.sd_show.specs.Saying.{Says, SaysAs, SaysFields};
ghost use Rattle.sd_show.specs.Packing.{form_of, fields_of};

use crate::fields::Field;
use crate::form::{Fields, Form};
use sd_outside::NoMemory;
use sd_text::TextWriter;
use sd_xdr::{MsgError, XdrReader};

#[tactic(auto, unfolding(sd_xdr::specs::Reading::reading, sd_text::specs::Grammar::writes))]
fn say_number(writer: &mut TextWriter, reader: &mut XdrReader) -> Result<(), MsgError>
    ensures { Says (as_number xdr.any) reader.old reader.new writer.old writer.new result }
{
    let word = reader.u32()?;
    writer.number(u64::from(word))?;
    Ok(())
}

/// 1 for true and 0 for false.
fn digit_of(flag: bool) -> u64
    ensures { number result ≡ truth flag }
{
    if flag { 1 } else { 0 }
}

#[tactic(auto, unfolding(sd_xdr::specs::Reading::reading, sd_text::specs::Grammar::writes))]
fn say_flag(writer: &mut TextWriter, reader: &mut XdrReader) -> Result<(), MsgError>
    ensures { Says (as_number xdr.flag) reader.old reader.new writer.old writer.new result }
{
    let flag = reader.bool()?;
    writer.number(digit_of(flag))?;
    Ok(())
}

#[tactic(auto, unfolding(sd_xdr::specs::Reading::reading, sd_text::specs::Grammar::writes))]
fn say_port(writer: &mut TextWriter, reader: &mut XdrReader) -> Result<(), MsgError>
    ensures { Says (as_number (xdr.between 0 65535)) reader.old reader.new writer.old writer.new result }
{
    let port = reader.word_between(0, 65_535)?;
    writer.number(u64::from(port))?;
    Ok(())
}

/// An address: a type, which is 1, and four chars.
#[tactic(auto, unfolding(sd_xdr::specs::Reading::reading))]
fn read_address(reader: &mut XdrReader) -> Result<u32, MsgError>
    ensures { Takes ip ip_value reader.old reader.new result }
{
    reader.word_between(1, 1)?;
    let net = reader.char()?;
    let host = reader.char()?;
    let lh = reader.char()?;
    let impno = reader.char()?;
    Ok(u32::from_be_bytes([net, host, lh, impno]))
}

fn say_ip(writer: &mut TextWriter, reader: &mut XdrReader) -> Result<(), MsgError>
    ensures { Says as_ip reader.old reader.new writer.old writer.new result }
{
    let address = read_address(reader)?;
    writer.ip(address)?;
    Ok(())
}

#[tactic(auto, unfolding(sd_xdr::specs::Reading::reading, sd_text::specs::Grammar::writes))]
fn say_fixed(writer: &mut TextWriter, reader: &mut XdrReader, len: u32) -> Result<(), MsgError>
    ensures { Says (as_run (xdr.fixed len)) reader.old reader.new writer.old writer.new result }
{
    let bytes = reader.opaque_fixed(len as usize)?;
    writer.run(bytes)?;
    Ok(())
}

#[tactic(auto, unfolding(sd_xdr::specs::Reading::reading, sd_text::specs::Grammar::writes))]
fn say_run(writer: &mut TextWriter, reader: &mut XdrReader, most: u32) -> Result<(), MsgError>
    ensures { Says (as_run (xdr.upto most)) reader.old reader.new writer.old writer.new result }
{
    let bytes = reader.opaque_var(most)?;
    writer.run(bytes)?;
    Ok(())
}

#[tactic(auto, unfolding(sd_xdr::specs::Reading::reading, sd_text::specs::Grammar::writes))]
fn say_quoted(writer: &mut TextWriter, reader: &mut XdrReader, most: u32) -> Result<(), MsgError>
    ensures { Says (as_quoted most) reader.old reader.new writer.old writer.new result }
{
    let bytes = reader.opaque_var(most)?;
    writer.quoted(bytes)?;
    Ok(())
}

/// A value.
#[cycle(form)]
pub fn say_form(
    writer: &mut TextWriter,
    reader: &mut XdrReader,
    form: &Form,
) -> Result<(), MsgError>
    ensures { Says (form_of form.now) reader.old reader.new writer.old writer.new result }
{
    match form {
        Form::Number => say_number(writer, reader),
        Form::Flag => say_flag(writer, reader),
        Form::Port => say_port(writer, reader),
        Form::Address => say_ip(writer, reader),
        Form::Fixed { len } => say_fixed(writer, reader, *len),
        Form::Run { most } => say_run(writer, reader, *most),
        Form::Quoted { most } => say_quoted(writer, reader, *most),
        Form::Pair(first, second) => {
            say_form(writer, reader, first)?;
            writer.said(b",")?;
            say_form(writer, reader, second)
        }
        Form::List(item) => {
            writer.said(b"[")?;
            say_items(writer, reader, item)?;
            writer.said(b"]")?;
            Ok(())
        }
        Form::Row(inner) => {
            writer.said(b"(")?;
            say_form(writer, reader, inner)?;
            writer.said(b")")?;
            Ok(())
        }
    }
}

/// The items of a list, each behind the bool 1, with a comma between each two.
#[cycle(form)]
fn say_items(writer: &mut TextWriter, reader: &mut XdrReader, item: &Form) -> Result<(), MsgError>
    ensures { SaysAs (items (text_kind (form_of item.now))) (list (form_kind (form_of item.now))) reader.old reader.new writer.old writer.new result }
{
    let mut before: &[u8] = b"";
    'saying: while reader.bool()? {
        writer.said(before)?;
        say_form(writer, reader, item)?;
        before = b",";
    }
    Ok(())
}

/// A space, the name of a field, and `=`.
fn say_name(writer: &mut TextWriter, field: Field) -> Result<(), NoMemory>
    ensures { OnOk result (writer.new ≡ writer.old ++ (codes " " ++ (field_name field ++ codes "="))) }
{
    writer.said(b" ")?;
    writer.said(field.name().as_bytes())?;
    writer.said(b"=")
}

/// A field.
fn say_field(writer: &mut TextWriter, reader: &mut XdrReader, one: Field) -> Result<(), MsgError>
    ensures { SaysFields (field one) reader.old reader.new writer.old writer.new result }
{
    say_name(writer, one)?;
    say_form(writer, reader, &one.form())
}

/// Fields.
#[cycle(fields)]
pub fn say_fields(
    writer: &mut TextWriter,
    reader: &mut XdrReader,
    fields: &Fields,
) -> Result<(), MsgError>
    ensures { SaysFields (fields_of fields.now) reader.old reader.new writer.old writer.new result }
{
    match fields {
        Fields::Nothing => Ok(()),
        Fields::One(one) => say_field(writer, reader, *one),
        Fields::Both(first, second) => {
            say_fields(writer, reader, first)?;
            say_fields(writer, reader, second)
        }
        Fields::Numbered(_, inner) => say_fields(writer, reader, inner),
        Fields::Checked(inner) => say_checked(writer, reader, inner),
    }
}

/// A status, and the fields where it is 0.
#[cycle(fields)]
fn say_checked(
    writer: &mut TextWriter,
    reader: &mut XdrReader,
    inner: &Fields,
) -> Result<(), MsgError>
    ensures { SaysFields (checked (fields_of inner.now)) reader.old reader.new writer.old writer.new result }
{
    let status = reader.u32()?;
    say_name(writer, Field::Status)?;
    writer.number(u64::from(status))?;
    if status != 0 {
        return Ok(());
    }
    say_fields(writer, reader, inner)
}
