//! The fields of a line that only scripts have, one after another.

ghost use Rattle.sd_config.specs.Config.{IsName, IsPath, IsTarget};
ghost use Rattle.sd_text.specs.Texts.{IsMac};
ghost use Rattle.sd_text.specs.Answers.{Takes, TakesText};

use crate::names::is_name;
use crate::paths::{is_path, is_target};
use sd_outside::Mac;
use sd_text::{LineError, Parts, read_mac};

/// A hardware address as the next field.
pub fn take_mac(fields: &mut Parts<'_>) -> Result<Mac, LineError>
    ensures { Takes IsMac fields.old fields.new result }
{
    let Some(text) = fields.next() else {
        return Err(LineError::Outside);
    };
    match read_mac(text) {
        Some(mac) => Ok(mac),
        None => Err(LineError::Outside),
    }
}

/// A name as the next field.
pub fn take_name<'a>(fields: &mut Parts<'a>) -> Result<&'a [u8], LineError>
    ensures { TakesText IsName fields.old fields.new result }
{
    let Some(text) = fields.next() else {
        return Err(LineError::Outside);
    };
    if is_name(text) {
        Ok(text)
    } else {
        Err(LineError::Outside)
    }
}

/// A path as the next field.
pub fn take_path<'a>(fields: &mut Parts<'a>) -> Result<&'a [u8], LineError>
    ensures { TakesText IsPath fields.old fields.new result }
{
    let Some(text) = fields.next() else {
        return Err(LineError::Outside);
    };
    if is_path(text) {
        Ok(text)
    } else {
        Err(LineError::Outside)
    }
}

/// What a link names as the next field.
pub fn take_target<'a>(fields: &mut Parts<'a>) -> Result<&'a [u8], LineError>
    ensures { TakesText IsTarget fields.old fields.new result }
{
    let Some(text) = fields.next() else {
        return Err(LineError::Outside);
    };
    if is_target(text) {
        Ok(text)
    } else {
        Err(LineError::Outside)
    }
}
