ghost use Rattle.std.specs.Prelude.{◌+◌};
ghost use Rattle.sd_script.specs.Judging.{Judges, TakesRest};
ghost use Rattle.sd_script.specs.Lines.{ParamsLine};

use crate::draft::{Draft, Section};
use crate::limits::PARAMS_COUNT;
use crate::lines::heading::in_section;
use sd_bootparams::{ParamsError, read_line};
use sd_outside::ByteList;
use sd_text::{LineError, Parts};
use std::alloc::Global;

/// The rest of a line.
fn take_rest(alloc: Global, mut fields: Parts<'_>) -> Result<ByteList, LineError>
    ensures { TakesRest fields.entry result }
{
    let Some(first) = fields.next() else {
        return Err(LineError::Outside);
    };
    let mut text = ByteList::from_slice(alloc, first)?;
    while let Some(field) = fields.next() {
        text.push_slice(b" ")?;
        text.push_slice(field)?;
    }
    Ok(text)
}

/// `params TEXT`
pub fn params_line(alloc: Global, draft: &mut Draft, fields: Parts<'_>) -> Result<(), LineError>
    ensures { Judges ParamsLine draft.old fields.entry draft.new result }
{
    in_section(draft, Section::Config)?;
    let mut line = take_rest(alloc, fields)?;
    line.push_slice(b"\n")?;
    if draft.params_lines >= PARAMS_COUNT {
        return Err(LineError::Outside);
    }
    let number = draft.params_lines + 1;
    match read_line(alloc, &mut draft.params, number, line.as_slice()) {
        Ok(()) => {}
        Err(ParamsError::Bad { .. }) => return Err(LineError::Outside),
        Err(ParamsError::NoMemory) => return Err(LineError::NoMemory),
    }
    draft.config.params.push_slice(line.as_slice())?;
    draft.params_lines = number;
    Ok(())
}
