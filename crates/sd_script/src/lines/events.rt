ghost use Rattle.std.specs.Prelude.{◌≡◌, IsTrue, ◌↔◌};
ghost use Rattle.sd_config.specs.Events.{IsElsewhere};
ghost use Rattle.sd_text.specs.Answers.{Reads, Tells, Finds};
ghost use Rattle.sd_script.specs.Judging.{Judges, ReadsDelay};
ghost use Rattle.sd_script.specs.Lines.{FateLine, MayBeEvent, IsDelays, StrangerLine, FaultLine, fault_word, fault_number};

use crate::draft::{Draft, Section};
use crate::limits::{BODY_LIMIT, STRANGER_LIMIT};
use sd_config::{Config, Fate, PlannedFault, Stranger, TickList};
use sd_outside::Addr;
use sd_portmap::PMAP_PORT;
use sd_text::{
    LineError, Parts, read_number, same_text, take_addr, take_end, take_number, take_runs,
};
use std::alloc::Global;

/// The next line may be an event line.
fn may_be_event(section: Section) -> Result<(), LineError>
    ensures { Tells (MayBeEvent section) result }
{
    match section {
        Section::Config | Section::Events => Ok(()),
        _ => Err(LineError::Outside),
    }
}

/// One delay more.
fn push_delay(delays: &mut TickList, text: &[u8], life: u64) -> Result<(), LineError>
    ensures { ReadsDelay life delays.old text.now delays.new result }
{
    if delays.as_slice().len() >= 8 {
        return Err(LineError::Outside);
    }
    let Some(delay) = read_number(text, 1, life.saturating_sub(1)) else {
        return Err(LineError::Outside);
    };
    delays.push(delay)?;
    Ok(())
}

/// `none`, or 1 to 8 delays from 1 to `life - 1`.
fn read_delays(alloc: Global, mut fields: Parts<'_>, life: u64) -> Result<TickList, LineError>
    ensures { Reads (IsDelays life fields.entry) result }
{
    let mut delays = TickList::empty(alloc);
    let Some(first) = fields.next() else {
        return Err(LineError::Outside);
    };
    if same_text(first, b"none") {
        take_end(&mut fields)?;
        return Ok(delays);
    }
    push_delay(&mut delays, first, life)?;
    while let Some(text) = fields.next() {
        push_delay(&mut delays, text, life)?;
    }
    Ok(delays)
}

/// `fate ID none`, `fate ID D ..`
pub fn fate_line(alloc: Global, draft: &mut Draft, mut fields: Parts<'_>) -> Result<(), LineError>
    ensures { Judges FateLine draft.old fields.entry draft.new result }
{
    may_be_event(draft.section)?;
    let id = take_number(&mut fields, 0, 4_294_967_295)?;
    let delays = read_delays(alloc, fields, draft.config.life)?;
    if !draft.fates.may_add(id) {
        return Err(LineError::Outside);
    }
    draft.fates.add(Fate { id, delays })?;
    draft.section = Section::Events;
    Ok(())
}

/// Whether an address is neither end's, and not that of a portmapper.
fn is_elsewhere(config: &Config, src: Addr) -> bool
    ensures { IsTrue result ↔ IsElsewhere config.now.client.ip config.now.server.ip src }
{
    src.ip != config.client.ip && src.ip != config.server.ip && src.port != PMAP_PORT
}

/// `stranger TICK ADDR ADDR BYTES`
pub fn stranger_line(
    alloc: Global,
    draft: &mut Draft,
    mut fields: Parts<'_>,
) -> Result<(), LineError>
    ensures { Judges StrangerLine draft.old fields.entry draft.new result }
{
    may_be_event(draft.section)?;
    let tick = take_number(&mut fields, 1, 4_294_967_295)?;
    let src = take_addr(&mut fields)?;
    let dst = take_addr(&mut fields)?;
    let body = take_runs(alloc, &mut fields, BODY_LIMIT)?;
    take_end(&mut fields)?;
    if !is_elsewhere(&draft.config, src) {
        return Err(LineError::Outside);
    }
    if draft.strangers.as_slice().len() >= STRANGER_LIMIT {
        return Err(LineError::Outside);
    }
    draft.strangers.push(Stranger {
        tick,
        src,
        dst,
        body,
    })?;
    draft.section = Section::Events;
    Ok(())
}

/// The fault that this word and this number plan.
fn planned(word: &[u8], number: u64) -> Option<PlannedFault>
    ensures { Finds (λ fault. (word.now ≡ fault_word fault) × (number ≡ fault_number fault)) result }
{
    match word {
        b"send" => Some(PlannedFault::Send { id: number }),
        b"recv" => Some(PlannedFault::Recv { call: number }),
        _ => None,
    }
}

/// `fault send ID`, `fault recv N`
pub fn fault_line(draft: &mut Draft, mut fields: Parts<'_>) -> Result<(), LineError>
    ensures { Judges FaultLine draft.old fields.entry draft.new result }
{
    may_be_event(draft.section)?;
    let Some(word) = fields.next() else {
        return Err(LineError::Outside);
    };
    let number = take_number(&mut fields, 0, 4_294_967_295)?;
    take_end(&mut fields)?;
    let Some(fault) = planned(word, number) else {
        return Err(LineError::Outside);
    };
    draft.faults.push(fault)?;
    draft.section = Section::Events;
    Ok(())
}
