ghost use Rattle.std.specs.Prelude.{◌≢◌, IsTrue, ◌↔◌, IfSome};
ghost use Rattle.sd_config.specs.declared.config.SwapLine.{SwapLine};
ghost use Rattle.sd_script.specs.Judging.{Judges};
ghost use Rattle.sd_script.specs.Lines.{ArchLine, HostLine, MayAddHost, RootLine, KernelLine, SwapFileLine, MayBeRoot, MayBeSwap};

use crate::draft::{Draft, Section};
use crate::fields::{take_name, take_path};
use crate::limits::HOST_COUNT;
use crate::lines::heading::in_section;
use sd_bootparams::Host;
use sd_config::{Config, SwapLine};
use sd_outside::ByteList;
use sd_text::{LineError, Parts, same_text, take_end, take_ip, take_number};
use std::alloc::Global;

/// `arch NAME`
pub fn arch_line(alloc: Global, draft: &mut Draft, mut fields: Parts<'_>) -> Result<(), LineError>
    ensures { Judges ArchLine draft.old fields.entry draft.new result }
{
    in_section(draft, Section::Config)?;
    let name = take_name(&mut fields)?;
    take_end(&mut fields)?;
    if !draft.config.arch.as_slice().is_empty() {
        return Err(LineError::Outside);
    }
    draft.config.arch = ByteList::from_slice(alloc, name)?;
    Ok(())
}

/// Whether a machine of this name may be added.
fn may_add_host(config: &Config, name: &[u8]) -> bool
    ensures { IsTrue result ↔ MayAddHost config.now name.now }
{
    config.hosts.as_slice().len() < HOST_COUNT
        && !same_text(config.server.name.as_slice(), name)
        && !same_text(config.client.name.as_slice(), name)
        && config
            .hosts
            .as_slice()
            .iter()
            .all(|host| !same_text(host.name.as_slice(), name))
}

/// `host NAME IP`
pub fn host_line(alloc: Global, draft: &mut Draft, mut fields: Parts<'_>) -> Result<(), LineError>
    ensures { Judges HostLine draft.old fields.entry draft.new result }
{
    in_section(draft, Section::Config)?;
    let name = take_name(&mut fields)?;
    let ip = take_ip(&mut fields)?;
    take_end(&mut fields)?;
    if !may_add_host(&draft.config, name) {
        return Err(LineError::Outside);
    }
    let name = ByteList::from_slice(alloc, name)?;
    draft.config.hosts.push(Host { name, ip })?;
    Ok(())
}

/// `kernel PATH`
pub fn kernel_line(alloc: Global, draft: &mut Draft, mut fields: Parts<'_>) -> Result<(), LineError>
    ensures { Judges KernelLine draft.old fields.entry draft.new result }
{
    in_section(draft, Section::Config)?;
    let path = take_path(&mut fields)?;
    take_end(&mut fields)?;
    if !draft.config.kernel.as_slice().is_empty() {
        return Err(LineError::Outside);
    }
    draft.config.kernel = ByteList::from_slice(alloc, path)?;
    Ok(())
}

/// Whether the root export, where there is one, has another path.
fn isnt_root(root: &Option<ByteList>, path: &[u8]) -> bool
    ensures { IsTrue result ↔ IfSome root.now (λ root. root ≢ path.now) }
{
    match root {
        None => true,
        Some(root) => !same_text(root.as_slice(), path),
    }
}

/// Whether the swap file, where there is one, has another path.
fn isnt_swap(swap: &Option<SwapLine>, path: &[u8]) -> bool
    ensures { IsTrue result ↔ IfSome swap.now (λ (swap : SwapLine). swap.path ≢ path.now) }
{
    match swap {
        None => true,
        Some(swap) => !same_text(swap.path.as_slice(), path),
    }
}

/// Whether this may be the path of the root export.
fn may_be_root(config: &Config, path: &[u8]) -> bool
    ensures { IsTrue result ↔ MayBeRoot config.now path.now }
{
    config.root.is_none() && isnt_swap(&config.swap, path)
}

/// `root PATH`
pub fn root_line(alloc: Global, draft: &mut Draft, mut fields: Parts<'_>) -> Result<(), LineError>
    ensures { Judges RootLine draft.old fields.entry draft.new result }
{
    in_section(draft, Section::Config)?;
    let path = take_path(&mut fields)?;
    take_end(&mut fields)?;
    if !may_be_root(&draft.config, path) {
        return Err(LineError::Outside);
    }
    draft.config.root = Some(ByteList::from_slice(alloc, path)?);
    Ok(())
}

/// Whether this may be the path of the swap file.
fn may_be_swap(config: &Config, path: &[u8]) -> bool
    ensures { IsTrue result ↔ MayBeSwap config.now path.now }
{
    config.swap.is_none() && isnt_root(&config.root, path)
}

/// `swap PATH SIZE`
pub fn swap_line(alloc: Global, draft: &mut Draft, mut fields: Parts<'_>) -> Result<(), LineError>
    ensures { Judges SwapFileLine draft.old fields.entry draft.new result }
{
    in_section(draft, Section::Config)?;
    let path = take_path(&mut fields)?;
    let size = take_number(&mut fields, 8192, 33_554_432)?;
    take_end(&mut fields)?;
    if !may_be_swap(&draft.config, path) {
        return Err(LineError::Outside);
    }
    let path = ByteList::from_slice(alloc, path)?;
    draft.config.swap = Some(SwapLine { path, size });
    Ok(())
}
