ghost use Rattle.std.specs.Prelude.{◌≡◌, IsTrue, ◌↔◌};
ghost use Rattle.sd_config.specs.Config.{item_path};
ghost use Rattle.sd_script.specs.Judging.{Judges};
ghost use Rattle.sd_script.specs.Lines.{TftpLine, FileLine, LinkLine, HasRoom, MayAddBootFile, MayAddItem};

use crate::draft::{Draft, Section};
use crate::fields::{take_name, take_path, take_target};
use crate::limits::{
    ALL_FILES_LIMIT, BOOT_FILE_COUNT, BOOT_FILE_LIMIT, ROOT_FILE_LIMIT, ROOT_ITEM_COUNT,
};
use crate::lines::heading::in_section;
use crate::paths::are_apart;
use sd_config::{BootFile, RootItem};
use sd_outside::ByteList;
use sd_text::{LineError, Parts, same_text, take_end, take_runs};
use std::alloc::Global;

/// Whether files may have so many bytes more.
fn has_room(draft: &Draft, more: usize) -> bool
    ensures { IsTrue result ↔ HasRoom draft.now more }
{
    draft.bytes <= ALL_FILES_LIMIT && more as u64 <= ALL_FILES_LIMIT - draft.bytes
}

/// Whether a boot file of this name may be added.
fn may_add_boot_file(files: &[BootFile], name: &[u8]) -> bool
    ensures { IsTrue result ↔ MayAddBootFile files.now name.now }
{
    files.len() < BOOT_FILE_COUNT
        && files
            .iter()
            .all(|file| !same_text(file.name.as_slice(), name))
}

/// `tftp NAME BYTES`
pub fn tftp_line(alloc: Global, draft: &mut Draft, mut fields: Parts<'_>) -> Result<(), LineError>
    ensures { Judges TftpLine draft.old fields.entry draft.new result }
{
    in_section(draft, Section::Config)?;
    let name = take_name(&mut fields)?;
    let bytes = take_runs(alloc, &mut fields, BOOT_FILE_LIMIT)?;
    take_end(&mut fields)?;
    if !may_add_boot_file(draft.config.tftp.as_slice(), name) {
        return Err(LineError::Outside);
    }
    if !has_room(draft, bytes.as_slice().len()) {
        return Err(LineError::Outside);
    }
    let more = bytes.as_slice().len() as u64;
    let name = ByteList::from_slice(alloc, name)?;
    draft.config.tftp.push(BootFile { name, bytes })?;
    draft.bytes += more;
    Ok(())
}

/// The path of a file or a link.
fn path_of(item: &RootItem) -> &[u8]
    ensures { result.now ≡ item_path item.now }
{
    match item {
        RootItem::File { path, .. } => path.as_slice(),
        RootItem::Symlink { path, .. } => path.as_slice(),
    }
}

/// Whether a file or a link of this path may be added.
fn may_add_item(items: &[RootItem], path: &[u8]) -> bool
    ensures { IsTrue result ↔ MayAddItem items.now path.now }
{
    items.len() < ROOT_ITEM_COUNT && items.iter().all(|item| are_apart(path_of(item), path))
}

/// `file PATH BYTES`
pub fn file_line(alloc: Global, draft: &mut Draft, mut fields: Parts<'_>) -> Result<(), LineError>
    ensures { Judges FileLine draft.old fields.entry draft.new result }
{
    in_section(draft, Section::Config)?;
    let path = take_path(&mut fields)?;
    let bytes = take_runs(alloc, &mut fields, ROOT_FILE_LIMIT)?;
    take_end(&mut fields)?;
    if !may_add_item(draft.config.items.as_slice(), path) {
        return Err(LineError::Outside);
    }
    if !has_room(draft, bytes.as_slice().len()) {
        return Err(LineError::Outside);
    }
    let more = bytes.as_slice().len() as u64;
    let path = ByteList::from_slice(alloc, path)?;
    draft.config.items.push(RootItem::File { path, bytes })?;
    draft.bytes += more;
    Ok(())
}

/// `link PATH TEXT`
pub fn link_line(alloc: Global, draft: &mut Draft, mut fields: Parts<'_>) -> Result<(), LineError>
    ensures { Judges LinkLine draft.old fields.entry draft.new result }
{
    in_section(draft, Section::Config)?;
    let path = take_path(&mut fields)?;
    let target = take_target(&mut fields)?;
    take_end(&mut fields)?;
    if !may_add_item(draft.config.items.as_slice(), path) {
        return Err(LineError::Outside);
    }
    let path = ByteList::from_slice(alloc, path)?;
    let text = ByteList::from_slice(alloc, target)?;
    draft.config.items.push(RootItem::Symlink { path, text })?;
    Ok(())
}
