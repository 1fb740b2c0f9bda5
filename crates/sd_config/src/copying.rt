//! Copies of a configuration.
ghost use Rattle.std.specs.Prelude.{◌≡◌, ◌++◌, IfOk, OnOk};

use crate::config::{BootFile, BootFileList, Config, Machine, RootItem, RootItemList, SwapLine};
use sd_bootparams::{Host, Hosts};
use sd_outside::{ByteList, NoMemory};
use std::alloc::Global;

impl Machine {
    fn copy(&self) -> Result<Machine, NoMemory>
        ensures { IfOk result (λ copy. copy ≡ self.now) }
    {
        Ok(Machine {
            mac: self.mac,
            ip: self.ip,
            name: self.name.copy()?,
        })
    }
}

impl BootFile {
    fn copy(&self) -> Result<BootFile, NoMemory>
        ensures { IfOk result (λ copy. copy ≡ self.now) }
    {
        Ok(BootFile {
            name: self.name.copy()?,
            bytes: self.bytes.copy()?,
        })
    }
}

impl RootItem {
    fn copy(&self) -> Result<RootItem, NoMemory>
        ensures { IfOk result (λ copy. copy ≡ self.now) }
    {
        match self {
            RootItem::File { path, bytes } => Ok(RootItem::File {
                path: path.copy()?,
                bytes: bytes.copy()?,
            }),
            RootItem::Symlink { path, text } => Ok(RootItem::Symlink {
                path: path.copy()?,
                text: text.copy()?,
            }),
        }
    }
}

impl SwapLine {
    fn copy(&self) -> Result<SwapLine, NoMemory>
        ensures { IfOk result (λ copy. copy ≡ self.now) }
    {
        Ok(SwapLine {
            path: self.path.copy()?,
            size: self.size,
        })
    }
}

fn host_copy(host: &Host) -> Result<Host, NoMemory>
    ensures { IfOk result (λ copy. copy ≡ host.now) }
{
    Ok(Host {
        name: host.name.copy()?,
        ip: host.ip,
    })
}

fn push_hosts(list: &mut Hosts, hosts: &[Host]) -> Result<(), NoMemory>
    ensures { OnOk result (list.new ≡ list.old ++ hosts.now) }
{
    for host in hosts {
        list.push(host_copy(host)?)?;
    }
    Ok(())
}

fn push_files(list: &mut BootFileList, files: &[BootFile]) -> Result<(), NoMemory>
    ensures { OnOk result (list.new ≡ list.old ++ files.now) }
{
    for file in files {
        list.push(file.copy()?)?;
    }
    Ok(())
}

fn push_items(list: &mut RootItemList, items: &[RootItem]) -> Result<(), NoMemory>
    ensures { OnOk result (list.new ≡ list.old ++ items.now) }
{
    for item in items {
        list.push(item.copy()?)?;
    }
    Ok(())
}

fn hosts_copy(alloc: Global, hosts: &Hosts) -> Result<Hosts, NoMemory>
    ensures { IfOk result (λ copy. copy ≡ hosts.now) }
{
    let mut list = Hosts::empty(alloc);
    push_hosts(&mut list, hosts.as_slice())?;
    Ok(list)
}

fn files_copy(alloc: Global, files: &BootFileList) -> Result<BootFileList, NoMemory>
    ensures { IfOk result (λ copy. copy ≡ files.now) }
{
    let mut list = BootFileList::empty(alloc);
    push_files(&mut list, files.as_slice())?;
    Ok(list)
}

fn items_copy(alloc: Global, items: &RootItemList) -> Result<RootItemList, NoMemory>
    ensures { IfOk result (λ copy. copy ≡ items.now) }
{
    let mut list = RootItemList::empty(alloc);
    push_items(&mut list, items.as_slice())?;
    Ok(list)
}

fn root_copy(root: &Option<ByteList>) -> Result<Option<ByteList>, NoMemory>
    ensures { IfOk result (λ copy. copy ≡ root.now) }
{
    match root {
        None => Ok(None),
        Some(path) => Ok(Some(path.copy()?)),
    }
}

fn swap_copy(swap: &Option<SwapLine>) -> Result<Option<SwapLine>, NoMemory>
    ensures { IfOk result (λ copy. copy ≡ swap.now) }
{
    match swap {
        None => Ok(None),
        Some(line) => Ok(Some(line.copy()?)),
    }
}

impl Config {
    /// A further configuration that says the same.
    pub fn copy(&self, alloc: Global) -> Result<Config, NoMemory>
        ensures { IfOk result (λ copy. copy ≡ self.now) }
    {
        Ok(Config {
            life: self.life,
            tries: self.tries,
            wait: self.wait,
            pages: self.pages,
            server: self.server.copy()?,
            client: self.client.copy()?,
            domain: self.domain.copy()?,
            router: self.router,
            arch: self.arch.copy()?,
            hosts: hosts_copy(alloc, &self.hosts)?,
            tftp: files_copy(alloc, &self.tftp)?,
            params: self.params.copy()?,
            root: root_copy(&self.root)?,
            items: items_copy(alloc, &self.items)?,
            kernel: self.kernel.copy()?,
            swap: swap_copy(&self.swap)?,
        })
    }
}
