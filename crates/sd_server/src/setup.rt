//! A configuration, and what the server answers by.
ghost use Rattle.std.specs.Prelude.{◌≡◌, [], ◌∷◌, ◌++◌, IfOk, IfErr, OnOk};
ghost use Rattle.sd_server.specs.Services.{program_of};
ghost use Rattle.sd_server.specs.Setups.{IsSetup};
ghost use Rattle.sd_portmap.specs.declared.mapping.Mapping.{Mapping};
ghost use Rattle.sd_config.specs.Config.{IsConfig};
ghost use Rattle.sd_services.specs.Files.{exported};
ghost use Rattle.sd_services.specs.MountReply.{export_of, exports_of, root_export, swap_export};
ghost use Rattle.sd_services.specs.RpcReply.{machines_of, book_of, mappings, over_udp};

use crate::service::{BOOTPARAMS_PORT, MOUNT_PORT, Service};
use sd_bootparams::{Book, Host, Hosts, ParamsError, read_params};
use sd_config::Config;
use sd_mount::{ExportEntries, ExportEntry, Exports};
use sd_nfs_msg::NFS_PORT;
use sd_nfs_server::{Tree, fhandle_of};
use sd_outside::{ByteList, NoMemory};
use sd_portmap::{Mapping, PMAP_PORT, Table};
use std::alloc::Global;
use std::marker::Model;

/// UDP as an IP protocol (RFC 768).
const UDP: u32 = 17;

/// A configuration, seen as it is, beside what the programs answer by. All that is made once.
#[derive(Drop)]
pub struct Setup {
    config: Config,
    table: Table,
    book: Book,
    exports: Exports,
    tree: Tree,
}

impl Model for Setup {
    ghost use Rattle.std.specs.Prelude.{◌≡◌};
    ghost use Rattle.sd_config.specs.declared.config.Config.{Config};
    ghost use Rattle.sd_config.specs.Config.{IsConfig};
    ghost use Rattle.sd_server.specs.Setups.{IsSetup};

    ghost Value = { Config };

    ghost view = { λ s. s.config };

    ghost invariant = { λ s. IsSetup s.config s.table s.book s.exports s.tree };
}

fn push_host(hosts: &mut Hosts, name: &ByteList, ip: u32) -> Result<(), NoMemory>
    ensures { OnOk result (hosts.new ≡ hosts.old ++ record { name = name.now; ip = ip } ∷ []) }
{
    let name = name.copy()?;
    hosts.push(Host { name, ip })
}

fn push_hosts(hosts: &mut Hosts, more: &[Host]) -> Result<(), NoMemory>
    ensures { OnOk result (hosts.new ≡ hosts.old ++ more.now) }
{
    for host in more {
        push_host(hosts, &host.name, host.ip)?;
    }
    Ok(())
}

/// The server, the client, and the machines of the host lines.
fn machines_of(alloc: Global, config: &Config) -> Result<Hosts, NoMemory>
    ensures { IfOk result (λ hosts. hosts ≡ machines_of config.now) }
{
    let mut hosts = Hosts::empty(alloc);
    push_host(&mut hosts, &config.server.name, config.server.ip)?;
    push_host(&mut hosts, &config.client.name, config.client.ip)?;
    push_hosts(&mut hosts, config.hosts.as_slice())?;
    Ok(hosts)
}

/// What bootparams answers by.
fn book_of(alloc: Global, config: &Config) -> Result<Book, NoMemory>
    requires { IsConfig config.now }
    ensures { IfOk result (λ book. book ≡ book_of config.now) }
{
    let params = match read_params(alloc, config.params.as_slice()) {
        Ok(params) => params,
        Err(ParamsError::NoMemory) => return Err(NoMemory),
        // The bootparams file of a configuration is within its grammar.
        Err(ParamsError::Bad { .. }) => return Err(NoMemory),
    };
    let hosts = machines_of(alloc, config)?;
    let domain = config.domain.copy()?;
    Ok(Book::new(params, hosts, domain, config.router))
}

/// A program at a port over UDP.
fn mapping_of(service: Service, port: u16) -> Mapping
    ensures { result ≡ over_udp (program_of service).prog (program_of service).vers port }
{
    Mapping {
        prog: service.number(),
        vers: service.version(),
        prot: UDP,
        port: u32::from(port),
    }
}

/// What the portmapper answers by: the portmapper, bootparams, MOUNT and NFS.
fn table_of(alloc: Global) -> Result<Table, NoMemory>
    ensures { IfOk result (λ table. table ≡ mappings) }
{
    let mut table = Table::new(alloc);
    table.set(mapping_of(Service::Portmapper, PMAP_PORT))?;
    table.set(mapping_of(Service::Bootparams, BOOTPARAMS_PORT))?;
    table.set(mapping_of(Service::Mount, MOUNT_PORT))?;
    table.set(mapping_of(Service::Nfs, NFS_PORT))?;
    Ok(table)
}

/// The export of this number and path.
fn export_of(config: &Config, number: u32, path: &ByteList) -> Result<ExportEntry, NoMemory>
    ensures { IfOk result (λ entry. entry ≡ export_of config.now number path.now) }
{
    Ok(ExportEntry {
        path: path.copy()?,
        owner: config.client.ip,
        owner_name: config.client.name.copy()?,
        fhandle: fhandle_of(number, 1),
    })
}

fn push_root(entries: &mut ExportEntries, config: &Config) -> Result<(), NoMemory>
    ensures { OnOk result (entries.new ≡ entries.old ++ root_export config.now config.now.root) }
{
    match &config.root {
        None => Ok(()),
        Some(path) => entries.push(export_of(config, 0, path)?),
    }
}

fn push_swap(entries: &mut ExportEntries, config: &Config) -> Result<(), NoMemory>
    ensures { OnOk result (entries.new ≡ entries.old ++ swap_export config.now config.now.swap) }
{
    match &config.swap {
        None => Ok(()),
        Some(line) => entries.push(export_of(config, 1, &line.path)?),
    }
}

/// What MOUNT answers by.
fn exports_of(alloc: Global, config: &Config) -> Result<Exports, NoMemory>
    ensures { IfOk result (λ exports. exports ≡ exports_of config.now) }
{
    let mut entries = ExportEntries::empty(alloc);
    push_root(&mut entries, config)?;
    push_swap(&mut entries, config)?;
    Ok(Exports::new(entries))
}

impl Setup {
    /// What the programs answer by under a configuration, or the configuration again.
    pub fn new(alloc: Global, config: Config) -> Result<Setup, (NoMemory, Config)>
        requires { IsConfig config }
        ensures ok { IfOk result (λ setup. setup ≡ config) }
        ensures err { IfErr result (λ refused. refused.1 ≡ config) }
    {
        match Parts::new(alloc, &config) {
            Ok(parts) => Ok(Setup {
                config,
                table: parts.table,
                book: parts.book,
                exports: parts.exports,
                tree: parts.tree,
            }),
            Err(NoMemory) => Err((NoMemory, config)),
        }
    }

    /// The configuration.
    pub fn into_config(self) -> Config
        ensures { result ≡ self }
    {
        self.config
    }

    pub fn config(&self) -> &Config
        ensures same { result.now ≡ self.now }
        ensures rules { IsConfig self.now }
    {
        &self.config
    }

    pub fn table(&self) -> &Table
        ensures { result.now ≡ mappings }
    {
        &self.table
    }

    pub fn book(&self) -> &Book
        ensures same { result.now ≡ book_of self.now }
        ensures rules { IsConfig self.now }
    {
        &self.book
    }

    pub fn exports(&self) -> &Exports
        ensures same { result.now ≡ exports_of self.now }
        ensures rules { IsConfig self.now }
    {
        &self.exports
    }

    pub fn tree(&self) -> &Tree
        ensures same { result.now ≡ exported self.now }
        ensures rules { IsConfig self.now }
    {
        &self.tree
    }
}

/// What the programs answer by.
#[derive(Drop)]
struct Parts {
    table: Table,
    book: Book,
    exports: Exports,
    tree: Tree,
}

impl Parts {
    fn new(alloc: Global, config: &Config) -> Result<Parts, NoMemory>
        requires { IsConfig config.now }
        ensures { IfOk result (λ parts. IsSetup config.now parts.table parts.book parts.exports parts.tree) }
    {
        Ok(Parts {
            table: table_of(alloc)?,
            book: book_of(alloc, config)?,
            exports: exports_of(alloc, config)?,
            tree: Tree::build(alloc, config)?,
        })
    }
}
