//! What a server of bootparams answers.

ghost use Rattle.std.specs.Prelude.{◌≡◌};
ghost use Rattle.std.specs.Option.{option_map};
ghost use Rattle.sd_bootparams.specs.File.{same};
ghost use Rattle.sd_bootparams.specs.Tables.{entry_of, address_of, name_of, whoami_of, getfile_of, place_in, shown_pair, shown_client, shown_file, shown};

use crate::draft::{has_client, is_entry};
use crate::params::{Entry, Params};
use crate::words::same;
use sd_outside::{ByteList, ListOf};
use std::marker::Model;

/// A machine's name and address.
#[derive(Debug, Drop)]
pub struct Host {
    pub name: ByteList,
    pub ip: u32,
}

/// Machines, in order. Of two with the same name, or with the same address, the first counts.
pub type Hosts = ListOf<Host>;

impl Params {
    fn entry(&self, client: &[u8], key: &[u8]) -> Option<&Entry>
        ensures { option_map (λ e. e.now) result ≡ entry_of self.now client.now key.now }
    {
        self.entries()
            .iter()
            .find(|entry| is_entry(entry, client, key))
    }

    /// The server and the path of the client's entry with this key.
    pub fn find(&self, client: &[u8], key: &[u8]) -> Option<(&[u8], &[u8])>
        ensures { shown_pair result ≡ option_map place_in (entry_of self.now client.now key.now) }
    {
        let entry = self.entry(client, key)?;
        Some((entry.server.as_slice(), entry.path.as_slice()))
    }
}

/// The name of the first machine with this address.
fn name_of(hosts: &[Host], ip: u32) -> Option<&[u8]>
    ensures { shown result ≡ name_of hosts.now ip }
{
    let host = hosts.iter().find(|host| host.ip == ip)?;
    Some(host.name.as_slice())
}

fn is_named(host: &Host, name: &[u8]) -> bool
    ensures { result ≡ same host.now.name name.now }
{
    same(host.name.as_slice(), name)
}

/// The address of the first machine with this name.
fn address_of(hosts: &[Host], name: &[u8]) -> Option<u32>
    ensures { result ≡ address_of hosts.now name.now }
{
    let host = hosts.iter().find(|host| is_named(host, name))?;
    Some(host.ip)
}

/// A bootparams file beside the machines that it names.
#[derive(Debug, Drop)]
pub struct Book {
    params: Params,
    hosts: Hosts,
    domain: ByteList,
    router: u32,
}

impl Model for Book {
    ghost use Rattle.sd_bootparams.specs.BookView.{BookView};

    ghost Value = { BookView };

    ghost view = { λ b. record { contents = b.params; hosts = b.hosts; domain = b.domain; router = b.router } };
}

impl Book {
    /// A book of what a file says and of the machines that are known. All clients have the same domain and the same router.
    pub fn new(params: Params, hosts: Hosts, domain: ByteList, router: u32) -> Book
        ensures contents { result.contents ≡ params }
        ensures hosts { result.hosts ≡ hosts }
        ensures domain { result.domain ≡ domain }
        ensures router { result.router ≡ router }
    {
        Book {
            params,
            hosts,
            domain,
            router,
        }
    }

    /// The client's name, its domain and its router: of the first machine with this address, where its name has a line.
    pub fn whoami(&self, ip: u32) -> Option<(&[u8], &[u8], u32)>
        ensures { shown_client result ≡ whoami_of self.now ip }
    {
        let client = name_of(self.hosts.as_slice(), ip)?;
        if has_client(&self.params, client) {
            Some((client, self.domain.as_slice(), self.router))
        } else {
            None
        }
    }

    /// The server's name and address, and the path there, by the client's entry with this key and the first machine of the
    /// server's name.
    pub fn getfile(&self, client: &[u8], key: &[u8]) -> Option<(&[u8], u32, &[u8])>
        ensures { shown_file result ≡ getfile_of self.now client.now key.now }
    {
        let (server, path) = self.params.find(client, key)?;
        let ip = address_of(self.hosts.as_slice(), server)?;
        Some((server, ip, path))
    }
}
