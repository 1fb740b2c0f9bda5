//! TFTP sessions, as the server keeps them.
ghost use Rattle.std.specs.Prelude.{◌≡◌, ◌-◌, ◌≤◌, ◌==◌, [], ◌∷◌, ◌++◌, length, drop, map, filter, not, if◌then◌else◌, IfSome, OnOk, OnErr};
ghost use Rattle.std.specs.List.{find};
ghost use Rattle.std.specs.Option.{option_map};
ghost use Rattle.sd_config.specs.Program.{boot_file};
ghost use Rattle.sd_services.specs.Sessions.{session_port, is_session_of};
ghost use Rattle.sd_server.specs.Sessions.{session_of, name_at, bytes_at};

use sd_config::Config;
use sd_outside::{Addr, NoMemory};
use sd_tftp::Sender;

/// A session: the file at a place of the configuration's boot files is sent to a peer.
#[derive(Debug, Drop)]
pub struct Sending {
    /// Sessions are numbered from 0.
    pub number: u64,
    pub file: usize,
    pub peer: Addr,
    pub sender: Sender,
}

impl Sending {
    /// A further session that is the same.
    pub fn copy(&self) -> Sending
        ensures { result ≡ self.now }
    {
        Sending {
            number: self.number,
            file: self.file,
            peer: self.peer,
            sender: self.sender.copy(),
        }
    }
}

/// The port of a session.
pub fn session_port(number: u64) -> u16
    ensures { result ≡ session_port number }
{
    4096 + (number % 4096) as u16
}

/// The place of the boot file with this name.
pub fn place_of_file(config: &Config, name: &[u8]) -> Option<usize>
    ensures found { boot_file config.now name.now ≡ option_map (bytes_at config.now) result }
    ensures named { IfSome result (λ place. name_at config.now place ≡ name.now) }
{
    let files = config.tftp.as_slice();
    for place in 0..files.len() {
        if files[place].name.as_slice() == name {
            return Some(place);
        }
    }
    None
}

/// The bytes of the boot file at a place.
pub fn bytes_at(config: &Config, place: usize) -> &[u8]
    ensures { result.now ≡ bytes_at config.now place }
{
    match config.tftp.as_slice().get(place) {
        None => &[],
        Some(file) => file.bytes.as_slice(),
    }
}

fn is_at(config: &Config, session: &Sending, port: u16, peer: Addr) -> bool
    ensures { result ≡ is_session_of port peer (session_of config.now session.now) }
{
    session_port(session.number) == port
        && session.peer.ip == peer.ip
        && session.peer.port == peer.port
}

/// The first session of a port with a peer.
pub fn session_at(config: &Config, sessions: &[Sending], port: u16, peer: Addr) -> Option<Sending>
    ensures { result ≡ find (λ s. is_session_of port peer (session_of config.now s)) sessions.now }
{
    for session in sessions {
        if is_at(config, session, port, peer) {
            return Some(session.copy());
        }
    }
    None
}

/// What becomes of a session where the one with this number becomes this.
fn later(old: &Sending, new: &Sending) -> Sending
    ensures { result ≡ (if old.now.number == new.now.number then new.now else old.now) }
{
    if old.number == new.number {
        new.copy()
    } else {
        old.copy()
    }
}

/// The session with this number becomes this.
pub fn put_session(sessions: &mut Vec<Sending>, new: &Sending)
    ensures { sessions.new.items ≡ map (λ s. if s.number == new.now.number then new.now else s) sessions.old.items }
{
    let list = sessions.as_mut_slice();
    for place in 0..list.len() {
        list[place] = later(&list[place], new);
    }
}

/// The session with this number goes.
pub fn drop_session(sessions: &mut Vec<Sending>, number: u64)
    ensures { sessions.new.items ≡ filter (λ s. not (s.number == number)) sessions.old.items }
{
    sessions.retain(|session| session.number != number);
}

/// One more session, in the place of the first of sixteen.
pub fn push_session(sessions: &mut Vec<Sending>, new: Sending) -> Result<(), NoMemory>
    requires { length sessions.old.items ≤ 16 }
    ensures ok { OnOk result (sessions.new.items ≡ drop (length sessions.old.items - 15) sessions.old.items ++ new ∷ []) }
    ensures err { OnErr result (sessions.new.items ≡ sessions.old.items) }
{
    sessions.push(new)?;
    if sessions.as_slice().len() > 16 {
        sessions.remove(0);
    }
    Ok(())
}
