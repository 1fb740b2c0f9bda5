//! Writing single values.

ghost use Rattle.std.specs.Prelude.{◌≡◌, ◌++◌, IfOk, OnOk};
ghost use Rattle.std.specs.Fmt.{decimal};
ghost use Rattle.sd_text.specs.Texts.{ip_text, addr_text};

use sd_outside::{Addr, ByteList, NoMemory};
use std::alloc::Global;

/// Adds the text of a number.
pub fn push_number(alloc: Global, text: &mut ByteList, number: u64) -> Result<(), NoMemory>
    ensures { OnOk result (text.new ≡ text.old ++ decimal number) }
{
    text.push_slice(number.to_string(alloc)?.as_bytes())
}

/// The text of an address.
pub fn ip_list(alloc: Global, ip: u32) -> Result<ByteList, NoMemory>
    ensures { IfOk result (λ text. text ≡ ip_text ip) }
{
    let [a, b, c, d] = ip.to_be_bytes();
    let mut text = ByteList::empty(alloc);
    push_number(alloc, &mut text, u64::from(a))?;
    text.push_slice(b".")?;
    push_number(alloc, &mut text, u64::from(b))?;
    text.push_slice(b".")?;
    push_number(alloc, &mut text, u64::from(c))?;
    text.push_slice(b".")?;
    push_number(alloc, &mut text, u64::from(d))?;
    Ok(text)
}

/// The text of an address and a port.
pub fn addr_list(alloc: Global, addr: Addr) -> Result<ByteList, NoMemory>
    ensures { IfOk result (λ text. text ≡ addr_text addr) }
{
    let mut text = ip_list(alloc, addr.ip)?;
    text.push_slice(b":")?;
    push_number(alloc, &mut text, u64::from(addr.port))?;
    Ok(text)
}
