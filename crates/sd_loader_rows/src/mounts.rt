//! Handles that are asked for.
use crate::world::{caller, link_with};
use sd_loader::mount;
use sd_outside::Addr;
use std::alloc::Global;
use std::test::Fail;

const MOUNT: Addr = Addr {
    ip: 0xc0a8_0101,
    port: 1017,
};

/// The results of the calls, which calls of the link fail, and what comes of it.
type Row = (&'static [&'static str], &'static [u64], &'static str);

/// What comes of mounting, and the number of the next call.
fn shown(alloc: Global, rows: &[&str], fail: &[u64]) -> Result<String, Fail> {
    let mut link = link_with(alloc, MOUNT, rows, fail)?;
    let mut caller = caller(alloc)?;
    match mount(alloc, &mut caller, &mut link, MOUNT, b"/export/root") {
        Ok(file) => {
            let [first, .., last] = file.0;
            Ok(format!(in alloc; "{first:x}..{last:x} {}", caller.next_xid)?)
        }
        Err(why) => Ok(format!(in alloc; "{why:?} {}", caller.next_xid)?),
    }
}

#[test]
fn handles_are_given(rt: HostRuntime) -> Result<(), Fail> {
    let rows: [Row; 6] = [
        (&["00000000 05*31 06*1"], &[], "5..6 2"),
        // NFSERR_ACCES
        (&["0000000d"], &[], "Refused { step: Mnt, status: 13 } 2"),
        // a handle that is a byte short, and nothing
        (
            &["00000000 05*31"],
            &[],
            "Call { step: Mnt, error: Timeout } 2",
        ),
        (&[], &[], "Call { step: Mnt, error: Timeout } 2"),
        // the send, and the receive
        (
            &["00000000 05*32"],
            &[0],
            "Call { step: Mnt, error: LinkFault } 2",
        ),
        (
            &["00000000 05*32"],
            &[1],
            "Call { step: Mnt, error: LinkFault } 2",
        ),
    ];
    for (replies, fail, comes) in rows {
        assert_eq!(&rt; shown(rt.alloc(), replies, fail)?.as_str(), comes);
    }
    Ok(())
}
