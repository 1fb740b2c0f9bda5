//! What `host` and `params` lines say, and their limits.

use crate::files::push_lines;
use crate::scripts::{push_line, refused, with_line};
use sd_config::Config;
use sd_outside::{ByteList, NoMemory};
use sd_script::read_script;
use std::test::Fail;

/// Lines of further machines and of the bootparams file behind the heading, with the number of the refused line, or none.
const LINES: [(&[u8], Option<u64>); 36] = [
    (b"host depot 10.0.0.200\n", None),
    (
        b"host a 0.0.0.0\nhost b 255.255.255.255\nhost c 192.168.1.1\nhost d 0.0.0.0\n",
        None,
    ),
    (b"host a\n", Some(7)),
    (b"host a 10.0.0.256\n", Some(7)),
    (b"host a 10.0.0.1 b\n", Some(7)),
    (b"host a/b 10.0.0.1\n", Some(7)),
    (b"host boss 10.0.0.1\n", Some(7)),
    (b"host sparky 10.0.0.1\n", Some(7)),
    (b"host a 10.0.0.1\nhost a 10.0.0.2\n", Some(8)),
    (b"fate 1 2\nhost a 10.0.0.1\n", Some(8)),
    (b"params \n", None),
    (b"params\n", Some(7)),
    (b"params sparky\n", None),
    (
        b"params  sparky\troot=boss:/export/root/sparky  swap=:\n",
        None,
    ),
    (b"params sparky root=a=b:c:d\n", None),
    (b"params sparky =:\n", None),
    (b"fate 1 2\nparams sparky\n", Some(8)),
    // not a text, a client with `=`, an item without `=` or `:`
    (b"params sparky\r\n", Some(7)),
    (b"params sparky root=\x7f:\n", Some(7)),
    (b"params root=boss:/a\n", Some(7)),
    (b"params sparky root\n", Some(7)),
    (b"params sparky root:boss=/a\n", Some(7)),
    (b"params sparky root=boss\n", Some(7)),
    // a client and a key twice
    (b"params sparky a=b:c\nparams other a=b:c\n", None),
    (
        b"params sparky a=b:c\nparams \nparams sparky a=b:c\n",
        Some(9),
    ),
    (b"params sparky a=b:c a=d:e\n", Some(7)),
    // a line that goes on, over other lines too
    (b"params sparky \\\nparams root=boss:/a\n", None),
    (
        b"params sparky\\\nhost a 10.0.0.1\nparams root=boss:/a\n",
        None,
    ),
    (b"params sparky\nparams root=boss:/a\n", Some(8)),
    (b"params sparky a=b:c \\\nparams a=d:e\n", Some(8)),
    (b"params sparky \\\nparams \nparams root=boss:/a\n", Some(9)),
    // a comment, which goes on too
    (b"params # sparky\nparams sparky # root\n", None),
    (b"params #\nparams root=boss:/a\n", Some(8)),
    (b"params # \\\nparams root\x01=boss\n", None),
    (b"params sparky a=b:c# d=e:f\n", None),
    (b"params \\\\\nparams sparky\n", Some(8)),
];

#[test]
fn judges_host_and_params_lines(rt: HostRuntime) -> Result<(), Fail> {
    for (place, (lines, wanted)) in LINES.iter().enumerate() {
        let text = with_line(&rt, 0, b"", lines)?;
        assert_eq!(rt; refused(&rt, text.as_slice())?, *wanted, "row {place}");
    }
    Ok(())
}

#[test]
fn keeps_the_limits_on_hosts_and_params(rt: HostRuntime) -> Result<(), Fail> {
    let mut text = with_line(&rt, 0, b"", b"")?;
    push_lines(&mut text, 16, b"host ", b" 10.0.0.1")?;
    push_lines(&mut text, 256, b"params c", b" a=b:c")?;
    assert_eq!(rt; refused(&rt, text.as_slice())?, None);
    text.push_slice(b"params \n")?;
    assert_eq!(rt; refused(&rt, text.as_slice())?, Some(279));

    let mut text = with_line(&rt, 0, b"", b"")?;
    push_lines(&mut text, 17, b"host ", b" 10.0.0.1")?;
    assert_eq!(rt; refused(&rt, text.as_slice())?, Some(23));
    Ok(())
}

/// The names of the further machines, and the bootparams file.
fn kept(rt: &HostRuntime, config: &Config) -> Result<ByteList, NoMemory> {
    let mut text = ByteList::empty(rt.alloc());
    for host in config.hosts.as_slice() {
        push_line(&mut text, host.name.as_slice())?;
    }
    text.push_slice(config.params.as_slice())?;
    Ok(text)
}

#[test]
fn reads_what_host_and_params_lines_say(rt: HostRuntime) -> Result<(), Fail> {
    let lines =
        b"params sparky \\\nhost a 10.0.0.200\nparams  root=boss:/a \nhost b 1.2.3.4\nparams \n";
    let text = with_line(&rt, 0, b"", lines)?;
    let Ok(script) = read_script(rt.alloc(), text.as_slice()) else {
        assert!(rt; false, "refused");
        return Ok(());
    };
    let is = kept(&rt, &script.config)?;
    assert_eq!(rt;
        is.as_slice(),
        b"a\nb\nsparky \\\n root=boss:/a \n\n".as_slice()
    );
    let addresses = script.config.hosts.as_slice();
    assert_eq!(rt; addresses.first().map(|host| host.ip), Some(0x0a00_00c8));
    assert_eq!(rt; addresses.last().map(|host| host.ip), Some(0x0102_0304));
    Ok(())
}
