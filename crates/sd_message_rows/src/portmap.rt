//! Messages against tables worked by hand, and the table of mappings.

mod rows;

use crate::items::{bytes_of, digits};
use rows::{ARGS, RESULTS};
use sd_outside::ByteList;
use sd_portmap::{
    Mapping, PmapArgs, PmapResult, Table, read_pmap_args, read_pmap_result, write_pmap_args,
    write_pmap_result,
};
use std::alloc::Global;
use std::test::Fail;

/// The mappings of a server, in the order in which it sets them.
const MAPPINGS: [Mapping; 4] = [
    Mapping {
        prog: 100_000,
        vers: 2,
        prot: 17,
        port: 111,
    },
    Mapping {
        prog: 100_026,
        vers: 1,
        prot: 17,
        port: 1016,
    },
    Mapping {
        prog: 100_005,
        vers: 1,
        prot: 17,
        port: 1017,
    },
    Mapping {
        prog: 100_003,
        vers: 2,
        prot: 17,
        port: 2049,
    },
];

fn args_text(alloc: Global, args: &PmapArgs) -> Result<String, Fail> {
    match args {
        PmapArgs::Callit {
            prog,
            vers,
            proc_no,
            args,
        } => {
            let args = digits(alloc, args.as_slice())?;
            Ok(format!(in alloc; "Callit {prog} {vers} {proc_no} {args}")?)
        }
        _ => Ok(format!(in alloc; "{args:?}")?),
    }
}

fn result_text(alloc: Global, outcome: &PmapResult) -> Result<String, Fail> {
    match outcome {
        PmapResult::Mappings(mappings) => {
            let mut text = format!(in alloc; "Mappings")?;
            for mapping in mappings.as_slice() {
                let port = mapping.port;
                text.push_str(format!(in alloc; " {port}")?.as_str())?;
            }
            Ok(text)
        }
        PmapResult::Callit { port, results } => {
            let results = digits(alloc, results.as_slice())?;
            Ok(format!(in alloc; "Callit {port} {results}")?)
        }
        _ => Ok(format!(in alloc; "{outcome:?}")?),
    }
}

#[test]
fn arguments(rt: HostRuntime) -> Result<(), Fail> {
    let alloc = rt.alloc();
    for row in ARGS.lines() {
        let (number, row) = row.split_once(" | ").ok_or("no bar")?;
        let (items, want) = row.split_once(" | ").ok_or("no bar")?;
        let number = number.parse::<u32>()?.min(5);
        let bytes = bytes_of(alloc, items)?;
        match read_pmap_args(alloc, number, bytes.as_slice()) {
            Ok(args) => {
                assert_eq!(rt; args_text(alloc, &args)?.as_str(), want);
                let again = write_pmap_args(alloc, &args)?;
                assert_eq!(rt; again.as_slice(), bytes.as_slice(), "{row}");
            }
            Err(e) => assert_eq!(rt; format!(in alloc; "{e:?}")?.as_str(), want, "{row}"),
        }
    }
    Ok(())
}

#[test]
fn results(rt: HostRuntime) -> Result<(), Fail> {
    let alloc = rt.alloc();
    for row in RESULTS.lines() {
        let (number, row) = row.split_once(" | ").ok_or("no bar")?;
        let (items, want) = row.split_once(" | ").ok_or("no bar")?;
        let number = number.parse::<u32>()?.min(5);
        let bytes = bytes_of(alloc, items)?;
        match read_pmap_result(alloc, number, bytes.as_slice()) {
            Ok(outcome) => {
                assert_eq!(rt; result_text(alloc, &outcome)?.as_str(), want);
                let again = write_pmap_result(alloc, &outcome)?;
                assert_eq!(rt; again.as_slice(), bytes.as_slice(), "{row}");
            }
            Err(e) => assert_eq!(rt; format!(in alloc; "{e:?}")?.as_str(), want, "{row}"),
        }
    }
    Ok(())
}

#[test]
fn the_table(rt: HostRuntime) -> Result<(), Fail> {
    let mut table = Table::new(rt.alloc());
    for mapping in MAPPINGS {
        assert_eq!(rt; table.get(mapping.prog, mapping.vers, 17), 0);
        assert!(rt; table.set(mapping)?);
        assert!(rt; !table.set(mapping)?);
    }
    assert_eq!(rt; table.dump(), MAPPINGS.as_slice());
    assert_eq!(rt; table.get(100_003, 2, 17), 2049);
    assert_eq!(rt; table.get(100_003, 3, 17), 0);
    assert_eq!(rt; table.get(100_003, 2, 6), 0);
    let also_tcp = Mapping {
        prot: 6,
        ..MAPPINGS[3]
    };
    assert!(rt; table.set(also_tcp)?);
    assert!(rt; table.unset(100_003, 2));
    assert!(rt; !table.unset(100_003, 2));
    assert_eq!(rt; table.get(100_003, 2, 17), 0);
    assert_eq!(rt; table.dump(), &MAPPINGS[..3]);
    assert!(rt; !table.unset(100_000, 1));
    Ok(())
}
