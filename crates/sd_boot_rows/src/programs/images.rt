//! What `image make` and `image show` write.

use super::ran;
use sd_outside::{ByteList, NoMemory};
use sd_stable_disk::image_of;
use std::alloc::Global;
use std::process::Abort;
use std::test::Fail;

/// The head of an image with one file of 16,384 bytes.
const HEAD: [u8; 24] = [
    0x53, 0x44, 0x53, 0x54, 0x4f, 0x52, 0x45, 0x0a, 0, 0, 0, 1, 0, 0, 0, 1, 0, 0, 0, 0, 0, 0, 0x40,
    0,
];

/// The image of one file of 16,384 zeros.
pub fn one_file(alloc: Global) -> Result<ByteList, NoMemory> {
    image_of(alloc, &[16384])
}

/// Shows an image of one file with some bytes changed, and compares the status and the output.
fn shows(
    rt: &impl Abort,
    alloc: Global,
    changes: &[(usize, &[u8])],
    wanted: (u8, &[u8]),
) -> Result<(), Fail> {
    let mut image = one_file(alloc)?;
    for (at, bytes) in changes {
        assert!(rt; image.as_slice().len() == 32768 && *at <= 2000 && bytes.len() <= 100);
        image.put(*at, bytes);
    }
    let (status, output) = ran(alloc, &["image", "show"], image.as_slice())?;
    assert_eq!(rt; status, wanted.0);
    assert_eq!(rt; output.as_slice(), wanted.1);
    Ok(())
}

#[test]
fn makes_the_swap_file(rt: HostRuntime) -> Result<(), Fail> {
    let script =
        b"life 10\ntries 4\nwait 5\npages 1\nserver 080020000001 192.168.1.1 boss\nclient 080020010203 192.168.1.2 sparky example 192.168.1.1\ntftp C0A80102 42*600\nroot /export/root/sparky\nfile /vmunix 4b*8193\nkernel /vmunix\nswap /export/swap/sparky 16384\n";
    let (status, output) = ran(rt.alloc(), &["image", "make"], script)?;
    assert_eq!(rt; status, 0);
    assert_eq!(rt; output.as_slice().len(), 32768);
    assert_eq!(rt; &output.as_slice()[..24], HEAD.as_slice());
    Ok(())
}

#[test]
fn makes_no_image_of_another_text(rt: HostRuntime) -> Result<(), Fail> {
    let (status, output) = ran(rt.alloc(), &["image", "make"], b"life 10\nboot\n")?;
    assert_eq!(rt; status, 1);
    assert_eq!(rt; output.as_slice(), b"refused line 2\n".as_slice());
    Ok(())
}

#[test]
fn shows_a_new_file(rt: HostRuntime) -> Result<(), Fail> {
    shows(
        &rt,
        rt.alloc(),
        &[],
        (0, b"image files 1\nfile 0 16384 00*16384\n"),
    )
}

// The gate is open, and the journal has three bytes of the file from place 5 on.
#[test]
fn shows_what_the_journal_holds(rt: HostRuntime) -> Result<(), Fail> {
    let entry = [0, 0, 0, 0, 0, 0, 0, 3, 0, 0, 0, 0, 0, 0, 0, 5];
    shows(
        &rt,
        rt.alloc(),
        &[(512, &[1]), (1024, &entry), (1088, &[0x41, 0x41, 0x42])],
        (0, b"image files 1\nfile 0 16384 00*5.414142.00*16376\n"),
    )
}

#[test]
fn refuses_another_name(rt: HostRuntime) -> Result<(), Fail> {
    shows(&rt, rt.alloc(), &[(0, &[0])], (8, b"damaged 0\n"))
}

#[test]
fn refuses_another_version(rt: HostRuntime) -> Result<(), Fail> {
    shows(&rt, rt.alloc(), &[(11, &[2])], (8, b"version 2\n"))
}

#[test]
fn refuses_a_cut_image(rt: HostRuntime) -> Result<(), Fail> {
    let image = one_file(rt.alloc())?;
    let Some((_, cut)) = image.as_slice().split_last() else {
        return Err("empty")?;
    };
    let (status, output) = ran(rt.alloc(), &["image", "show"], cut)?;
    assert_eq!(rt; status, 8);
    assert_eq!(rt; output.as_slice(), b"damaged 32767\n".as_slice());
    Ok(())
}

#[test]
fn calls_for_a_second_word(rt: HostRuntime) -> Result<(), Fail> {
    let (status, _) = ran(rt.alloc(), &["image"], b"")?;
    assert_eq!(rt; status, 2);
    Ok(())
}
