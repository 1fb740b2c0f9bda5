//! Calls and what is planned for each: who calls, the procedure with its arguments, and behind a bar the answer.
//!
//! A handle is `EXPORT.FILE`, with another generation than 1 or another last byte behind further dots. `@` is a name of 255
//! bytes. Attributes are kind, mode, links, size, blocks, fsid and fileid. `swap AT LEN` stands before an answer that waits for
//! this range of the swap file.

/// The lines of the first tree. Its files are by number the root, `/a`, `/a-b`, `/a/b`, `/a/b/deep`, `/a/c`, `/etc`, `/etc/rc`,
/// `/etc/up`, the one with the long name, and `/vmunix`.
pub const TREE: &str = "root /export/root/sparky
file /vmunix 4b*8193
file /etc/rc 72*8193
link /etc/up ..
file /a/c -
file /a/b/deep 616263
link /a-b a/b/deep
file /@ 6e
swap /export/swap/sparky 16384
";

pub const CALLS: &str = "\
other null | null
other getattr 0.1 | attr 2 16749 2 512 1 1 1
other getattr 0.2 | attr 2 16749 2 512 1 1 2
other getattr 0.3 | attr 5 41471 1 8 1 1 3
other getattr 0.4 | attr 2 16749 2 512 1 1 4
other getattr 0.5 | attr 1 33060 1 3 1 1 5
other getattr 0.6 | attr 1 33060 1 0 0 1 6
other getattr 0.7 | attr 2 16749 2 512 1 1 7
other getattr 0.8 | attr 1 33060 1 8193 17 1 8
other getattr 0.9 | attr 5 41471 1 2 1 1 9
other getattr 0.10 | attr 1 33060 1 1 1 1 10
other getattr 0.11 | attr 1 33060 1 8193 17 1 11
other getattr 1.1 | attr 1 33152 1 16384 32 2 1
client getattr 0.0 | 70
client getattr 0.12 | 70
client getattr 0.4294967295 | 70
client getattr 1.0 | 70
client getattr 1.2 | 70
client getattr 2.1 | 70
client getattr 4294967295.1 | 70
client getattr 0.1.0 | 70
client getattr 0.1.2 | 70
client getattr 1.1.2 | 70
client getattr 0.1.1.1 | 70
client getattr 1.1.1.255 | 70
client setattr 0.12 ones | 70
other setattr 1.1.2 ones | 70
client lookup 0.12 . | 70
other lookup 1.1.2 . | 70
client readlink 0.12 | 70
other readlink 1.1.2 | 70
client read 0.12 0 1 | 70
other read 1.1.2 0 1 | 70
client write 0.12 0 1 | 70
other write 1.1.2 0 1 | 70
client create 0.12 x | 70
other create 1.1.2 x | 70
client remove 0.12 x | 70
other remove 1.1.2 x | 70
client rename 0.12 x | 70
other rename 1.1.2 x | 70
client link 0.12 x | 70
other link 1.1.2 x | 70
client symlink 0.12 x | 70
other symlink 1.1.2 x | 70
client mkdir 0.12 x | 70
other mkdir 1.1.2 x | 70
client rmdir 0.12 x | 70
other rmdir 1.1.2 x | 70
client readdir 0.12 0 8192 | 70
other readdir 1.1.2 0 8192 | 70
client statfs 0.12 | 70
other statfs 1.1.2 | 70
client setattr 0.1 ones | 30
client setattr 0.3 ones | 30
client setattr 0.5 ones | 30
client setattr 0.1 mode | 30
other setattr 1.1 ones | attr 1 33152 1 16384 32 2 1
client setattr 1.1 mode | 1
client setattr 1.1 uid | 1
client setattr 1.1 gid | 1
client setattr 1.1 size | 1
client setattr 1.1 atime | 1
client setattr 1.1 utime | 1
client setattr 1.1 mtime | 1
client setattr 1.1 vtime | 1
client lookup 0.1 . | file 0.1 2 16749 2 512 1 1 1
client lookup 0.1 .. | file 0.1 2 16749 2 512 1 1 1
client lookup 0.1 a | file 0.2 2 16749 2 512 1 1 2
client lookup 0.1 a-b | file 0.3 5 41471 1 8 1 1 3
client lookup 0.1 etc | file 0.7 2 16749 2 512 1 1 7
client lookup 0.1 @ | file 0.10 1 33060 1 1 1 1 10
client lookup 0.1 vmunix | file 0.11 1 33060 1 8193 17 1 11
client lookup 0.1 vmuni | 2
client lookup 0.1 vmunixx | 2
client lookup 0.1 VMUNIX | 2
client lookup 0.1  | 2
client lookup 0.1 a/b | 2
client lookup 0.1 b | 2
client lookup 0.1 ... | 2
client lookup 0.1 /a | 2
client lookup 0.2 . | file 0.2 2 16749 2 512 1 1 2
client lookup 0.2 .. | file 0.1 2 16749 2 512 1 1 1
client lookup 0.2 b | file 0.4 2 16749 2 512 1 1 4
client lookup 0.2 c | file 0.6 1 33060 1 0 0 1 6
client lookup 0.2 a | 2
client lookup 0.2 b/deep | 2
client lookup 0.4 . | file 0.4 2 16749 2 512 1 1 4
client lookup 0.4 .. | file 0.2 2 16749 2 512 1 1 2
client lookup 0.4 deep | file 0.5 1 33060 1 3 1 1 5
client lookup 0.4 c | 2
client lookup 0.7 .. | file 0.1 2 16749 2 512 1 1 1
client lookup 0.7 rc | file 0.8 1 33060 1 8193 17 1 8
client lookup 0.7 up | file 0.9 5 41471 1 2 1 1 9
client lookup 0.7 r | 2
client lookup 0.3 . | 20
client lookup 0.5 . | 20
client lookup 0.6 . | 20
client lookup 0.9 . | 20
client lookup 0.11 . | 20
client lookup 0.5 .. | 20
client lookup 0.3 deep | 20
client lookup 1.1 . | 20
other lookup 1.1 .. | 20
client lookup 1.1 vmunix | 20
client readlink 0.1 | 6
client readlink 0.2 | 6
client readlink 0.4 | 6
client readlink 0.7 | 6
client readlink 0.5 | 6
client readlink 0.6 | 6
client readlink 0.8 | 6
client readlink 0.11 | 6
client readlink 0.3 | path a/b/deep
other readlink 0.9 | path ..
client readlink 1.1 | 6
other read 0.1 0 8192 | 21
other read 0.2 0 8192 | 21
other read 0.7 0 8192 | 21
other read 0.3 0 8192 | 6
other read 0.9 0 8192 | 6
other read 0.5 0 3 | read 1 33060 1 3 1 1 5 616263
other read 0.5 0 2 | read 1 33060 1 3 1 1 5 6162
other read 0.5 0 0 | read 1 33060 1 3 1 1 5 -
other read 0.5 1 1 | read 1 33060 1 3 1 1 5 62
other read 0.5 2 8192 | read 1 33060 1 3 1 1 5 63
other read 0.5 3 1 | read 1 33060 1 3 1 1 5 -
other read 0.5 4 1 | read 1 33060 1 3 1 1 5 -
other read 0.5 4294967295 4294967295 | read 1 33060 1 3 1 1 5 -
other read 0.5 0 4294967295 | read 1 33060 1 3 1 1 5 616263
other read 0.6 0 8192 | read 1 33060 1 0 0 1 6 -
other read 0.6 1 1 | read 1 33060 1 0 0 1 6 -
other read 0.11 0 8192 | read 1 33060 1 8193 17 1 11 4b*8192
other read 0.11 0 8193 | read 1 33060 1 8193 17 1 11 4b*8192
other read 0.11 8191 8192 | read 1 33060 1 8193 17 1 11 4b4b
other read 0.11 8192 8192 | read 1 33060 1 8193 17 1 11 4b
other read 0.11 8193 8192 | read 1 33060 1 8193 17 1 11 -
other read 0.11 4294959104 8192 | read 1 33060 1 8193 17 1 11 -
client write 0.5 0 1 | 30
client write 0.1 0 0 | 30
client write 0.3 0 1 | 30
client write 0.11 8193 8192 | 30
client create 0.1 x | 30
client create 0.5 x | 30
client remove 0.1 vmunix | 30
client remove 0.7 none | 30
client rename 0.1 vmunix | 30
client rename 0.3 x | 30
client link 0.5 x | 30
client link 0.1 x | 30
client symlink 0.1 x | 30
client mkdir 0.1 a | 30
client mkdir 0.8 x | 30
client rmdir 0.1 a | 30
client rmdir 0.1 none | 30
client create 1.1 x | 20
client remove 1.1 x | 20
client rename 1.1 x | 20
client link 1.1 x | 20
client symlink 1.1 x | 20
client mkdir 1.1 x | 20
client rmdir 1.1 x | 20
client statfs 0.1 | fs 8192 8192 8 0 0
other statfs 0.5 | fs 8192 8192 8 0 0
client statfs 1.1 | fs 8192 8192 2 0 0
client readdir 0.1 0 0 | dir more
client readdir 0.1 0 7 | dir more
client readdir 0.1 0 8 | dir more
client readdir 0.1 0 27 | dir more
client readdir 0.1 0 28 | dir .=1@1 more
client readdir 0.1 0 47 | dir .=1@1 more
client readdir 0.1 0 48 | dir .=1@1 ..=1@2 more
client readdir 0.1 0 67 | dir .=1@1 ..=1@2 more
client readdir 0.1 0 68 | dir .=1@1 ..=1@2 a=2@3 more
client readdir 0.1 0 87 | dir .=1@1 ..=1@2 a=2@3 more
client readdir 0.1 0 88 | dir .=1@1 ..=1@2 a=2@3 a-b=3@4 more
client readdir 0.1 0 107 | dir .=1@1 ..=1@2 a=2@3 a-b=3@4 more
client readdir 0.1 0 108 | dir .=1@1 ..=1@2 a=2@3 a-b=3@4 etc=7@5 more
client readdir 0.1 0 379 | dir .=1@1 ..=1@2 a=2@3 a-b=3@4 etc=7@5 more
client readdir 0.1 0 380 | dir .=1@1 ..=1@2 a=2@3 a-b=3@4 etc=7@5 n*255=10@6 more
client readdir 0.1 0 403 | dir .=1@1 ..=1@2 a=2@3 a-b=3@4 etc=7@5 n*255=10@6 more
client readdir 0.1 0 404 | dir .=1@1 ..=1@2 a=2@3 a-b=3@4 etc=7@5 n*255=10@6 vmunix=11@7 end
client readdir 0.1 0 8192 | dir .=1@1 ..=1@2 a=2@3 a-b=3@4 etc=7@5 n*255=10@6 vmunix=11@7 end
client readdir 0.1 0 8193 | dir .=1@1 ..=1@2 a=2@3 a-b=3@4 etc=7@5 n*255=10@6 vmunix=11@7 end
client readdir 0.1 0 4294967295 | dir .=1@1 ..=1@2 a=2@3 a-b=3@4 etc=7@5 n*255=10@6 vmunix=11@7 end
client readdir 0.1 1 8192 | dir ..=1@2 a=2@3 a-b=3@4 etc=7@5 n*255=10@6 vmunix=11@7 end
client readdir 0.1 2 8192 | dir a=2@3 a-b=3@4 etc=7@5 n*255=10@6 vmunix=11@7 end
client readdir 0.1 3 8192 | dir a-b=3@4 etc=7@5 n*255=10@6 vmunix=11@7 end
client readdir 0.1 4 8192 | dir etc=7@5 n*255=10@6 vmunix=11@7 end
client readdir 0.1 5 8192 | dir n*255=10@6 vmunix=11@7 end
client readdir 0.1 6 8192 | dir vmunix=11@7 end
client readdir 0.1 7 8192 | dir end
client readdir 0.1 8 8192 | dir end
client readdir 0.1 4294967295 8192 | dir end
client readdir 0.1 5 279 | dir more
client readdir 0.1 5 280 | dir n*255=10@6 more
client readdir 0.1 6 31 | dir more
client readdir 0.1 6 32 | dir vmunix=11@7 end
client readdir 0.1 7 0 | dir end
client readdir 0.2 0 8192 | dir .=2@1 ..=1@2 b=4@3 c=6@4 end
client readdir 0.4 0 8192 | dir .=4@1 ..=2@2 deep=5@3 end
client readdir 0.7 0 8192 | dir .=7@1 ..=1@2 rc=8@3 up=9@4 end
client readdir 0.4 2 28 | dir deep=5@3 end
client readdir 0.4 2 27 | dir more
client readdir 0.3 0 8192 | 20
client readdir 0.5 0 8192 | 20
client readdir 0.6 0 8192 | 20
client readdir 1.1 0 8192 | 20
client read 1.1 0 8192 | swap 0 8192: read 1 33152 1 16384 32 2 1 00*8192
client read 1.1 0 8193 | swap 0 8192: read 1 33152 1 16384 32 2 1 00*8192
client read 1.1 0 0 | swap 0 0: read 1 33152 1 16384 32 2 1 -
client read 1.1 1 3 | swap 1 3: read 1 33152 1 16384 32 2 1 000000
client read 1.1 8192 8192 | swap 8192 8192: read 1 33152 1 16384 32 2 1 00*8192
client read 1.1 8193 8192 | swap 8193 8191: read 1 33152 1 16384 32 2 1 00*8191
client read 1.1 16383 2 | swap 16383 1: read 1 33152 1 16384 32 2 1 00
client read 1.1 16384 1 | swap 0 0: read 1 33152 1 16384 32 2 1 -
client read 1.1 16385 1 | swap 0 0: read 1 33152 1 16384 32 2 1 -
client read 1.1 4294967295 4294967295 | swap 0 0: read 1 33152 1 16384 32 2 1 -
client read 1.1 0 4294967295 | swap 0 8192: read 1 33152 1 16384 32 2 1 00*8192
other read 1.1 0 8192 | swap 0 0: 13
server read 1.1 16385 0 | swap 0 0: 13
client write 1.1 0 8192 | swap 0 8192: attr 1 33152 1 16384 32 2 1
client write 1.1 8192 8192 | swap 8192 8192: attr 1 33152 1 16384 32 2 1
client write 1.1 8193 8192 | swap 0 0: 28
client write 1.1 8193 8191 | swap 8193 8191: attr 1 33152 1 16384 32 2 1
client write 1.1 16383 1 | swap 16383 1: attr 1 33152 1 16384 32 2 1
client write 1.1 16383 2 | swap 0 0: 28
client write 1.1 16384 0 | swap 0 0: attr 1 33152 1 16384 32 2 1
client write 1.1 16384 1 | swap 0 0: 28
client write 1.1 16385 0 | swap 0 0: 28
client write 1.1 0 0 | swap 0 0: attr 1 33152 1 16384 32 2 1
client write 1.1 4294967295 0 | swap 0 0: 28
client write 1.1 4294967295 1 | swap 0 0: 28
client write 1.1 4294959104 8192 | swap 0 0: 28
other write 1.1 8192 8192 | swap 0 0: 13
other write 1.1 8193 8192 | swap 0 0: 13
server write 1.1 0 0 | swap 0 0: 13";

/// An export with the root directory alone, and no swap file.
pub const BARE: &str = "root /export/root/sparky
";

pub const BARE_CALLS: &str = "\
client getattr 1.1 | 70
client read 1.1 0 1 | 70
client write 1.1 0 1 | 70
client setattr 1.1 ones | 70
client statfs 1.1 | 70
client lookup 1.1 . | 70
client write 1.1 8193 8192 | 70
client getattr 0.1 | attr 2 16749 2 512 1 1 1
client readdir 0.1 0 8192 | dir .=1@1 ..=1@2 end
client lookup 0.1 .. | file 0.1 2 16749 2 512 1 1 1
client statfs 0.1 | fs 8192 8192 0 0 0
client getattr 0.2 | 70
other null | null";

/// Files that no root export has.
pub const NO_ROOT: &str = "file /vmunix 4b
swap /export/swap/sparky 8192
";

pub const NO_ROOT_CALLS: &str = "\
client getattr 0.1 | 70
client lookup 0.1 . | 70
client readdir 0.1 0 8192 | 70
client read 0.2 0 1 | 70
client write 0.1 0 0 | 70
client statfs 0.1 | 70
client mkdir 0.1 x | 70
client getattr 0.2 | 70
client getattr 1.1 | attr 1 33152 1 8192 16 2 1
client statfs 1.1 | fs 8192 8192 1 0 0
client write 1.1 8191 1 | swap 8191 1: attr 1 33152 1 8192 16 2 1
client write 1.1 8191 2 | swap 0 0: 28
other null | null";
