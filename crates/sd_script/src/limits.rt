//! How much a script may hold.

/// The most bytes of an input, and the most for which a byte run text that is read stands.
pub const INPUT_LIMIT: usize = 67_108_864;

/// The most bytes of all boot files and all files of the root export together.
pub const ALL_FILES_LIMIT: u64 = 67_108_864;

/// The most bytes of a boot file.
pub const BOOT_FILE_LIMIT: usize = 33_553_919;

/// The most bytes of a file of the root export.
pub const ROOT_FILE_LIMIT: usize = 33_554_432;

/// The most further machines.
pub const HOST_COUNT: usize = 16;

/// The most lines of the bootparams file.
pub const PARAMS_COUNT: u64 = 256;

/// The most boot files.
pub const BOOT_FILE_COUNT: usize = 16;

/// The most files and links of the root export.
pub const ROOT_ITEM_COUNT: usize = 256;

/// The most commands of a script.
pub const COMMAND_LIMIT: usize = 16_384;

/// The most fates of a script.
pub const FATE_LIMIT: usize = 65_536;

/// The most packets of strangers.
pub const STRANGER_LIMIT: usize = 4_096;

/// The most bytes of a datagram.
pub const BODY_LIMIT: usize = 9_216;
