//! The law that what is written is read, on a function that does nothing: the contract is the law.
ghost use Rattle.sd_view_laws.specs.Written.{WrittenIsRead, ReplayedIsRead};

/// The transcript of any steps that may happen and of their answers, and so each that `replay` writes, is read as what they were,
/// where its packets are within the limits of packet lines.
pub fn written_is_read()
    ensures written { WrittenIsRead }
    ensures replayed { ReplayedIsRead }
{}
