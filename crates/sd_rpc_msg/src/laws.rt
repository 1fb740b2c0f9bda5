//! What holds of messages and credentials, each on a function that does nothing: the contract is the law.

ghost use Rattle.sd_rpc_msg.specs.Laws.{WrittenIsRead, OneSpelling, ToldApart, UnixWrittenIsRead, UnixOneSpelling, UnixToldApart};

/// What is written for a message is read as that message, and as no other.
pub fn written_is_read()
    ensures { WrittenIsRead }
{}

/// A message that is read has one spelling, which is what is written for it.
pub fn one_spelling()
    ensures { OneSpelling }
{}

/// Messages that are the same value are the same.
#[tactic(auto, using(crate::proofs::Told::told_apart))]
pub fn told_apart()
    ensures { ToldApart }
{}

/// What is written for credentials is read as those, and as no others.
pub fn unix_written_is_read()
    ensures { UnixWrittenIsRead }
{}

/// Credentials that are read have one spelling, which is what is written for them.
pub fn unix_one_spelling()
    ensures { UnixOneSpelling }
{}

/// Credentials that are the same value are the same.
#[tactic(auto, using(crate::proofs::ToldUnix::told_apart))]
pub fn unix_told_apart()
    ensures { UnixToldApart }
{}
