//! What holds of the messages, each on a function that does nothing: the contract is the law.

ghost use Rattle.sd_nfs_msg.specs.Laws.{ArgsWrittenAreRead, ArgsOneSpelling, ResultWrittenIsRead, ResultOneSpelling};

/// What is written for arguments is read as those, and as no others.
pub fn args_written_are_read()
    ensures { ArgsWrittenAreRead }
{}

/// Arguments that are read have one spelling, which is what is written for them, and are of one procedure.
pub fn args_one_spelling()
    ensures { ArgsOneSpelling }
{}

/// What is written for a result is read as that result, and as no other, by each procedure that may answer it.
pub fn result_written_is_read()
    ensures { ResultWrittenIsRead }
{}

/// A result that is read has one spelling, which is what is written for it.
pub fn result_one_spelling()
    ensures { ResultOneSpelling }
{}
