//! What holds of the messages and of the table, each on a function that does nothing: the contract is the law.

ghost use Rattle.sd_portmap.specs.Laws.{ArgsWrittenAreRead, ArgsOneSpelling, ResultWrittenIsRead, ResultOneSpelling};
ghost use Rattle.sd_portmap.specs.Table.{MappingsAreFound};

/// What is written for arguments is read as those, and as no others.
pub fn args_written_are_read()
    ensures { ArgsWrittenAreRead }
{}

/// Arguments that are read have one spelling, which is what is written for them, and are of one procedure.
pub fn args_one_spelling()
    ensures { ArgsOneSpelling }
{}

/// What is written for a result is read as that result, and as no other.
pub fn result_written_is_read()
    ensures { ResultWrittenIsRead }
{}

/// A result that is read has one spelling, which is what is written for it.
pub fn result_one_spelling()
    ensures { ResultOneSpelling }
{}

/// Each mapping of a table is the one that is found.
#[tactic(auto, using(crate::proofs::Mapped::mappings_are_found))]
pub fn mappings_are_found()
    ensures { MappingsAreFound }
{}
