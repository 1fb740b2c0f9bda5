//! What holds of the messages and of bootparams files, each on a function that does nothing: the contract is the law.

ghost use Rattle.sd_bootparams.specs.Laws.{ArgsWrittenAreRead, ReadAreArgs, ResultWrittenIsRead, ReadIsResult, IpSpellings};
ghost use Rattle.sd_bootparams.specs.FileLaws.{OneReading, OneRefusal, NeverBoth, EitherWay, ItemsAreTheirParts, LinesAreTheText, BackslashIsASpace, ClientsDiffer};
ghost use Rattle.sd_bootparams.specs.Tables.{EntriesAreFound};
ghost use Rattle.sd_bootparams.specs.LineByLine.{BeginsBlank, NextLineStands, NextLineRefused, StandingIsFile};

/// What is written for arguments is read as those, and as no others.
pub fn args_written_are_read()
    ensures { ArgsWrittenAreRead }
{}

/// Arguments that are read are of that procedure, and within the limits.
pub fn read_are_args()
    ensures { ReadAreArgs }
{}

/// What is written for a result is read as that result, and as no other.
pub fn result_written_is_read()
    ensures { ResultWrittenIsRead }
{}

/// A result that is read is of that procedure, and within the limits.
pub fn read_is_result()
    ensures { ReadIsResult }
{}

/// An address is read from both spellings of each of its chars, and from nothing else.
pub fn ip_spellings()
    ensures { IpSpellings }
{}

/// A bootparams file says one thing.
#[tactic(auto, using(crate::proofs::Files::one_reading))]
pub fn one_reading()
    ensures { OneReading }
{}

/// A bootparams file has one refusal.
pub fn one_refusal()
    ensures { OneRefusal }
{}

/// A file that is read has no refusal.
#[tactic(auto, using(crate::proofs::Files::never_both))]
pub fn never_both()
    ensures { NeverBoth }
{}

/// Before the first line, the blank draft stands.
#[tactic(auto, using(crate::proofs::Standing::begins_blank))]
pub fn begins_blank()
    ensures { BeginsBlank }
{}

/// A line that is read after what is kept is read as a part of the file.
pub fn next_line_stands()
    ensures { NextLineStands }
{}

/// A line that is refused after what is kept is where the file is refused.
#[tactic(auto, using(crate::proofs::Standing::next_line_refused))]
pub fn next_line_refused()
    ensures { NextLineRefused }
{}

/// A draft has what the file says.
#[tactic(auto, using(crate::proofs::Standing::standing_is_file))]
pub fn standing_is_file()
    ensures { StandingIsFile }
{}

/// Each text is a bootparams file or is refused.
pub fn either_way()
    ensures { EitherWay }
{}

/// An item without a fault is its key, its server and its path, with `=` and `:` between them.
#[tactic(auto, using(crate::proofs::Either::items_are_their_parts))]
pub fn items_are_their_parts()
    ensures { ItemsAreTheirParts }
{}

/// The lines of a file, one after another, are the file.
#[tactic(auto, using(crate::proofs::Files::lines_are_the_text))]
pub fn lines_are_the_text()
    ensures { LinesAreTheText }
{}

/// A backslash before a line feed stands, with it, for a space.
pub fn backslash_is_a_space()
    ensures { BackslashIsASpace }
{}

/// No client has two lines.
pub fn clients_differ()
    ensures { ClientsDiffer }
{}

/// Each entry of a file is the one that is found.
#[tactic(auto, using(crate::proofs::Found::entries_are_found))]
pub fn entries_are_found()
    ensures { EntriesAreFound }
{}
