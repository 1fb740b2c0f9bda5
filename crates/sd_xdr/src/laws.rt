//! What holds of every kind, each on a function that does nothing: the contract is the law.

ghost use Rattle.sd_xdr.specs.Laws.{PartsAreKept, OneValue, NeverBoth, OneRefusal, EitherWay, WritesSpell, OneSpelling, WrittenIsRead, ReadHasSpelling, ReadingIsTheGrammar};

/// No spelling of a part is a proper prefix of another, so what stands in a row is read again, whatever follows.
#[tactic(auto, using(crate::proofs::Whole::parts_are_kept))]
pub fn parts_are_kept()
    ensures { PartsAreKept }
{}

/// A whole message spells one value.
#[tactic(auto, using(crate::proofs::Whole::one_value))]
pub fn one_value()
    ensures { OneValue }
{}

/// Bytes spell a value or are refused.
pub fn either_way()
    ensures { EitherWay }
{}

/// Bytes that spell a value are not refused.
#[tactic(auto, using(crate::proofs::Whole::never_both))]
pub fn never_both()
    ensures { NeverBoth }
{}

/// Bytes are refused for one reason.
#[tactic(auto, using(crate::proofs::Whole::one_refusal))]
pub fn one_refusal()
    ensures { OneRefusal }
{}

/// What is written for a value that has a spelling spells it.
#[tactic(auto, using(crate::proofs::Writes::writes_spell))]
pub fn writes_spell()
    ensures { WritesSpell }
{}

/// Where no char stands, what is written is the only spelling.
#[tactic(auto, using(crate::proofs::Writes::one_spelling))]
pub fn one_spelling()
    ensures { OneSpelling }
{}

/// What is read is within the limits.
#[tactic(auto, using(crate::proofs::Writes::read_has_spelling))]
pub fn read_has_spelling()
    ensures { ReadHasSpelling }
{}

/// A reader gives a value exactly where the bytes begin with its spelling, and a refusal exactly where the grammar has it.
pub fn reading_is_the_grammar()
    ensures { ReadingIsTheGrammar }
{}

/// What is written for a value within the limits is read again.
#[tactic(auto, using(crate::proofs::Writes::written_is_read))]
pub fn written_is_read()
    ensures { WrittenIsRead }
{}
