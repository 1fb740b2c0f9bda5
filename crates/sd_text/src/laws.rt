//! What holds of every kind that is clear, each on a function that does nothing: the contract is the law.

ghost use Rattle.std.specs.Prelude.{◌≡◌, ◌⊎◌, ◌<◌, ◌^◌, false, List, ℕ, length};
ghost use Rattle.hex.specs.Hex.{IsBytes};
ghost use Rattle.sd_outside.specs.declared.packet.Packet.{Packet};
ghost use Rattle.sd_text.specs.Runs.{runs_text, IsRuns};
ghost use Rattle.sd_text.specs.Packets.{packet_text, IsPacket, IsPacketLine};
ghost use Rattle.sd_text.specs.Kind.{is_clear, two_numbers, two_names, open_end};
ghost use Rattle.sd_text.specs.Laws.{OneValue, ReadingIsTheGrammar, ReadBeforeMore, WrittenIsRead, ReadHasText, OneText};

/// What is spelled is read, and what follows is left, where that ends it.
#[tactic(auto, using(crate::proofs::Whole::read_before_more))]
pub fn read_before_more()
    ensures { ReadBeforeMore }
{}

/// A text spells one value.
#[tactic(auto, using(crate::proofs::Whole::one_value))]
pub fn one_value()
    ensures { OneValue }
{}

/// Reading gives the value that a text spells, and none where it spells none.
pub fn reading_is_the_grammar()
    ensures { ReadingIsTheGrammar }
{}

/// What is written for a value within the limits is read as that value.
#[tactic(auto, using(crate::proofs::Writes::written_is_read))]
pub fn written_is_read()
    ensures { WrittenIsRead }
{}

/// What is read is within the limits.
#[tactic(auto, using(crate::proofs::ReadFits::read_has_text))]
pub fn read_has_text()
    ensures { ReadHasText }
{}

/// Kinds that are read in two ways aren't clear.
pub fn unclear_kinds()
    ensures numbers { false ≡ is_clear two_numbers }
    ensures names { false ≡ is_clear two_names }
    ensures ends { false ≡ is_clear open_end }
{}

/// Where no byte run stands, the text that is written is the only one.
#[tactic(auto, using(crate::proofs::OneText::one_text))]
pub fn one_text()
    ensures { OneText }
{}

/// A byte run text stands for one list of bytes, and the text that is written for some bytes for these.
pub fn runs_are_read_again()
    ensures one { (text a b : List ℕ) → IsRuns text a → IsRuns text b → a ≡ b }
    ensures again { (bytes : List ℕ) → IsBytes bytes → length bytes < 2 ^ 64 → IsRuns (runs_text bytes) bytes }
{}

/// A line is that of one packet or of none, and the line that is written for a packet within the limits is its own.
pub fn packet_lines_are_read_again()
    ensures one { (line : List ℕ) (a b : Packet) → IsPacketLine line a → IsPacketLine line b → a ≡ b }
    ensures either { (line : List ℕ) → ((packet : Packet) × IsPacketLine line packet) ⊎ ((packet : Packet) → IsPacketLine line packet → ⊥) }
    ensures again { (packet : Packet) → IsPacket packet → IsPacketLine (packet_text packet) packet }
{}
