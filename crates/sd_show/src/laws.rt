//! What holds of the texts of packets, each on a function that does nothing: the contract is the law.

ghost use Rattle.sd_show.specs.Laws.{OneText, EitherWay, NeverBoth, OneRefusal, OnePacket, EitherPacked, OneTextRefusal, ShownIsPacked, PackedIsShown};

/// A packet has one text.
pub fn one_text()
    ensures { OneText }
{}

/// A packet has a text or is refused.
pub fn either_way()
    ensures { EitherWay }
{}

/// A packet that has a text is not refused.
pub fn never_both()
    ensures { NeverBoth }
{}

/// A packet is refused for one reason behind the same calls, and so is a text.
pub fn one_refusal()
    ensures shown { OneRefusal }
    ensures packed { OneTextRefusal }
{}

/// Every text is that of a packet or is refused.
pub fn either_packed()
    ensures { EitherPacked }
{}

/// A text is of one packet.
pub fn one_packet()
    ensures { OnePacket }
{}

/// The text that a packet within the limits has is a text of its written form.
pub fn shown_is_packed()
    ensures { ShownIsPacked }
{}

/// A text of a packet is the one that it has, but for how its byte runs are split.
pub fn packed_is_shown()
    ensures { PackedIsShown }
{}
