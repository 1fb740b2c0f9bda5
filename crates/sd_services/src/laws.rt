//! What holds of the definitions, each on a function that does nothing: the contract is the law.
ghost use Rattle.sd_services.specs.Files.{IsExported, OneExport};
ghost use Rattle.sd_services.specs.Spelling.{AskedIsSpelled, ChangeIsWritten, AccessIsSpelled};

/// What is computed of a configuration is what it exports.
#[tactic(auto, using(crate::proofs::Numbering::exports_exported))]
pub fn is_exported()
    ensures { IsExported }
{}

/// A configuration exports one thing, so each file keeps its number and its handle.
#[tactic(auto, using(crate::proofs::Numbering::one_export))]
pub fn one_export()
    ensures { OneExport }
{}

/// A call that isn't refused asks for what its bytes spell, by the grammar of RPC messages (RFC 1057, section 8) and that of its
/// program's arguments.
#[tactic(auto)]
pub fn asked_is_spelled()
    ensures { AskedIsSpelled }
{}

/// A datagram asks for a change of a file exactly where it is the owner's WRITE (RFC 1094, section 2.2.9), and for the one that
/// it writes.
#[tactic(auto)]
pub fn change_is_written()
    ensures { ChangeIsWritten }
{}

/// A datagram is a READ or WRITE of the swap file exactly where it spells one, whoever sends it.
#[tactic(auto)]
pub fn access_is_spelled()
    ensures { AccessIsSpelled }
{}
