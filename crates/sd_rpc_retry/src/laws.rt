//! What holds of calls, on a function that does nothing: the contract is the law.
ghost use Rattle.sd_rpc_retry.specs.Matches.{VerdictIsMatch};

/// A packet tells a caller what the grammars of the messages say: it is a datagram to the caller, from where its call went,
/// that spells a reply to the call, whose results spell a result of the procedure.
pub fn verdict_is_match()
    ensures { VerdictIsMatch }
{}
