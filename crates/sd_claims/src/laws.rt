//! What holds of the claims, each on a function that does nothing: the contract is the law.

ghost use Rattle.sd_claims.specs.Laws.{AddressIsConfigured, ProgramIsConfigured, AddressWasTold, ProgramWasFetched, WaitPassed, HasOneAnswer, HasOneCount, FaultIsTold, FaultIsLast, NoFaultIsCaused, UncountedBoot, UncountedCalls, PortsDiffer};

/// What the boot machine shows is what was configured.
pub fn shows_what_is_configured()
    ensures address { AddressIsConfigured }
    ensures program { ProgramIsConfigured }
{}

/// What an answer shows came through the network while its command was done.
pub fn shows_what_came()
    ensures address { AddressWasTold }
    ensures program { ProgramWasFetched }
    ensures wait { WaitPassed }
{}

/// One part, state and command have one answer, and what the client counts after it is one.
pub fn has_one_answer()
    ensures answer { HasOneAnswer }
    ensures count { HasOneCount }
{}

/// A fault of the network is answered exactly where the network failed, and the failure is the last that happened in the command.
pub fn no_fault_is_caused()
    ensures calm { NoFaultIsCaused }
    ensures told { FaultIsTold }
    ensures last { FaultIsLast }
{}

/// A boot that isn't counted came no further than RARP, and one whose calls aren't counted no further than TFTP.
pub fn counts_each_step()
    ensures boots { UncountedBoot }
    ensures calls { UncountedCalls }
{}

/// Of 32,768 boots in a row each fetches from a port of its own.
pub fn ports_differ()
    ensures { PortsDiffer }
{}
