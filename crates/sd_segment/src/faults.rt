//! Which calls of the client's network are planned to fail.
ghost use Rattle.std.specs.Prelude.{◌≡◌, ◌||◌, ℕ, OnOk, IfOk};
ghost use Rattle.std.specs.BTreeSet.{contains};
ghost use Rattle.std.specs.List.{list_any};
ghost use Rattle.std.specs.Ordering.{nat_cmp};
ghost use Rattle.sd_config.specs.Plan.{fails_send};
ghost use Rattle.sd_segment.specs.Failing.{names_call, AreNamed};

use sd_config::PlannedFault;
use sd_outside::NoMemory;
use std::alloc::Global;
use std::collections::BTreeSet;

/// The ids of the packets whose sends fail, and the numbers of the receives that fail.
#[derive(Drop)]
pub struct NamedCalls {
    pub sends: BTreeSet<u64>,
    pub receives: BTreeSet<u64>,
}

/// Adds what a line names.
fn add_fault(
    sends: &mut BTreeSet<u64>,
    receives: &mut BTreeSet<u64>,
    fault: &PlannedFault,
) -> Result<(), NoMemory>
    ensures sends { OnOk result ((id : ℕ) → contains nat_cmp sends.new id ≡ (contains nat_cmp sends.old id || fails_send id fault.now)) }
    ensures receives { OnOk result ((call : ℕ) → contains nat_cmp receives.new call ≡ (contains nat_cmp receives.old call || names_call call fault.now)) }
{
    match fault {
        PlannedFault::Send { id } => {
            sends.insert(*id)?;
        }
        PlannedFault::Recv { call } => {
            receives.insert(*call)?;
        }
    }
    Ok(())
}

/// What the lines name.
pub fn named_calls(alloc: Global, faults: &[PlannedFault]) -> Result<NamedCalls, NoMemory>
    ensures { IfOk result (λ named. AreNamed named.sends named.receives faults.now) }
{
    let mut sends = BTreeSet::new(alloc);
    let mut receives = BTreeSet::new(alloc);
    for fault in faults {
        add_fault(&mut sends, &mut receives, fault)?;
    }
    Ok(NamedCalls { sends, receives })
}
