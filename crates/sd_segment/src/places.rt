//! Where the fate of a packet stands among the lines.
ghost use Rattle.std.specs.Prelude.{IfOk};
ghost use Rattle.sd_segment.specs.Flight.{AreFates};

use sd_config::Fate;
use sd_outside::NoMemory;
use std::alloc::Global;
use std::collections::BTreeMap;

/// For each id that a line names, the place of the first that does.
pub fn fate_places(alloc: Global, fates: &[Fate]) -> Result<BTreeMap<u64, usize>, NoMemory>
    ensures { IfOk result (λ places. AreFates places fates.now) }
{
    let mut places = BTreeMap::new(alloc);
    let mut left = fates.len();
    while left > 0 {
        left -= 1;
        places.insert(fates[left].id, left)?;
    }
    Ok(places)
}
