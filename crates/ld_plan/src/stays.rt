// The stays of the users of all parts that are owned.
ghost use Rattle.std.specs.Prelude.{◌≡◌, ◌≤◌, All, length, IfErr, IfOk};
ghost use Rattle.ld_options.specs.Ranges.{most_scenarios};
ghost use Rattle.ld_plan.specs.PartView.{parts_of};
ghost use Rattle.ld_plan.specs.Stay.{AreCounted, AreStaysOf, HasFewUsers, HoldSometime};
ghost use Rattle.ld_plan.specs.declared.fault.PlanFault.TheVariants.{Memory};

use crate::fault::PlanFault;
use crate::part::Part;
use crate::stay::Stay;
use std::alloc::Global;

// The stays of the users of these parts. Those that hold at no moment are left out.
pub fn stays_of(alloc: Global, parts: &[Part]) -> Result<Vec<Stay>, PlanFault>
    requires few { length parts.now ≤ most_scenarios }
    requires users { All (λ view. HasFewUsers view.part) parts.now }
    ensures stays { IfOk result (λ stays. AreStaysOf (parts_of parts.now) stays.items) }
    ensures sometime { IfOk result (λ stays. HoldSometime stays.items) }
    ensures counted { IfOk result (λ stays. AreCounted stays.items) }
    ensures memory { IfErr result (λ f. f ≡ Memory) }
{
    let mut stays = Vec::new(alloc);
    for part in parts {
        let stay = part.stay();
        if stay.from < stay.until {
            let Ok(()) = stays.push(stay) else {
                return Err(PlanFault::Memory);
            };
        }
    }
    Ok(stays)
}
