// How many users the parts that are owned need.
ghost use Rattle.std.specs.Prelude.{◌≡◌, ◌≤◌, All, length, IfErr, IfOk};
ghost use Rattle.ld_machine.specs.Requirement.{IsRequirement};
ghost use Rattle.ld_options.specs.Ranges.{most_scenarios};
ghost use Rattle.ld_plan.specs.PartView.{parts_of};
ghost use Rattle.ld_plan.specs.Stay.{HasFewUsers};
ghost use Rattle.ld_plan.specs.declared.fault.PlanFault.TheVariants.{Memory};

use crate::fault::PlanFault;
use crate::most::most_of;
use crate::part::Part;
use crate::stays::stays_of;
use crate::users::Users;
use std::alloc::Global;

// The most users that these parts need at one moment.
pub fn users_of(alloc: Global, parts: &[Part]) -> Result<Users, PlanFault>
    requires few { length parts.now ≤ most_scenarios }
    requires users { All (λ view. HasFewUsers view.part) parts.now }
    ensures users { IfOk result (λ users. IsRequirement (parts_of parts.now) users.planned users.limit) }
    ensures memory { IfErr result (λ f. f ≡ Memory) }
{
    let stays = stays_of(alloc, parts)?;
    most_of(alloc, &stays)
}
