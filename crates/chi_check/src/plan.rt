//! The plan of a count: that of a file, where one is named.

ghost use Rattle.std.specs.Prelude.{IfErr, IfOk};
ghost use Rattle.chi_check.specs.Planned.{IsPlanFault, IsPlanned};

use crate::fault::PlanFileFault;
use crate::options::CoverOptions;
use crate::sources::Sources;
use chi_cover::Plan;
use chi_json::InputFault;
use chi_plan::{PlanFault, read_plan};
use std::alloc::Global;

/// The plan that the options ask for: the rules of the file that they name, where they name one, and their goal of all bins.
pub(crate) fn plan_asked<S: Sources>(
    alloc: Global,
    options: &CoverOptions<'_>,
    sources: &S,
) -> Result<Plan, PlanFileFault>
    ensures plan { IfOk result (IsPlanned (S.holds sources.now) options.now) }
    ensures fault { IfErr result (IsPlanFault (S.holds sources.now) options.now.plan) }
{
    let Some(path) = options.plan else {
        return match Plan::of_goal(alloc, options.goal) {
            Ok(plan) => Ok(plan),
            Err(_) => Err(PlanFileFault::Refused(PlanFault::Memory)),
        };
    };
    let text = match sources.read_file(alloc, path) {
        Ok(text) => text,
        Err(InputFault::Read) => return Err(PlanFileFault::Read),
        Err(InputFault::TooLong) => return Err(PlanFileFault::TooLong),
        Err(InputFault::Memory) => return Err(PlanFileFault::Refused(PlanFault::Memory)),
    };
    match read_plan(alloc, &text, options.goal) {
        Ok(plan) => Ok(plan),
        Err(fault) => Err(PlanFileFault::Refused(fault)),
    }
}
