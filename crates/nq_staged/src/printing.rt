//! The line of what was counted.

ghost use Rattle.std.specs.Prelude.{◌≡◌, IfOk, string_bytes};
ghost use Rattle.nq_staged.specs.Around.{counts_of};
ghost use Rattle.nq_staged.specs.Running.{count_line};

use nq_base::NoMemory;
use nq_stage::run::StagedCounts;
use std::alloc::Global;

/// The line of what was counted.
#[tactic(auto, unfolding(crate::specs::Running::count_line))]
pub(crate) fn count_text(alloc: Global, counts: StagedCounts) -> Result<String, NoMemory>
    ensures { IfOk result (λ line. string_bytes line ≡ count_line (counts_of counts)) }
{
    let StagedCounts {
        staged,
        commits,
        unstaged,
    } = counts;
    match format!(in alloc; "staged {staged} commits {commits} unstaged {unstaged}\n") {
        Ok(line) => Ok(line),
        Err(_) => Err(NoMemory::Memory),
    }
}
