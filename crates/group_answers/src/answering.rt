//! The answer of the rows of groups.
ghost use Rattle.std.specs.Prelude.{◌≡◌, true, List, All, IfOk, IsPermutation};
ghost use Rattle.value_meaning.specs.Val.{Val};
ghost use Rattle.check_meaning.specs.Aggregates.{is_grouped};
ghost use Rattle.eval_meaning.specs.Passed.{passed};
ghost use Rattle.made_meaning.specs.OverGroups.{Group, groups};
ghost use Rattle.made_meaning.specs.MadeRows.{made};
ghost use Rattle.scan_meaning.specs.Answers.{falling};
ghost use Rattle.group_out.specs.Summaries.{AreSummaries, IsPrintableRow};
ghost use Rattle.order_limit.specs.Laws.{PrintsAnswer};

use crate::flags::flags_of;
use group_out::made_of_groups;
use hash_agg::GroupRows;
use order_limit::arrange;
use query_check::Checked;
use snel_values::{MadeRows, OutOfMemory};
use std::alloc::Global;

/// The rows of a grouped query's answer, in their order, from the rows of its groups, which may come in any order: what
/// the query makes of each group that HAVING keeps, sorted by the order keys, less those that OFFSET skips, and then at
/// most as many as LIMIT says. It fails for want of memory alone.
pub fn answer_of_groups(
    alloc: Global,
    checked: &Checked,
    rows: GroupRows,
) -> Result<MadeRows, OutOfMemory>
    requires { All IsPrintableRow rows }
    ensures { (all : List Val) (gs : List Group) → is_grouped checked.now ≡ true
        → IsPermutation (groups checked.now.keys (passed checked.now all)) gs
        → AreSummaries checked.now gs rows
        → IfOk result (λ out. PrintsAnswer (falling checked.now) checked.now.skip checked.now.take
        (made checked.now all) out) }
{
    let unsorted = made_of_groups(alloc, checked, &rows)?;
    let query = checked.query();
    let falling = flags_of(alloc, &query.order)?;
    arrange(alloc, unsorted, &falling, query.skip, query.take)
}
