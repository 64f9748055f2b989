//! What a query makes of finished groups: [`made_of_groups`] gives the sort keys and the line of each group that HAVING
//! keeps, as in `made_of_groups(alloc, &checked, &rows)?`, and [`out_of`] those of one group.
#![tactic(auto)]

mod lines;
mod rows;
mod values;

ghost use Rattle.group_out.specs.Laws.{OrderOfGroupsIsFree};

pub use rows::{made_of_groups, out_of};

/// Groups in another order make the same rows in another order.
pub fn order_of_groups_is_free()
    ensures { OrderOfGroupsIsFree }
{}
