//! The reason for which a text is refused, in the words of README.md. No words say that nothing is refused.
use crate::words::{Words, numbered, plain};
use query_check::{CheckFault, Limit, Place, check};
use sql_reader::{SqlFault, read};
use std::alloc::Global;

fn of_text(fault: SqlFault) -> Words {
    match fault {
        SqlFault::TooLong => plain("too long"),
        SqlFault::BadToken(place) => numbered("bad token at byte ", i128::from(place), ""),
        SqlFault::TooMany => plain("too many tokens"),
        SqlFault::Refused(place) => numbered("refused word at byte ", i128::from(place), ""),
        SqlFault::TooDeep(place) => numbered("nested too deep at byte ", i128::from(place), ""),
        SqlFault::NotAQuery => plain("not a query"),
        SqlFault::OutOfMemory => plain("out of memory"),
    }
}

fn of_limit(limit: Limit) -> Words {
    plain(match limit {
        Limit::Outputs => "too many outputs",
        Limit::GroupKeys => "too many group keys",
        Limit::OrderKeys => "too many order keys",
        Limit::Steps => "too many steps",
        Limit::Aggregates => "too many aggregates",
    })
}

fn of_place(place: Place, behind: &'static str) -> Words {
    match place {
        Place::Output(number) => numbered("output ", i128::from(number), behind),
        Place::Filter => Words {
            before: "WHERE",
            number: None,
            behind,
        },
        Place::Key(number) => numbered("group key ", i128::from(number), behind),
        Place::Having => Words {
            before: "HAVING",
            number: None,
            behind,
        },
        Place::Order(number) => numbered("order key ", i128::from(number), behind),
    }
}

fn of_query(fault: CheckFault) -> Words {
    match fault {
        CheckFault::TooMany(limit) => of_limit(limit),
        CheckFault::Nested(place) => of_place(place, " has a misplaced aggregate"),
        CheckFault::NotGrouped(place) => of_place(place, " is not grouped"),
        CheckFault::OverGroups(place) => of_place(place, " is not allowed over groups"),
        CheckFault::SameName(output) => numbered(
            "output ",
            i128::from(output),
            " has an earlier name",
        ),
        CheckFault::NoSuchOrder(key) => numbered("order key ", i128::from(key), " has no output"),
        CheckFault::OutOfMemory => plain("out of memory"),
    }
}

/// Why a text is no accepted query.
pub(crate) fn why_refused(alloc: Global, text: &str) -> Words {
    match read(alloc, text) {
        Ok(query) => match check(alloc, query).err() {
            Some(fault) => of_query(fault),
            None => plain(""),
        },
        Err(fault) => of_text(fault),
    }
}
