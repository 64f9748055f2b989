use query_meaning::Mark;

/// A token, as the parser sees it.
#[derive(Clone, Copy, Drop)]
pub enum Look<'t> {
    /// A reserved word or a sign.
    Mark(Mark),
    /// A word that isn't reserved.
    Word(&'t str),
    /// What stands between the quotes of a name, where two quotes in a row stand for one.
    Quoted(&'t str),
    /// What stands between the quotes of a text, where two quotes in a row stand for one.
    Str(&'t str),
    /// A time, in microseconds from 1970-01-01T00:00:00Z.
    Moment(i64),
    Number(u64),
    /// Bytes that are no token of their kind.
    NoToken,
}
