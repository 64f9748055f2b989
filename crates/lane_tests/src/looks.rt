use lane_base::Look;

/// Whether the two looks are the same.
pub fn is_look(look: Look<'_>, wanted: Look<'_>) -> bool {
    match (look, wanted) {
        (Look::Missing, Look::Missing) | (Look::Null, Look::Null) => true,
        (Look::Bool(a), Look::Bool(b)) => a == b,
        (Look::Int(a), Look::Int(b)) | (Look::Time(a), Look::Time(b)) => a == b,
        (Look::Text(a), Look::Text(b)) | (Look::Tree(a), Look::Tree(b)) => a == b,
        _ => false,
    }
}
