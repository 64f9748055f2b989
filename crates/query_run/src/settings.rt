/// How a query is to be answered.
#[derive(Clone, Copy)]
pub struct Settings {
    /// How many workers scan blocks, 1 to 64.
    pub workers: u32,
    /// How many groups a grouped query has at most, 1 to 16,777,216.
    pub groups: u32,
}
