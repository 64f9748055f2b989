//! How lines are packed.

/// How lines are packed.
#[derive(Clone, Copy, Debug)]
pub struct PackSettings<'a> {
    /// The field that is indexed, and whose texts become times where they spell them. A name of 1 to 255 bytes.
    pub time: Option<&'a str>,
    /// The most that the rows of a block may weigh together, from 1,024 to 1,000,000.
    pub block: u32,
    /// Whether fractions are dropped; else a line that holds one is refused.
    pub drop_fractions: bool,
}
