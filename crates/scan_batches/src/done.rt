/// What a scan did.
#[derive(Clone, Copy)]
pub struct Done {
    /// How many lines were put; the count stands still at its end.
    pub lines: u64,
    /// How many blocks stand in the batches that count.
    pub read: u32,
}
