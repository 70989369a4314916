// A spot of a sheet.

/// A cell of a sheet by its column and its row, both counted from 0, and the level that the sheet has there.
#[derive(Clone, Copy)]
pub struct Spot<L> {
    pub column: usize,
    pub row: usize,
    pub level: L,
}
