// Which of two sheets another is taken from.

/// Of a sheet and what is made of it, which is taken from the other: the made one from the sheet, as at an edge or a peak, or the sheet
/// from the made one, as at a valley.
#[derive(Clone, Copy)]
pub enum Order {
    /// The sheet minus what is made of it.
    SheetFirst,
    /// What is made of the sheet, minus the sheet.
    MadeFirst,
}
