/// Where the value of a register of the code before stands, on the way down a row.
#[derive(Clone, Copy, Debug)]
pub enum Kept {
    /// The path has not written it: as before the row.
    Before,
    /// In what this register of the code after had before the row.
    Was { register: u8 },
    /// In this register of the code after, which an item of the path wrote.
    Made { register: u8 },
    /// Nowhere.
    Lost,
}
