use pc_word::Seq;

/// That a register of the code after has, when a row begins, the value of a register of the code before.
#[derive(Clone, Copy, Debug)]
pub struct Holding {
    /// The register of the code before.
    pub register: u8,
    /// The register of the code after.
    pub place: u8,
}

/// What is told of a row of the code after.
#[derive(Debug, Drop)]
pub struct RowWitness {
    /// The row of the code before that it does.
    pub origin: u32,
    /// Where it finds the values that are needed from there on.
    pub held: Seq<Holding>,
}
