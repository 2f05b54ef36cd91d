//! Tables of one region, told, and how much fits into the rows of their windows.

use pc_window_specimen::{PLAIN, Part, ToldRegion, ToldTable};
use pc_word::Operand::{Lit, Name};
use pc_word::{Limits, OpCode};

/// Four items, of which one may be a load or store, and a test.
pub(crate) const LIMITS: Limits = Limits {
    ops: 4,
    tests: 1,
    mem: 1,
};

/// One item and a test.
pub(crate) const NARROW: Limits = Limits {
    ops: 1,
    tests: 1,
    mem: 1,
};

/// `print(1); if (1) a[0] = 2;`.
pub(crate) const GUARDED_STORE: ToldTable = ToldTable {
    regions: &[ToldRegion {
        parts: &[
            Part::Print(0, Lit(1)),
            Part::Asks(1, Lit(1)),
            Part::Store(2, Lit(0), Lit(2)),
            Part::Stop,
            Part::Stop,
        ],
        ..PLAIN
    }],
    headers: &[],
    lengths: &[4],
};

/// `a[0] = 5; a[1]; a[0]; print(7); print(8); if (1) if (2) { x = 3 + 1; a[2] = 6; }`.
pub(crate) const CONFLICTS: ToldTable = ToldTable {
    regions: &[ToldRegion {
        parts: &[
            Part::Store(0, Lit(0), Lit(5)),
            Part::Load(1, 1, Lit(1)),
            Part::Load(2, 2, Lit(0)),
            Part::Print(3, Lit(7)),
            Part::Print(4, Lit(8)),
            Part::Asks(5, Lit(1)),
            Part::Asks(6, Lit(2)),
            Part::Bin(7, OpCode::Add, 3, Lit(3), Lit(1)),
            Part::Store(8, Lit(2), Lit(6)),
            Part::Stop,
            Part::Stop,
            Part::Stop,
        ],
        ..PLAIN
    }],
    headers: &[],
    lengths: &[4],
};

/// `a = 1 + 2; print(7);`.
pub(crate) const DEAD_STEP: ToldTable = ToldTable {
    regions: &[ToldRegion {
        parts: &[
            Part::Bin(0, OpCode::Add, 1, Lit(1), Lit(2)),
            Part::Print(1, Lit(7)),
            Part::Stop,
        ],
        ..PLAIN
    }],
    headers: &[],
    lengths: &[],
};

/// `if (x) { a = y + 1; print(a); } else { a = y + 1; print(a); }`, where x, a and y are the variables 0
/// to 2. The sum on the yes side is node 1, and that on the no side node 3.
pub(crate) const EQUAL_SUMS: ToldTable = ToldTable {
    regions: &[ToldRegion {
        parts: &[
            Part::Asks(0, Name(0)),
            Part::Bin(1, OpCode::Add, 1, Name(2), Lit(1)),
            Part::Print(2, Name(1)),
            Part::Stop,
            Part::Bin(3, OpCode::Add, 1, Name(2), Lit(1)),
            Part::Print(4, Name(1)),
            Part::Stop,
        ],
        live: &[0, 2],
        ..PLAIN
    }],
    headers: &[],
    lengths: &[],
};

/// The same, where both sums are node 1.
pub(crate) const ONE_SUM: ToldTable = ToldTable {
    regions: &[ToldRegion {
        parts: &[
            Part::Asks(0, Name(0)),
            Part::Bin(1, OpCode::Add, 1, Name(2), Lit(1)),
            Part::Print(2, Name(1)),
            Part::Stop,
            Part::Bin(1, OpCode::Add, 1, Name(2), Lit(1)),
            Part::Print(4, Name(1)),
            Part::Stop,
        ],
        live: &[0, 2],
        ..PLAIN
    }],
    headers: &[],
    lengths: &[],
};
