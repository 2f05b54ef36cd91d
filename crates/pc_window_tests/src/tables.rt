//! Tables of regions, told, and how much fits into the rows of these tests.

use pc_window_specimen::{PLAIN, Part, ToldRegion, ToldTable};
use pc_word::Operand::{Lit, Name};
use pc_word::{Limits, OpCode};

/// How much fits into the rows of these tests.
pub(crate) const LIMITS: Limits = Limits {
    ops: 4,
    tests: 1,
    mem: 1,
};

/// `print(7);`.
pub(crate) const PRINTED: ToldTable = ToldTable {
    regions: &[ToldRegion {
        parts: &[Part::Print(0, Lit(7)), Part::Stop],
        ..PLAIN
    }],
    headers: &[],
    lengths: &[],
};

/// A loop that reads and prints until it reads 0.
pub(crate) const ECHOING: ToldTable = ToldTable {
    regions: &[ToldRegion {
        parts: &[
            Part::Read(0, 0),
            Part::Asks(1, Name(0)),
            Part::Print(2, Name(0)),
            Part::Next(0),
            Part::Stop,
        ],
        inside: Some(0),
        heads: Some(0),
        ..PLAIN
    }],
    headers: &[0],
    lengths: &[],
};

/// A loop that prints a variable and exchanges it with another until it is 0.
pub(crate) const EXCHANGING: ToldTable = ToldTable {
    regions: &[ToldRegion {
        parts: &[
            Part::Print(0, Name(0)),
            Part::Copy(1, 2, Name(0)),
            Part::Copy(2, 0, Name(1)),
            Part::Copy(3, 1, Name(2)),
            Part::Asks(4, Name(0)),
            Part::Next(0),
            Part::Stop,
        ],
        live: &[0, 1],
        inside: Some(0),
        heads: Some(0),
        ..PLAIN
    }],
    headers: &[0],
    lengths: &[],
};

/// `a = x * 2; b = a + y; print(b);`, where x is variable 3 and y is variable 2.
pub(crate) const TWO_VARIABLES: ToldTable = ToldTable {
    regions: &[ToldRegion {
        parts: &[
            Part::Bin(0, OpCode::Mul, 1, Name(3), Lit(2)),
            Part::Bin(1, OpCode::Add, 5, Name(1), Name(2)),
            Part::Print(2, Name(5)),
            Part::Stop,
        ],
        live: &[2, 3],
        ..PLAIN
    }],
    headers: &[],
    lengths: &[],
};

/// One turn of a loop: it prints, and goes on by a copy, or at once, or ends the loop.
const TURN: ToldRegion = ToldRegion {
    parts: &[
        Part::Print(0, Name(0)),
        Part::Asks(1, Name(0)),
        Part::Next(1),
        Part::Asks(2, Name(0)),
        Part::Next(0),
        Part::Next(2),
    ],
    live: &[0],
    inside: Some(0),
    heads: Some(0),
    ..PLAIN
};

/// A copy alone, before the next turn.
const COPY: ToldRegion = ToldRegion {
    head: 3,
    parts: &[Part::Copy(3, 0, Lit(1)), Part::Next(0)],
    inside: Some(0),
    ..PLAIN
};

/// What follows the loop.
const AFTER: ToldRegion = ToldRegion {
    head: 4,
    parts: &[Part::Print(4, Lit(7)), Part::Stop],
    ..PLAIN
};

/// The three regions.
pub(crate) const LOOPING: ToldTable = ToldTable {
    regions: &[TURN, COPY, AFTER],
    headers: &[0],
    lengths: &[],
};
