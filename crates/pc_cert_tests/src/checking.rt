//! Certificates of a loop, gone through.
use crate::tables::TWO_REGIONS;
use pc_accepted::{Flaw, LeafFlaw, Rejection};
use pc_cert::{
    Certificate, Entry, EntryList, Fact, FactList, Opening, Source, Step, StepList, WindowOperand,
};
use pc_checking::{CheckError, check};
use pc_machine::{Code, FEW_REGISTERS, Leaf, Tree, TreeList, well_formed};
use pc_object::{NoteList, Object};
use pc_proposing::propose;
use pc_specimen::chain;
use pc_table::RegionTable;
use pc_window_specimen::table;
use pc_word::{Item, LengthList, Limits, OpCode, Operand, RowTree, no_data};
use std::alloc::{AllocError, Global};
use std::test::Fail;

// ---- the code

/// `r0 = 2;`
const FIRST: Item = Item::Copy {
    dest: 0,
    from: Operand::Lit(2),
};

/// `print(r1);`
const SHOWS: Item = Item::Print {
    value: Operand::Name(1),
};

/// `r0 = r0 - 1;`
const LESS: Item = Item::Bin {
    op: OpCode::Sub,
    dest: 0,
    left: Operand::Name(0),
    right: Operand::Lit(1),
};

/// `print(7);`
const LAST: Item = Item::Print {
    value: Operand::Lit(7),
};

/// A row of items that leads to another.
fn leads(alloc: Global, items: &[Item], row: u32) -> Result<Tree, AllocError> {
    chain(alloc, items, Leaf::Goto { row })
}

/// A test of a register above two rows.
fn fork(alloc: Global, register: u32, yes: Tree, no: Tree) -> Result<Tree, AllocError> {
    Ok(RowTree::Test {
        on: Operand::Name(register),
        yes: Box::new(alloc, yes)?,
        no: Box::new(alloc, no)?,
    })
}

/// A turn, with the step to the next one where x, in register 0, is not 0.
fn turn(alloc: Global) -> Result<Tree, AllocError> {
    let yes = leads(alloc, &[LESS], 1)?;
    let no = leads(alloc, &[], 2)?;
    let next = Box::new(alloc, fork(alloc, 0, yes, no)?)?;
    Ok(RowTree::Step { item: SHOWS, next })
}

/// The rows of the loop: x is in register 0, and y in register 1.
fn rows(alloc: Global) -> Result<TreeList, AllocError> {
    let mut rows = TreeList::new(alloc);
    rows.push(leads(alloc, &[FIRST], 1)?)?;
    rows.push(turn(alloc)?)?;
    let yes = leads(alloc, &[], 3)?;
    let no = leads(alloc, &[], 4)?;
    rows.push(fork(alloc, 1, yes, no)?)?;
    rows.push(leads(alloc, &[LESS], 1)?)?;
    rows.push(chain(alloc, &[LAST], Leaf::Stop)?)?;
    Ok(rows)
}

/// The code of the loop, with arrays of these lengths.
fn code(alloc: Global, lengths: &[u32]) -> Result<Code, AllocError> {
    Ok(Code {
        limits: Limits {
            ops: 2,
            tests: 1,
            mem: 1,
        },
        registers: FEW_REGISTERS as u16,
        arrays: LengthList::from_slice(alloc, lengths)?,
        initial: no_data(alloc, lengths.len())?,
        rows: rows(alloc)?,
    })
}

// ---- its certificate

/// An entry, told.
#[derive(Clone, Copy)]
struct Told {
    row: u32,
    rank: u32,
    facts: &'static [Fact],
    opening: Opening,
    steps: &'static [Step],
}

/// Register 0 has the first parameter.
const FIRST_IN_0: Fact = Fact {
    source: Source::Register(0),
    operand: WindowOperand::Parameter(0),
};

/// Register 0 has the second.
const SECOND_IN_0: Fact = Fact {
    source: Source::Register(0),
    operand: WindowOperand::Parameter(1),
};

/// Register 1 has the first.
const FIRST_IN_1: Fact = Fact {
    source: Source::Register(1),
    operand: WindowOperand::Parameter(0),
};

/// Register 1 has the second.
const SECOND_IN_1: Fact = Fact {
    source: Source::Register(1),
    operand: WindowOperand::Parameter(1),
};

/// Register 2 has the second.
const SECOND_IN_2: Fact = Fact {
    source: Source::Register(2),
    operand: WindowOperand::Parameter(1),
};

/// What is left is taken as it is.
const AS_LEFT: Opening = Opening {
    enters: false,
    window: 0,
    inside: None,
};

/// What is left is taken as it is, inside the loop.
const INSIDE: Opening = Opening {
    enters: false,
    window: 0,
    inside: Some(0),
};

/// A stub is taken as its region.
const ENTERED: Opening = Opening {
    enters: true,
    window: 0,
    inside: Some(0),
};

/// The row before the loop.
const BEFORE: Told = Told {
    row: 0,
    rank: 0,
    facts: &[FIRST_IN_1],
    opening: AS_LEFT,
    steps: &[],
};

/// A turn, with the step behind it.
const TURN: Told = Told {
    row: 1,
    rank: 1,
    facts: &[FIRST_IN_1, SECOND_IN_0],
    opening: ENTERED,
    steps: &[
        Step::Open { leaf: 0 },
        Step::Bring { place: 0 },
        Step::Bring { place: 1 },
        Step::Bring { place: 2 },
    ],
};

/// The turn's second test.
const ASKS: Told = Told {
    row: 2,
    rank: 0,
    facts: &[FIRST_IN_1, SECOND_IN_0],
    opening: INSIDE,
    steps: &[Step::Bring { place: 0 }],
};

/// The step alone.
const STEPS: Told = Told {
    row: 3,
    rank: 0,
    facts: &[FIRST_IN_0, SECOND_IN_1],
    opening: ENTERED,
    steps: &[Step::Bring { place: 0 }],
};

/// What comes after the loop; its sum is used nowhere.
const AFTER: Told = Told {
    row: 4,
    rank: 0,
    facts: &[],
    opening: ENTERED,
    steps: &[Step::Bring { place: 1 }],
};

/// A certificate of the loop.
const ENTRIES: &[Told] = &[BEFORE, TURN, ASKS, STEPS, AFTER];

/// An entry.
fn entry(alloc: Global, told: &Told) -> Result<Entry, AllocError> {
    Ok(Entry {
        row: told.row,
        rank: told.rank,
        facts: FactList::from_slice(alloc, told.facts)?,
        opening: told.opening,
        steps: StepList::from_slice(alloc, told.steps)?,
    })
}

/// The certificate of the loop with another entry at a place, or one more.
fn with_entry(alloc: Global, place: usize, told: &Told) -> Result<Certificate, AllocError> {
    let mut entries = EntryList::new(alloc);
    for (number, own) in ENTRIES.iter().enumerate() {
        let taken = if number == place { told } else { own };
        entries.push(entry(alloc, taken)?)?;
    }
    if place >= ENTRIES.len() {
        entries.push(entry(alloc, told)?)?;
    }
    Ok(Certificate { entries })
}

// ---- the answers

/// The entry that another one takes the place of, if there is one, that other one, the entry that is refused then, and why.
const CASES: [(usize, Told, u32, Flaw); 9] = [
    // Row 0 has no entry.
    (
        0,
        Told { row: 5, ..BEFORE },
        0,
        Flaw::Start {
            why: LeafFlaw::NoEntry,
        },
    ),
    // No variable has the value of a register that nothing has written and the loop's home has not.
    (
        1,
        Told {
            facts: &[FIRST_IN_1, SECOND_IN_2],
            ..TURN
        },
        0,
        Flaw::Leaf {
            leaf: 0,
            why: LeafFlaw::NoArrival,
        },
    ),
    // In a window of no loop no stub is opened.
    (
        1,
        Told {
            opening: Opening {
                inside: None,
                ..ENTERED
            },
            ..TURN
        },
        1,
        Flaw::IllegalStep,
    ),
    // Neither the rank falls nor is a region entered.
    (
        2,
        Told { rank: 1, ..ASKS },
        1,
        Flaw::Leaf {
            leaf: 1,
            why: LeafFlaw::NoProgress,
        },
    ),
    // The row's sum is not brought, so what is left is another window than a turn.
    (
        3,
        Told {
            steps: &[],
            ..STEPS
        },
        3,
        Flaw::Leaf {
            leaf: 0,
            why: LeafFlaw::NoArrival,
        },
    ),
    // Row 4 has no entry.
    (
        4,
        Told { row: 3, ..AFTER },
        2,
        Flaw::Leaf {
            leaf: 1,
            why: LeafFlaw::NoEntry,
        },
    ),
    // What comes after the loop uses no variable.
    (
        4,
        Told {
            facts: &[FIRST_IN_1],
            ..AFTER
        },
        2,
        Flaw::Leaf {
            leaf: 1,
            why: LeafFlaw::NoParameter,
        },
    ),
    // The row prints, and the front does not.
    (
        4,
        Told {
            steps: &[],
            ..AFTER
        },
        4,
        Flaw::OtherRow,
    ),
    // Nothing leads to a fifth row.
    (5, Told { row: 5, ..AFTER }, 5, Flaw::Unreached),
];

/// Whether a certificate is refused at an entry for this reason, or accepted where there is none.
fn is_answered(
    alloc: Global,
    table: &RegionTable,
    code: &Code,
    certificate: &Certificate,
    refused: Option<Rejection>,
) -> Result<bool, AllocError> {
    if well_formed(code).is_some() || certificate.entries.len() > 100 {
        return Ok(false);
    }
    let initial = no_data(alloc, 0)?;
    match check(alloc, table, &initial, code, certificate) {
        Ok(()) => Ok(refused.is_none()),
        Err(CheckError::Rejected { rejection }) => Ok(refused == Some(rejection)),
        Err(CheckError::Memory) => Err(AllocError),
    }
}

#[test]
fn a_certificate_of_a_loop_is_accepted(rt: HostRuntime) -> Result<(), Fail> {
    let alloc = rt.alloc();
    let table = table(alloc, &TWO_REGIONS)?;
    let whole = with_entry(alloc, 0, &BEFORE)?;
    let loop_code = code(alloc, &[])?;
    assert!(rt; is_answered(alloc, &table, &loop_code, &whole, None)?);
    let other_data = Rejection {
        entry: 0,
        flaw: Flaw::OtherData,
    };
    let with_array = code(alloc, &[1])?;
    assert!(rt; is_answered(alloc, &table, &with_array, &whole, Some(other_data))?);
    Ok(())
}

#[test]
fn others_are_refused_at_their_first_flaw(rt: HostRuntime) -> Result<(), Fail> {
    let alloc = rt.alloc();
    let table = table(alloc, &TWO_REGIONS)?;
    let loop_code = code(alloc, &[])?;
    for (place, told, number, flaw) in CASES {
        let certificate = with_entry(alloc, place, &told)?;
        let rejection = Rejection {
            entry: number,
            flaw,
        };
        let refused = is_answered(alloc, &table, &loop_code, &certificate, Some(rejection))?;
        assert!(rt; refused, "{place} {number}");
    }
    Ok(())
}

#[test]
fn what_is_proposed_is_accepted(rt: HostRuntime) -> Result<(), Fail> {
    let alloc = rt.alloc();
    let table = table(alloc, &TWO_REGIONS)?;
    let object = Object {
        code: code(alloc, &[])?,
        notes: NoteList::new(alloc),
    };
    let certificate = propose(alloc, &table, &object)?;
    assert!(rt; is_answered(alloc, &table, &object.code, &certificate, None)?);
    Ok(())
}
