//! Texts with names of rows, and the texts without names that they stand for.

use crate::room::{Room, words_of};
use pc_assembler::assemble;
use std::alloc::Global;
use std::test::Fail;

/// Texts with names, each with one that has numbers in their place.
static TEXTS: [(&str, &str); 6] = [
    (
        "limits of a row: 8 items, 3 tests, 2 loads and stores; arrays: none\nloop:\ngoto loop\n",
        "limits of a row: 8 items, 3 tests, 2 loads and stores; arrays: none\nrow 0\ngoto row 0\n",
    ),
    (
        "limits of a row: 8 items, 3 tests, 2 loads and stores; arrays: none\nstart:\ngoto end\nend:\nstop\n",
        "limits of a row: 8 items, 3 tests, 2 loads and stores; arrays: none\nrow 0\ngoto row 1\nrow 1\nstop\n",
    ),
    (
        "limits of a row: 8 items, 3 tests, 2 loads and stores; arrays: a0[2]\na0[0] = 5\n\
        _1 : // its data\nif r1\nyes goto loop2;back\nno goto row 1\nrow 1\ngoto Loop2\n\
        loop2: 1 of 8 items, 0 of 3 tests, 0 of 2 loads and stores\ngoto _1\n  Loop2 :\nstop\n\
        loop 3: plain, rows 257 of 256\n",
        "limits of a row: 8 items, 3 tests, 2 loads and stores; arrays: a0[2]\na0[0] = 5\n\
        row 0\nif r1\nyes goto row 2\nno goto row 1\nrow 1\ngoto row 3\nrow 2\ngoto row 0\nrow 3\nstop\n\
        loop 3: plain, rows 257 of 256\n",
    ),
    (
        "limits of a row: 8 items, 3 tests, 2 loads and stores; arrays: none\nrow 0\ngoto rows\n\
        rows:\ngoto row_0\nrow_0:\ngoto ifs\nifs:\ngoto reg\nreg:\ngoto array\narray:\nstop\n",
        "limits of a row: 8 items, 3 tests, 2 loads and stores; arrays: none\nrow 0\ngoto row 1\n\
        row 1\ngoto row 2\nrow 2\ngoto row 3\nrow 3\ngoto row 4\nrow 4\ngoto row 5\nrow 5\nstop\n",
    ),
    (
        "limits of a row: 8 items, 3 tests, 2 loads and stores; arrays: none\na_first:\ngoto\tr_next\nr_next:\nif 1\n\
        | yes goto a_first // again\n | | ; or not\nno stop",
        "limits of a row: 8 items, 3 tests, 2 loads and stores; arrays: none\nrow 0\ngoto row 1\nrow 1\nif 1\n\
        yes goto row 0\nno stop",
    ),
    (
        "limits of a row: 8 items, 3 tests, 2 loads and stores; arrays: none\nstart:\nstop // goto nowhere\n; start:\n",
        "limits of a row: 8 items, 3 tests, 2 loads and stores; arrays: none\nrow 0\nstop\n",
    ),
];

/// The object that the assembler makes of a text, and nothing where it makes none.
fn object_of(alloc: Global, text: &str) -> Result<Vec<u8>, Fail> {
    let words = words_of(alloc, "a.rows -o o.tv")?;
    let mut room = Room::new(alloc, text.as_bytes(), [0, 0])?;
    let status = assemble(alloc, words.as_slice(), &mut room.shelf, &mut room.err);
    if status != 0 {
        return Ok(Vec::new(alloc));
    }
    let mut object = Vec::new(alloc);
    if let Some(bytes) = room.held("o.tv") {
        object.extend_from_slice(bytes)?;
    }
    Ok(object)
}

/// Whether the assembler makes one object of two texts.
fn are_alike(alloc: Global, text: &str, other: &str) -> Result<bool, Fail> {
    let first = object_of(alloc, text)?;
    let second = object_of(alloc, other)?;
    Ok(!first.is_empty() && first.as_slice() == second.as_slice())
}

#[test]
fn names_stand_for_numbers(rt: HostRuntime) -> Result<(), Fail> {
    for (text, other) in TEXTS.iter() {
        assert!(rt; are_alike(rt.alloc(), text, other)?, "{other}");
    }
    Ok(())
}
