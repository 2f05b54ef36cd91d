//! Texts that are refused, each with its line.

use crate::room::{Room, words_of};
use pc_assembler::assemble;
use std::alloc::Global;
use std::test::Fail;

/// Texts, each with what its line says after `pasm: `.
static TEXTS: [(&str, &str); 38] = [
    ("", "listing: expected 'limits' at line 1, column 1"),
    (
        "; nothing\n\n",
        "listing: expected 'limits' at line 3, column 1",
    ),
    (
        "limits of a row, 8",
        "listing: expected ':' at line 1, column 16",
    ),
    (
        "limits of a row: 256 items",
        "listing: expected a number up to 255 at line 1, column 18",
    ),
    (
        "limits of a row: 8 items, 3 tests, 2 loads and stores; arrays: a0[2]; registers: 65536",
        "listing: expected a number up to 65535 at line 1, column 82",
    ),
    (
        "limits of a row: 8 items, 3 tests, 2 loads and stores; arrays: none\nrow 1\n",
        "listing: expected the number of the next row at line 2, column 5",
    ),
    (
        "limits of a row: 8 items, 3 tests, 2 loads and stores; arrays: a0[2]\na0[1] = 5\n",
        "listing: expected the next element of an array at line 2, column 1",
    ),
    (
        "limits of a row: 8 items, 3 tests, 2 loads and stores; arrays: a0[2]\na0[0] = r1\n",
        "listing: expected a word at line 2, column 9",
    ),
    (
        "limits of a row: 8 items, 3 tests, 2 loads and stores; arrays: none\nrow 0\nprant(7)\n",
        "listing: expected an item, a test or a leaf at line 3, column 1",
    ),
    (
        "limits of a row: 8 items, 3 tests, 2 loads and stores; arrays: none\nrow 0\nr256 = 7\n",
        "listing: expected a register at line 3, column 2",
    ),
    (
        "limits of a row: 8 items, 3 tests, 2 loads and stores; arrays: none\nrow 0\nr1 = a256[0]\n",
        "listing: expected an array at line 3, column 7",
    ),
    (
        "limits of a row: 8 items, 3 tests, 2 loads and stores; arrays: none\nrow 0\nprint(2147483648)\n",
        "listing: expected a register or a word at line 3, column 7",
    ),
    (
        "limits of a row: 8 items, 3 tests, 2 loads and stores; arrays: none\nrow 0\nr1 = r2 ? 3\n",
        "listing: expected an operator at line 3, column 9",
    ),
    (
        "limits of a row: 8 items, 3 tests, 2 loads and stores; arrays: none\nrow 0\ngoto row 4294967296\n",
        "listing: expected a number up to 4294967295 at line 3, column 10",
    ),
    (
        "limits of a row: 8 items, 3 tests, 2 loads and stores; arrays: none\nrow 0\ntrap: end of line\n",
        "listing: expected 'input' at line 3, column 14",
    ),
    (
        "limits of a row: 8 items, 3 tests, 2 loads and stores; arrays: none\nrow 0\ntrap: no\n",
        "listing: expected a kind of trap at line 3, column 7",
    ),
    (
        "limits of a row: 8 items, 3 tests, 2 loads and stores; arrays: none\nrow 0\nstop it\n",
        "listing: expected the end of the line at line 3, column 6",
    ),
    (
        "limits of a row: 8 items, 3 tests, 2 loads and stores; arrays: none\nrow 0\nif r0\nyes stop\n",
        "listing: expected 'no' at line 5, column 1",
    ),
    (
        "limits of a row: 8 items, 3 tests, 2 loads and stores; arrays: none\nrow 0\nstop\nloop 1: open\n",
        "listing: expected a form of a loop at line 4, column 9",
    ),
    (
        "limits of a row: 8 items, 3 tests, 2 loads and stores; arrays: none\nrow 0\nstop\nloop 1: plain, window\n",
        "listing: expected what decided the form at line 4, column 16",
    ),
    (
        "limits of a row: 8 items, 3 tests, 2 loads and stores; arrays: none\nrow 0\ngoto row 1\n",
        "object: bad field at offset 13: Target, from line 3, column 1",
    ),
    (
        "limits of a row: 8 items, 3 tests, 2 loads and stores; arrays: none\nrow 0\nr128 = 7\nstop\n",
        "object: bad field at offset 13: Register, from line 3, column 1",
    ),
    (
        "limits of a row: 8 items, 3 tests, 2 loads and stores; arrays: none\nrow 0\nr1 = 1\n r1 = 2\nstop\n",
        "object: bad field at offset 20: DestTwice, from line 4, column 2",
    ),
    (
        "limits of a row: 1 items, 1 tests, 1 loads and stores; arrays: none\nrow 0\nr1 = 1\n  r2 = 2\nstop\n",
        "object: bad field at offset 19: TooManyOps, from line 4, column 3",
    ),
    (
        "limits of a row: 8 items, 3 tests, 2 loads and stores; arrays: none\nrow 0\nif r0\nno stop\n",
        "listing: expected 'yes' at line 4, column 1",
    ),
    (
        "limits of a row: 8 items, 3 tests, 2 loads and stores; arrays: a0[2]\na0[0\n",
        "listing: expected ']' at line 2, column 5",
    ),
    (
        "limits of a row: 8 items, 3 tests, 2 loads and stores; arrays: none\nloop:\ngoto loop\nloop:\nstop\n",
        "listing: expected a name that no row before has at line 4, column 1",
    ),
    (
        "limits of a row: 8 items, 3 tests, 2 loads and stores; arrays: none\nrow 0\nif r0\nyes goto lop\nno goto row 0\n",
        "listing: expected a name that a row has at line 4, column 10",
    ),
    (
        "limits of a row: 8 items, 3 tests, 2 loads and stores; arrays: none\nrow 0\ngoto 1\n",
        "listing: expected 'row' or the name of a row at line 3, column 6",
    ),
    (
        "limits of a row: 8 items, 3 tests, 2 loads and stores; arrays: none\nrow 0\ngoto r1\n",
        "listing: expected 'row' or the name of a row at line 3, column 6",
    ),
    (
        "limits of a row: 8 items, 3 tests, 2 loads and stores; arrays: none\nrow 0\nstop\nloop goes on\n",
        "listing: expected a number up to 4294967295 at line 4, column 6",
    ),
    (
        "limits of a row: 8 items, 3 tests, 2 loads and stores; arrays: none\nrow 0\nstop\nagain\nstop\n",
        "listing: expected ':' at line 4, column 6",
    ),
    (
        "limits of a row: 8 items, 3 tests, 2 loads and stores; arrays: none\nrow 0\nstop\n| stop2:\n",
        "listing: expected 'row' or the name of a row at line 4, column 3",
    ),
    (
        "limits of a row: 8 items, 3 tests, 2 loads and stores; arrays: none\nrow2:\nstop\n",
        "listing: expected the number of the next row at line 2, column 4",
    ),
    (
        "limits of a row: 8 items, 3 tests, 2 loads and stores; arrays: none\nstart: 1 of 8\n",
        "listing: expected 'items' at line 2, column 14",
    ),
    (
        "limits of a row: 8 items, 3 tests, 2 loads and stores; arrays: none\nrow 0\nstop\nloop 1: plain, rows 2 of 3\nloop2: plain, rows 2 of 3\n",
        "listing: expected 'loop' at line 5, column 1",
    ),
    (
        "limits of a row: 8 items, 3 tests, 2 loads and stores; arrays: none\n",
        "listing: expected 'row' or the name of a row at line 2, column 1",
    ),
    (
        "limits of a row: 8 items, 3 tests, 2 loads and stores; arrays: none\nrow 0\ngoto a1b\na1b:\nstop\n",
        "listing: expected 'row' or the name of a row at line 3, column 6",
    ),
];

/// Whether the assembler refuses a text with this line, and leaves nothing.
fn refuses(alloc: Global, text: &str, line: &str) -> Result<bool, Fail> {
    let words = words_of(alloc, "a.rows -o o.tv")?;
    let mut room = Room::new(alloc, text.as_bytes(), [0, 0])?;
    let status = assemble(alloc, words.as_slice(), &mut room.shelf, &mut room.err);
    let told = format!(in alloc; "pasm: {line}\n")?;
    Ok(status == 4 && room.err.taken() == told.as_bytes() && room.held("o.tv").is_none())
}

#[test]
fn refuses_texts(rt: HostRuntime) -> Result<(), Fail> {
    for (text, line) in TEXTS.iter() {
        assert!(rt; refuses(rt.alloc(), text, line)?, "{line}");
    }
    Ok(())
}
