//! Each call outside fails in turn, alone and with the error output, and streams that move one byte a call.

use crate::bench::{
    EXCHANGE, Failing, NONE_FAILS, SEVEN_OBJECT, Wanted, answers, answers_slowly, holds, shelf_with,
};
use pc_outside::MemoryShelf;
use pc_tool::Who;
use std::alloc::Global;
use std::test::Fail;

/// Reads three numbers and prints each.
const THREE_NUMBERS: &[u8] = b"PTV1\x08\x03\x02\x00\x00\x00\x00\x06\
    \x25\x00\x01\x00\x00\x00\x01\x24\x00\x00\x01\x00\x00\x00\x02\
    \x25\x00\x01\x00\x00\x00\x03\x24\x00\x00\x01\x00\x00\x00\x04\
    \x25\x00\x01\x00\x00\x00\x05\x24\x00\x00\x02\x00\x00";

/// Prints 1, and is trapped by a division by zero at line 2.
const DIVIDES_BY_ZERO: &[u8] =
    b"PTV1\x08\x03\x02\x00\x00\x00\x00\x01\x24\x01\x00\x00\x00\x01\x03\x00\x00\x00\x00\x02\x00\x00";

/// What a call of the shelf leaves where it fails: the status and the line.
type Told = (u8, &'static str);

/// A run: its file, its input, what it leaves where no call fails, and what the calls leave that fail.
#[derive(Clone, Copy)]
struct Run {
    who: Who,
    line: &'static str,
    name: &'static str,
    text: &'static [u8],
    input: &'static [u8],
    code: u8,
    out: &'static [u8],
    err: &'static str,
    /// What each call of the shelf leaves.
    shelf: &'static [Told],
    /// How many reads of the input there are.
    reads: u64,
    /// What the output has taken where each of its writes fails.
    parts: &'static [&'static [u8]],
    /// What is said where the output fails.
    unwritten: &'static str,
}

/// The compiler, which reads a source and writes an object.
const COMPILER: Run = Run {
    who: Who::Pcc,
    line: "a.c -o b.tv",
    name: "a.c",
    text: b"int main(void){print(7);}",
    input: b"",
    code: 0,
    out: b"",
    err: "",
    shelf: &[
        (3, "pcc: read failed: a.c\n"),
        (5, "pcc: write failed: b.tv\n"),
    ],
    reads: 0,
    parts: &[],
    unwritten: "pcc: write failed: output\n",
};

/// The simulator, which reads an object and an input without numbers.
const SIMULATOR: Run = Run {
    who: Who::Pvm,
    line: "o.tv",
    name: "o.tv",
    text: SEVEN_OBJECT,
    input: b"",
    code: 0,
    out: b"7\n",
    err: "",
    shelf: &[(3, "pvm: read failed: o.tv\n")],
    reads: 1,
    parts: &[b""],
    unwritten: "pvm: write failed: output\n",
};

const RUNS: [Run; 7] = [
    COMPILER,
    Run {
        text: b"int main(void){\nprint(1);print(5/0);\nprint(2);}",
        ..COMPILER
    },
    Run {
        line: "a.c -o b.tv --rows 1 --report",
        text: EXCHANGE,
        out: b"nodes 14\nrows 4\nloop 2: packed, rows 2 of 1\n",
        parts: &[b""],
        ..COMPILER
    },
    SIMULATOR,
    Run {
        text: DIVIDES_BY_ZERO,
        code: 10,
        out: b"1\n",
        err: "pvm: trap: divide by zero at line 2\n",
        ..SIMULATOR
    },
    Run {
        text: THREE_NUMBERS,
        input: b"+3 -0 007",
        out: b"3\n0\n7\n",
        reads: 2,
        parts: &[b"", b"3\n", b"3\n0\n"],
        ..SIMULATOR
    },
    Run {
        input: b"5 x",
        code: 4,
        out: b"",
        err: "pvm: input: not a number at offset 2\n",
        reads: 2,
        parts: &[],
        ..SIMULATOR
    },
];

/// Whether a run leaves this where these calls fail, and its file as it was.
fn leaves(alloc: Global, run: &Run, failing: Failing, wanted: Wanted) -> Result<bool, Fail> {
    let mut shelf = shelf_with(alloc, run.name, run.text, failing.shelf)?;
    let ended = answers(
        alloc, run.who, run.line, &mut shelf, run.input, failing, wanted,
    )?;
    Ok(ended && holds(&shelf, run.name, run.text))
}

/// What a run leaves where a call fails: what is said, or where that fails too, nothing, with status 5.
fn told<'a>(silent: bool, code: u8, out: &'a [u8], err: &'a str) -> Wanted<'a> {
    if silent {
        return Wanted {
            code: 5,
            out,
            err: "",
        };
    }
    Wanted { code, out, err }
}

/// Which calls fail: these, and the first of the error output besides, if nothing can be said.
fn with_silence(silent: bool, failing: Failing) -> Failing {
    Failing {
        err: u64::from(silent),
        ..failing
    }
}

/// Whether each call of the shelf leaves what it is to where it fails.
fn shelf_fails(alloc: Global, run: &Run, silent: bool) -> Result<bool, Fail> {
    let mut call = 0_u64;
    let mut well = true;
    for (code, err) in run.shelf.iter() {
        call = call.wrapping_add(1);
        let failing = Failing {
            shelf: call,
            ..NONE_FAILS
        };
        let wanted = told(silent, *code, b"", err);
        well = leaves(alloc, run, with_silence(silent, failing), wanted)? && well;
    }
    Ok(well)
}

/// Whether each read of the input does.
fn input_fails(alloc: Global, run: &Run, silent: bool) -> Result<bool, Fail> {
    let mut well = true;
    for read in 0..run.reads {
        let failing = Failing {
            input: read.wrapping_add(1),
            ..NONE_FAILS
        };
        let wanted = told(silent, 3, b"", "pvm: read failed: input\n");
        well = leaves(alloc, run, with_silence(silent, failing), wanted)? && well;
    }
    Ok(well)
}

/// Whether each write to the output does.
fn output_fails(alloc: Global, run: &Run, silent: bool) -> Result<bool, Fail> {
    let mut call = 0_u64;
    let mut well = true;
    for part in run.parts.iter() {
        call = call.wrapping_add(1);
        let failing = Failing {
            out: call,
            ..NONE_FAILS
        };
        let wanted = told(silent, 5, part, run.unwritten);
        well = leaves(alloc, run, with_silence(silent, failing), wanted)? && well;
    }
    Ok(well)
}

/// Whether the line of a run, if it has one, leaves what it is to where it cannot be said.
fn line_fails(alloc: Global, run: &Run) -> Result<bool, Fail> {
    let silent = !run.err.is_empty();
    let wanted = told(silent, run.code, run.out, run.err);
    leaves(alloc, run, with_silence(silent, NONE_FAILS), wanted)
}

/// Whether all calls do, each alone.
fn each_fails(alloc: Global, run: &Run, silent: bool) -> Result<bool, Fail> {
    Ok(
        shelf_fails(alloc, run, silent)?
            && input_fails(alloc, run, silent)?
            && output_fails(alloc, run, silent)?,
    )
}

/// Whether a run leaves what it is to over streams that move one byte a call.
fn leaves_slowly(alloc: Global, run: &Run) -> Result<bool, Fail> {
    let mut shelf: MemoryShelf = shelf_with(alloc, run.name, run.text, 0)?;
    let wanted = Wanted {
        code: run.code,
        out: run.out,
        err: run.err,
    };
    answers_slowly(alloc, run.who, run.line, &mut shelf, run.input, wanted)
}

#[test]
fn each_call_fails_in_turn(rt: HostRuntime) -> Result<(), Fail> {
    let alloc = rt.alloc();
    for (number, run) in RUNS.iter().enumerate() {
        let wanted = told(false, run.code, run.out, run.err);
        assert!(rt; leaves(alloc, run, NONE_FAILS, wanted)?, "run {number}");
        assert!(rt; each_fails(alloc, run, false)?, "run {number}");
    }
    Ok(())
}

#[test]
fn what_fails_cannot_be_said_either(rt: HostRuntime) -> Result<(), Fail> {
    let alloc = rt.alloc();
    for (number, run) in RUNS.iter().enumerate() {
        assert!(rt; line_fails(alloc, run)?, "run {number}");
        assert!(rt; each_fails(alloc, run, true)?, "run {number}");
    }
    Ok(())
}

#[test]
fn one_byte_a_call_is_enough(rt: HostRuntime) -> Result<(), Fail> {
    let alloc = rt.alloc();
    for (number, run) in RUNS.iter().enumerate() {
        assert!(rt; leaves_slowly(alloc, run)?, "run {number}");
    }
    Ok(())
}
