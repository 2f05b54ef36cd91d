//! The simulator: each status with its line.

use crate::bench::{Failing, NONE_FAILS, SEVEN_OBJECT, Wanted, answers, shelf_with};
use pc_tool::Who;
use std::alloc::Global;
use std::test::Fail;

/// Reads three numbers and prints each.
const THREE_NUMBERS: &[u8] = b"PTV1\x08\x03\x02\x00\x00\x00\x00\x06\
    \x25\x00\x01\x00\x00\x00\x01\x24\x00\x00\x01\x00\x00\x00\x02\
    \x25\x00\x01\x00\x00\x00\x03\x24\x00\x00\x01\x00\x00\x00\x04\
    \x25\x00\x01\x00\x00\x00\x05\x24\x00\x00\x02\x00\x00";

/// Two stores to element 1 of an array of four in one row.
const STORES_TWICE: &[u8] = b"PTV1\x08\x03\x02\x01\x00\x00\x00\x04\x00\x00\x00\x01\
    \x23\x00\x01\x00\x00\x00\x01\x01\x00\x00\x00\x05\
    \x23\x00\x01\x00\x00\x00\x01\x01\x00\x00\x00\x06\x02\x00\x00";

/// Two copies to one register in one row.
const COPIES_TWICE: &[u8] = b"PTV1\x08\x03\x02\x00\x00\x00\x00\x01\
    \x21\x05\x01\x00\x00\x00\x01\x21\x05\x01\x00\x00\x00\x02\x02\x00\x00";

/// Goes on for ever.
const ENDLESS: &[u8] = b"PTV1\x08\x03\x02\x00\x00\x00\x00\x01\x01\x00\x00\x00\x00\x00\x00";

/// Prints 1, and is trapped by a division by zero at line 2.
const DIVIDES_BY_ZERO: &[u8] =
    b"PTV1\x08\x03\x02\x00\x00\x00\x00\x01\x24\x01\x00\x00\x00\x01\x03\x00\x00\x00\x00\x02\x00\x00";

/// Is trapped by an index out of bounds at line 1.
const OUT_OF_BOUNDS: &[u8] =
    b"PTV1\x08\x03\x02\x00\x00\x00\x00\x01\x03\x01\x00\x00\x00\x01\x00\x00";

/// Is trapped by the end of input at line 1.
const END_OF_INPUT: &[u8] = b"PTV1\x08\x03\x02\x00\x00\x00\x00\x01\x03\x02\x00\x00\x00\x01\x00\x00";

/// Prints -2147483648 twice.
const PRINTS_LEAST: &[u8] = b"PTV1\x08\x03\x02\x00\x00\x00\x00\x02\
    \x24\x01\x80\x00\x00\x00\x01\x00\x00\x00\x01\x24\x01\x80\x00\x00\x00\x02\x00\x00";

const USAGE: &str = "usage: pvm OBJ [--cycles N]\n";

/// A call of the simulator on an object in `o.tv`: the input, the calls that fail, and what it leaves.
#[derive(Clone, Copy)]
struct Call {
    line: &'static str,
    object: &'static [u8],
    input: &'static [u8],
    failing: Failing,
    code: u8,
    out: &'static [u8],
    err: &'static str,
}

/// A run of `print(7)`.
const RUN: Call = Call {
    line: "o.tv",
    object: SEVEN_OBJECT,
    input: b"",
    failing: NONE_FAILS,
    code: 0,
    out: b"7\n",
    err: "",
};

/// What calls that come to no run have in common: nothing is printed, and the status is 4 where no other
/// is said.
const REFUSED: Call = Call {
    code: 4,
    out: b"",
    ..RUN
};

/// Runs to each end.
const RUNS: [Call; 10] = [
    RUN,
    Call {
        line: "--cycles=3 o.tv",
        object: ENDLESS,
        code: 6,
        out: b"",
        err: "pvm: budget of 3 cycles spent\n",
        ..RUN
    },
    Call {
        object: STORES_TWICE,
        code: 7,
        out: b"",
        err: "pvm: machine fault: element stored twice\n",
        ..RUN
    },
    Call {
        object: DIVIDES_BY_ZERO,
        code: 10,
        out: b"1\n",
        err: "pvm: trap: divide by zero at line 2\n",
        ..RUN
    },
    Call {
        object: OUT_OF_BOUNDS,
        code: 11,
        out: b"",
        err: "pvm: trap: out of bounds at line 1\n",
        ..RUN
    },
    Call {
        object: END_OF_INPUT,
        code: 12,
        out: b"",
        err: "pvm: trap: end of input at line 1\n",
        ..RUN
    },
    Call {
        object: THREE_NUMBERS,
        input: b"+3 -0 007",
        out: b"3\n0\n7\n",
        ..RUN
    },
    Call {
        object: THREE_NUMBERS,
        input: b"\t4\r\n-5",
        code: 7,
        out: b"4\n-5\n",
        err: "pvm: machine fault: read past end\n",
        ..RUN
    },
    Call {
        input: b"-2147483648",
        ..RUN
    },
    Call {
        object: PRINTS_LEAST,
        out: b"-2147483648\n-2147483648\n",
        ..RUN
    },
];

/// Refusals of the object and the input.
const REFUSALS: [Call; 7] = [
    Call {
        object: b"",
        input: b"x",
        err: "pvm: object: truncated at offset 0\n",
        ..REFUSED
    },
    Call {
        object: b"QTV1",
        err: "pvm: object: bad magic\n",
        ..REFUSED
    },
    Call {
        object: COPIES_TWICE,
        err: "pvm: object: bad field at offset 20: DestTwice\n",
        ..REFUSED
    },
    Call {
        object: b"PTV1\x08\x03\x02\x00\x00\x00\x00\x01\x24\x01\x00\x00\x00\x07\x02\x00\x00\x00",
        err: "pvm: object: trailing bytes at offset 21\n",
        ..REFUSED
    },
    Call {
        input: b"2147483648",
        err: "pvm: input: not a number at offset 0\n",
        ..REFUSED
    },
    Call {
        input: b"5 x",
        err: "pvm: input: not a number at offset 2\n",
        ..REFUSED
    },
    Call {
        input: b"5 a6",
        err: "pvm: input: not a number at offset 2\n",
        ..REFUSED
    },
];

/// Failures of what is outside, and words that are no command.
const FAILURES: [Call; 9] = [
    Call {
        line: "p.tv",
        code: 3,
        err: "pvm: read failed: p.tv\n",
        ..REFUSED
    },
    Call {
        failing: Failing {
            shelf: 1,
            ..NONE_FAILS
        },
        code: 3,
        err: "pvm: read failed: o.tv\n",
        ..REFUSED
    },
    Call {
        failing: Failing {
            input: 1,
            ..NONE_FAILS
        },
        code: 3,
        err: "pvm: read failed: input\n",
        ..REFUSED
    },
    Call {
        object: PRINTS_LEAST,
        failing: Failing {
            out: 2,
            ..NONE_FAILS
        },
        code: 5,
        out: b"-2147483648\n",
        err: "pvm: write failed: output\n",
        ..RUN
    },
    // What was printed stands, though the trap cannot be told.
    Call {
        object: DIVIDES_BY_ZERO,
        failing: Failing {
            err: 1,
            ..NONE_FAILS
        },
        code: 5,
        out: b"1\n",
        ..RUN
    },
    Call {
        line: "",
        code: 2,
        err: USAGE,
        ..REFUSED
    },
    Call {
        line: "o.tv p.tv",
        code: 2,
        err: USAGE,
        ..REFUSED
    },
    Call {
        line: "o.tv --cycles 0",
        code: 2,
        err: USAGE,
        ..REFUSED
    },
    Call {
        line: "-h",
        code: 2,
        err: USAGE,
        ..REFUSED
    },
];

/// Whether a call leaves what it is to.
fn leaves(alloc: Global, made: &Call) -> Result<bool, Fail> {
    let mut shelf = shelf_with(alloc, "o.tv", made.object, made.failing.shelf)?;
    let wanted = Wanted {
        code: made.code,
        out: made.out,
        err: made.err,
    };
    let (line, input) = (made.line, made.input);
    answers(
        alloc,
        Who::Pvm,
        line,
        &mut shelf,
        input,
        made.failing,
        wanted,
    )
}

#[test]
fn runs_to_each_end(rt: HostRuntime) -> Result<(), Fail> {
    let alloc = rt.alloc();
    for (number, made) in RUNS.iter().enumerate() {
        assert!(rt; leaves(alloc, made)?, "run {number}");
    }
    Ok(())
}

#[test]
fn tells_why_bytes_are_refused(rt: HostRuntime) -> Result<(), Fail> {
    let alloc = rt.alloc();
    for (number, made) in REFUSALS.iter().enumerate() {
        assert!(rt; leaves(alloc, made)?, "refusal {number}");
    }
    Ok(())
}

#[test]
fn tells_what_failed(rt: HostRuntime) -> Result<(), Fail> {
    let alloc = rt.alloc();
    for (number, made) in FAILURES.iter().enumerate() {
        assert!(rt; leaves(alloc, made)?, "failure {number}");
    }
    Ok(())
}
