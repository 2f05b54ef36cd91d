//! The compiler: each status with its line, its options and its report.

use crate::bench::{
    Failing, NO_DATA, NONE_FAILS, SEVEN_OBJECT, SILENCE, SOME_DATA, Wanted, answers, holds,
    shelf_with,
};
use pc_outside::MemoryShelf;
use pc_tool::Who;
use std::alloc::Global;
use std::test::Fail;

const SEVEN: &[u8] = b"int main(void){print(7);}";

const USAGE: &str =
    "usage: pcc SRC -o OBJ [--ops N] [--tests N] [--mem N] [--window N] [--rows N] [--report]\n";

/// The words were no command.
const USED: Wanted<'static> = Wanted {
    code: 2,
    out: b"",
    err: USAGE,
};

/// Lines that are no command.
const NO_COMMANDS: [&str; 8] = [
    "",
    "a.c",
    "a.c -o b.tv --ops 0",
    "a.c -o b.tv --rows 513",
    "a.c -o b.tv c.tv",
    "@q -o b.tv",
    "--help",
    "--version",
];

/// Sources, and the line that tells why each is refused.
const REFUSED: [(&[u8], &str); 28] = [
    (b"int main(void){$}", "bad byte at offset 15"),
    (b"int main(void){print(08);}", "bad literal at line 1"),
    (b"int main(void){}\n\n/* x", "open comment at line 3"),
    (b"", "syntax at line 1"),
    (b"int main(void){print(1)}", "syntax at line 1"),
    (b"int main(void){\nint x\nx=1;}", "syntax at line 3"),
    (b"int main(void){x=1;}", "undeclared at line 1"),
    (
        b"int main(void){\nint x;\nint x;}",
        "declared twice at line 3",
    ),
    (b"int main(void){int x;\nx[0]=1;}", "not an array at line 2"),
    (
        b"int main(void){int a[2];\n\na=1;}",
        "not a scalar at line 3",
    ),
    (b"int main(void){int a[0];}", "bad size at line 1"),
    (b"int main(void){int a[65537];}", "bad size at line 1"),
    (
        b"int main(void){static int a[2]={1,\n2,3};}",
        "too many values at line 2",
    ),
    (b"int main(void){int a[2]={1};}", "syntax at line 1"),
    (b"int main(void){\nbreak;}", "outside a loop at line 2"),
    (b"int main(void){\n{continue;}}", "outside a loop at line 2"),
    // At each kind of place the line is that of the token at which nothing goes on.
    (b"int\nmain\n(\nvoid\n)\n{\n}\n}", "syntax at line 8"),
    (b"int main(void){\nif 1)print(1);}", "syntax at line 2"),
    (b"int main(void){\nwhile(1\n{}}", "syntax at line 3"),
    (b"int main(void){\nfor(;;\n{}}", "syntax at line 3"),
    (b"int main(void){\ndo{}\nwhile(1)\n}", "syntax at line 4"),
    (b"int main(void){\nprint(1+\n);}", "syntax at line 3"),
    (b"int main(void){\nprint(1 2);}", "syntax at line 2"),
    (b"int main(void){int a[2];\na[0=1;}", "syntax at line 2"),
    (b"int main(void){int x;\nx?1:2;\nx?1;}", "syntax at line 3"),
    (b"int main(void){\nelse;}", "syntax at line 2"),
    (b"int main(void){\nreturn\n0}", "syntax at line 3"),
    (b"int main(void){\nint x=1,;}", "syntax at line 2"),
];

/// Whether the compiler, called on a text, leaves what it is to.
pub(crate) fn compiles(
    alloc: Global,
    line: &str,
    text: &[u8],
    wanted: Wanted,
) -> Result<bool, Fail> {
    let mut shelf = shelf_with(alloc, "a.c", text, 0)?;
    answers(alloc, Who::Pcc, line, &mut shelf, b"", NONE_FAILS, wanted)
}

/// Whether a text is refused with this line.
pub(crate) fn refuses(alloc: Global, text: &[u8], told: &str) -> Result<bool, Fail> {
    let line = format!(in alloc; "pcc: source: {told}\n")?;
    let wanted = Wanted {
        code: 4,
        out: b"",
        err: line.as_str(),
    };
    compiles(alloc, "a.c -o b.tv", text, wanted)
}

#[test]
fn tells_what_is_no_command(rt: HostRuntime) -> Result<(), Fail> {
    let alloc = rt.alloc();
    for line in NO_COMMANDS {
        assert!(rt; compiles(alloc, line, SEVEN, USED)?, "{line}");
    }
    Ok(())
}

#[test]
fn tells_why_a_text_is_no_source(rt: HostRuntime) -> Result<(), Fail> {
    let alloc = rt.alloc();
    for (number, (text, told)) in REFUSED.iter().enumerate() {
        assert!(rt; refuses(alloc, text, told)?, "source {number}");
    }
    Ok(())
}

/// A text made of a piece, so many times, between two others.
fn repeated(
    alloc: Global,
    before: &str,
    piece: &str,
    count: usize,
    behind: &str,
) -> Result<String, Fail> {
    let mut text = String::from_str(alloc, before)?;
    for _ in 0..count {
        text.push_str(piece)?;
    }
    text.push_str(behind)?;
    Ok(text)
}

/// A source that is long, and what is told of it, or nothing where it is accepted.
#[derive(Clone, Copy)]
struct Long {
    before: &'static str,
    piece: &'static str,
    count: usize,
    behind: &'static str,
    told: &'static str,
}

const LONG: [Long; 12] = [
    // Declarations of one node each, four nodes a round, and the end: 16,384 nodes, and then three more.
    Long {
        before: "int main(void){int x;int y;int z;",
        piece: "print(x/y);",
        count: 4095,
        behind: "}",
        told: "",
    },
    Long {
        before: "int main(void){int x;int y;",
        piece: "print(x/y);",
        count: 4096,
        behind: "}",
        told: "too large: 16387 nodes",
    },
    Long {
        before: "int main(void){",
        piece: "\n{int v;}",
        count: 64,
        behind: "\n}",
        told: "",
    },
    Long {
        before: "int main(void){",
        piece: "\n{int v;}",
        count: 65,
        behind: "\n}",
        told: "too many scalars at line 66",
    },
    Long {
        before: "int main(void){",
        piece: "\n{int a[65536];}",
        count: 16,
        behind: "}",
        told: "",
    },
    Long {
        before: "int main(void){",
        piece: "\n{int a[65536];}",
        count: 16,
        behind: "\nint b[1];}",
        told: "too many elements at line 18",
    },
    Long {
        before: "int main(void){",
        piece: "{int a[1];}",
        count: 32,
        behind: "\nint b[1];}",
        told: "too many arrays at line 2",
    },
    // A missing semicolon far on is reported as such.
    Long {
        before: "int main(void){int x;",
        piece: "x=x+1;\n",
        count: 100,
        behind: "x=1\nx=2;}",
        told: "syntax at line 102",
    },
    Long {
        before: "int main(void){print(",
        piece: "(",
        count: 300,
        behind: "1;}",
        told: "nested too deep at line 1",
    },
    Long {
        before: "int main(void)",
        piece: "{\n",
        count: 300,
        behind: "",
        told: "nested too deep at line 257",
    },
    Long {
        before: "int main(void){",
        piece: "1;1;1;1;1;1;1;1;1;1;1;1;1;1;1;1;",
        count: 2048,
        behind: "}",
        told: "too many tokens",
    },
    Long {
        before: "int main(void){}",
        piece: "                                ",
        count: 32768,
        behind: "",
        told: "longer than 1048576 bytes",
    },
];

/// Whether a long source ends as it is to.
fn ends_as_told(alloc: Global, long: &Long) -> Result<bool, Fail> {
    let text = repeated(alloc, long.before, long.piece, long.count, long.behind)?;
    if !long.told.is_empty() {
        return refuses(alloc, text.as_bytes(), long.told);
    }
    compiles(alloc, "a.c -o b.tv", text.as_bytes(), SILENCE)
}

#[test]
fn tells_what_is_too_much(rt: HostRuntime) -> Result<(), Fail> {
    let alloc = rt.alloc();
    for (number, long) in LONG.iter().enumerate() {
        assert!(rt; ends_as_told(alloc, long)?, "source {number}");
    }
    Ok(())
}

/// Whether a sum from the right, of an element and so many more, is compiled, or else refused as too deep.
fn sums(alloc: Global, more: usize, fits: bool) -> Result<bool, Fail> {
    let opened = repeated(
        alloc,
        "int main(void){int a[1];print(",
        "a[0]+(",
        more,
        "a[0]",
    )?;
    let text = repeated(alloc, opened.as_str(), ")", more, ");}")?;
    if fits {
        compiles(alloc, "a.c -o b.tv", text.as_bytes(), SILENCE)
    } else {
        refuses(alloc, text.as_bytes(), "expression too deep at line 1")
    }
}

#[test]
fn sums_at_most_32_elements_from_the_right(rt: HostRuntime) -> Result<(), Fail> {
    let alloc = rt.alloc();
    assert!(rt; sums(alloc, 31, true)?);
    assert!(rt; sums(alloc, 32, false)?);
    Ok(())
}

/// Lines, and the first bytes of the object that each makes of `print(7)`: its limits.
const LIMITS: [(&str, &[u8]); 4] = [
    ("a.c -o b.tv", b"PTV1\x08\x03\x02"),
    (
        "a.c -o b.tv --ops 32 --tests 7 --mem 32",
        b"PTV1\x20\x07\x20",
    ),
    ("--mem=1 -ob.tv a.c --ops +4", b"PTV1\x04\x03\x01"),
    ("a.c -o b.tv --window 8 --rows 512", b"PTV1\x08\x03\x02"),
];

/// Whether the compiler ends with success, and the object begins with these bytes.
fn begins_with(alloc: Global, line: &str, front: &[u8]) -> Result<bool, Fail> {
    let mut shelf = shelf_with(alloc, "a.c", SEVEN, 0)?;
    object_begins(alloc, line, front, &mut shelf)
}

/// The same over a shelf.
fn object_begins(
    alloc: Global,
    line: &str,
    front: &[u8],
    shelf: &mut MemoryShelf,
) -> Result<bool, Fail> {
    let ended = answers(alloc, Who::Pcc, line, shelf, b"", NONE_FAILS, SILENCE)?;
    match shelf.held("b.tv") {
        Some(object) => Ok(ended && object.starts_with(front)),
        None => Ok(false),
    }
}

#[test]
fn declares_the_limits_of_its_options(rt: HostRuntime) -> Result<(), Fail> {
    let alloc = rt.alloc();
    for (line, front) in LIMITS {
        assert!(rt; begins_with(alloc, line, front)?, "{line}");
    }
    Ok(())
}

/// Sources with a static array, and the first bytes of the object of each: its version, limits and arrays, and their data.
const DATA: [(&[u8], &[u8]); 2] = [
    (
        SOME_DATA,
        b"PTV2\x08\x03\x02\x01\0\x80\0\0\0\x04\0\0\0\x02\0\0\0\x05\xFF\xFF\xFF\xFA\0\0\0",
    ),
    (NO_DATA, b"PTV1\x08\x03\x02\x01\0\0\0\x02\0\0\0"),
];

#[test]
fn objects_have_the_data_of_static_arrays(rt: HostRuntime) -> Result<(), Fail> {
    let alloc = rt.alloc();
    for (text, front) in DATA {
        let mut shelf = shelf_with(alloc, "a.c", text, 0)?;
        assert!(rt; object_begins(alloc, "a.c -o b.tv", front, &mut shelf)?);
    }
    Ok(())
}

/// A call of the compiler on `print(7)` in `a.c`: the calls that fail, what it leaves, and whether the object
/// stands.
#[derive(Clone, Copy)]
struct Call {
    line: &'static str,
    failing: Failing,
    code: u8,
    out: &'static [u8],
    err: &'static str,
    stands: bool,
}

const CALLS: [Call; 9] = [
    Call {
        line: "a.c -o b.tv",
        failing: NONE_FAILS,
        code: 0,
        out: b"",
        err: "",
        stands: true,
    },
    Call {
        line: "a.c -o b.tv --report",
        failing: NONE_FAILS,
        code: 0,
        out: b"nodes 2\nrows 1\n",
        err: "",
        stands: true,
    },
    Call {
        line: "b.c -o b.tv --report",
        failing: NONE_FAILS,
        code: 3,
        out: b"",
        err: "pcc: read failed: b.c\n",
        stands: false,
    },
    Call {
        line: "a.c -o b.tv",
        failing: Failing {
            shelf: 1,
            ..NONE_FAILS
        },
        code: 3,
        out: b"",
        err: "pcc: read failed: a.c\n",
        stands: false,
    },
    Call {
        line: "a.c -o b.tv --report",
        failing: Failing {
            shelf: 2,
            ..NONE_FAILS
        },
        code: 5,
        out: b"",
        err: "pcc: write failed: b.tv\n",
        stands: false,
    },
    Call {
        line: "a.c -o b.tv --report",
        failing: Failing {
            out: 1,
            ..NONE_FAILS
        },
        code: 5,
        out: b"",
        err: "pcc: write failed: output\n",
        stands: true,
    },
    // Without a report the output is not touched.
    Call {
        line: "a.c -o b.tv",
        failing: Failing {
            out: 1,
            err: 1,
            ..NONE_FAILS
        },
        code: 0,
        out: b"",
        err: "",
        stands: true,
    },
    // A line that cannot be told is status 5, whatever it tells.
    Call {
        line: "b.c -o b.tv",
        failing: Failing {
            err: 1,
            ..NONE_FAILS
        },
        code: 5,
        out: b"",
        err: "",
        stands: false,
    },
    Call {
        line: "-x",
        failing: Failing {
            err: 1,
            ..NONE_FAILS
        },
        code: 5,
        out: b"",
        err: "",
        stands: false,
    },
];

/// Whether a call leaves what it is to.
fn leaves(alloc: Global, made: &Call) -> Result<bool, Fail> {
    let mut shelf = shelf_with(alloc, "a.c", SEVEN, made.failing.shelf)?;
    leaves_there(alloc, made, &mut shelf)
}

/// The same over a shelf.
fn leaves_there(alloc: Global, made: &Call, shelf: &mut MemoryShelf) -> Result<bool, Fail> {
    let wanted = Wanted {
        code: made.code,
        out: made.out,
        err: made.err,
    };
    let ended = answers(alloc, Who::Pcc, made.line, shelf, b"", made.failing, wanted)?;
    let stands = holds(shelf, "b.tv", SEVEN_OBJECT);
    Ok(ended && stands == made.stands && holds(shelf, "a.c", SEVEN))
}

#[test]
fn tells_what_failed(rt: HostRuntime) -> Result<(), Fail> {
    let alloc = rt.alloc();
    for (number, made) in CALLS.iter().enumerate() {
        assert!(rt; leaves(alloc, made)?, "call {number}");
    }
    Ok(())
}

/// Whether the object stands where the source was.
fn writes_over(alloc: Global, shelf: &mut MemoryShelf) -> Result<bool, Fail> {
    let line = "a.c -o a.c";
    let ended = answers(alloc, Who::Pcc, line, shelf, b"", NONE_FAILS, SILENCE)?;
    Ok(ended && holds(shelf, "a.c", SEVEN_OBJECT))
}

#[test]
fn writes_the_object_over_the_source(rt: HostRuntime) -> Result<(), Fail> {
    let alloc = rt.alloc();
    let mut shelf = shelf_with(alloc, "a.c", SEVEN, 0)?;
    assert!(rt; writes_over(alloc, &mut shelf)?);
    Ok(())
}

#[test]
fn compiles_samples(rt: HostRuntime) -> Result<(), Fail> {
    let alloc = rt.alloc();
    for line in ["@0 -o b.tv", "@7 -o b.tv", "@119 -o b.tv"] {
        assert!(rt; compiles(alloc, line, SEVEN, SILENCE)?, "{line}");
    }
    Ok(())
}
