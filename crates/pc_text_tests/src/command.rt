//! Words of the command line.

use crate::words::words_of;
use pc_command::{
    CheckCommand, CommandError, CompileCommand, ExplainCommand, ExplainMode, SourceName, StatMode,
    check_command, compile_command, explain_command, laws_of_matches, laws_of_plain_words,
    laws_of_ranges, simulate_command, stat_command, view_command,
};
use pc_word::{Extent, Limits};
use std::alloc::{AllocError, Global};
use std::test::Fail;

/// What words give, in the order of `--ops`, `--tests`, `--mem`, `--window`, `--rows`.
static NUMBERS: [(&str, [u16; 5]); 18] = [
    ("x.c -o y", [8, 3, 2, 4, 256]),
    ("x.c -o y --ops 1", [1, 3, 2, 4, 256]),
    ("x.c -o y --ops 32", [32, 3, 2, 4, 256]),
    ("--tests 1 x.c -o y", [8, 1, 2, 4, 256]),
    ("--tests 7 x.c -o y", [8, 7, 2, 4, 256]),
    ("x.c --mem 1 -o y", [8, 3, 1, 4, 256]),
    ("x.c --mem 32 -o y", [8, 3, 32, 4, 256]),
    ("-o y --window 1 x.c", [8, 3, 2, 1, 256]),
    ("-o y --window 8 x.c", [8, 3, 2, 8, 256]),
    ("-o y x.c --rows 1", [8, 3, 2, 4, 1]),
    ("-o y x.c --rows 512", [8, 3, 2, 4, 512]),
    ("x.c -oy --ops=5", [5, 3, 2, 4, 256]),
    ("x.c -o=y --ops=5", [5, 3, 2, 4, 256]),
    ("-o y -- x.c", [8, 3, 2, 4, 256]),
    ("--ops 5 -o y -- x.c", [5, 3, 2, 4, 256]),
    ("x.c -o y --ops +9", [9, 3, 2, 4, 256]),
    ("x.c -o y --ops 007", [7, 3, 2, 4, 256]),
    (
        "x.c -o y --ops 6 --rows 5 --mem 4 --window 3 --tests 2",
        [6, 2, 4, 3, 5],
    ),
];

/// Words that the compiler refuses.
static NO_COMPILE: [&str; 29] = [
    "",
    "x.c",
    "-o y",
    "x.c y",
    "x.c z.c -o y",
    "x.c -o",
    "x.c -o y -o z",
    "x.c -o y --ops 0",
    "x.c -o y --ops 33",
    "x.c -o y --tests 8",
    "x.c -o y --mem 33",
    "x.c -o y --window 9",
    "x.c -o y --rows 513",
    "x.c -o y --ops -1",
    "x.c -o y --ops five",
    "x.c -o y --ops",
    "x.c -o y --ops 5 --ops 5",
    "x.c -o y --report --report",
    "x.c -o y --report=yes",
    "x.c -o y --fast",
    "x.c -o y --op 5",
    "x.c -o y -- --ops 5",
    "x.c -o y --help",
    "x.c -o y -h",
    "x.c -o y --version",
    "@ -o y",
    "@q -o y",
    "@+7 -o y",
    "@4294967296 -o y",
];

/// What the words of the simulator give as cycles.
static CYCLES: [(&str, u64); 4] = [
    ("y", 100_000_000),
    ("y --cycles 1", 1),
    ("--cycles=1000000000000 y", 1_000_000_000_000),
    ("y --cycles +0012", 12),
];

/// Words that the simulator refuses.
static NO_SIMULATE: [&str; 8] = [
    "",
    "y z",
    "y --cycles 0",
    "y --cycles 1000000000001",
    "y --cycles",
    "y --ops 5",
    "y --help",
    "y --version",
];

/// Whether the words of the viewer ask for a graph.
static DOTS: [(&str, bool); 3] = [("y", false), ("y --dot", true), ("--dot -- y", true)];

/// Words that the viewer refuses.
static NO_VIEW: [&str; 5] = ["", "y z", "y --dot --dot", "y --dot=yes", "y --help"];

/// What the words of the profiler give: how many cycles the run may take, and which text is asked for.
static MODES: [(&str, u64, StatMode); 6] = [
    ("y", 100_000_000, StatMode::Summary),
    ("--rows y --cycles 1", 1, StatMode::Rows),
    ("y --trace 1 --cycles=12", 12, StatMode::Trace { cycles: 1 }),
    (
        "--trace=+01000000000000 y",
        100_000_000,
        StatMode::Trace {
            cycles: 1_000_000_000_000,
        },
    ),
    ("--dot -- y", 100_000_000, StatMode::Dot),
    ("y --json", 100_000_000, StatMode::Json),
];

/// Words that the profiler refuses.
static NO_STAT: [&str; 13] = [
    "",
    "y z",
    "y --cycles 0",
    "y --trace",
    "y --trace 0",
    "y --trace 1000000000001",
    "y --trace 5 --trace 5",
    "y --rows --dot",
    "y --json --rows",
    "y --trace 5 --json",
    "y --dot --trace 5",
    "y --rows=yes",
    "y --help",
];

/// What the words of the checker give: the source, whether a certificate is made, and whether it is
/// told why one is refused; or that they are refused.
static CHECKS: [(&str, Option<(SourceName<'static>, bool, bool)>); 22] = [
    ("x.c y z", Some((SourceName::File("x.c"), false, false))),
    (
        "x.c y z --make",
        Some((SourceName::File("x.c"), true, false)),
    ),
    (
        "x.c y z --why",
        Some((SourceName::File("x.c"), false, true)),
    ),
    (
        "x.c y z --why --make",
        Some((SourceName::File("x.c"), true, true)),
    ),
    (
        "--make x.c y --why z",
        Some((SourceName::File("x.c"), true, true)),
    ),
    (
        "x.c --why y -- z",
        Some((SourceName::File("x.c"), false, true)),
    ),
    ("@7 y z", Some((SourceName::Sample(7), false, false))),
    (
        "--make @007 y z",
        Some((SourceName::Sample(7), true, false)),
    ),
    ("", None),
    ("x.c y", None),
    ("x.c y --make", None),
    ("x.c y z w", None),
    ("x.c y z --make --make", None),
    ("--why x.c y --why z", None),
    ("x.c y z --make=yes", None),
    ("x.c y z -- --make", None),
    ("x.c y z --fast", None),
    ("x.c y z --mak", None),
    ("x.c -o y z", None),
    ("x.c y z --help", None),
    ("@ y z", None),
    ("@+7 y z", None),
];

/// Whether the compiler answers a line so.
fn compiles_as(
    alloc: Global,
    line: &str,
    wanted: Result<CompileCommand<'_>, CommandError>,
) -> Result<bool, AllocError> {
    let words = words_of(alloc, line)?;
    Ok(compile_command(alloc, words.as_slice()) == wanted)
}

/// What words of the explainer ask: the source, how many items a row may have, the line of the loops, if one is named, and the form.
type Asked = (SourceName<'static>, u8, Option<u32>, ExplainMode);

/// What the words of the explainer give, or that they are refused.
static LOOPS: [(&str, Option<Asked>); 13] = [
    (
        "x.c",
        Some((SourceName::File("x.c"), 8, None, ExplainMode::Text)),
    ),
    (
        "x.c --loop 7",
        Some((SourceName::File("x.c"), 8, Some(7), ExplainMode::Text)),
    ),
    (
        "--ops 16 --loop=1048577 @7",
        Some((
            SourceName::Sample(7),
            16,
            Some(1_048_577),
            ExplainMode::Text,
        )),
    ),
    (
        "--dot x.c",
        Some((SourceName::File("x.c"), 8, None, ExplainMode::Dot)),
    ),
    (
        "@7 --json --loop 3",
        Some((SourceName::Sample(7), 8, Some(3), ExplainMode::Json)),
    ),
    ("", None),
    ("x.c -o y", None),
    ("x.c y", None),
    ("@x", None),
    ("x.c --loop 0", None),
    ("x.c --loop 1048578", None),
    ("x.c --ops 33", None),
    ("x.c --json --dot", None),
];

/// The command of `x.c -o y` and these numbers.
fn with_numbers(numbers: &[u16; 5]) -> Option<CompileCommand<'static>> {
    let [ops, tests, mem, window, rows] = *numbers;
    Some(CompileCommand {
        source: SourceName::File("x.c"),
        object: "y",
        limits: Limits {
            ops: u8::try_from(ops).ok()?,
            tests: u8::try_from(tests).ok()?,
            mem: u8::try_from(mem).ok()?,
        },
        extent: Extent {
            window: u8::try_from(window).ok()?,
            rows,
        },
        report: false,
    })
}

#[test]
fn compiler_takes_numbers(rt: HostRuntime) -> Result<(), Fail> {
    for (line, numbers) in NUMBERS.iter() {
        let wanted = with_numbers(numbers).ok_or("numbers")?;
        assert!(rt; compiles_as(rt.alloc(), line, Ok(wanted))?, "{line}");
    }
    Ok(())
}

#[test]
fn compiler_takes_sources_and_flags(rt: HostRuntime) -> Result<(), Fail> {
    let plain = with_numbers(&[8, 3, 2, 4, 256]).ok_or("numbers")?;
    let report = CompileCommand {
        report: true,
        ..plain
    };
    assert!(rt; compiles_as(rt.alloc(), "x.c -o y --report", Ok(report))?);
    let sample = CompileCommand {
        source: SourceName::Sample(7),
        ..plain
    };
    assert!(rt; compiles_as(rt.alloc(), "@7 -o y", Ok(sample))?);
    assert!(rt; compiles_as(rt.alloc(), "@007 -o y", Ok(sample))?);
    let hyphen = CompileCommand {
        source: SourceName::File("-x.c"),
        ..plain
    };
    assert!(rt; compiles_as(rt.alloc(), "-o y -- -x.c", Ok(hyphen))?);
    let last = CompileCommand {
        source: SourceName::Sample(4_294_967_295),
        ..plain
    };
    assert!(rt; compiles_as(rt.alloc(), "@4294967295 -o y", Ok(last))?);
    Ok(())
}

#[test]
fn compiler_refuses(rt: HostRuntime) -> Result<(), Fail> {
    for line in NO_COMPILE.iter() {
        assert!(rt;
            compiles_as(rt.alloc(), line, Err(CommandError::NoCommand))?,
            "{line}"
        );
    }
    Ok(())
}

#[test]
fn explainer_takes_and_refuses(rt: HostRuntime) -> Result<(), Fail> {
    let plain = with_numbers(&[8, 3, 2, 4, 256]).ok_or("numbers")?;
    for (line, asked) in LOOPS.iter() {
        let words = words_of(rt.alloc(), line)?;
        let wanted = match *asked {
            Some((source, ops, line, mode)) => Ok(ExplainCommand {
                source,
                limits: Limits {
                    ops,
                    ..plain.limits
                },
                extent: plain.extent,
                line,
                mode,
            }),
            None => Err(CommandError::NoCommand),
        };
        assert!(rt;
            explain_command(rt.alloc(), words.as_slice()) == wanted,
            "{line}"
        );
    }
    Ok(())
}

#[test]
fn checker_takes_and_refuses(rt: HostRuntime) -> Result<(), Fail> {
    for (line, asked) in CHECKS.iter() {
        let words = words_of(rt.alloc(), line)?;
        let wanted = match *asked {
            Some((source, make, why)) => Ok(CheckCommand {
                source,
                object: "y",
                certificate: "z",
                make,
                why,
            }),
            None => Err(CommandError::NoCommand),
        };
        assert!(rt;
            check_command(rt.alloc(), words.as_slice()) == wanted,
            "{line}"
        );
    }
    Ok(())
}

#[test]
fn profiler_takes(rt: HostRuntime) -> Result<(), Fail> {
    for (line, cycles, mode) in MODES.iter() {
        let words = words_of(rt.alloc(), line)?;
        let command = stat_command(rt.alloc(), words.as_slice())?;
        assert_eq!(rt; command.object, "y");
        assert_eq!(rt; command.cycles, *cycles);
        assert_eq!(rt; command.mode, *mode);
    }
    Ok(())
}

#[test]
fn profiler_refuses(rt: HostRuntime) -> Result<(), Fail> {
    for line in NO_STAT.iter() {
        let words = words_of(rt.alloc(), line)?;
        let answer = stat_command(rt.alloc(), words.as_slice());
        assert!(rt; answer == Err(CommandError::NoCommand), "{line}");
    }
    Ok(())
}

#[test]
fn simulator_takes(rt: HostRuntime) -> Result<(), Fail> {
    for (line, cycles) in CYCLES.iter() {
        let words = words_of(rt.alloc(), line)?;
        let command = simulate_command(rt.alloc(), words.as_slice())?;
        assert_eq!(rt; command.object, "y");
        assert_eq!(rt; command.cycles, *cycles);
    }
    Ok(())
}

#[test]
fn simulator_refuses(rt: HostRuntime) -> Result<(), Fail> {
    for line in NO_SIMULATE.iter() {
        let words = words_of(rt.alloc(), line)?;
        let answer = simulate_command(rt.alloc(), words.as_slice());
        assert!(rt; answer == Err(CommandError::NoCommand), "{line}");
    }
    Ok(())
}

#[test]
fn viewer_takes(rt: HostRuntime) -> Result<(), Fail> {
    for (line, dot) in DOTS.iter() {
        let words = words_of(rt.alloc(), line)?;
        let command = view_command(rt.alloc(), words.as_slice())?;
        assert_eq!(rt; command.object, "y");
        assert_eq!(rt; command.dot, *dot);
    }
    Ok(())
}

#[test]
fn viewer_refuses(rt: HostRuntime) -> Result<(), Fail> {
    for line in NO_VIEW.iter() {
        let words = words_of(rt.alloc(), line)?;
        let answer = view_command(rt.alloc(), words.as_slice());
        assert!(rt; answer == Err(CommandError::NoCommand), "{line}");
    }
    laws_of_matches();
    laws_of_plain_words();
    laws_of_ranges();
    Ok(())
}
