//! The report of a compilation.

use pc_object::Note;
use pc_report::{PassFact, ReportFacts, report_text};
use std::test::Fail;

/// The report of a compilation with two passes and a note of each choice.
const REPORT: &str = "\
nodes 18\n\
rows 7\n\
pass fold 3\n\
pass dead 12\n\
loop 2: pipelined, rows 4 of 256\n\
loop 2: packed, rows 2 of 1\n\
loop 3: packed, live 128 of 127\n\
loop 4: packed, bytes 16777217 of 16777216\n\
loop 2: packed, window 1 of 1\n\
loop 5: plain, rows 257 of 256\n\
loop 6: plain, live 129 of 127\n\
loop 70: plain, bytes 4294967295 of 16777216\n";

const PASSES: [PassFact<'static>; 2] = [
    PassFact {
        name: "fold",
        changes: 3,
    },
    PassFact {
        name: "dead",
        changes: 12,
    },
];

/// A note of each choice.
static NOTES: [Note; 8] = [
    Note {
        choice: 0,
        line: 2,
        number: 4,
        limit: 256,
    },
    Note {
        choice: 1,
        line: 2,
        number: 2,
        limit: 1,
    },
    Note {
        choice: 2,
        line: 3,
        number: 128,
        limit: 127,
    },
    Note {
        choice: 3,
        line: 4,
        number: 16_777_217,
        limit: 16_777_216,
    },
    Note {
        choice: 4,
        line: 2,
        number: 1,
        limit: 1,
    },
    Note {
        choice: 5,
        line: 5,
        number: 257,
        limit: 256,
    },
    Note {
        choice: 6,
        line: 6,
        number: 129,
        limit: 127,
    },
    Note {
        choice: 7,
        line: 70,
        number: 4_294_967_295,
        limit: 16_777_216,
    },
];

#[test]
fn reports_passes_and_each_choice(rt: HostRuntime) -> Result<(), Fail> {
    let facts = ReportFacts {
        nodes: 18,
        rows: 7,
        passes: &PASSES,
        notes: &NOTES,
    };
    let text = report_text(rt.alloc(), &facts)?;
    assert!(rt; text.as_slice() == REPORT.as_bytes());
    Ok(())
}
