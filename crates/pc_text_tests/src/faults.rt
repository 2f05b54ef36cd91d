//! Each line of a fault once, as docs/COMMANDS.md has it.

use crate::fault_lines::{
    CHECKER, COMPILER, EXPLAINER, FLAWS, INPUTS, LINE_FAULTS, MACHINE_FAULTS, OBJECTS, PROFILER,
    SIMULATOR, SOURCES, TRAPS, VIEWER,
};
use pc_report::{ObjectFault, SourceFault, Speaker, ToolFault, fault_text, out_of_memory_line};
use std::alloc::Global;
use std::test::Fail;

/// Whether a fault is told by this line.
fn tells(alloc: Global, fault: ToolFault, line: &str) -> Result<bool, Fail> {
    let text = fault_text(alloc, &fault)?;
    Ok(text.as_slice() == line.as_bytes())
}

#[test]
fn tells_faults_without_a_kind(rt: HostRuntime) -> Result<(), Fail> {
    let alloc = rt.alloc();
    for (fault, line) in COMPILER.iter() {
        assert!(rt; tells(alloc, *fault, line)?, "{line}");
    }
    for (fault, line) in SIMULATOR.iter() {
        assert!(rt; tells(alloc, *fault, line)?, "{line}");
    }
    for (fault, line) in VIEWER.iter() {
        assert!(rt; tells(alloc, *fault, line)?, "{line}");
    }
    for (fault, line) in PROFILER.iter() {
        assert!(rt; tells(alloc, *fault, line)?, "{line}");
    }
    for (fault, line) in CHECKER.iter() {
        assert!(rt; tells(alloc, *fault, line)?, "{line}");
    }
    for (fault, line) in EXPLAINER.iter() {
        assert!(rt; tells(alloc, *fault, line)?, "{line}");
    }
    Ok(())
}

#[test]
fn tells_faults_of_sources(rt: HostRuntime) -> Result<(), Fail> {
    let alloc = rt.alloc();
    let who = Speaker::Pcc;
    for (fault, line) in SOURCES.iter() {
        let fault = ToolFault::Source { who, fault: *fault };
        assert!(rt; tells(alloc, fault, line)?, "{line}");
    }
    for (what, line) in LINE_FAULTS.iter() {
        let fault = SourceFault::AtLine {
            what: *what,
            line: 66,
        };
        let fault = ToolFault::Source { who, fault };
        assert!(rt; tells(alloc, fault, line)?, "{line}");
    }
    Ok(())
}

#[test]
fn tells_faults_of_objects(rt: HostRuntime) -> Result<(), Fail> {
    let alloc = rt.alloc();
    let who = Speaker::Pvm;
    for (fault, line) in OBJECTS.iter() {
        let fault = ToolFault::Object { who, fault: *fault };
        assert!(rt; tells(alloc, fault, line)?, "{line}");
    }
    for (flaw, line) in FLAWS.iter() {
        let fault = ObjectFault::BadField {
            offset: 20,
            flaw: *flaw,
        };
        let fault = ToolFault::Object { who, fault };
        assert!(rt; tells(alloc, fault, line)?, "{line}");
    }
    Ok(())
}

#[test]
fn tells_faults_of_runs(rt: HostRuntime) -> Result<(), Fail> {
    let alloc = rt.alloc();
    for (fault, line) in INPUTS.iter() {
        let who = Speaker::Pvm;
        let fault = ToolFault::Input { who, fault: *fault };
        assert!(rt; tells(alloc, fault, line)?, "{line}");
    }
    for (fault, line) in MACHINE_FAULTS.iter() {
        let fault = ToolFault::Machine { fault: *fault };
        assert!(rt; tells(alloc, fault, line)?, "{line}");
    }
    for (kind, line) in TRAPS.iter() {
        let fault = ToolFault::Trap {
            kind: *kind,
            line: 2,
        };
        assert!(rt; tells(alloc, fault, line)?, "{line}");
    }
    Ok(())
}

#[test]
fn tells_want_of_memory_without_memory(rt: HostRuntime) {
    assert!(rt; out_of_memory_line(Speaker::Pcc) == b"pcc: out of memory\n".as_slice());
    assert!(rt; out_of_memory_line(Speaker::Pvm) == b"pvm: out of memory\n".as_slice());
    assert!(rt; out_of_memory_line(Speaker::Pview) == b"pview: out of memory\n".as_slice());
    assert!(rt; out_of_memory_line(Speaker::Pstat) == b"pstat: out of memory\n".as_slice());
    assert!(rt; out_of_memory_line(Speaker::Pcheck) == b"pcheck: out of memory\n".as_slice());
    assert!(rt; out_of_memory_line(Speaker::Pexplain) == b"pexplain: out of memory\n".as_slice());
}
