//! What is cut of a source that is read is what is compiled of it.

use crate::bench::{DOT_PRODUCT, compiled_of, shelf_with};
use pc_command::SourceName;
use pc_middle::{CutProgram, cut_program};
use pc_outside::MemoryShelf;
use pc_pass::Pass;
use pc_source::{read_program, read_source};
use std::alloc::Global;
use std::test::Fail;

/// What the source at `a.c` is cut into without passes, unless it is refused.
fn cut_of(alloc: Global, shelf: &mut MemoryShelf) -> Option<CutProgram> {
    let text = read_source(alloc, SourceName::File("a.c"), shelf).ok()?;
    let checked = read_program(alloc, text.as_slice()).ok()?;
    let mut passes: Vec<Box<dyn Pass>> = Vec::new(alloc);
    cut_program(alloc, &checked, &mut passes).ok()
}

#[test]
fn what_is_compiled_was_cut_so(rt: HostRuntime) -> Result<(), Fail> {
    let alloc = rt.alloc();
    let mut shelf = shelf_with(alloc, "a.c", DOT_PRODUCT, 0)?;
    let Some(cut) = cut_of(alloc, &mut shelf) else {
        return Err(Fail::from("the source is not cut"));
    };
    let Some(compiled) = compiled_of(alloc, "a.c -o o.tv", &mut shelf)? else {
        return Err(Fail::from("nothing is handed out"));
    };
    assert_eq!(rt; cut.flow.count(), compiled.flow.count());
    assert_eq!(rt; cut.table.regions.len(), compiled.table.regions.len());
    Ok(())
}
