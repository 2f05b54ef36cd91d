//! Programs whose names are numbered, how large they are, and their first faults.

use crate::sources::program_of;
use pc_check::{
    CheckError, branch_size, check, hold, laws_of_resolved_programs, need, size, statement_size,
};
use pc_syntax::{Program, Stmt};
use std::alloc::Global;
use std::test::Fail;

/// The second name is the first scalar.
const HALVES: &str = "int main(void){int a[3];\nint x=read();print(x/2+1);}";

/// What the third statement needs and holds, and its line, where it prints a number.
fn third_print(program: &Program) -> Option<(u32, u32, u32)> {
    match program.items.get(2) {
        Some(Stmt::Print { line, value }) => Some((need(value), hold(value), *line)),
        _ => None,
    }
}

/// The sizes of the second statement, and of no branch.
fn second_size(program: &Program) -> Option<(u32, u32)> {
    match program.items.get(1) {
        Some(statement) => Some((statement_size(statement), branch_size(&None))),
        None => None,
    }
}

#[test]
fn measures(rt: HostRuntime) -> Result<(), Fail> {
    let program = program_of(rt.alloc(), HALVES)?;
    assert_eq!(rt; third_print(&program), Some((1, 1, 2)));
    assert_eq!(rt; second_size(&program), Some((5, 0)));
    assert_eq!(rt; size(&program), 11);
    laws_of_resolved_programs();
    Ok(())
}

#[test]
fn numbers_names(rt: HostRuntime) -> Result<(), Fail> {
    let alloc = rt.alloc();
    let program = program_of(alloc, HALVES)?;
    let checked = check(alloc, &program)?;
    let body = format!(in alloc; "{:?}", checked.body)?;
    assert_eq!(rt; checked.scalars, 1);
    assert_eq!(rt; checked.arrays.as_slice(), [3].as_slice());
    assert!(rt; body.as_str().contains("Scalar { symbol: 0, line: 2"));
    assert!(rt; body.as_str().contains("Array { symbol: 0, line: 1"));
    assert!(rt; body.as_str().contains("Name { symbol: 0, line: 2"));
    Ok(())
}

#[test]
fn keeps_initial_values(rt: HostRuntime) -> Result<(), Fail> {
    let alloc = rt.alloc();
    let text =
        "int main(void){static int a[4]={5,-6,0,0};int b[1];{static int a[2]={0},c[3]={0,7,};}}";
    let program = program_of(alloc, text)?;
    let checked = check(alloc, &program)?;
    let initial = format!(in alloc; "{:?}", checked.initial)?;
    assert_eq!(rt; checked.arrays.as_slice(), [4, 1, 2, 3].as_slice());
    assert_eq!(rt;
        initial.as_str(),
        "Seq { items: [Seq { items: [5, -6] }, Seq { items: [] }, Seq { items: [] }, Seq { items: [0, 7] }] }"
    );
    Ok(())
}

/// Bodies of programs on line 2, and the first fault of each.
const FAULTS: [(&str, CheckError); 6] = [
    ("break;int x=read();", CheckError::OutsideLoop { line: 2 }),
    ("int x=y;break;", CheckError::Undeclared { line: 2 }),
    (
        "int x;{int x;}\nint x;x[0]=1;",
        CheckError::Redeclared { line: 3 },
    ),
    (
        "static int a[2]={1,2,3};",
        CheckError::TooManyValues { line: 2 },
    ),
    (
        "static int a[1]={1,\n0};break;",
        CheckError::TooManyValues { line: 3 },
    ),
    ("static int a[0]={1};", CheckError::BadSize { line: 2 }),
];

/// The first fault of a program with this body, if it has one.
fn fault_of(alloc: Global, body: &str) -> Result<Option<CheckError>, Fail> {
    let text = format!(in alloc; "int main(void){{\n{body}}}")?;
    let program = program_of(alloc, text.as_str())?;
    Ok(check(alloc, &program).err())
}

#[test]
fn tells_the_first_fault(rt: HostRuntime) -> Result<(), Fail> {
    for (body, fault) in FAULTS {
        assert!(rt; fault_of(rt.alloc(), body)? == Some(fault), "{body}");
    }
    Ok(())
}
