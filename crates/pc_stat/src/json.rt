//! What a run cost, as JSON.
ghost use Rattle.std.specs.Prelude.{◌≡◌, ◌++◌, ◌∷◌, map, slice_index_or, [], IfOk, OnOk, codes};
ghost use Rattle.pc_machine.specs.MachineCode.{code_of};
ghost use Rattle.pc_count.specs.Counts.{profile_of};
ghost use Rattle.pc_count.specs.Profiles.{IsProfileOf};
ghost use Rattle.pc_vm.specs.Standing.{end_of};
ghost use Rattle.serde_json.specs.Data.{put as with_member};
ghost use Rattle.serde_json.specs.View.{members_view, view};
ghost use Rattle.pc_json.specs.Json.{limits_json, with_fields};
ghost use Rattle.pc_stat.specs.Json.{counts_json, end_json, fault_json, json_of, json_text, last_json, row_json, rows_json, trap_json, work_fields};

use pc_count::{CountList, Profile, Work, copy_cycles, work_of};
use pc_json::{limits_value, line_text, put_count};
use pc_machine::Code;
use pc_report::{machine_fault_words, trap_words};
use pc_vm::Outcome;
use pc_word::{End, Limits, MachineFault, TrapKind};
use serde_json::{Map, Value, json, push, put};
use std::alloc::{AllocError, Global};

/// What a run of a code cost, for other programs: one JSON object on a line, with whole numbers alone.
///
/// Its members are the cycles, how the run ended, what the cycles did, those that did nothing but copies, the limits
/// of rows, and for each row how often it ran and how often each of its leaves was taken.
pub fn json_text(alloc: Global, code: &Code, profile: &Profile) -> Result<Vec<u8>, AllocError>
    requires { IsProfileOf (code_of code.now) (profile_of profile.now) }
    ensures { IfOk result (λ text. text.items ≡ json_text (code_of code.now) (profile_of profile.now)) }
{
    let value = run_value(alloc, code, profile)?;
    line_text(alloc, &value)
}

/// What a run cost, as a value.
fn run_value(alloc: Global, code: &Code, profile: &Profile) -> Result<Value, AllocError>
    requires { IsProfileOf (code_of code.now) (profile_of profile.now) }
    ensures { IfOk result (λ value. view value ≡ json_of (code_of code.now) (profile_of profile.now)) }
{
    let mut members = Map::new(alloc);
    put_count(alloc, &mut members, "cycles", profile.cycles)?;
    put_end(alloc, &mut members, profile.outcome)?;
    put_work(alloc, &mut members, work_of(code, profile))?;
    let copies = copy_cycles(code, profile);
    put_count(alloc, &mut members, "copy_cycles", copies)?;
    put_limits(alloc, &mut members, code.limits)?;
    put_rows(alloc, &mut members, profile)?;
    Ok(Value::from(members))
}

/// Puts how a run ended into an object.
fn put_end(
    alloc: Global,
    members: &mut Map<String, Value>,
    outcome: Outcome,
) -> Result<(), AllocError>
    ensures { OnOk result (members_view members.new.entries ≡ with_member (codes "end") (end_json (end_of outcome)) (members_view members.old.entries)) }
{
    let end = end_value(alloc, outcome)?;
    put(members, alloc, "end", end)
}

/// Puts what the cycles of a run did into an object.
fn put_work(alloc: Global, members: &mut Map<String, Value>, work: Work) -> Result<(), AllocError>
    ensures { OnOk result (members_view members.new.entries ≡ with_fields (members_view members.old.entries) (work_fields work)) }
{
    put_count(alloc, members, "items", work.items)?;
    put_count(alloc, members, "tests", work.tests)?;
    put_count(alloc, members, "loads_and_stores", work.memory)?;
    put_count(alloc, members, "prints", work.prints)?;
    put_count(alloc, members, "reads", work.reads)
}

/// Puts the limits of rows into an object.
fn put_limits(
    alloc: Global,
    members: &mut Map<String, Value>,
    limits: Limits,
) -> Result<(), AllocError>
    ensures { OnOk result (members_view members.new.entries ≡ with_member (codes "limits") (limits_json limits) (members_view members.old.entries)) }
{
    let limits = limits_value(alloc, limits)?;
    put(members, alloc, "limits", limits)
}

/// Puts how often each row ran, and its leaves were taken, into an object.
fn put_rows(
    alloc: Global,
    members: &mut Map<String, Value>,
    profile: &Profile,
) -> Result<(), AllocError>
    ensures { OnOk result (members_view members.new.entries
        ≡ with_member (codes "rows") (rows_json profile.now.rows profile.now.leaves.items) (members_view members.old.entries)) }
{
    let rows = rows_value(alloc, profile.rows.as_slice(), profile.leaves.as_slice())?;
    put(members, alloc, "rows", rows)
}

/// How a run ended, or that it took all the cycles that it might.
fn end_value(alloc: Global, outcome: Outcome) -> Result<Value, AllocError>
    ensures { IfOk result (λ value. view value ≡ end_json (end_of outcome)) }
{
    match outcome {
        Outcome::Over { end } => last_value(alloc, end),
        Outcome::Going => json!(in alloc; {"kind": "budget"}),
    }
}

/// How a run ended.
fn last_value(alloc: Global, end: End) -> Result<Value, AllocError>
    ensures { IfOk result (λ value. view value ≡ last_json end) }
{
    match end {
        End::Ended => json!(in alloc; {"kind": "stop"}),
        End::Trapped { kind, line } => trap_value(alloc, kind, line),
        End::Fault { fault } => fault_value(alloc, fault),
    }
}

/// A trap.
fn trap_value(alloc: Global, kind: TrapKind, line: u32) -> Result<Value, AllocError>
    ensures { IfOk result (λ value. view value ≡ trap_json kind line) }
{
    json!(in alloc; {"kind": "trap", "trap": trap_words(kind), "line": line})
}

/// A fault of the machine.
fn fault_value(alloc: Global, fault: MachineFault) -> Result<Value, AllocError>
    ensures { IfOk result (λ value. view value ≡ fault_json fault) }
{
    json!(in alloc; {"kind": "fault", "fault": machine_fault_words(fault)})
}

/// Each row with its counts.
fn rows_value(alloc: Global, rows: &[u64], leaves: &[CountList]) -> Result<Value, AllocError>
    ensures { IfOk result (λ value. view value ≡ rows_json rows.now leaves.now) }
{
    let mut list = Vec::new(alloc);
    for (number, cycles) in rows.iter().enumerate() {
        push_row(alloc, &mut list, *cycles, leaves_at(leaves, number))?;
    }
    Ok(Value::from(list))
}

/// Appends a row with its counts to a list.
fn push_row(
    alloc: Global,
    list: &mut Vec<Value>,
    cycles: u64,
    leaves: &[u64],
) -> Result<(), AllocError>
    ensures { OnOk result (map view list.new.items ≡ map view list.old.items ++ row_json cycles leaves.now ∷ []) }
{
    let row = row_value(alloc, cycles, leaves)?;
    push(list, row)
}

/// The counts of a row's leaves.
fn leaves_at(leaves: &[CountList], number: usize) -> &[u64]
    ensures { result.now ≡ slice_index_or leaves.now number [] }
{
    match leaves.get(number) {
        Some(counts) => counts.as_slice(),
        None => &[],
    }
}

/// A row with its counts.
fn row_value(alloc: Global, cycles: u64, leaves: &[u64]) -> Result<Value, AllocError>
    ensures { IfOk result (λ value. view value ≡ row_json cycles leaves.now) }
{
    let leaves = counts_value(alloc, leaves)?;
    json!(in alloc; {"cycles": cycles, "leaves": leaves})
}

/// Counts, in their order.
fn counts_value(alloc: Global, counts: &[u64]) -> Result<Value, AllocError>
    ensures { IfOk result (λ value. view value ≡ counts_json counts.now) }
{
    let mut list = Vec::new(alloc);
    for count in counts {
        push(&mut list, Value::from(*count))?;
    }
    Ok(Value::from(list))
}
