//! The row of a state as a JSON value.
ghost use Rattle.std.specs.Prelude.{◌≡◌, map, IfOk};
ghost use Rattle.pc_word.specs.StoredRow.{row_in};
ghost use Rattle.pc_told.specs.Tellings.{telling_in};
ghost use Rattle.serde_json.specs.View.{view};
ghost use Rattle.pc_json.specs.Json.{list_of};
ghost use Rattle.pc_explain.specs.Naming.{naming_in};
ghost use Rattle.pc_explain_json.specs.Json.{operand_json, home_json, leaf_json, item_json, test_json, row_json};

use pc_automaton::AutomatonLeaf;
use pc_explain::{ItemWords, PlaceWords, StateNaming, place, shown};
use pc_json::optional_value;
use pc_report::trap_words;
use pc_told::ToldRow;
use pc_window::Home;
use pc_word::{Item, Operand, RowTree};
use serde_json::{Value, json, push};
use std::alloc::{AllocError, Global};

/// A row with what is told of it, which has the same shape.
pub(crate) fn row_value(
    alloc: Global,
    naming: StateNaming,
    row: &RowTree<AutomatonLeaf>,
    told: &ToldRow,
) -> Result<Value, AllocError>
    ensures { IfOk result (λ value. view value ≡ row_json (naming_in naming.entry) (row_in (λ leaf. leaf) row.now) (telling_in told.now)) }
{
    match (row, told) {
        (
            RowTree::Step { item, next },
            ToldRow::Step {
                iteration,
                origin,
                next: told_next,
                ..
            },
        ) => {
            let next = row_value(alloc, naming, next, told_next)?;
            let place = place(naming.legend, *iteration, *origin);
            item_value(alloc, naming, place, *origin, *item, next)
        }
        (
            RowTree::Test { on, yes, no },
            ToldRow::Test {
                iteration,
                origin,
                yes: one,
                no: other,
                ..
            },
        ) => {
            let yes = row_value(alloc, naming, yes, one)?;
            let no = row_value(alloc, naming, no, other)?;
            let place = place(naming.legend, *iteration, *origin);
            test_value(alloc, naming, place, *origin, *on, yes, no)
        }
        (RowTree::Leaf { leaf }, ToldRow::Leaf { advance }) => leaf_value(
            alloc, naming, leaf, *advance,
        ),
        _ => Ok(Value::Null),
    }
}

/// An item, with the tree below it.
fn item_value(
    alloc: Global,
    naming: StateNaming,
    place: PlaceWords,
    origin: u32,
    item: Item,
    next: Value,
) -> Result<Value, AllocError>
    ensures { IfOk result (λ value. view value ≡ item_json (naming_in naming.entry) place.iteration origin place.line item (view next)) }
{
    let words = ItemWords { naming, item };
    let words = format!(in alloc; "{words}")?;
    let line = optional_value(place.line);
    json!(in alloc; {"item": words, "iteration": place.iteration, "origin": origin, "line": line, "next": next})
}

/// A test, with the trees of its sides.
fn test_value(
    alloc: Global,
    naming: StateNaming,
    place: PlaceWords,
    origin: u32,
    on: Operand,
    yes: Value,
    no: Value,
) -> Result<Value, AllocError>
    ensures { IfOk result (λ value. view value ≡ test_json (naming_in naming.entry) place.iteration origin place.line on (view yes) (view no)) }
{
    let on = operand_value(alloc, naming, on)?;
    let line = optional_value(place.line);
    json!(in alloc; {"test": on, "iteration": place.iteration, "origin": origin, "line": line, "yes": yes, "no": no})
}

/// A leaf, with the first iteration of which anything is left there, if anything is.
fn leaf_value(
    alloc: Global,
    naming: StateNaming,
    leaf: &AutomatonLeaf,
    advance: Option<u32>,
) -> Result<Value, AllocError>
    ensures { IfOk result (λ value. view value ≡ leaf_json (naming_in naming.entry) leaf.now advance) }
{
    match leaf {
        AutomatonLeaf::To { state, arguments } => {
            let arguments = operands_value(alloc, naming, arguments.as_slice())?;
            let from = optional_value(advance);
            json!(in alloc; {"to": *state, "arguments": arguments, "from": from})
        }
        AutomatonLeaf::Out { region, homes } => {
            let values = homes_value(alloc, naming, homes.as_slice())?;
            json!(in alloc; {"region": *region, "values": values})
        }
        AutomatonLeaf::Stop => json!(in alloc; {"stop": true}),
        AutomatonLeaf::Trap { kind, line } => {
            json!(in alloc; {"trap": trap_words(*kind), "line": *line})
        }
    }
}

/// An operand in words.
pub(crate) fn operand_value(
    alloc: Global,
    naming: StateNaming,
    operand: Operand,
) -> Result<Value, AllocError>
    ensures { IfOk result (λ value. view value ≡ operand_json (naming_in naming.entry) operand) }
{
    let operand = shown(naming, operand);
    let words = format!(in alloc; "{operand}")?;
    Ok(Value::from(words))
}

/// Operands in words, in their order.
fn operands_value(
    alloc: Global,
    naming: StateNaming,
    operands: &[Operand],
) -> Result<Value, AllocError>
    ensures { IfOk result (λ value. view value ≡ list_of (map (operand_json (naming_in naming.entry)) operands.now)) }
{
    let mut list = Vec::new(alloc);
    for operand in operands {
        let words = operand_value(alloc, naming, *operand)?;
        push(&mut list, words)?;
    }
    Ok(Value::from(list))
}

/// The value of a variable.
fn home_value(alloc: Global, naming: StateNaming, home: Home) -> Result<Value, AllocError>
    ensures { IfOk result (λ value. view value ≡ home_json (naming_in naming.entry) home) }
{
    let words = operand_value(alloc, naming, home.value)?;
    json!(in alloc; {"variable": home.variable, "value": words})
}

/// The values of variables, in their order.
fn homes_value(alloc: Global, naming: StateNaming, homes: &[Home]) -> Result<Value, AllocError>
    ensures { IfOk result (λ value. view value ≡ list_of (map (home_json (naming_in naming.entry)) homes.now)) }
{
    let mut list = Vec::new(alloc);
    for home in homes {
        let value = home_value(alloc, naming, *home)?;
        push(&mut list, value)?;
    }
    Ok(Value::from(list))
}
