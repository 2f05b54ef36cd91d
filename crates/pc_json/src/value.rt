//! Values that several programs write, and the line of a value.
ghost use Rattle.std.specs.Prelude.{◌≡◌, ◌≤◌, Some, IfOk, OnOk, false, string_bytes};
ghost use Rattle.serde_json.specs.Data.{depth, put as with_member};
ghost use Rattle.serde_json.specs.Read.{max_depth, read};
ghost use Rattle.serde_json.specs.View.{members_view, view};
ghost use Rattle.serde_json.specs.Written.{compact_text, has_float};
ghost use Rattle.pc_json.specs.Json.{json_line, limits_json, optional, whole};

use pc_word::Limits;
use serde_json::{Map, Value, json, put};
use std::alloc::{AllocError, Global};

/// The text of a value whose numbers are whole: one line, with no blanks between its parts and a line feed after it. An object's
/// members stand in the order of their names. The text without the line feed reads as the value, if this nests at most 127 deep.
pub fn line_text(alloc: Global, value: &Value) -> Result<Vec<u8>, AllocError>
    requires { has_float (view value.now) ≡ false }
    ensures line { IfOk result (λ text. text.items ≡ json_line (view value.now)) }
    ensures reads { IfOk result (λ text. depth (view value.now) ≤ max_depth → read (compact_text (view value.now)) ≡ Some (view value.now)) }
{
    let mut text = compact(alloc, value)?;
    text.push_str("\n")?;
    Ok(text.into_bytes())
}

/// The text of a value whose numbers are whole, without the line feed.
fn compact(alloc: Global, value: &Value) -> Result<String, AllocError>
    requires { has_float (view value.now) ≡ false }
    ensures text { IfOk result (λ text. string_bytes text ≡ compact_text (view value.now)) }
    ensures reads { IfOk result (λ text. depth (view value.now) ≤ max_depth → read (compact_text (view value.now)) ≡ Some (view value.now)) }
{
    value.to_string(alloc)
}

/// Puts a count into an object.
pub fn put_count(
    alloc: Global,
    members: &mut Map<String, Value>,
    name: &str,
    count: u64,
) -> Result<(), AllocError>
    ensures { OnOk result (members_view members.new.entries ≡ with_member name.now (whole count) (members_view members.old.entries)) }
{
    put(members, alloc, name, Value::from(count))
}

/// A number, or null where there is none.
pub fn optional_value(number: Option<u32>) -> Value
    ensures { view result ≡ optional number }
{
    match number {
        Some(number) => Value::from(number),
        None => Value::Null,
    }
}

/// The limits of rows.
pub fn limits_value(alloc: Global, limits: Limits) -> Result<Value, AllocError>
    ensures { IfOk result (λ value. view value ≡ limits_json limits) }
{
    let Limits { ops, tests, mem } = limits;
    json!(in alloc; {"items": ops, "tests": tests, "loads_and_stores": mem})
}
