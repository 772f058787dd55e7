//! Reading values out of TOML data.
ghost use Rattle.std.specs.Prelude.{◌≡◌, ℤ, length, All, MatchResult, Some, None, string_bytes};
ghost use Rattle.toml.specs.Data.{Data, Members, get_member, integer, string};
ghost use Rattle.toml.specs.View.{view, table_view};
ghost use Rattle.plan_checker.specs.declared.version.PlanVersion.{PlanVersion};
ghost use Rattle.plan_checker.specs.Document.{ReadsValue, list, IsTomlTable};

use crate::fields::has_fields;
use crate::version::PlanVersion;
use plan_rules::PlanFault;
use std::alloc::Global;
use toml::{Table, Value};

/// What TOML data may spell, in a version of the plan.
pub trait FromValue: Sized + Drop {
    /// The data that spells a value.
    ghost spelling: { PlanVersion → Self → Data };

    /// What holds of each value that was read.
    ghost is_whole: { PlanVersion → Self → Type 0 };

    /// Reads the value that the data spells.
    fn from_value(alloc: Global, version: PlanVersion, value: &Value) -> Result<Self, PlanFault>
        ensures { ReadsValue (is_whole version) (spelling version) (λ x. x) (view value.now) result };
}

impl FromValue for i64 {
    ghost spelling = { λ _ z. integer z };

    ghost is_whole = { λ _ _. Unit {0} };

    fn from_value(_alloc: Global, _version: PlanVersion, value: &Value) -> Result<i64, PlanFault> {
        integer_of(value)
    }
}

/// The integer that the data is.
pub fn integer_of(value: &Value) -> Result<i64, PlanFault>
    ensures { ReadsValue (λ _. Unit {0}) integer (λ z. z) (view value.now) result }
{
    value.as_integer().ok_or(PlanFault::Shape)
}

/// The text that the data is.
pub fn text_of(alloc: Global, value: &Value) -> Result<String, PlanFault>
    ensures { ReadsValue (λ _. Unit {0}) string string_bytes (view value.now) result }
{
    match value.as_str() {
        Some(text) => Ok(String::from_str(alloc, text)?),
        None => Err(PlanFault::Shape),
    }
}

/// The table that a value is, where it has exactly the fields of these names, which ascend.
pub fn table_of<'a>(value: &'a Value, names: &[&str]) -> Result<&'a Table, PlanFault>
    ensures { MatchResult result
        (λ t. IsTomlTable (view value.now) names.now (table_view t.now))
        (λ e. (e ≡ PlanFault.Shape) × ((t : Members) → ¬ IsTomlTable (view value.now) names.now t)) }
{
    match value.as_table() {
        Some(table) if has_fields(table, names) => Ok(table),
        _ => Err(PlanFault::Shape),
    }
}

/// The value of a field.
pub fn value_at<'a>(table: &'a Table, name: &str) -> Result<&'a Value, PlanFault>
    ensures { MatchResult result
        (λ v. get_member name.now (table_view table.now) ≡ Some (view v.now))
        (λ e. (e ≡ PlanFault.Shape) × (get_member name.now (table_view table.now) ≡ None)) }
{
    match table.get(name) {
        Some(value) => Ok(value),
        None => Err(PlanFault::Shape),
    }
}

/// The integer that a field is.
pub fn integer_at(table: &Table, name: &str) -> Result<i64, PlanFault>
    ensures { ReadsValue (λ _. Unit {0}) (λ z. Some (integer z)) (λ z. z)
        (get_member name.now (table_view table.now)) result }
{
    integer_of(value_at(table, name)?)
}

/// The text that a field is.
pub fn text_at(alloc: Global, table: &Table, name: &str) -> Result<String, PlanFault>
    ensures { ReadsValue (λ _. Unit {0}) (λ s. Some (string s)) string_bytes
        (get_member name.now (table_view table.now)) result }
{
    text_of(alloc, value_at(table, name)?)
}

/// The values that the items of a field's array spell.
pub fn list_at<T: FromValue>(
    alloc: Global,
    version: PlanVersion,
    table: &Table,
    name: &str,
) -> Result<Vec<T>, PlanFault>
    ensures { ReadsValue (All (T.is_whole version)) (λ xs. Some (list (T.spelling version) xs)) (λ v. v.items)
        (get_member name.now (table_view table.now)) result }
{
    list_of(alloc, version, value_at(table, name)?)
}

/// The values that the items of an array spell.
pub fn list_of<T: FromValue>(
    alloc: Global,
    version: PlanVersion,
    value: &Value,
) -> Result<Vec<T>, PlanFault>
    ensures { ReadsValue (All (T.is_whole version)) (list (T.spelling version)) (λ v. v.items)
        (view value.now) result }
{
    let Some(array) = value.as_array() else {
        return Err(PlanFault::Shape);
    };
    let mut items = Vec::with_capacity(alloc, array.len())?;
    for value in array {
        items.push(T::from_value(alloc, version, value)?)?;
    }
    Ok(items)
}

/// The integers of an array, which every version writes alike.
pub fn integers_of(alloc: Global, value: &Value) -> Result<Vec<i64>, PlanFault>
    ensures { ReadsValue (λ _. Unit {0}) (list integer) (λ v. v.items) (view value.now) result }
{
    list_of(alloc, PlanVersion::Three, value)
}
