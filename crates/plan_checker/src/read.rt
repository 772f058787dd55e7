//! Reading a plan from TOML text.
ghost use Rattle.std.specs.Prelude.{◌≡◌, ℤ, [], ◌∷◌, length, MatchResult, Some, codes};
ghost use Rattle.toml.specs.Data.{integer, string, get_member};
ghost use Rattle.toml.specs.View.{view, table_view};
ghost use Rattle.plan_checker.specs.declared.version.PlanVersion.TheVariants.{One, Two, Three};
ghost use Rattle.plan_checker.specs.Document.{ReadsPlan, ReadsDocument, ReadsValue, list, node, range, user, domain, HasFourLinks, IsWhole};
ghost use Rattle.plan_checker.specs.Document.{first_of, last_of, hosts_of_first, name_of_first};

use crate::fields::has_fields;
use crate::values::{FromValue, integer_at, integers_of, list_at, table_of, text_at};
use crate::version::PlanVersion;
use plan_rules::{DomainPlan, NodePlan, Plan, PlanFault, RangePlan, UserPlan};
use std::alloc::Global;
use toml::{Table, Value};

impl FromValue for NodePlan {
    ghost spelling = { λ _ n. node n };

    ghost is_whole = { λ _ n. HasFourLinks n };

    fn from_value(
        alloc: Global,
        _version: PlanVersion,
        value: &Value,
    ) -> Result<NodePlan, PlanFault> {
        let table = table_of(value, &["links", "memory"])?;
        let memory = integer_at(table, "memory")?;
        let links = links_of(alloc, table)?;
        Ok(NodePlan { memory, links })
    }
}

/// The four links that the field `links` of a table gives.
fn links_of(alloc: Global, table: &Table) -> Result<[i64; 4], PlanFault>
    ensures { ReadsValue (λ links. length links ≡ 4) (λ links. Some (list integer links)) (λ links. links)
        (get_member (codes "links") (table_view table.now)) result }
{
    let links: Vec<i64> = list_at(alloc, PlanVersion::Three, table, "links")?;
    match links.as_slice() {
        [a, b, c, d] => Ok([*a, *b, *c, *d]),
        _ => Err(PlanFault::Shape),
    }
}

impl FromValue for RangePlan {
    ghost spelling = { λ _ r. range r };

    ghost is_whole = { λ _ _. Unit {0} };

    fn from_value(
        alloc: Global,
        _version: PlanVersion,
        value: &Value,
    ) -> Result<RangePlan, PlanFault> {
        let ends = integers_of(alloc, value)?;
        match ends.as_slice() {
            [first, last] => Ok(RangePlan {
                first: *first,
                last: *last,
            }),
            _ => Err(PlanFault::Shape),
        }
    }
}

impl FromValue for UserPlan {
    ghost spelling = { λ _ u. user u };

    ghost is_whole = { λ _ _. Unit {0} };

    fn from_value(
        alloc: Global,
        _version: PlanVersion,
        value: &Value,
    ) -> Result<UserPlan, PlanFault> {
        let table = table_of(value, &["host", "name"])?;
        user_of(alloc, table)
    }
}

/// The user that the fields `host` and `name` of a table give.
fn user_of(alloc: Global, table: &Table) -> Result<UserPlan, PlanFault>
    ensures { ReadsValue (λ _. Unit {0}) (λ u. Some (list integer u.hosts) ∷ Some (string u.name) ∷ []) (λ u. u)
        (get_member (codes "host") (table_view table.now) ∷ get_member (codes "name") (table_view table.now) ∷ [])
        result }
{
    let hosts = list_at(alloc, PlanVersion::Three, table, "host")?;
    let name = text_at(alloc, table, "name")?;
    Ok(UserPlan { name, hosts })
}

impl FromValue for DomainPlan {
    ghost spelling = { domain };

    ghost is_whole = { IsWhole };

    fn from_value(
        alloc: Global,
        version: PlanVersion,
        value: &Value,
    ) -> Result<DomainPlan, PlanFault> {
        match version {
            PlanVersion::One => domain_of_one_range(alloc, value),
            PlanVersion::Two => domain_of_one_user(alloc, value),
            PlanVersion::Three => domain_of_users(alloc, value),
        }
    }
}

/// A domain as version 1 writes it.
fn domain_of_one_range(alloc: Global, value: &Value) -> Result<DomainPlan, PlanFault>
    ensures { ReadsValue (IsWhole One) (domain One) (λ d. d) (view value.now) result }
{
    let table = table_of(value, &["first", "host", "last", "limit", "name", "node"])?;
    let limit = integer_at(table, "limit")?;
    let ranges = only_range(alloc, table)?;
    let users = only_user(alloc, table)?;
    let nodes = list_at(alloc, PlanVersion::One, table, "node")?;
    Ok(DomainPlan {
        users,
        ranges,
        limit,
        nodes,
    })
}

/// A domain as version 2 writes it.
fn domain_of_one_user(alloc: Global, value: &Value) -> Result<DomainPlan, PlanFault>
    ensures { ReadsValue (IsWhole Two) (domain Two) (λ d. d) (view value.now) result }
{
    let table = table_of(value, &["host", "limit", "name", "node", "range"])?;
    let limit = integer_at(table, "limit")?;
    let users = only_user(alloc, table)?;
    let nodes = list_at(alloc, PlanVersion::Two, table, "node")?;
    let ranges = list_at(alloc, PlanVersion::Two, table, "range")?;
    Ok(DomainPlan {
        users,
        ranges,
        limit,
        nodes,
    })
}

/// A domain as version 3 writes it.
fn domain_of_users(alloc: Global, value: &Value) -> Result<DomainPlan, PlanFault>
    ensures { ReadsValue (IsWhole Three) (domain Three) (λ d. d) (view value.now) result }
{
    let table = table_of(value, &["limit", "node", "range", "user"])?;
    let limit = integer_at(table, "limit")?;
    let nodes = list_at(alloc, PlanVersion::Three, table, "node")?;
    let ranges = list_at(alloc, PlanVersion::Three, table, "range")?;
    let users = list_at(alloc, PlanVersion::Three, table, "user")?;
    Ok(DomainPlan {
        users,
        ranges,
        limit,
        nodes,
    })
}

/// The range that the fields `first` and `last` of a table give, as the only one.
fn only_range(alloc: Global, table: &Table) -> Result<Vec<RangePlan>, PlanFault>
    ensures { ReadsValue (λ rs. length rs ≡ 1)
        (λ rs. Some (integer (first_of rs)) ∷ Some (integer (last_of rs)) ∷ []) (λ v. v.items)
        (get_member (codes "first") (table_view table.now) ∷ get_member (codes "last") (table_view table.now) ∷ [])
        result }
{
    let first = integer_at(table, "first")?;
    let last = integer_at(table, "last")?;
    list_of_one(alloc, RangePlan { first, last })
}

/// The user that the fields `host` and `name` of a table give, as the only one.
fn only_user(alloc: Global, table: &Table) -> Result<Vec<UserPlan>, PlanFault>
    ensures { ReadsValue (λ us. length us ≡ 1)
        (λ us. Some (list integer (hosts_of_first us)) ∷ Some (string (name_of_first us)) ∷ []) (λ v. v.items)
        (get_member (codes "host") (table_view table.now) ∷ get_member (codes "name") (table_view table.now) ∷ [])
        result }
{
    list_of_one(alloc, user_of(alloc, table)?)
}

/// A list of one item.
fn list_of_one<T: Drop>(alloc: Global, item: T) -> Result<Vec<T>, PlanFault>
    ensures { MatchResult result (λ v. v.items ≡ item ∷ []) (λ e. e ≡ PlanFault.NoMemory) }
{
    let mut items = Vec::with_capacity(alloc, 1)?;
    items.push(item)?;
    Ok(items)
}

/// The plan that a document gives.
fn plan_of(alloc: Global, document: &Table) -> Result<Plan, PlanFault>
    ensures { ReadsDocument (table_view document.now) result }
{
    if !has_fields(document, &["domain", "version"]) {
        return Err(PlanFault::Shape);
    }
    let number = integer_at(document, "version")?;
    match PlanVersion::of(number) {
        Some(version) => {
            let domains = list_at(alloc, version, document, "domain")?;
            Ok(Plan { domains })
        }
        None => Err(PlanFault::Shape),
    }
}

/// Reads the text of a plan, in any of the three versions.
///
/// # Errors
///
/// `Text` exactly where the bytes aren't UTF-8 or aren't TOML, `Shape` exactly where the document
/// is no plan's, and `NoMemory`.
pub fn read_plan(alloc: Global, text: &[u8]) -> Result<Plan, PlanFault>
    ensures { ReadsPlan text.now result }
{
    let text = std::str::from_utf8(text).map_err(|_| PlanFault::Text)?;
    match toml::table_from_str(alloc, text) {
        Ok(document) => plan_of(alloc, &document),
        Err(error) if error.is_memory() => Err(PlanFault::NoMemory),
        Err(_) => Err(PlanFault::Text),
    }
}
