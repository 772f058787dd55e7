//! Which parts of a plan differ from one another.
ghost use Rattle.std.specs.Prelude.{◌≡◌, ◌≢◌, ◌↔◌, ℤ, List, IsTrue, All, AllPairs, flat_map};
ghost use Rattle.plan_rules.specs.Data.{DomainData};
ghost use Rattle.plan_rules.specs.Separate.{HaveOtherNames, ShareNoPort, IsDistinct};

use crate::plan::{DomainPlan, RangePlan, UserPlan};

/// What a plan must not hold twice.
pub trait Differs: Sized {
    /// What holds of two parts that differ.
    ghost differs_from: { Self → Self → Type 0 };

    /// Whether the two differ.
    fn is_different(&self, other: &Self) -> bool
        ensures { IsTrue result ↔ differs_from self.now other.now };
}

/// What each domain of a plan has a list of.
pub trait PartOfDomain: Differs {
    /// The list of a domain.
    ghost list: { DomainData → List Self };

    /// The domain's list.
    fn list_of(domain: &DomainPlan) -> &[Self]
        ensures { result.now ≡ list domain.now };
}

impl Differs for i64 {
    ghost differs_from = { λ x y. x ≢ y };

    fn is_different(&self, other: &i64) -> bool {
        self != other
    }
}

impl Differs for UserPlan {
    ghost differs_from = { λ u v. HaveOtherNames u v };

    fn is_different(&self, other: &UserPlan) -> bool {
        self.name != other.name
    }
}

impl PartOfDomain for UserPlan {
    ghost list = { λ d. d.users };

    fn list_of(domain: &DomainPlan) -> &[UserPlan] {
        domain.users.as_slice()
    }
}

impl Differs for RangePlan {
    ghost differs_from = { λ r s. ShareNoPort r s };

    fn is_different(&self, other: &RangePlan) -> bool {
        self.last.min(other.last) < self.first.max(other.first)
    }
}

impl PartOfDomain for RangePlan {
    ghost list = { λ d. d.ranges };

    fn list_of(domain: &DomainPlan) -> &[RangePlan] {
        domain.ranges.as_slice()
    }
}

/// Whether the item differs from each of the earlier ones.
fn is_new<T: Differs>(earlier: &[T], item: &T) -> bool
    ensures { IsTrue result ↔ All (λ x. T.differs_from x item.now) earlier.now }
{
    for x in earlier {
        if !x.is_different(item) {
            return false;
        }
    }
    true
}

/// Whether no item occurs twice.
pub fn are_apart<T: Differs>(items: &[T]) -> bool
    ensures { IsTrue result ↔ AllPairs T.differs_from items.now }
{
    for (i, item) in items.iter().enumerate() {
        if !is_new(&items[..i], item) {
            return false;
        }
    }
    true
}

/// Whether each item differs from each of the earlier ones.
fn are_new<T: Differs>(earlier: &[T], items: &[T]) -> bool
    ensures { IsTrue result ↔ All (λ y. All (λ x. T.differs_from x y) earlier.now) items.now }
{
    for item in items {
        if !is_new(earlier, item) {
            return false;
        }
    }
    true
}

/// Whether each item differs from each of the earlier domains' items.
fn are_new_after<T: PartOfDomain>(earlier: &[DomainPlan], items: &[T]) -> bool
    ensures { IsTrue result ↔
        All (λ d. All (λ y. All (λ x. T.differs_from x y) (T.list d)) items.now) earlier.now }
{
    for domain in earlier {
        if !are_new(T::list_of(domain), items) {
            return false;
        }
    }
    true
}

/// Whether no item occurs twice in the lists of all domains.
pub fn differ<T: PartOfDomain>(domains: &[DomainPlan]) -> bool
    ensures { IsTrue result ↔ AllPairs T.differs_from (flat_map T.list domains.now) }
{
    for (i, domain) in domains.iter().enumerate() {
        let items = T::list_of(domain);
        if !are_apart(items) || !are_new_after(&domains[..i], items) {
            return false;
        }
    }
    true
}
