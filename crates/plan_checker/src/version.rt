//! The versions of a plan's text.
ghost use Rattle.std.specs.Prelude.{◌≡◌, ◌≢◌, MatchOption};
ghost use Rattle.plan_checker.specs.Version.{version_number};

/// How the text of a plan spells a domain.
#[derive(Clone, Copy)]
pub enum PlanVersion {
    /// One user and one range, whose fields are among the domain's own.
    One,
    /// One user, whose fields are among the domain's own, and a list of ranges.
    Two,
    /// A list of users and a list of ranges.
    Three,
}

impl PlanVersion {
    /// The version that the number stands for.
    pub fn of(number: i64) -> Option<PlanVersion>
        ensures { MatchOption result
            ((v : PlanVersion) → version_number v ≢ number)
            (λ v. version_number v ≡ number) }
    {
        match number {
            1 => Some(PlanVersion::One),
            2 => Some(PlanVersion::Two),
            3 => Some(PlanVersion::Three),
            _ => None,
        }
    }
}
