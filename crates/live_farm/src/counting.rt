//! The numbers of lines.
ghost use Rattle.std.specs.Prelude.{◌≡◌};
ghost use Rattle.live_farm.specs.LineCounts.{IsCounted, line_place};

use crate::fate::LineFate;
use crate::line_counts::LineCounts;

// Where a line counts, if there are that many users.
fn place_of(users: usize, fate: &LineFate) -> Option<usize>
    ensures { result ≡ line_place users fate.now }
{
    match fate {
        LineFate::Asks { user, .. } | LineFate::Refused { user, .. } => Some(*user),
        LineFate::Operator(_) | LineFate::OperatorRefused(_) => Some(users),
        LineFate::Nobodys | LineFate::End | LineFate::PassedOver => None,
    }
}

impl LineCounts {
    /// Counts a line by what becomes of it. The answer is its number among the lines of its user, from 1; among all lines if it is
    /// nobody's.
    pub(crate) fn count(&mut self, fate: &LineFate) -> u64
        ensures counted { IsCounted fate.now self.old self.new result }
        ensures users { self.new.users ≡ self.old.users }
    {
        self.all = self.all.saturating_add(1);
        let Some(place) = place_of(self.users, fate) else {
            return self.all;
        };
        match self.counts.get_mut(place) {
            Some(count) => {
                *count = count.saturating_add(1);
                *count
            }
            None => 0,
        }
    }
}
