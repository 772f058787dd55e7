//! Why the nodes of a domain do no more than they do: what it answered is done again on a separate domain.
ghost use Rattle.std.specs.Prelude.{◌≡◌, ◌<◌, ℕ, IfOk, OnOk, Some, length, slice_get, string_bytes};
ghost use Rattle.live_farm.specs.Groups.{IsStatusHere};
ghost use Rattle.live_farm.specs.Whys.{IsFarEnough, IsFollowed, IsToldOf, after_text, full_text, moment_text, stop_text, used_text};

use crate::group::UserGroup;
use domain_core::laws::journals_add_up;
use domain_core::{Entry, Mark, NoMemory};
use farm_service::{DomainStatus, Service, Session, block_forever};
use node_causes::explain_moment;
use plan_checker::AcceptedPlan;
use record_following::laws::moments_go_on;
use record_following::{FollowFault, ReplayedDomain};
use record_keeping::PIECE;
use std::alloc::Global;
use std::sync::Wait;

/// The most Steps that are done again for an answer. Each entry of a journal counts as `ENTRY_COUNTS` Steps more.
const MOST_AGAIN: u64 = 1 << 27;

/// See [`MOST_AGAIN`].
const ENTRY_COUNTS: u64 = 64;

// A domain that follows the journal of one of a service, beside the list of one of its users.
struct JournalReplay {
    replayed: ReplayedDomain,
    // How far the journal was copied.
    mark: Mark,
    // How many commands of the user are up to there.
    listed: usize,
    // Reserved, for a piece of it.
    room: Vec<Entry>,
    // What may still be done again.
    left: u64,
}

// Dropped by hand, since a derived `Drop` makes callers prove the drop of each field.
impl Drop for JournalReplay {
    fn drop(self) {
        let JournalReplay {
            replayed: _,
            mark: _,
            listed: _,
            room: _,
            left: _,
        } = self;
    }
}

impl JournalReplay {
    // The domain of this number of a plan as it is opened, for the user of a session.
    fn open(
        alloc: Global,
        plan: &AcceptedPlan,
        domain: u8,
        session: &Session<'_>,
    ) -> Result<JournalReplay, NoMemory>
        requires { domain < length plan.now }
        ensures { IfOk result (λ it. IsFollowed plan.now domain session.now it.mark it.listed it.left it.replayed) }
    {
        let room = Vec::with_capacity(alloc, PIECE)?;
        Ok(JournalReplay {
            replayed: ReplayedDomain::open(alloc, plan, domain)?,
            mark: Mark::start(),
            listed: 0,
            room,
            left: MOST_AGAIN,
        })
    }

    // Follows the next piece of the journal, until `end` events are recorded.
    fn apply_piece<R: Wait>(
        &mut self,
        rt: &R,
        service: &Service,
        domain: u8,
        session: &Session<'_>,
        end: u64,
    ) -> Result<(), FollowFault>
        requires { IsFollowed service.now.plan domain session.now self.old.mark self.old.listed self.old.left self.old.replayed }
        ensures { OnOk result (IsFollowed service.now.plan domain session.now self.new.mark self.new.listed self.new.left self.new.replayed) }
    {
        // A moment that goes on is one after more calls, and a journal stands for what its entries do, one after another.
        moments_go_on();
        journals_add_up();
        let before = self.replayed.recorded_events();
        let most = end.min(before.saturating_add(self.left));
        self.room.clear();
        let Ok(mark) = service.copy_gained(rt, domain, self.mark, &mut self.room) else {
            return Err(FollowFault::NoSuch);
        };
        let entries = self.room.as_slice();
        let Some(listed) = session.listed_after(entries, self.listed) else {
            return Err(FollowFault::Differs);
        };
        if entries.is_empty() {
            return Err(FollowFault::Fewer);
        }
        self.replayed.apply_entries(entries, most)?;
        let done = self.replayed.recorded_events().saturating_sub(before);
        let copied = (self.room.len() as u64).saturating_mul(ENTRY_COUNTS);
        self.mark = mark;
        self.listed = listed;
        self.left = self.left.saturating_sub(done).saturating_sub(copied);
        Ok(())
    }

    // Follows the journal until `end` events are recorded, or as far as is done again for one answer.
    fn apply_journal<R: Wait>(
        &mut self,
        rt: &R,
        service: &Service,
        domain: u8,
        session: &Session<'_>,
        end: u64,
    ) -> Result<(), FollowFault>
        requires { IsFollowed service.now.plan domain session.now self.old.mark self.old.listed self.old.left self.old.replayed }
        ensures followed { OnOk result (IsFollowed service.now.plan domain session.now self.new.mark self.new.listed self.new.left self.new.replayed) }
        ensures far { OnOk result (IsFarEnough end session.now self.new.listed self.new.left self.new.replayed) }
    {
        for _piece in rt.forever() {
            if end <= self.replayed.recorded_events() {
                return self.compare_list(session);
            }
            if self.left == 0 {
                return Ok(());
            }
            self.apply_piece(rt, service, domain, session, end)?;
        }
        unreachable!()
    }

    // Compares how many commands of the user were copied with how many the user was answered.
    fn compare_list(&self, session: &Session<'_>) -> Result<(), FollowFault>
        ensures { OnOk result (self.now.listed ≡ length session.now.pass.told) }
    {
        if self.listed == session.commands().len() {
            Ok(())
        } else {
            Err(FollowFault::Differs)
        }
    }

    // Follows the journal up to as many events as the status says are recorded, or as far as is done again for one answer, and
    // gives the text of that moment.
    fn tell_of_journal<R: Wait>(
        &mut self,
        rt: &R,
        alloc: Global,
        group: &UserGroup<'_>,
        session: &Session<'_>,
        status: DomainStatus,
        node: Option<u8>,
    ) -> Result<String, FollowFault>
        requires followed { IsFollowed group.now.service.now.plan group.now.domain session.now self.old.mark self.old.listed self.old.left self.old.replayed }
        requires status { IsStatusHere group.now status }
        ensures { IfOk result (λ told. (user : ℕ) → slice_get group.now.sessions.items user ≡ Some session.now
            → IsToldOf group.now user node (string_bytes told)) }
    {
        self.apply_journal(rt, group.service, group.domain, session, status.recorded)?;
        let causes = explain_moment(alloc, &self.replayed, node)?;
        let (room, done) = (
            group.service.room().bytes(),
            self.replayed.recorded_events(),
        );
        Ok(tell(alloc, status, room, done, causes.as_str())?)
    }
}

// Up to which event a domain was done again, of all that are recorded.
fn tell_reach(alloc: Global, done: u64, recorded: u64) -> Result<String, NoMemory>
    ensures { IfOk result (λ told. string_bytes told ≡ after_text done recorded) }
{
    if done < recorded {
        let mut told = format!(in alloc; "after {done} of {recorded}")?;
        told.push_str(" events: more aren't done again at once\n")?;
        return Ok(told);
    }
    format!(in alloc; "after {done} events\n")
}

// That a domain does nothing more until it begins again, if its journal is full.
fn tell_full(alloc: Global, status: DomainStatus) -> Result<String, NoMemory>
    ensures { IfOk result (λ told. string_bytes told ≡ full_text status) }
{
    let limit = status.limit;
    format!(in alloc;
        "the journal is full: {limit} events are recorded. Nothing more is done until restart begins the domain anew\n"
    )
}

// The same, if its room is used up.
fn tell_used(alloc: Global, status: DomainStatus, room: u64) -> Result<String, NoMemory>
    ensures { IfOk result (λ told. string_bytes told ≡ used_text status room) }
{
    let bytes = status.room.bytes;
    let mut told = format!(in alloc; "the domain rests: {bytes} of {room}")?;
    told.push_str(
        " bytes of its room are used. No Step and no Move is done until restart begins it anew\n",
    )?;
    Ok(told)
}

// The same, if that is so.
fn tell_stop(alloc: Global, status: DomainStatus, room: u64) -> Result<String, NoMemory>
    ensures { IfOk result (λ told. string_bytes told ≡ stop_text status room) }
{
    if status.recorded == status.limit {
        tell_full(alloc, status)
    } else if status.room.rests.is_some() {
        tell_used(alloc, status, room)
    } else {
        Ok(String::new(alloc))
    }
}

// The text of a domain that was done again up to `done` events, with the causes.
fn tell(
    alloc: Global,
    status: DomainStatus,
    room: u64,
    done: u64,
    causes: &str,
) -> Result<String, NoMemory>
    ensures { IfOk result (λ told. string_bytes told ≡ moment_text status room done causes.now) }
{
    let reach = tell_reach(alloc, done, status.recorded)?;
    let stop = tell_stop(alloc, status, room)?;
    format!(in alloc; "{reach}{stop}{causes}")
}

/// Says why the nodes of these users' domain, or one of them, do no more than they do, by a status of the domain. The domain is asked
/// nothing: what it answered up to now is copied in pieces, each under its lock, and done again on a separate domain. If it can't be
/// done again, or if the list of the user who asks isn't what the journal has of the user, the call waits for ever. No run comes to
/// that.
pub(crate) fn explain_domain<R: Wait>(
    rt: &R,
    alloc: Global,
    group: &UserGroup<'_>,
    user: usize,
    status: DomainStatus,
    node: Option<u8>,
) -> Result<String, NoMemory>
    requires user { user < length group.now.sessions.items }
    requires status { IsStatusHere group.now status }
    ensures { IfOk result (λ told. IsToldOf group.now user node (string_bytes told)) }
{
    let session = &group.sessions[user];
    let mut replay = JournalReplay::open(alloc, group.service.plan(), group.domain, session)?;
    match replay.tell_of_journal(rt, alloc, group, session, status, node) {
        Ok(told) => Ok(told),
        Err(FollowFault::Memory(_)) => Err(NoMemory),
        Err(_) => block_forever(rt),
    }
}
