//! A user's commands.

ghost use Rattle.std.specs.Prelude.{◌≡◌, ◌≢◌, ◌<◌, ◌≤◌, Err, IfOk, length};
ghost use Rattle.domain_core.specs.declared.event.Refusal.TheVariants.{NoSuch, NoMemory};
ghost use Rattle.domain_core.specs.declared.event.Event.TheVariants.{Config, Write, Read, Reset, Look};
ghost use Rattle.farm_service.specs.Answers.{IsTold, HasNoRoomLeft};
ghost use Rattle.farm_service.specs.Closed.{IsListedIn};
ghost use Rattle.farm_service.specs.Passes.{Gains, NotesRefusal};
ghost use Rattle.farm_service.specs.Restarts.{begun_anew};

use crate::pass::UserPass;
use crate::service::Service;
use domain_core::{AnsweredCommand, By, Event, Journal, Refusal, Reply};
use std::alloc::{AllocError, Global};
use std::marker::Model;
use std::sync::Wait;

/// How a settling ended.
#[derive(Clone, Copy)]
pub enum Settled {
    /// No Step and no Move of the domain would have been recorded, the limit aside.
    Quiet,
    /// The rounds were over before.
    Busy,
}

/// A user at a service, which the session borrows. Contracts see the service's plan, and the user's pass.
pub struct Session<'a> {
    service: &'a Service,
    pass: UserPass,
}

// Dropped by hand, since a derived `Drop` makes callers prove the drop of each field.
impl Drop for Session<'_> {
    fn drop(self) {
        let Session {
            service: _,
            pass: _,
        } = self;
    }
}

impl<'a> Model for Session<'a> {
    ghost use Rattle.farm_service.specs.Passes.{SessionValue};

    ghost Value = { SessionValue };

    ghost view = { λ s. record { plan = s.service.now.plan; pass = s.pass } };
}

impl Service {
    /// Begins a session of a user, whose pass is one that this service's opening gave. A pass of no
    /// domain of the plan is answered `NoSuch` by each command.
    pub fn session(&self, pass: UserPass) -> Session<'_>
        ensures plan { result.plan ≡ self.now.plan }
        ensures pass { result.pass ≡ pass }
    {
        Session {
            service: self,
            pass,
        }
    }
}

impl Session<'_> {
    /// Ends the session, and gives the pass back.
    pub fn end(self) -> UserPass
        ensures { result ≡ self.entry.pass }
    {
        let Session { service: _, pass } = self;
        pass
    }

    /// What the user asked and was answered so far, in the user's order.
    pub fn commands(&self) -> &[AnsweredCommand]
        ensures { result.now ≡ self.now.pass.told }
    {
        self.pass.commands()
    }

    // The pass.
    pub(crate) fn pass(&self) -> &UserPass
        ensures { result.now ≡ self.now.pass }
    {
        &self.pass
    }

    // The service.
    pub(crate) fn service(&self) -> &Service {
        self.service
    }

    // Makes the user's pass as it was opened.
    pub(crate) fn begin_anew(&mut self)
        ensures { self.new ≡ begun_anew self.old }
    {
        self.pass.begin_anew();
    }

    // Makes the user's list what a journal has of the user.
    pub(crate) fn list_again(&mut self, journal: &Journal) -> Result<(), AllocError>
        ensures { IfOk result (λ _. IsListedIn journal.now.entries self.new.pass) }
    {
        self.pass.list_again(journal)
    }

    // Asks the user's domain, lists what it answers, and notes a refusal.
    fn ask<R: Wait>(&mut self, rt: &R, alloc: Global, event: Event) -> Result<Reply, Refusal>
        ensures answer { IsTold self.old event result }
        ensures memory { result ≡ Err NoMemory → HasNoRoomLeft self.old }
        ensures list { Gains self.old event result self.new }
    {
        let pass = &mut self.pass;
        if pass.told.reserve(1).is_err() {
            pass.note_refusal(Refusal::NoMemory);
            return Err(Refusal::NoMemory);
        }
        let (domain, by) = (pass.domain, By::User(pass.user));
        let answer = self
            .service
            .ask_domain(rt, alloc, domain, by, event, pass.reserved);
        match answer {
            Ok(reply) => pass.told.push_reserved(AnsweredCommand { event, reply }),
            Err(refusal) => pass.note_refusal(refusal),
        }
        answer
    }

    /// The next configuration byte comes to the domain's switch.
    ///
    /// # Errors
    ///
    /// Those of [`domain_core::Domain::apply`], and before them `NoMemory` if no memory is reserved for one more
    /// command in the user's list and the system has none. Nothing has changed then, and nothing is listed.
    pub fn configure<R: Wait>(&mut self, rt: &R, alloc: Global, byte: u8) -> Result<Reply, Refusal>
        ensures answer { IsTold self.old (Config byte) result }
        ensures memory { result ≡ Err NoMemory → HasNoRoomLeft self.old }
        ensures list { Gains self.old (Config byte) result self.new }
    {
        self.ask(rt, alloc, Event::Config(byte))
    }

    /// A byte is put in the sending queue of a host of the user's, by the host's number in the domain.
    ///
    /// # Errors
    ///
    /// As [`Session::configure`].
    pub fn write<R: Wait>(
        &mut self,
        rt: &R,
        alloc: Global,
        host: u8,
        byte: u8,
    ) -> Result<Reply, Refusal>
        ensures answer { IsTold self.old (Write host byte) result }
        ensures memory { result ≡ Err NoMemory → HasNoRoomLeft self.old }
        ensures list { Gains self.old (Write host byte) result self.new }
    {
        self.ask(rt, alloc, Event::Write(host, byte))
    }

    /// The front byte of the receiving queue of a host of the user's is taken, by the host's number in
    /// the domain.
    ///
    /// # Errors
    ///
    /// As [`Session::configure`].
    pub fn read<R: Wait>(&mut self, rt: &R, alloc: Global, host: u8) -> Result<Reply, Refusal>
        ensures answer { IsTold self.old (Read host) result }
        ensures memory { result ≡ Err NoMemory → HasNoRoomLeft self.old }
        ensures list { Gains self.old (Read host) result self.new }
    {
        self.ask(rt, alloc, Event::Read(host))
    }

    /// A node of the domain is reset, by its number there.
    ///
    /// # Errors
    ///
    /// As [`Session::configure`].
    pub fn reset<R: Wait>(&mut self, rt: &R, alloc: Global, node: u8) -> Result<Reply, Refusal>
        ensures answer { IsTold self.old (Reset node) result }
        ensures memory { result ≡ Err NoMemory → HasNoRoomLeft self.old }
        ensures list { Gains self.old (Reset node) result self.new }
    {
        self.ask(rt, alloc, Event::Reset(node))
    }

    /// A node of the domain is looked at, by its number there.
    ///
    /// # Errors
    ///
    /// As [`Session::configure`].
    pub fn look<R: Wait>(&mut self, rt: &R, alloc: Global, node: u8) -> Result<Reply, Refusal>
        ensures answer { IsTold self.old (Look node) result }
        ensures memory { result ≡ Err NoMemory → HasNoRoomLeft self.old }
        ensures list { Gains self.old (Look node) result self.new }
    {
        self.ask(rt, alloc, Event::Look(node))
    }

    /// Does up to `rounds` rounds of the domain, until it is quiet: in each round every node does up to
    /// `quantum` Steps, 1 to 4,096, outside the lock, and then the packets of all ports move. While nothing
    /// moves, a round has up to 256 quanta, never more than 65,536 Steps, and counts as that many rounds. The list
    /// of the user's pass stays.
    ///
    /// # Errors
    ///
    /// The first refusal ends it, as `NoSuch` where the pass is of no domain of the plan. What was
    /// recorded before stays recorded.
    pub fn settle<R: Wait>(
        &self,
        rt: &R,
        alloc: Global,
        quantum: u64,
        rounds: u64,
    ) -> Result<Settled, Refusal>
        requires quantum { (1 ≤ quantum) × (quantum ≤ 4096) }
        ensures elsewhere { length self.now.plan ≤ self.now.pass.domain → result ≡ Err NoSuch }
        ensures there { self.now.pass.domain < length self.now.plan → result ≢ Err NoSuch }
    {
        let domain = self.pass.domain;
        self.service.schedule().begin_settling(domain);
        let settled = self.service.settle(rt, alloc, domain, quantum, rounds);
        self.service.schedule().end_settling(domain);
        settled
    }

    /// Settles as [`Session::settle`] does, before the user reads. If that is refused with `JournalFull`, the user's pass
    /// notes it: the domain's journal is full, or has fewer events below its limit than the Steps of a node's quantum.
    /// Whether it is so is seen when the service is closed. The list of the user's pass stays.
    ///
    /// # Errors
    ///
    /// As [`Session::settle`].
    pub fn settle_to_read<R: Wait>(
        &mut self,
        rt: &R,
        alloc: Global,
        quantum: u64,
        rounds: u64,
    ) -> Result<Settled, Refusal>
        requires quantum { (1 ≤ quantum) × (quantum ≤ 4096) }
        ensures elsewhere { length self.old.plan ≤ self.old.pass.domain → result ≡ Err NoSuch }
        ensures there { self.old.pass.domain < length self.old.plan → result ≢ Err NoSuch }
        ensures note { NotesRefusal self.old result self.new }
    {
        let settled = self.settle(rt, alloc, quantum, rounds);
        if matches!(settled, Err(Refusal::JournalFull)) {
            self.pass.note_nearly_full();
        }
        settled
    }
}
