//! What is answered to the users of a domain.
ghost use Rattle.std.specs.Prelude.{◌≡◌, ◌<◌, true, false, length, map, IfOk, IfSome, OnErr, string_bytes};
ghost use Rattle.farm_service.specs.Restarts.{begun_anew};
ghost use Rattle.farm_service.specs.declared.status.DomainStatus.{DomainStatus as SpecStatus};
ghost use Rattle.live_farm.specs.LiveTexts.{rest_state_of};
ghost use Rattle.live_farm.specs.Groups.{IsStatusHere, AnswersLine, AnswersRest, AnswersRestart, AnswersWhy, AnswersOperator, AnswersQueued, AreNotAll};
ghost use Rattle.live_farm.specs.Groups.{IsSameDomain, StaysAfterError};

use crate::causes::explain_domain;
use crate::group::UserGroup;
use crate::queued::{QueuedLine, QueuedRequest};
use crate::texts::{
    LiveAnswer, NotDone, RestState, error_answer, no_node_answer, operator_restart_answer,
    rest_answer, restart_answer, why_answer,
};
use domain_core::{NoMemory, Refusal};
use farm_service::DomainStatus;
use line_answers::{answer_line, settle};
use live_lines::{LiveRequest, WholeRequest};
use script_lines::{Command, LineFault};
use std::alloc::Global;
use std::sync::Wait;

/// What a line is answered, and whether the domain began again by it.
#[derive(Drop)]
pub struct QueuedAnswer {
    /// What is written.
    pub lines: LiveAnswer,
    /// Whether the domain began again, so that its record does too.
    pub begins_anew: bool,
}

impl QueuedAnswer {
    /// The answer to what doesn't begin the domain again.
    pub(crate) fn of_line(lines: LiveAnswer) -> QueuedAnswer
        ensures lines { result.lines ≡ lines }
        ensures anew { result.begins_anew ≡ false }
    {
        QueuedAnswer {
            lines,
            begins_anew: false,
        }
    }

    // The answer to a restart that is done.
    fn of_restart(lines: LiveAnswer) -> QueuedAnswer
        ensures lines { result.lines ≡ lines }
        ensures anew { result.begins_anew ≡ true }
    {
        QueuedAnswer {
            lines,
            begins_anew: true,
        }
    }
}

impl UserGroup<'_> {
    // The output line of a user's line.
    fn line_of<R: Wait>(
        &mut self,
        rt: &R,
        alloc: Global,
        user: usize,
        command: &Command,
    ) -> Result<String, NoMemory>
        requires { user < length self.old.sessions.items }
        ensures line { IfOk result (λ text. AnswersLine self.old self.new user command.now (string_bytes text)) }
        ensures same { IsSameDomain self.old self.new }
    {
        let name = self.name(user);
        let mut text = String::new(alloc);
        answer_line(
            rt,
            alloc,
            &mut self.sessions[user],
            self.quantum,
            name,
            command,
            &mut text,
        )?;
        Ok(text)
    }

    // Answers a line of a script: asks what it says in its user's session, and gives the user's output line. If a command or
    // the text ran out of memory, what was taken before it stays.
    fn answer<R: Wait>(
        &mut self,
        rt: &R,
        alloc: Global,
        user: usize,
        command: &Command,
    ) -> Result<QueuedAnswer, NoMemory>
        requires { user < length self.old.sessions.items }
        ensures line { IfOk result (λ a. AnswersLine self.old self.new user command.now (string_bytes a.lines.text)) }
        ensures anew { IfOk result (λ a. a.begins_anew ≡ false) }
        ensures same { IsSameDomain self.old self.new }
    {
        let text = self.line_of(rt, alloc, user, command)?;
        Ok(QueuedAnswer::of_line(LiveAnswer::of(text)))
    }

    /// Settles the domain as after a line of a script. A refusal is nobody's fault.
    ///
    /// # Errors
    ///
    /// `NoMemory` if the settling ran out of memory.
    pub(crate) fn settle<R: Wait>(&self, rt: &R, alloc: Global, user: usize) -> Result<(), NoMemory>
        requires { user < length self.now.sessions.items }
    {
        match settle(rt, alloc, &self.sessions[user], self.quantum) {
            Err(Refusal::NoMemory) => Err(NoMemory),
            _ => Ok(()),
        }
    }

    // Begins the domain again for all these users. The answer is whether that was done.
    fn begin_anew<R: Wait>(&mut self, rt: &R) -> bool
        ensures done { result ≡ true → self.new.sessions.items ≡ map begun_anew self.old.sessions.items }
        ensures refused { result ≡ false → self.new.sessions.items ≡ self.old.sessions.items }
        ensures not_all { result ≡ false → AreNotAll self.old }
        ensures names { self.new.names ≡ self.old.names }
        ensures same { IsSameDomain self.old self.new }
    {
        self.service
            .restart(rt, self.sessions.as_mut_slice())
            .is_ok()
    }

    // How it is with the domain, with exactly the commands in its journal that its users list.
    fn status<R: Wait>(&self, rt: &R) -> DomainStatus
        ensures { IsStatusHere self.now result }
    {
        match self
            .service
            .listed_status(rt, self.domain, self.sessions.as_slice())
        {
            Ok(status) => status,
            Err(_) => unreachable!(),
        }
    }

    // Whether the domain is at rest.
    fn rest_state<R: Wait>(&self, rt: &R) -> RestState
        ensures { (status : SpecStatus) × IsStatusHere self.now status × (result ≡ rest_state_of status) }
    {
        RestState::of(self.status(rt))
    }

    // Tells whether the domain is at rest, after it has settled.
    fn answer_rest<R: Wait>(
        &self,
        rt: &R,
        alloc: Global,
        user: usize,
    ) -> Result<QueuedAnswer, NoMemory>
        requires { user < length self.now.sessions.items }
        ensures rest { IfOk result (λ a. AnswersRest self.now user (string_bytes a.lines.text)) }
        ensures anew { IfOk result (λ a. a.begins_anew ≡ false) }
    {
        self.settle(rt, alloc, user)?;
        let lines = rest_answer(alloc, self.name(user), self.rest_state(rt))?;
        Ok(QueuedAnswer::of_line(lines))
    }

    // Begins the domain again for a user who is alone in it. Both texts are made before that, so after an error nothing has changed.
    fn answer_restart<R: Wait>(
        &mut self,
        rt: &R,
        alloc: Global,
        user: usize,
    ) -> Result<QueuedAnswer, NoMemory>
        requires { user < length self.old.sessions.items }
        ensures restart { IfOk result (λ a. AnswersRestart self.old self.new user a.begins_anew (string_bytes a.lines.text)) }
        ensures err { OnErr result (self.new ≡ self.old) }
        ensures same { IsSameDomain self.old self.new }
    {
        let name = self.name(user);
        let refused = restart_answer(alloc, name, false)?;
        if self.users() != 1 {
            return Ok(QueuedAnswer::of_line(refused));
        }
        let done = restart_answer(alloc, name, true)?;
        Ok(if self.begin_anew(rt) {
            QueuedAnswer::of_restart(done)
        } else {
            QueuedAnswer::of_line(refused)
        })
    }

    // Why the nodes of the domain, or one of them, do no more than they do.
    fn lines_of_why<R: Wait>(
        &self,
        rt: &R,
        alloc: Global,
        user: usize,
        node: Option<u8>,
    ) -> Result<LiveAnswer, NoMemory>
        requires { user < length self.now.sessions.items }
        ensures { IfOk result (λ lines. AnswersWhy self.now user node (string_bytes lines.text)) }
    {
        let name = self.name(user);
        if let Some(node) = node
            && !self.has_node(node)
        {
            return no_node_answer(alloc, name, node);
        }
        let told = explain_domain(rt, alloc, self, user, self.status(rt), node)?;
        why_answer(alloc, name, told.as_str())
    }

    // Tells why the nodes of the domain, or one of them, do no more than they do. The domain is asked nothing.
    fn answer_why<R: Wait>(
        &self,
        rt: &R,
        alloc: Global,
        user: usize,
        node: Option<u8>,
    ) -> Result<QueuedAnswer, NoMemory>
        requires { user < length self.now.sessions.items }
        ensures why { IfOk result (λ a. AnswersWhy self.now user node (string_bytes a.lines.text)) }
        ensures anew { IfOk result (λ a. a.begins_anew ≡ false) }
    {
        let lines = self.lines_of_why(rt, alloc, user, node)?;
        Ok(QueuedAnswer::of_line(lines))
    }

    // Begins the domain again for the operator, who names one of its users in the line of this number. Both texts are made before
    // that, so after an error nothing has changed.
    fn answer_operator<R: Wait>(
        &mut self,
        rt: &R,
        alloc: Global,
        user: usize,
        number: u64,
    ) -> Result<QueuedAnswer, NoMemory>
        requires { user < length self.old.sessions.items }
        ensures operator { IfOk result (λ a. AnswersOperator self.old self.new user number a.begins_anew (string_bytes a.lines.text)) }
        ensures err { OnErr result (self.new ≡ self.old) }
        ensures same { IsSameDomain self.old self.new }
    {
        let name = self.name(user);
        let done = operator_restart_answer(alloc, name)?;
        let refused = error_answer(alloc, "!", number, NotDone::Fault(LineFault::User))?;
        Ok(if self.begin_anew(rt) {
            QueuedAnswer::of_restart(done)
        } else {
            QueuedAnswer::of_line(refused)
        })
    }
}

/// Answers a line to one of these users.
///
/// # Errors
///
/// `NoMemory` if a command or the text ran out of memory. What a line of a script took before it stays. Any other line has changed
/// nothing: a domain that can't be answered so doesn't begin again.
pub fn answer_queued<R: Wait>(
    rt: &R,
    alloc: Global,
    group: &mut UserGroup<'_>,
    queued: &QueuedLine,
) -> Result<QueuedAnswer, NoMemory>
    requires { queued.now.user < length group.old.sessions.items }
    ensures answer { IfOk result (AnswersQueued group.old group.new queued.now) }
    ensures err { OnErr result (StaysAfterError group.old group.new queued.now.request) }
    ensures same { IsSameDomain group.old group.new }
{
    let user = usize::from(queued.user);
    match &queued.request {
        QueuedRequest::Asked(LiveRequest::Script(command)) => group.answer(
            rt, alloc, user, command,
        ),
        QueuedRequest::Asked(LiveRequest::Domain(WholeRequest::Rest)) => {
            group.answer_rest(rt, alloc, user)
        }
        QueuedRequest::Asked(LiveRequest::Domain(WholeRequest::Restart)) => {
            group.answer_restart(rt, alloc, user)
        }
        QueuedRequest::Asked(LiveRequest::Domain(WholeRequest::Why { node })) => {
            group.answer_why(rt, alloc, user, *node)
        }
        QueuedRequest::Wrong(why) => {
            let lines = error_answer(alloc, group.name(user), queued.number, *why)?;
            Ok(QueuedAnswer::of_line(lines))
        }
        QueuedRequest::OperatorRestart => group.answer_operator(rt, alloc, user, queued.number),
    }
}
