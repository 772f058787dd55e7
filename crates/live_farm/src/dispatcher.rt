//! Who reads the lines: users' lines go to the threads of their domains, and the operator's are answered here.
ghost use Rattle.std.specs.Prelude.{◌≡◌, ◌<◌, IfSome, OnOk, length, map};
ghost use Rattle.live_farm.specs.Sending.{IsOperatorsSent, IsFateSent, IsNextSent};

use crate::failure::LiveStop;
use crate::farm_users::FarmUsers;
use crate::fate::{LineFate, fate_of};
use crate::line_counts::LineCounts;
use crate::mailbox::Sent;
use crate::operator::Operator;
use crate::outlet::SharedOutlet;
use crate::queued::QueuedRequest;
use crate::sending::LineSender;
use crate::texts::{NotDone, error_answer, unknown_user_answer};
use live_lines::{MOST_LINE_BYTES, OperatorRequest};
use record_files::Notices;
use script_text::next_line;
use std::alloc::Global;
use std::io::BufRead;
use std::ops::ControlFlow;
use std::sync::Wait;

/// Who hands out lines to the users' domains.
#[derive(Drop)]
pub struct Dispatcher<'a, 'b, U> {
    /// All users.
    pub farm_users: &'b FarmUsers<'a>,
    /// Who takes their lines.
    pub sender: &'b U,
    /// For what is allocated.
    pub alloc: Global,
}

impl<U: LineSender> Dispatcher<'_, '_, U> {
    // Answers immediately that a line isn't done, and why.
    fn tell<R: Wait, O: SharedOutlet>(
        &self,
        rt: &R,
        outlet: &O,
        name: &str,
        number: u64,
        why: NotDone,
    ) -> Result<(), LiveStop> {
        let answer = error_answer(self.alloc, name, number, why)?;
        outlet.put_answer(rt, &answer);
        Ok(())
    }

    // Sends a request to a user's domain. If too many lines wait there, or there is no memory for one more, that is answered
    // immediately.
    fn send<R: Wait, O: SharedOutlet>(
        &self,
        rt: &R,
        outlet: &O,
        user: usize,
        number: u64,
        request: QueuedRequest,
    ) -> Result<(), LiveStop>
        ensures { user < length self.now.farm_users.now.names.items → U.was_sent self.now.sender.now user number request }
    {
        let name = match (&request, self.farm_users.names.get(user)) {
            (QueuedRequest::OperatorRestart, _) => "!",
            (_, Some(name)) => name,
            (_, None) => return Ok(()),
        };
        match self.sender.send(rt, user, number, request) {
            Sent::Waits => Ok(()),
            Sent::Full => self.tell(rt, outlet, name, number, NotDone::Busy),
            Sent::NoMemory => self.tell(rt, outlet, name, number, NotDone::Memory),
        }
    }

    // Does what the operator asks.
    fn serve_operator<R: Wait, O: SharedOutlet>(
        &self,
        rt: &R,
        outlet: &O,
        operator: &mut Operator<'_>,
        number: u64,
        request: OperatorRequest,
    ) -> Result<ControlFlow<()>, LiveStop>
        ensures { OnOk result (IsOperatorsSent U.was_sent self.now.sender.now (length self.now.farm_users.now.names.items) number request) }
    {
        match request {
            OperatorRequest::Words => {
                outlet.put_answer(rt, &operator.words(self.alloc)?);
            }
            OperatorRequest::Users => self.tell_users(rt, outlet, operator)?,
            OperatorRequest::Memory => outlet.put_answer(rt, &operator.memory(self.alloc)?),
            OperatorRequest::Restart { user } => {
                self.send(rt, outlet, user, number, QueuedRequest::OperatorRestart)?;
            }
            OperatorRequest::Stop => return Ok(ControlFlow::Break(())),
        }
        Ok(ControlFlow::Continue(()))
    }

    // A line for each user.
    fn tell_users<R: Wait, O: SharedOutlet>(
        &self,
        rt: &R,
        outlet: &O,
        operator: &Operator<'_>,
    ) -> Result<(), LiveStop> {
        for place in 0..self.farm_users.names.len() {
            if let Some(answer) = operator.user(rt, self.alloc, self.farm_users, place)? {
                outlet.put_answer(rt, &answer);
            }
        }
        Ok(())
    }

    // Does what becomes of the line of this number; whether more are read.
    fn hand_out<R: Wait, O: SharedOutlet, N: Notices>(
        &self,
        rt: &R,
        outlet: &O,
        operator: &mut Operator<'_>,
        errors: &N,
        number: u64,
        fate: LineFate,
    ) -> Result<ControlFlow<()>, LiveStop>
        ensures { OnOk result (IsFateSent U.was_sent self.now.sender.now (length self.now.farm_users.now.names.items) number fate) }
    {
        match fate {
            LineFate::End => return Ok(ControlFlow::Break(())),
            LineFate::PassedOver => {}
            LineFate::Asks { user, request } => {
                self.send(rt, outlet, user, number, QueuedRequest::Asked(request))?;
            }
            LineFate::Refused { user, why } => {
                self.send(rt, outlet, user, number, QueuedRequest::Wrong(why))?;
            }
            LineFate::Operator(request) => {
                return self.serve_operator(rt, outlet, operator, number, request);
            }
            LineFate::OperatorRefused(why) => self.tell(rt, outlet, "!", number, why)?,
            LineFate::Nobodys => tell_unknown_user(rt, self.alloc, errors, number)?,
        }
        Ok(ControlFlow::Continue(()))
    }

    /// Why no more lines are read, if that is so: a write failed, or the thread of a domain ran out of memory.
    pub fn look<R: Wait, O: SharedOutlet>(&self, rt: &R, outlet: &O) -> Result<(), LiveStop> {
        if outlet.has_failed(rt) {
            return Err(LiveStop::Io);
        }
        if self.farm_users.is_out_of_memory() {
            return Err(LiveStop::Memory);
        }
        Ok(())
    }

    // Reads a line and does what becomes of it; whether more are read.
    fn take_line<R: Wait, O: SharedOutlet, I: BufRead, N: Notices>(
        &self,
        rt: &R,
        outlet: &O,
        operator: &mut Operator<'_>,
        input: &mut I,
        errors: &N,
        counts: &mut LineCounts,
    ) -> Result<ControlFlow<()>, LiveStop>
        requires { counts.old.users ≡ length self.now.farm_users.now.names.items }
        ensures sent { OnOk result (IfSome (I.remaining input.old)
            (IsNextSent U.was_sent self.now.sender.now (map (λ n. n.now) self.now.farm_users.now.names.items)
            (length self.now.farm_users.now.names.items) MOST_LINE_BYTES counts.old counts.new)) }
        ensures users { counts.new.users ≡ counts.old.users }
    {
        let read = match next_line(self.alloc, input, MOST_LINE_BYTES) {
            Ok(read) => read,
            Err(error) => return Err(LiveStop::of_input(&error)),
        };
        self.look(rt, outlet)?;
        let fate = fate_of(self.alloc, self.farm_users.names.as_slice(), &read);
        let number = counts.count(&fate);
        self.hand_out(rt, outlet, operator, errors, number, fate)
    }

    /// Reads lines until the input ends or the operator stops the farm. Those of each user count from 1.
    pub fn read_lines<R: Wait, O: SharedOutlet, I: BufRead, N: Notices>(
        &self,
        rt: &R,
        outlet: &O,
        operator: &mut Operator<'_>,
        input: &mut I,
        errors: &N,
    ) -> Result<(), LiveStop> {
        let mut counts = LineCounts::new(self.alloc, self.farm_users.names.len())?;
        for _ in rt.forever() {
            if self
                .take_line(rt, outlet, operator, input, errors, &mut counts)?
                .is_break()
            {
                break;
            }
        }
        Ok(())
    }
}

// Tells that a line is no user's. If standard error takes nothing the run goes on.
fn tell_unknown_user<R: Wait, N: Notices>(
    rt: &R,
    alloc: Global,
    errors: &N,
    number: u64,
) -> Result<(), LiveStop> {
    let answer = unknown_user_answer(alloc, number)?;
    errors.tell(rt, answer.as_str());
    Ok(())
}
