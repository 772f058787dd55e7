//! The queue of a plan's tokens, and the passes of those who take from it.

ghost use Rattle.std.specs.Prelude.{◌≡◌, ◌<◌, ◌≤◌, ◌+◌, ◌-◌, ℕ, [], ◌∷◌, ◌++◌, None, IfOk, IfSome, MatchOption, length, slice_get, vec_capacity};
ghost use Rattle.atomic_table.specs.Seated.{TableId};
ghost use Rattle.crossbeam_queue.specs.Passes.{IsSamePass, IsPassOf, ruled_capacity};
ghost use Rattle.token_queue.specs.Passes.{AreOf, AreItsPasses, HoldNone, absorbed, parts_of, outside_of};
ghost use Rattle.token_queue.specs.Rules.{known_tokens, known_of, parted, weight};
ghost use Rattle.token_queue.specs.Tokens.{token, tokens_of, tokens_of_nodes, every_token, weigh, without, HasToken, AreTheOthers, HasEachOnce};

use crate::rule::{GivesBack, RuledPass, RuledTokens, SetsAside, SplitsOne, Takes};
use crate::token::Token;
use plan_rules::AcceptedPlan;
use std::alloc::{AllocError, Global};
use std::marker::Model;
use std::sync::Wait;

/// The most tokens that a plan can have: 16 domains of 8 nodes.
pub const PLACES: usize = 128;

/// The tokens of a plan that no worker has taken, first in, first out. Contracts see which queue it
/// is.
#[derive(Drop)]
pub struct TokenQueue {
    ruled_queue: RuledTokens,
}

impl Model for TokenQueue {
    ghost use Rattle.std.specs.Prelude.{◌≡◌};
    ghost use Rattle.atomic_table.specs.Seated.{TableId};
    ghost use Rattle.crossbeam_queue.specs.Passes.{ruled_capacity};

    ghost Value = { TableId };

    ghost view = { λ q. q.ruled_queue.table.shared.table_id };

    ghost invariant = { λ q. ruled_capacity q.ruled_queue ≡ 128 };
}

/// What a worker carries from turn to turn. Contracts see which queue it is of, its parts of the right
/// to know the whole, the tokens that it holds, and those of no node of the plan, which the first pass
/// keeps for ever.
#[derive(Drop)]
pub struct WorkerPass {
    pass: RuledPass,
}

impl Model for WorkerPass {
    ghost use Rattle.std.specs.Prelude.{◌≡◌, ◌<◌, []};
    ghost use Rattle.token_queue.specs.Rules.{known_of};
    ghost use Rattle.token_queue.specs.Passes.{WorkerPassValue};

    ghost Value = { WorkerPassValue };

    ghost view = { λ p. record { queue = p.pass.table_id; parts = (known_of p.pass).parts; held = (known_of p.pass).held; outside = (known_of p.pass).outside } };

    ghost invariant = { λ p. (p.pass.me.1 ≡ []) × (0 < (known_of p.pass).parts) };
}

// Puts a token that the pass holds into the queue, which has a place for every token.
fn put<R: Wait>(rt: &R, ruled_queue: &RuledTokens, pass: &mut RuledPass, token: Token)
    requires queue { IsPassOf ruled_queue.now pass.old × (ruled_capacity ruled_queue.now ≡ 128) }
    requires parts { 0 < (known_of pass.old).parts }
    requires held { HasToken (known_of pass.old).held token }
    ensures queue { IsSamePass pass.old pass.new }
    ensures held { known_of pass.new ≡ known_tokens (known_of pass.old).parts (without token (known_of pass.old).held) (known_of pass.old).outside }
{
    if ruled_queue
        .push_as::<GivesBack, R>(rt, pass, token)
        .is_err()
    {
        unreachable!()
    }
}

// Puts the tokens of a domain's nodes, which the pass holds.
// Seven clauses: whose pass it is and what it holds, and each part of what it knows after.
fn put_nodes<R: Wait>(
    rt: &R,
    ruled_queue: &RuledTokens,
    pass: &mut RuledPass,
    domain: u8,
    nodes: u8,
)
    requires queue { IsPassOf ruled_queue.now pass.old × (ruled_capacity ruled_queue.now ≡ 128) }
    requires parts { 0 < (known_of pass.old).parts }
    requires held { (node : ℕ) → node < nodes → HasToken (known_of pass.old).held (token domain node) }
    ensures queue { IsSamePass pass.old pass.new }
    ensures parts { (known_of pass.new).parts ≡ (known_of pass.old).parts }
    ensures outside { (known_of pass.new).outside ≡ (known_of pass.old).outside }
    ensures held { (h : Token → ℕ) → weigh h (known_of pass.new).held + weigh h (tokens_of_nodes domain nodes) ≡ weigh h (known_of pass.old).held }
{
    for node in 0..nodes {
        put(rt, ruled_queue, pass, Token { domain, node });
    }
}

// How many nodes a domain has, 1 to 8.
fn nodes_of(plan: &AcceptedPlan, domain: u8) -> u8
    requires { domain < length plan.now }
    ensures nodes { IfSome (slice_get plan.now domain) (λ d. result ≡ length d.nodes) }
    ensures few { result ≤ 8 }
{
    plan.part(domain).nodes().len() as u8
}

// Puts the tokens of a plan, in plan order.
// Six clauses: what the pass is before, and each part of what it knows after.
fn put_plan<R: Wait>(rt: &R, ruled_queue: &RuledTokens, pass: &mut RuledPass, plan: &AcceptedPlan)
    requires queue { IsPassOf ruled_queue.now pass.old × (ruled_capacity ruled_queue.now ≡ 128) }
    requires all { known_of pass.old ≡ known_tokens 9 every_token [] }
    ensures queue { IsSamePass pass.old pass.new }
    ensures parts { (known_of pass.new).parts ≡ 9 }
    ensures outside { (known_of pass.new).outside ≡ [] }
    ensures held { AreTheOthers (known_of pass.new).held (tokens_of plan.now) }
{
    // The domains of an accepted plan share no port.
    plan.separate_law();
    for domain in 0..plan.domains() {
        put_nodes(rt, ruled_queue, pass, domain, nodes_of(plan, domain));
    }
}

// Puts aside what a pass holds.
fn set_aside(ruled_queue: &RuledTokens, mut whole: RuledPass) -> RuledPass
    requires queue { IsPassOf ruled_queue.now whole }
    requires parts { 1 < (known_of whole).parts }
    ensures queue { IsPassOf ruled_queue.now result }
    ensures known { known_of result ≡ known_tokens (known_of whole).parts [] ((known_of whole).held ++ (known_of whole).outside) }
{
    let mut pass = ruled_queue.another::<SetsAside>(&mut whole);
    ruled_queue.absorb::<SplitsOne>(&mut pass, whole);
    pass
}

// Cuts passes of one part each, which hold nothing.
// Nine clauses: what the keeper gives away, and each part of what the new passes know.
fn cut(
    alloc: Global,
    ruled_queue: &RuledTokens,
    keeper: &mut RuledPass,
    count: u8,
) -> Result<Vec<WorkerPass>, AllocError>
    requires queue { IsPassOf ruled_queue.now keeper.old }
    requires parts { count < (known_of keeper.old).parts }
    ensures queue { IsSamePass keeper.old keeper.new }
    ensures keeper { IfOk result (λ passes. known_of keeper.new ≡ parted count (known_of keeper.old)) }
    ensures count { IfOk result (λ passes. length passes.items ≡ count) }
    ensures of { IfOk result (λ passes. AreOf keeper.old.table_id passes.items) }
    ensures parts { IfOk result (λ passes. parts_of passes.items ≡ count) }
    ensures held { IfOk result (λ passes. HoldNone passes.items) }
    ensures outside { IfOk result (λ passes. outside_of passes.items ≡ []) }
{
    let mut passes = Vec::new(alloc);
    for _worker in 0..count {
        let pass = ruled_queue.another::<SplitsOne>(keeper);
        passes.push(WorkerPass { pass })?;
    }
    Ok(passes)
}

// Takes a pass back.
fn absorb(ruled_queue: &RuledTokens, keeper: &mut RuledPass, pass: WorkerPass)
    requires queue { IsPassOf ruled_queue.now keeper.old }
    requires parts { 0 < (known_of keeper.old).parts }
    requires of { pass.queue ≡ keeper.old.table_id }
    ensures queue { IsSamePass keeper.old keeper.new }
    ensures keeper { known_of keeper.new ≡ absorbed pass (known_of keeper.old) }
{
    let WorkerPass { pass } = pass;
    ruled_queue.absorb::<SplitsOne>(keeper, pass);
}

fn take_last(passes: &mut Vec<WorkerPass>) -> WorkerPass
    requires { 0 < length passes.old.items }
    ensures items { passes.old.items ≡ passes.new.items ++ result ∷ [] }
    ensures count { length passes.new.items + 1 ≡ length passes.old.items }
    ensures of { (queue : TableId) → AreOf queue passes.old.items → AreOf queue passes.new.items × (result.queue ≡ queue) }
    ensures none { HoldNone passes.old.items → HoldNone passes.new.items × (result.held ≡ []) }
{
    match passes.pop() {
        Some(pass) => pass,
        None => unreachable!(),
    }
}

// Takes the passes back into one.
// Eight clauses: what keeper and passes know before, and each part of what the keeper knows after.
fn absorb_all(ruled_queue: &RuledTokens, keeper: &mut RuledPass, mut passes: Vec<WorkerPass>)
    requires queue { IsPassOf ruled_queue.now keeper.old }
    requires parts { 0 < (known_of keeper.old).parts }
    requires of { AreOf keeper.old.table_id passes.items }
    requires none { ((known_of keeper.old).held ≡ []) × HoldNone passes.items }
    ensures queue { IsSamePass keeper.old keeper.new }
    ensures parts { (known_of keeper.new).parts ≡ (known_of keeper.old).parts + parts_of passes.items }
    ensures held { (known_of keeper.new).held ≡ [] }
    ensures outside { (h : Token → ℕ) → weigh h (known_of keeper.new).outside ≡ weigh h (known_of keeper.old).outside + weigh h (outside_of passes.items) }
{
    for _taken in 0..passes.len() {
        let pass = take_last(&mut passes);
        absorb(ruled_queue, keeper, pass);
    }
}

// Takes all that is left.
// Six clauses: five of who may know that the queue is empty, and what is taken.
fn drain<R: Wait>(
    rt: &R,
    ruled_queue: &RuledTokens,
    keeper: &mut RuledPass,
    tokens: &mut Vec<Token>,
)
    requires queue { IsPassOf ruled_queue.now keeper.old }
    requires parts { (known_of keeper.old).parts ≡ 9 }
    requires held { (known_of keeper.old).held ≡ [] }
    requires room { 128 ≤ vec_capacity tokens.old }
    requires empty { tokens.old.items ≡ [] }
    ensures { AreTheOthers (known_of keeper.old).outside tokens.new.items }
{
    for _ in rt.forever() {
        match ruled_queue.pop_as::<Takes, R>(rt, keeper) {
            Some(token) => tokens.push_reserved(token),
            None => break,
        }
    }
}

impl TokenQueue {
    /// Takes the token that has waited longest; `None` if all are out with workers. After `None` the
    /// pass holds what it held. A pass that has all parts gets `None` only if it knows each token itself.
    pub fn take<R: Wait>(&self, rt: &R, pass: &mut WorkerPass) -> Option<Token>
        requires { pass.old.queue ≡ self.now }
        ensures token { MatchOption result (pass.new ≡ pass.old) (λ token. pass.new ≡ record pass.old { held = token ∷ pass.old.held }) }
        ensures alone { result ≡ None → pass.old.parts ≡ 9 → AreTheOthers pass.old.held pass.old.outside }
    {
        self.ruled_queue.pop_as::<Takes, R>(rt, &mut pass.pass)
    }

    /// Puts a token that the pass holds back at the end of the queue, which always has room for it.
    pub fn give_back<R: Wait>(&self, rt: &R, pass: &mut WorkerPass, token: Token)
        requires queue { pass.old.queue ≡ self.now }
        requires held { HasToken pass.old.held token }
        ensures { pass.new ≡ record pass.old { held = without token pass.old.held } }
    {
        put(rt, &self.ruled_queue, &mut pass.pass, token)
    }

    /// A queue of a plan's tokens, in plan order, and a pass for each of 1 to 8 workers. No pass holds
    /// a token.
    ///
    /// # Errors
    ///
    /// `AllocError` where the queue or the passes can't be allocated.
    pub fn open<R: Wait>(
        rt: &R,
        alloc: Global,
        plan: &AcceptedPlan,
        workers: u8,
    ) -> Result<(TokenQueue, Vec<WorkerPass>), AllocError>
        requires { (1 ≤ workers) × (workers ≤ 8) }
        ensures workers { IfOk result (λ o. length o.1.items ≡ workers) }
        ensures passes { IfOk result (λ o. AreItsPasses plan.now o.0 o.1.items) }
    {
        let (ruled_queue, mut whole) = RuledTokens::ruled(alloc, PLACES)?;
        put_plan(rt, &ruled_queue, &mut whole, plan);
        let mut pass = set_aside(&ruled_queue, whole);
        let mut passes = cut(alloc, &ruled_queue, &mut pass, workers - 1)?;
        passes.push(WorkerPass { pass })?;
        Ok((TokenQueue { ruled_queue }, passes))
    }

    /// Ends the queue. All its passes are handed back, and each node of the plan is put exactly once
    /// in `tokens`, which must be empty and have room for every token.
    pub fn end<R: Wait>(
        self,
        rt: &R,
        plan: &AcceptedPlan,
        mut passes: Vec<WorkerPass>,
        tokens: &mut Vec<Token>,
    )
        requires passes { AreItsPasses plan.now self passes.items }
        requires room { 128 ≤ vec_capacity tokens.old }
        requires empty { tokens.old.items ≡ [] }
        ensures { HasEachOnce plan.now tokens.new.items }
    {
        let TokenQueue { ruled_queue } = self;
        let WorkerPass { mut pass } = take_last(&mut passes);
        absorb_all(&ruled_queue, &mut pass, passes);
        drain(rt, &ruled_queue, &mut pass, tokens);
    }
}
