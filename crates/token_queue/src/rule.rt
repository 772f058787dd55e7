//! The rule of the queue of tokens.

use crate::token::Token;
use crossbeam_queue::protocol::{Join, Lesson, Outcome, Protocol, Split};
use crossbeam_queue::{Pass, RuledArrayQueue};
use std::collections::LinkedList;

/// What a pass knows. Only contracts use it, and no value of it is made.
pub struct KnownTokens {
    /// Its parts of the right to know the whole. All passes have nine together.
    pub parts: u64,
    /// The tokens that it holds.
    pub held: LinkedList<Token>,
    /// Tokens of no node of the plan, put aside as the queue was opened.
    pub outside: LinkedList<Token>,
}

/// The rule between any two atomic steps: each token is in the queue or in one pass's view, once in
/// all.
pub struct OnceInAll;

impl Protocol<Token, KnownTokens> for OnceInAll {
    ghost use Rattle.std.specs.Prelude.{[]};
    ghost use Rattle.token_queue.specs.Rules.{known_tokens, AreOnceInAll};
    ghost use Rattle.token_queue.specs.Tokens.{every_token};

    ghost holds = { AreOnceInAll };

    ghost first = { known_tokens 9 every_token [] };
}

/// A pop puts the token into the view. One that finds none leaves the view, and who has all parts
/// then knows that the queue is empty.
pub struct Takes;

impl Outcome<Token, KnownTokens> for Takes {
    ghost use Rattle.std.specs.Prelude.{◌≡◌, ◌≤◌, ◌∷◌, length};
    ghost use Rattle.token_queue.specs.Rules.{known_tokens};

    ghost then = { λ v x w. (w ≡ known_tokens v.parts (x ∷ v.held) v.outside) × (length w.held ≤ 128) };
}

impl Lesson<Token, KnownTokens> for Takes {
    ghost use Rattle.token_queue.specs.Rules.{KnowsAll};

    ghost fact = { KnowsAll };
}

/// A push takes the token out of the view. Who holds a token knows that the queue has room.
pub struct GivesBack;

impl Outcome<Token, KnownTokens> for GivesBack {
    ghost use Rattle.std.specs.Prelude.{◌≡◌};
    ghost use Rattle.token_queue.specs.Rules.{known_tokens};
    ghost use Rattle.token_queue.specs.Tokens.{without};

    ghost then = { λ v x w. w ≡ known_tokens v.parts (without x v.held) v.outside };
}

impl Lesson<Token, KnownTokens> for GivesBack {
    ghost use Rattle.std.specs.Prelude.{◌<◌, length};

    ghost fact = { λ v items. 0 < length v.held → length items < 128 };
}

/// A worker's pass, cut off and taken back.
pub struct SplitsOne;

impl Split<KnownTokens> for SplitsOne {
    ghost use Rattle.std.specs.Prelude.{[], ◌-◌};
    ghost use Rattle.token_queue.specs.Rules.{known_tokens};

    ghost left = { λ v. known_tokens (v.parts - 1) v.held v.outside };

    ghost right = { λ v. known_tokens 1 [] [] };
}

impl Join<KnownTokens> for SplitsOne {
    ghost use Rattle.std.specs.Prelude.{[], ◌+◌, ◌++◌};
    ghost use Rattle.token_queue.specs.Rules.{known_tokens};

    ghost both = { λ v w. known_tokens (v.parts + w.parts) (v.held ++ w.held) (v.outside ++ w.outside) };

    ghost spent = { known_tokens 0 [] [] };
}

/// What the first pass still holds, once the plan's tokens are in the queue, is put aside.
pub struct SetsAside;

impl Split<KnownTokens> for SetsAside {
    ghost use Rattle.std.specs.Prelude.{[], ◌-◌, ◌++◌};
    ghost use Rattle.token_queue.specs.Rules.{known_tokens};

    ghost left = { λ v. known_tokens (v.parts - 1) [] (v.held ++ v.outside) };

    ghost right = { λ v. known_tokens 1 [] [] };
}

pub type RuledTokens = RuledArrayQueue<Token, KnownTokens, OnceInAll>;

pub type RuledPass = Pass<Token, KnownTokens>;
