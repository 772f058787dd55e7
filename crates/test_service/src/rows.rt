//! The rows: what users, workers and an operator do with a service, one after another or in threads of their own.

use crate::actions::Action::{self, Config, Look, Read, Rounds, Write};
use crate::actions::{QUANTUM, SETTLE};
use crate::farm::Ground::{self, Listed, Sized};
use crate::gates::Hold;
use crate::plans::TrialPlan;
use crate::sized::Size;
use crate::stages::Stage::{
    self, Alone, AtOnce, Begun, Burst, Committed, Count, Expect, Held, Meet, Say, Stop, Tell, Word,
    Work, Workers,
};
use crate::telling::OutcomeReport;
use crate::users::Doing;

/// A row: its name, the plan, how many workers there are, what is done, and what is printed of what is left.
#[derive(Clone, Copy)]
pub struct WorkedRow {
    pub name: &'static str,
    pub ground: Ground,
    pub workers: u8,
    pub stages: &'static [Stage],
    pub left: OutcomeReport,
}

/// Connects input 2 to output 5, makes it ready, and asks what drives it.
const DRIVE_OUTPUT_5: [u8; 6] = [0, 2, 5, 3, 2, 5];

/// Joins port 0, the node's, to port 7, the host's.
const JOIN: [u8; 4] = [1, 0, 7, 3];

/// A program that loops for ever.
const LOOPS: [u8; 4] = [0x03, 0xb4, 0x60, 0x0e];

/// A program that sends 41 to its host, and stops.
pub const SAYS_41: [u8; 9] = [0x08, 0xb5, 0x24, 0xf2, 0x24, 0x41, 0xfe, 0x21, 0xf5];

/// Boots the node with a program that sends 41.
const BOOT: [Action; 2] = [Config(&JOIN), Write(0, &SAYS_41)];

/// The same, of a domain of one node, and reads what the program sent.
const BOOT_AND_READ: [Action; 4] = [
    Config(&[1, 0, 1, 3]),
    Write(0, &SAYS_41),
    SETTLE,
    Read(0, 2),
];

/// Boots the node of such a domain with a program that loops for ever. The boot message takes four Steps.
const LOOP_ALONE: [Action; 3] = [Config(&[1, 0, 1, 3]), Write(0, &LOOPS), Rounds(1, 5)];

/// Reads what the program sent, and looks at its node.
const LOOK: [Action; 2] = [Read(0, 2), Look(0)];

/// Joins two nodes to a host each, and writes both a program that loops for ever.
const LOOPS_FOR_BOTH: [(usize, Action); 3] = [
    (0, Config(&[1, 0, 3, 1, 1, 2, 3])),
    (0, Write(0, &LOOPS)),
    (0, Write(1, &LOOPS)),
];

/// Joins the node to host 0, pokes the word 12345678 at 80000048, peeks it, and reads what came.
const POKE_AND_PEEK: [Action; 5] = [
    Config(&JOIN),
    Write(0, &[0, 0x48, 0, 0, 0x80, 0x78, 0x56, 0x34, 0x12]),
    Write(0, &[1, 0x48, 0, 0, 0x80]),
    SETTLE,
    Read(0, 5),
];

/// Writes 01 to host 0, a hundred times.
const WRITE_A_HUNDRED: [Action; 1] = [Write(0, &[1; 100])];

/// Sixteen domains, each of a node, a host and a user.
const SIXTEEN: Size = Size {
    domains: 16,
    nodes: 1,
    users: 1,
    limit: 1_000_000,
};

/// The same for eight users.
const EIGHT_LOOPS: [&[Action]; 8] = [&LOOP_ALONE; 8];

/// Eight domains, each of a node, a host and a user.
const EIGHT: Size = Size {
    domains: 8,
    nodes: 1,
    users: 1,
    limit: 1_000_000,
};

/// Three domains of three nodes each.
const NINE_NODES: Size = Size {
    domains: 3,
    nodes: 3,
    users: 1,
    limit: 1_000_000,
};

/// The rows.
pub const ROWS: [WorkedRow; 11] = [
    WorkedRow {
        name: "bob's journal at close",
        ground: Listed(TrialPlan::AnnAndBob),
        workers: 1,
        stages: &[AtOnce(&[&[], &[Config(&DRIVE_OUTPUT_5)]]), Tell(1, "bob")],
        left: OutcomeReport::Second,
    },
    // Bob's output 5 is physical output 13, and output 20 is no domain's.
    WorkedRow {
        name: "survey after bob's thread",
        ground: Listed(TrialPlan::AnnAndBob),
        workers: 2,
        stages: &[
            AtOnce(&[]),
            Word(13),
            AtOnce(&[&[], &[Config(&DRIVE_OUTPUT_5)]]),
            Word(13),
            AtOnce(&[&[], &[Config(&[4])]]),
            Word(13),
            Say(", free"),
            Word(20),
            Say(";"),
        ],
        left: OutcomeReport::Second,
    },
    // Each of the worker's turns in ann's domain finds her journal full.
    WorkedRow {
        name: "full journal ends a turn alone",
        ground: Listed(TrialPlan::AnnOfThreeEvents),
        workers: 1,
        stages: &[
            AtOnce(&[&[Write(0, &[0, 0, 0])], &BOOT]),
            Workers(1000),
            AtOnce(&[&LOOK, &LOOK]),
            Tell(0, "ann"),
            Tell(1, "bob"),
        ],
        left: OutcomeReport::Nothing,
    },
    // While a worker holds the ticket of node 0, which loops, another checks node 1 out and commits it: no lock is held
    // from a checkout to its commit.
    WorkedRow {
        name: "one node waits for the other",
        ground: Listed(TrialPlan::TwoNodes),
        workers: 2,
        stages: &[
            Alone(&LOOPS_FOR_BOTH),
            AtOnce(&[&[Rounds(QUANTUM, 20), Look(0), Look(1)]]),
            Tell(0, "ann"),
            Held,
            Committed,
        ],
        left: OutcomeReport::Tokens,
    },
    // The word's bytes come with the least significant first. Host 0 is ann's, so nothing that cas writes comes to it.
    WorkedRow {
        name: "ann peeks while cas is refused",
        ground: Listed(TrialPlan::AnnAndCas),
        workers: 2,
        stages: &[
            Meet(
                Doing::Listed(&[&POKE_AND_PEEK, &WRITE_A_HUNDRED]),
                Hold::Nothing,
            ),
            Expect(&[
                (" 78 56 34 12 none", 1),
                (" there is no such user, host, node or port", 100),
            ]),
        ],
        left: OutcomeReport::Nothing,
    },
    WorkedRow {
        name: "stopped workers",
        ground: Listed(TrialPlan::TwoNodes),
        workers: 8,
        stages: &[Work(10), Say(","), Stop, Held, Work(10), Say(","), Begun],
        left: OutcomeReport::Tokens,
    },
    WorkedRow {
        name: "sixteen users and eight workers",
        ground: Sized(SIXTEEN),
        workers: 8,
        stages: &[
            Meet(Doing::Same(&BOOT_AND_READ), Hold::Nothing),
            Count(" 41 none"),
            Say(" read 41;"),
        ],
        left: OutcomeReport::Again,
    },
    // Eight workers have ten turns each, and in each turn one of the eight nodes does 256 Steps, whichever it is.
    WorkedRow {
        name: "each worker does its turns",
        ground: Sized(EIGHT),
        workers: 8,
        stages: &[AtOnce(&EIGHT_LOOPS), Workers(10)],
        left: OutcomeReport::AllSteps,
    },
    WorkedRow {
        name: "tokens wait in plan order",
        ground: Sized(NINE_NODES),
        workers: 8,
        stages: &[],
        left: OutcomeReport::Order,
    },
    // Four Steps boot bob's node, and then the burst does 256. Ann's has no Step to do.
    WorkedRow {
        name: "burst in the second domain",
        ground: Listed(TrialPlan::AnnAndBob),
        workers: 1,
        stages: &[
            Alone(&[(1, Config(&JOIN)), (1, Write(0, &LOOPS)), (1, Rounds(1, 5))]),
            Burst(1, 0),
        ],
        left: OutcomeReport::Steps,
    },
    // Ann's and bob's programs send 41 and stop, so that a lost Step or byte changes what is answered.
    WorkedRow {
        name: "planted losses",
        ground: Listed(TrialPlan::AnnAndBob),
        workers: 1,
        stages: &[
            AtOnce(&[&BOOT, &BOOT]),
            Workers(1000),
            AtOnce(&[&LOOK, &LOOK]),
        ],
        left: OutcomeReport::Losses,
    },
];
