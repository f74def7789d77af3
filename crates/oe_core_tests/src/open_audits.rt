//! Audits beside open work, of a population in which a row may have been changed: the verdict is
//! the newest moment's, also where the open work breaks a row that the condition speaks of, repairs
//! it, or adds what would make the condition hold.
use crate::planted::Planted;
use crate::sessions::{Said, session_on, sums};
use oe_audit::condition;
use oe_core::Core;
use oe_requests::{Condition, Verdict};
use oe_script::session::Session;
use std::alloc::Global;
use std::process::Abort;

/// What is planted, a transaction of terminal 3 that has gone through that many stages, audits
/// beside it, and a condition that then holds as the tables stand, or fails there.
struct Case {
    planted: &'static [Planted],
    begin: &'static Said,
    stages: u32,
    audits: Said,
    condition: Condition,
    holds_now: bool,
}

/// Customer 3 of district 1 of warehouse 1 pays 10.00 there.
const PAYMENT: Said = Said {
    lines: b"begin 3 payment 1 1 1 1 3 10.00 2001-01-01T00:00:00\n",
    answers: b"begun\n",
};

/// In district 2 of warehouse 1 order 8 is the oldest that waits. It has 13 lines.
const DELIVERY: Said = Said {
    lines: b"begin 3 delivery 1 2 3 2001-01-01T00:00:00\n",
    answers: b"begun\n",
};

const ORDER: Said = Said {
    lines: b"begin 3 neworder 2 4 7 2001-01-01T00:00:00 2:1:1 2:2:1 2:3:1 2:4:1 1:5:1\n",
    answers: b"begun\n",
};

const CASES: [Case; 12] = [
    // W_YTD is raised, and no HISTORY row is there yet.
    Case {
        planted: &[],
        begin: &PAYMENT,
        stages: 1,
        audits: Said {
            lines: b"audit 8 now\n",
            answers: b"condition 8 holds\n",
        },
        condition: Condition::Eighth,
        holds_now: false,
    },
    // D_YTD too.
    Case {
        planted: &[],
        begin: &PAYMENT,
        stages: 2,
        audits: Said {
            lines: b"audit 9 now\n",
            answers: b"condition 9 holds\n",
        },
        condition: Condition::Ninth,
        holds_now: false,
    },
    // C_BALANCE has fallen.
    Case {
        planted: &[],
        begin: &PAYMENT,
        stages: 3,
        audits: Said {
            lines: b"audit 10 now\n",
            answers: b"condition 10 holds\n",
        },
        condition: Condition::Tenth,
        holds_now: false,
    },
    // An order waits no more, and has no carrier yet.
    Case {
        planted: &[],
        begin: &DELIVERY,
        stages: 1,
        audits: Said {
            lines: b"audit 5 now\n",
            answers: b"condition 5 holds\n",
        },
        condition: Condition::Fifth,
        holds_now: false,
    },
    // It has a carrier, and its lines have no dates.
    Case {
        planted: &[],
        begin: &DELIVERY,
        stages: 2,
        audits: Said {
            lines: b"audit 7 now\n",
            answers: b"condition 7 holds\n",
        },
        condition: Condition::Seventh,
        holds_now: false,
    },
    // Its first line has a date, and its customer is not credited.
    Case {
        planted: &[],
        begin: &DELIVERY,
        stages: 3,
        audits: Said {
            lines: b"audit 12 now\n",
            answers: b"condition 12 holds\n",
        },
        condition: Condition::Twelfth,
        holds_now: false,
    },
    // A new order has no lines yet.
    Case {
        planted: &[],
        begin: &ORDER,
        stages: 4,
        audits: Said {
            lines: b"audit 6 now\n",
            answers: b"condition 6 holds\n",
        },
        condition: Condition::Sixth,
        holds_now: false,
    },
    // Sums of payments that an open payment makes right before its HISTORY row is there.
    Case {
        planted: &[
            Planted::WarehouseYtd(1, 99_000),
            Planted::DistrictYtd([1, 1], 9_000),
        ],
        begin: &PAYMENT,
        stages: 2,
        audits: Said {
            lines: b"audit 8 now\naudit 9 now\n",
            answers: b"condition 8 fails at 1\ncondition 9 fails at 1 1\n",
        },
        condition: Condition::Eighth,
        holds_now: true,
    },
    // A balance likewise.
    Case {
        planted: &[Planted::Account([1, 1, 3], 0, 1_000, [1, 0])],
        begin: &PAYMENT,
        stages: 3,
        audits: Said {
            lines: b"audit 10 now\naudit 12 now\n",
            answers: b"condition 10 fails at 1 1 3\ncondition 12 fails at 1 1 3\n",
        },
        condition: Condition::Tenth,
        holds_now: true,
    },
    // A date that an open delivery makes right, since it dates all lines.
    Case {
        planted: &[Planted::Dated([1, 2, 8], 3)],
        begin: &DELIVERY,
        stages: 15,
        audits: Said {
            lines: b"audit 7 now\naudit 10 now\n",
            answers: b"condition 7 fails at 1 2 8 3\ncondition 10 fails at 1 2 8\n",
        },
        condition: Condition::Seventh,
        holds_now: true,
    },
    // Sums that would be right if the HISTORY row of an open payment counted.
    Case {
        planted: &[
            Planted::WarehouseYtd(1, 101_000),
            Planted::DistrictYtd([1, 1], 11_000),
        ],
        begin: &PAYMENT,
        stages: 4,
        audits: Said {
            lines: b"audit 8 now\naudit 9 now\n",
            answers: b"condition 8 fails at 1\ncondition 9 fails at 1 1\n",
        },
        condition: Condition::Eighth,
        holds_now: false,
    },
    // A balance likewise.
    Case {
        planted: &[Planted::Account([1, 1, 3], -2_000, 1_000, [1, 0])],
        begin: &PAYMENT,
        stages: 4,
        audits: Said {
            lines: b"audit 10 now\n",
            answers: b"condition 10 fails at 1 1 3\n",
        },
        condition: Condition::Tenth,
        holds_now: false,
    },
];

/// Tells whether the condition holds as the tables stand.
fn holds_now(session: &Session<Core>, number: Condition) -> Option<bool> {
    match &session.core {
        Some(core) => Some(condition(number, core.tables()) == Verdict::Holds),
        None => None,
    }
}

/// Tells whether the transaction goes on as far, which changes rows, the audits are answered so,
/// and the condition holds as the tables stand, or fails, as it should.
fn is_judged(rt: &impl Abort, alloc: Global, case: &Case) -> bool {
    let mut session = session_on(rt, alloc, case.planted);
    let sums = sums(&mut session, alloc, case.begin, case.stages, &case.audits);
    let stand = holds_now(&session, case.condition);
    session.close();
    match sums {
        Some((before, after)) => before != after && stand == Some(case.holds_now),
        None => false,
    }
}

#[test]
fn the_moment_is_judged_beside_open_work(rt: HostRuntime) {
    for case in &CASES {
        assert!(rt; is_judged(&rt, rt.alloc(), case));
    }
}
