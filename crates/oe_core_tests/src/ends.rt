//! Orders, payments and deliveries at the ends of the columns that they raise: the last one that
//! fits, and the one behind it, which is refused and has changed nothing. Of two columns at their
//! ends the first by the table's order is named.
use crate::made::history_key;
use crate::planted::Planted;
use crate::sessions::{Said, is_answered, session_on, sums};
use oe_core::Core;
use oe_script::session::Session;
use std::alloc::Global;
use std::process::Abort;

/// Orders in district 4 of warehouse 2, item 5 from warehouse 1, and begins the same order again.
const TWO_ORDERS: Said = Said {
    lines: b"begin 3 neworder 2 4 7 2001-01-01T00:00:00 2:1:1 2:2:1 2:3:1 2:4:1 1:5:1\nrun 3\nbegin 3 neworder 2 4 7 2001-01-01T00:00:00 2:1:1 2:2:1 2:3:1 2:4:1 1:5:1\n",
    answers: b"begun\ncommit 1 neworder 11 BARBARANTI GC 10.90 G:24:1.37 G:37:1.74 G:50:2.11 G:63:2.48 G:75:2.85\nbegun\n",
};

/// Begins an order of five lines, the first of item 1 of warehouse 1.
const AN_ORDER: Said = Said {
    lines: b"begin 3 neworder 1 5 6 2001-01-01T00:00:00 1:1:1 1:2:1 1:3:1 1:4:1 1:6:1\n",
    answers: b"begun\n",
};

/// Begins an order in district 4 of warehouse 2.
const A_NUMBER: Said = Said {
    lines: b"begin 3 neworder 2 4 7 2001-01-01T00:00:00 2:1:1 2:2:1 2:3:1 2:4:1 1:5:1\n",
    answers: b"begun\n",
};

/// Begins a payment in district 1 of warehouse 1.
const FOR_THE_WAREHOUSE: Said = Said {
    lines: b"begin 3 payment 1 1 2 6 4 250.00 2001-01-01T00:00:00\n",
    answers: b"begun\n",
};

/// Pays for customer 8 of district 4 of warehouse 1, and begins the same payment again.
const TWO_PAYMENTS: Said = Said {
    lines: b"begin 3 payment 2 3 1 4 8 250.00 2001-01-01T00:00:00\nrun 3\nbegin 3 payment 2 3 1 4 8 250.00 2001-01-01T00:00:00\n",
    answers: b"begun\ncommit 1 payment 8 BARBARCALLY GC -260.00\nbegun\n",
};

const A_PAYMENT: Said = Said {
    lines: b"begin 3 payment 1 4 1 4 8 37.50 2001-01-01T00:00:00\n",
    answers: b"begun\n",
};

/// Begins a delivery in district 4 of warehouse 1. The oldest order that waits is of customer 8,
/// and has 13 lines.
const A_DELIVERY: Said = Said {
    lines: b"begin 3 delivery 1 4 6 2001-01-01T00:00:00\n",
    answers: b"begun\n",
};

/// Begins a delivery in all ten districts of warehouse 1.
const TEN_DELIVERIES: Said = Said {
    lines: b"begin 3 delivery 1 3 2001-01-01T00:00:00\n",
    answers: b"begun\n",
};

/// Asks what is open behind the first commit, and carries the terminal's next payment out.
const BEHIND_ONE: Said = Said {
    lines: b"next 3\naudit 2 1\naudit 3 1\naudit 4 1\nrewind 1\nbegin 3 payment 2 9 1 9 5 1.00 2001-01-01T00:00:01\nrun 3\n",
    answers: b"error 10 NotOpen\ncondition 2 holds\ncondition 3 holds\ncondition 4 holds\nrewound 1\nbegun\ncommit 2 payment 5 BARBARPRES GC -11.00\n",
};

/// Asks what is open before it, and carries the terminal's next payment out.
const BEFORE_ONE: Said = Said {
    lines: b"next 3\naudit 2 0\naudit 3 0\naudit 4 0\nrewind 0\nbegin 3 payment 2 9 1 9 5 1.00 2001-01-01T00:00:01\nrun 3\n",
    answers: b"error 10 NotOpen\ncondition 2 holds\ncondition 3 holds\ncondition 4 holds\nrewound 0\nbegun\ncommit 1 payment 5 BARBARPRES GC -11.00\n",
};

/// A transaction that meets an end: what is planted, what is said until it is open, the stages that
/// go on, what is said then, and how many transactions of the terminal have committed before.
struct Case {
    planted: &'static [Planted],
    begin: &'static Said,
    stages: u32,
    then: Said,
    commits: u32,
}

const CASES: [Case; 16] = [
    Case {
        planted: &[Planted::Stock([2, 3], [99_999_998, 0, 0])],
        begin: &TWO_ORDERS,
        stages: 9,
        then: Said {
            lines: b"next 3\n",
            answers: b"error 4 Overflow S_YTD\n",
        },
        commits: 1,
    },
    Case {
        planted: &[Planted::Stock([2, 4], [0, 9_998, 0])],
        begin: &TWO_ORDERS,
        stages: 11,
        then: Said {
            lines: b"next 3\n",
            answers: b"error 4 Overflow S_ORDER_CNT\n",
        },
        commits: 1,
    },
    Case {
        planted: &[Planted::Stock([1, 5], [0, 0, 9_998])],
        begin: &TWO_ORDERS,
        stages: 13,
        then: Said {
            lines: b"next 3\n",
            answers: b"error 4 Overflow S_REMOTE_CNT\n",
        },
        commits: 1,
    },
    Case {
        planted: &[Planted::Stock([1, 1], [99_999_999, 9_999, 0])],
        begin: &AN_ORDER,
        stages: 5,
        then: Said {
            lines: b"next 3\n",
            answers: b"error 4 Overflow S_YTD\n",
        },
        commits: 0,
    },
    Case {
        planted: &[Planted::Stock([1, 1], [0, 9_999, 0])],
        begin: &AN_ORDER,
        stages: 5,
        then: Said {
            lines: b"next 3\n",
            answers: b"error 4 Overflow S_ORDER_CNT\n",
        },
        commits: 0,
    },
    Case {
        planted: &[
            Planted::WaitsNoMore([2, 4, 8]),
            Planted::WaitsNoMore([2, 4, 9]),
            Planted::WaitsNoMore([2, 4, 10]),
            Planted::OrderAgain([2, 4, 10], 9_999_999),
            Planted::Waits([2, 4, 9_999_999]),
            Planted::NextOrder([2, 4], 10_000_000),
        ],
        begin: &A_NUMBER,
        stages: 1,
        then: Said {
            lines: b"next 3\n",
            answers: b"error 4 Overflow D_NEXT_O_ID\n",
        },
        commits: 0,
    },
    Case {
        planted: &[
            Planted::DistrictYtd([1, 1], 999_999_909_999),
            Planted::WarehouseYtd(1, 999_999_999_999),
        ],
        begin: &FOR_THE_WAREHOUSE,
        stages: 0,
        then: Said {
            lines: b"next 3\n",
            answers: b"error 4 Overflow W_YTD\n",
        },
        commits: 0,
    },
    Case {
        planted: &[Planted::Account([1, 4, 8], -1_000, 1_000, [9_998, 0])],
        begin: &TWO_PAYMENTS,
        stages: 2,
        then: Said {
            lines: b"next 3\n",
            answers: b"error 4 Overflow C_PAYMENT_CNT\n",
        },
        commits: 1,
    },
    Case {
        planted: &[Planted::Account([1, 4, 8], -999_999_999_999, 1_000, [1, 0])],
        begin: &A_PAYMENT,
        stages: 2,
        then: Said {
            lines: b"next 3\n",
            answers: b"error 4 Overflow C_BALANCE\n",
        },
        commits: 0,
    },
    Case {
        planted: &[Planted::Account([1, 4, 8], -1_000, 999_999_999_999, [1, 0])],
        begin: &A_PAYMENT,
        stages: 2,
        then: Said {
            lines: b"next 3\n",
            answers: b"error 4 Overflow C_YTD_PAYMENT\n",
        },
        commits: 0,
    },
    Case {
        planted: &[Planted::Account([1, 4, 8], -999_999_999_999, 999_999_999_999, [9_999, 0])],
        begin: &A_PAYMENT,
        stages: 2,
        then: Said {
            lines: b"next 3\n",
            answers: b"error 4 Overflow C_BALANCE\n",
        },
        commits: 0,
    },
    Case {
        planted: &[Planted::Account([1, 4, 8], 999_999_999_999, 1_000, [1, 0])],
        begin: &A_DELIVERY,
        stages: 15,
        then: Said {
            lines: b"next 3\n",
            answers: b"error 4 Overflow C_BALANCE\n",
        },
        commits: 0,
    },
    Case {
        planted: &[Planted::Account([1, 4, 8], -1_000, 1_000, [1, 9_999])],
        begin: &TEN_DELIVERIES,
        stages: 63,
        then: Said {
            lines: b"next 3\n",
            answers: b"error 4 Overflow C_DELIVERY_CNT\n",
        },
        commits: 0,
    },
    Case {
        planted: &[Planted::Account([1, 4, 8], 999_999_999_999, 1_000, [1, 9_999])],
        begin: &A_DELIVERY,
        stages: 15,
        then: Said {
            lines: b"next 3\n",
            answers: b"error 4 Overflow C_BALANCE\n",
        },
        commits: 0,
    },
    Case {
        planted: &[Planted::Account([1, 4, 8], -1_000, 1_000, [1, 9_999])],
        begin: &A_DELIVERY,
        stages: 15,
        then: Said {
            lines: b"next 3\n",
            answers: b"error 4 Overflow C_DELIVERY_CNT\n",
        },
        commits: 0,
    },
    // Where order 9,999,998 is the newest there is room for one, whose lines would take much
    // memory: so it is rolled back.
    Case {
        planted: &[
            Planted::WaitsNoMore([2, 4, 8]),
            Planted::WaitsNoMore([2, 4, 9]),
            Planted::WaitsNoMore([2, 4, 10]),
            Planted::OrderAgain([2, 4, 10], 9_999_998),
            Planted::Waits([2, 4, 9_999_998]),
            Planted::NextOrder([2, 4], 9_999_999),
        ],
        begin: &A_NUMBER,
        stages: 2,
        then: Said {
            lines: b"rollback 3\naudit 2 0\n",
            answers: b"rolled back\ncondition 2 holds\n",
        },
        commits: 0,
    },
];

/// Tells whether terminal 3 has a HISTORY row of its transaction of that number, and none of the
/// next.
fn is_newest(session: &Session<Core>, number: u32) -> Option<bool> {
    let own = history_key(3, number)?;
    let next = history_key(3, number.checked_add(1)?)?;
    match &session.core {
        Some(core) => {
            let tables = core.tables();
            Some(tables.history(own).is_some() && tables.history(next).is_none())
        }
        None => None,
    }
}

/// Tells whether the case's transaction is answered as it should, all nine tables are then as when
/// it began, nothing is open, and the terminal goes on with the number that the ended one had.
fn is_met(rt: &impl Abort, alloc: Global, case: &Case) -> bool {
    let mut session = session_on(rt, alloc, case.planted);
    let sums = sums(&mut session, alloc, case.begin, case.stages, &case.then);
    let behind = if case.commits == 0 {
        &BEFORE_ONE
    } else {
        &BEHIND_ONE
    };
    let goes_on = is_answered(&mut session, alloc, behind.lines, behind.answers);
    let has_number = is_newest(&session, case.commits.saturating_add(1));
    session.close();
    match sums {
        Some((before, after)) => before == after && goes_on && has_number == Some(true),
        None => false,
    }
}

#[test]
fn no_column_passes_its_end(rt: HostRuntime) {
    for case in &CASES {
        assert!(rt; is_met(&rt, rt.alloc(), case));
    }
}
