//! Audits of a population with a row changed: each condition that the change breaks fails, at the
//! row that it breaks it at, and the others hold.
use crate::made::populated;
use crate::planted::{Planted, plant_all};
use oe_audit::{condition, is_population};
use oe_requests::{Condition, Verdict};
use oe_store::Tables;
use oe_texts::{Pending, audited, has_room};

/// A change of a population of four customers a district, whether it is then still one to begin
/// from, and the verdicts of the conditions that fail.
struct Case {
    planted: [Planted; 1],
    is_population: bool,
    failures: &'static [u8],
}

const CASES: [Case; 11] = [
    // W_YTD is a cent more than the sum of the districts.
    Case {
        planted: [Planted::WarehouseYtd(2, 40_001)],
        is_population: false,
        failures: b"condition 1 fails at 2\ncondition 8 fails at 2\n",
    },
    // The greatest O_ID is 4.
    Case {
        planted: [Planted::NextOrder([1, 3], 12)],
        is_population: false,
        failures: b"condition 2 fails at 1 3\n",
    },
    // Order 3 does not wait, and order 4 does.
    Case {
        planted: [Planted::Waits([2, 7, 2])],
        is_population: false,
        failures: b"condition 3 fails at 2 7\ncondition 5 fails at 2 7 2\n",
    },
    // Order 4 has no carrier.
    Case {
        planted: [Planted::WaitsNoMore([1, 1, 4])],
        is_population: true,
        failures: b"condition 5 fails at 1 1 4\n",
    },
    // Order 4 has O_OL_CNT 9.
    Case {
        planted: [Planted::LineAgain([2, 10, 4], 9, 10)],
        is_population: false,
        failures: b"condition 4 fails at 2 10\ncondition 6 fails at 2 10 4\n",
    },
    // Order 1 was delivered.
    Case {
        planted: [Planted::Undated([1, 2, 1], 1)],
        is_population: true,
        failures: b"condition 7 fails at 1 2 1 1\n",
    },
    // Order 4 waits.
    Case {
        planted: [Planted::Dated([1, 2, 4], 3)],
        is_population: true,
        failures: b"condition 7 fails at 1 2 4 3\ncondition 10 fails at 1 2 4\ncondition 12 fails at 1 2 4\n",
    },
    // D_YTD is a cent more than what was paid.
    Case {
        planted: [Planted::DistrictYtd([1, 3], 4_001)],
        is_population: false,
        failures: b"condition 1 fails at 1\ncondition 9 fails at 1 3\n",
    },
    // C_BALANCE is 0.00, where 10.00 was paid.
    Case {
        planted: [Planted::Account([1, 1, 3], 0, 1_000, [1, 0])],
        is_population: true,
        failures: b"condition 10 fails at 1 1 3\ncondition 12 fails at 1 1 3\n",
    },
    // C_YTD_PAYMENT is a cent more than what was paid.
    Case {
        planted: [Planted::Account([1, 1, 3], -1_000, 1_001, [1, 0])],
        is_population: true,
        failures: b"condition 12 fails at 1 1 3\n",
    },
    // The seventh HISTORY row is of customer 3 of district 2 of warehouse 1.
    Case {
        planted: [Planted::PaidAgain(7)],
        is_population: false,
        failures: b"condition 8 fails at 1\ncondition 9 fails at 1 2\ncondition 10 fails at 1 2 3\n",
    },
];

const CONDITIONS: [Condition; 11] = [
    Condition::First,
    Condition::Second,
    Condition::Third,
    Condition::Fourth,
    Condition::Fifth,
    Condition::Sixth,
    Condition::Seventh,
    Condition::Eighth,
    Condition::Ninth,
    Condition::Tenth,
    Condition::Twelfth,
];

/// Appends the line of each condition that fails.
fn tell_failures(out: &mut Pending, tables: &Tables) {
    for number in CONDITIONS {
        let found = condition(number, tables);
        if has_room(out) && matches!(&found, Verdict::Fails(_)) {
            audited(out, number, &found);
        }
    }
}

/// Tells whether tables that were a population have behind the case's change the verdicts that it
/// deserves, and whether they are one still, as they should.
fn is_found(tables: &mut Tables, case: &Case) -> Option<bool> {
    let was_population = is_population(tables);
    plant_all(tables, &case.planted)?;
    let mut out = Pending::new();
    tell_failures(&mut out, tables);
    Some(
        was_population
            && is_population(tables) == case.is_population
            && out.as_slice() == case.failures,
    )
}

#[test]
fn faults_are_found(rt: HostRuntime) {
    for case in &CASES {
        let Some(mut tables) = populated(rt.alloc(), 4, 7) else {
            panic!(rt; "no population")
        };
        let is_found = is_found(&mut tables, case);
        tables.discard();
        assert!(rt; is_found == Some(true));
    }
}
