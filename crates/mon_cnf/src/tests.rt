//! Small formulas under all their assignments.

use super::*;
use std::test::*;

const TRUTHS: [(&[&[i32]], [bool; 4]); 6] = [
    // No clause, and an empty one.
    (&[], [true, true, true, true]),
    (&[&[]], [false, false, false, false]),
    (&[&[1]], [false, false, true, true]),
    (&[&[-1]], [true, true, false, false]),
    (&[&[-1, 2]], [true, true, false, true]),
    (&[&[1, 2], &[-1, -2]], [false, true, true, false]),
];

const ASSIGNMENTS: [[bool; 2]; 4] = [[false, false], [false, true], [true, false], [true, true]];

#[test]
fn truths(rt: HostRuntime) {
    for (clauses, truths) in TRUTHS {
        let mut f = Formula::new(rt.alloc(), 2);
        for literals in clauses {
            let clause = clause_of(rt.alloc(), 2, literals).expect(&rt, "memory");
            assert!(rt; f.vars() == 2);
            f.push(clause).expect(&rt, "memory");
        }
        assert_eq!(rt; f.clauses().len(), clauses.len());
        for (values, truth) in ASSIGNMENTS.iter().zip(truths) {
            assert!(rt; f.vars() == 2);
            assert_eq!(rt; holds(&f, values), truth);
        }
    }
}
