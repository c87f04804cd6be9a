//! A refutation of four clauses over two variables, with a shelf for one line and with the two shelves: tables of examples.

#![tactic(auto)]

pub mod lone;
pub mod square;

pub use lone::Lone;
pub use square::Square;

#[cfg(test)]
mod tests {
    use crate::{Lone, Square};
    use hints::{check_line, clear};
    use pool::Pool;
    use refusals::Refusal;
    use refuting::Refutation;
    use shelf::Shelf;
    use slots::Slots;
    use std::process::Abort;
    use std::test::Fail;

    fn begun() -> Refutation<Square, Lone> {
        Refutation::new(Square::new(), 4, 2, Lone::default())
    }

    // What the check answers over marks that hold something. Exactly the first two are cleared.
    fn checked(rt: &impl Abort, literals: &[i32], hints: &[u32]) -> Result<(), Refusal> {
        let mut marks = [7u8, 2, 9];
        let answer = check_line(&mut Square::new(), &mut marks, 2, literals, hints);
        assert!(rt; marks == [0, 0, 9]);
        answer
    }

    #[test]
    fn hints_are_taken_in_order(rt: HostRuntime) {
        assert_eq!(rt; checked(&rt, &[2], &[1, 2]), Ok(()));
        assert_eq!(rt; checked(&rt, &[2, 2], &[2, 1]), Ok(()));
        assert_eq!(rt; checked(&rt, &[1, 2], &[1]), Ok(()));
        assert_eq!(rt; checked(&rt, &[2], &[1]), Err(Refusal::Loose));
        assert_eq!(rt; checked(&rt, &[2], &[]), Err(Refusal::Loose));
        assert_eq!(rt; checked(&rt, &[], &[1]), Err(Refusal::Slack));
        assert_eq!(rt; checked(&rt, &[-1], &[1]), Err(Refusal::Slack));
        assert_eq!(rt; checked(&rt, &[2], &[1, 1]), Err(Refusal::Slack));
        assert_eq!(rt; checked(&rt, &[2], &[0]), Err(Refusal::Absent));
        assert_eq!(rt; checked(&rt, &[2], &[1, 5]), Err(Refusal::Absent));
        // What stands behind the conflict is not read.
        assert_eq!(rt; checked(&rt, &[2], &[1, 2, 5, 0]), Ok(()));
    }

    #[test]
    fn literals_are_screened_first(rt: HostRuntime) {
        assert_eq!(rt; checked(&rt, &[2, -2], &[]), Ok(()));
        assert_eq!(rt; checked(&rt, &[2, 1, -2], &[9]), Ok(()));
        assert_eq!(rt; checked(&rt, &[0], &[9]), Err(Refusal::Literal));
        assert_eq!(rt; checked(&rt, &[2, -2, 3], &[]), Err(Refusal::Literal));
        assert_eq!(rt; checked(&rt, &[-3], &[1]), Err(Refusal::Literal));
        assert_eq!(rt; checked(&rt, &[i32::MIN], &[1]), Err(Refusal::Literal));
        assert_eq!(rt; checked(&rt, &[i32::MAX], &[1]), Err(Refusal::Literal));
    }

    #[test]
    fn no_clause_is_asked_for_past_the_answer(rt: HostRuntime) {
        let mut square = Square::new();
        let mut marks = [0u8; 2];
        assert!(rt; check_line(&mut square, &mut marks, 2, &[2, -2], &[1, 2]).is_ok());
        assert!(rt; square.asked() == 0);
        assert!(rt; check_line(&mut square, &mut marks, 2, &[2], &[1, 2, 3, 4]).is_ok());
        assert!(rt; square.asked() == 6);
        // The first literal of clause 1 is true.
        assert!(rt; check_line(&mut square, &mut marks, 2, &[-1], &[1, 2]).is_err());
        assert!(rt; square.asked() == 8);
    }

    #[test]
    fn marks_are_exact_or_short(rt: HostRuntime) {
        let mut square = Square::new();
        let mut exact = [1u8, 1];
        assert_eq!(rt;
            check_line(&mut square, &mut exact, 2, &[2], &[1, 2]),
            Ok(())
        );
        assert!(rt; exact == [0, 0]);
        let mut short = [1u8];
        assert_eq!(rt;
            check_line(&mut square, &mut short, 2, &[0], &[9]),
            Err(Refusal::Buffer)
        );
        assert!(rt; short == [1]);
        assert_eq!(rt; clear(&mut short, 2), Err(Refusal::Buffer));
        assert!(rt; short == [1]);
        assert_eq!(rt; clear(&mut short, 1), Ok(()));
        assert!(rt; short == [0]);
    }

    #[test]
    fn four_clauses_are_refuted(rt: HostRuntime) {
        let mut marks = [3u8; 2];
        let mut case = begun();
        assert!(rt; case.last() == 4 && case.count() == 4 && case.variables() == 2);
        assert_eq!(rt; case.line(&mut marks, 6, &[2], &[1, 2]), Ok(()));
        assert!(rt; case.last() == 6);
        assert_eq!(rt; case.strike(3), Ok(()));
        assert_eq!(rt; case.line(&mut marks, 7, &[], &[6, 3, 4]), Ok(()));
        assert!(rt; case.last() == 7);
        assert_eq!(rt; case.strike(6), Ok(()));
        assert_eq!(rt;
            case.line(&mut marks, 8, &[], &[6, 3, 4]),
            Err(Refusal::Absent)
        );
        assert_eq!(rt; case.line(&mut marks, 9, &[1], &[1, 3]), Ok(()));
        assert_eq!(rt; case.line(&mut marks, 10, &[], &[9, 2, 4]), Ok(()));
        assert!(rt; case.last() == 10);
    }

    #[test]
    fn lines_are_refused_in_order(rt: HostRuntime) {
        let mut case = begun();
        let mut short = [7u8];
        let mut marks = [7u8, 7, 7];
        assert_eq!(rt; case.line(&mut short, 4, &[0], &[9]), Err(Refusal::Buffer));
        assert!(rt; short == [7]);
        assert_eq!(rt; case.line(&mut marks, 4, &[0], &[9]), Err(Refusal::Number));
        assert!(rt; marks == [0, 0, 7]);
        assert_eq!(rt;
            case.line(&mut marks, 2147483648, &[0], &[9]),
            Err(Refusal::Number)
        );
        assert_eq!(rt; case.line(&mut marks, 5, &[0], &[9]), Err(Refusal::Literal));
        assert_eq!(rt;
            case.line(&mut marks, 5, &[2, 1], &[9]),
            Err(Refusal::Absent)
        );
        assert_eq!(rt; case.line(&mut marks, 5, &[], &[1, 9]), Err(Refusal::Slack));
        assert_eq!(rt; case.line(&mut marks, 5, &[2], &[1]), Err(Refusal::Loose));
        // A line of two literals has no cost here, and none is kept.
        assert_eq!(rt;
            case.line(&mut marks, 5, &[2, 1], &[1]),
            Err(Refusal::Space)
        );
        assert!(rt; case.last() == 4);
        assert_eq!(rt; case.line(&mut marks, 5, &[2], &[1, 2]), Ok(()));
        // The shelf is full now.
        assert_eq!(rt;
            case.line(&mut marks, 6, &[1], &[1, 3]),
            Err(Refusal::Space)
        );
        assert_eq!(rt;
            case.line(&mut marks, 5, &[1], &[1, 3]),
            Err(Refusal::Number)
        );
        assert!(rt; case.last() == 5);
        assert_eq!(rt; case.line(&mut marks, 2147483647, &[], &[5, 3, 4]), Ok(()));
        assert!(rt; case.last() == 2147483647 && marks == [0, 0, 7]);
    }

    #[test]
    fn strikes_take_lines_alone(rt: HostRuntime) {
        let mut marks = [0u8; 2];
        let mut case = begun();
        assert_eq!(rt; case.strike(0), Err(Refusal::Absent));
        assert_eq!(rt; case.strike(5), Err(Refusal::Absent));
        assert_eq!(rt; case.line(&mut marks, 5, &[2], &[1, 2]), Ok(()));
        assert_eq!(rt; case.strike(1), Ok(()));
        assert_eq!(rt; case.strike(5), Ok(()));
        assert_eq!(rt; case.strike(5), Err(Refusal::Absent));
        // A number once used is not used again.
        assert_eq!(rt;
            case.line(&mut marks, 5, &[2], &[1, 2]),
            Err(Refusal::Number)
        );
        assert_eq!(rt; case.line(&mut marks, 6, &[2], &[1, 2]), Ok(()));
        let (square, shelf) = case.into_parts();
        assert!(rt; square.asked() > 0);
        let mut next = Refutation::new(square, 3, 2, shelf);
        assert!(rt; next.last() == 3);
        assert_eq!(rt; next.strike(6), Err(Refusal::Absent));
        assert_eq!(rt; next.line(&mut marks, 4, &[2], &[1, 2]), Ok(()));
    }

    // The same refutation over any shelf. It has to have room for the lines 5 and 6 together, and for line 7 once 5 is struck.
    fn refuted_over<S: Shelf + Drop>(rt: &impl Abort, shelf: S) {
        let mut marks = [9u8; 2];
        let mut case = Refutation::new(Square::new(), 4, 2, shelf);
        assert_eq!(rt; case.line(&mut marks, 5, &[2, 2], &[1, 2]), Ok(()));
        assert_eq!(rt; case.line(&mut marks, 6, &[1], &[1, 3]), Ok(()));
        assert_eq!(rt;
            case.line(&mut marks, 7, &[-1], &[2, 4]),
            Err(Refusal::Space)
        );
        assert_eq!(rt; case.strike(5), Ok(()));
        assert_eq!(rt; case.line(&mut marks, 7, &[-1], &[2, 4]), Ok(()));
        assert_eq!(rt; case.line(&mut marks, 8, &[], &[6, 7]), Ok(()));
        assert!(rt; case.last() == 8);
    }

    #[test]
    fn both_shelves_serve(rt: HostRuntime) -> Result<(), Fail> {
        let heap = rt.alloc();
        refuted_over(&rt, Pool::new(heap, 7)?);
        refuted_over(&rt, Slots::new(heap, 68)?);
        Ok(())
    }
}
