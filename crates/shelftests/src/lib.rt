//! Edges of the two shelves, as tables of examples.

#![tactic(auto)]

#[cfg(test)]
mod tests {
    use clauses::ClauseSource;
    use pool::Pool;
    use refusals::Refusal;
    use shelf::Shelf;
    use slots::Slots;
    use std::process::Abort;
    use std::test::Fail;

    // A call, and what it answers.
    #[derive(Clone, Copy)]
    enum Step {
        Kept(u32, &'static [i32]),
        Refused(u32, &'static [i32]),
        Struck(u32),
        Absent(u32),
        Length(u32, Option<usize>),
        Literal(u32, usize, Option<i32>),
        Wiped,
    }

    fn take_step<S: Shelf>(rt: &impl Abort, shelf: &mut S, step: Step) {
        match step {
            Step::Kept(number, literals) => assert_eq!(rt; shelf.keep(number, literals), Ok(())),
            Step::Refused(number, literals) => {
                assert_eq!(rt; shelf.keep(number, literals), Err(Refusal::Space))
            },
            Step::Struck(number) => assert_eq!(rt; shelf.strike(number), Ok(())),
            Step::Absent(number) => assert_eq!(rt; shelf.strike(number), Err(Refusal::Absent)),
            Step::Length(number, length) => assert_eq!(rt; shelf.length(number), length),
            Step::Literal(number, at, literal) => {
                assert_eq!(rt; shelf.literal(number, at), literal)
            },
            Step::Wiped => shelf.wipe(),
        }
    }

    fn take_steps<S: Shelf>(rt: &impl Abort, shelf: &mut S, steps: &[Step]) {
        for step in steps {
            take_step(rt, shelf, *step);
        }
    }

    #[test]
    fn a_slot_takes_32_literals(rt: HostRuntime) -> Result<(), Fail> {
        let steps = [
            Step::Refused(1, &[7; 33]),
            Step::Kept(1, &[7; 32]),
            Step::Length(1, Some(32)),
            Step::Literal(1, 31, Some(7)),
            Step::Literal(1, 32, None),
            Step::Kept(2, &[]),
            Step::Length(2, Some(0)),
            Step::Literal(2, 0, None),
            Step::Refused(3, &[]),
        ];
        take_steps(&rt, &mut Slots::new(rt.alloc(), 68)?, &steps);
        Ok(())
    }

    #[test]
    fn lines_cost_by_their_length(rt: HostRuntime) {
        assert_eq!(rt; <Slots as Shelf>::cost(0), Some(1));
        assert_eq!(rt; <Slots as Shelf>::cost(32), Some(1));
        assert_eq!(rt; <Slots as Shelf>::cost(33), None);
        assert_eq!(rt; <Pool as Shelf>::cost(0), Some(2));
        assert_eq!(rt; <Pool as Shelf>::cost(u32::MAX), Some(4294967297));
    }

    // 5 + 4 + 3 of 12 words.
    #[test]
    fn a_pool_takes_its_last_word(rt: HostRuntime) -> Result<(), Fail> {
        let steps = [
            Step::Kept(1, &[1, -2, 3]),
            Step::Kept(2, &[4, 4]),
            Step::Refused(3, &[5, 6]),
            Step::Length(3, None),
            Step::Kept(3, &[5]),
            Step::Refused(4, &[]),
            Step::Length(2, Some(2)),
            Step::Literal(1, 1, Some(-2)),
            Step::Literal(2, 1, Some(4)),
            Step::Literal(3, 0, Some(5)),
        ];
        take_steps(&rt, &mut Pool::new(rt.alloc(), 12)?, &steps);
        Ok(())
    }

    // The line in the middle takes 4 of 12 words, and one word is free: neither alone has room for a line of 3 literals.
    #[test]
    fn a_struck_line_leaves_no_gap(rt: HostRuntime) -> Result<(), Fail> {
        let steps = [
            Step::Kept(1, &[1, 2]),
            Step::Kept(2, &[3, 4]),
            Step::Kept(3, &[5]),
            Step::Refused(4, &[6, 7, 8]),
            Step::Struck(2),
            Step::Absent(2),
            Step::Kept(4, &[6, 7, 8]),
            Step::Length(2, None),
            Step::Literal(1, 1, Some(2)),
            Step::Literal(3, 0, Some(5)),
            Step::Literal(4, 0, Some(6)),
            Step::Literal(4, 2, Some(8)),
            Step::Refused(5, &[]),
        ];
        take_steps(&rt, &mut Pool::new(rt.alloc(), 12)?, &steps);
        Ok(())
    }

    #[test]
    fn a_struck_slot_is_free_again(rt: HostRuntime) -> Result<(), Fail> {
        let steps = [
            Step::Kept(1, &[1]),
            Step::Kept(2, &[2, 2]),
            Step::Kept(3, &[3]),
            Step::Refused(4, &[4; 32]),
            Step::Struck(2),
            Step::Kept(4, &[4; 32]),
            Step::Literal(1, 0, Some(1)),
            Step::Length(2, None),
            Step::Literal(3, 0, Some(3)),
            Step::Literal(4, 31, Some(4)),
        ];
        take_steps(&rt, &mut Slots::new(rt.alloc(), 102)?, &steps);
        Ok(())
    }

    // A number is kept once, whatever the line, and in any order; 0 and the largest are numbers as any other.
    #[test]
    fn numbers_come_in_any_order(rt: HostRuntime) -> Result<(), Fail> {
        let steps = [
            Step::Kept(9, &[9]),
            Step::Refused(9, &[8]),
            Step::Kept(7, &[7, 7]),
            Step::Kept(0, &[-1]),
            Step::Kept(u32::MAX, &[5]),
            Step::Kept(8, &[]),
            Step::Literal(0, 0, Some(-1)),
            Step::Literal(7, 1, Some(7)),
            Step::Length(8, Some(0)),
            Step::Literal(9, 0, Some(9)),
            Step::Literal(u32::MAX, 0, Some(5)),
            Step::Length(1, None),
            Step::Struck(7),
            Step::Length(7, None),
            Step::Kept(7, &[6]),
            Step::Literal(7, 0, Some(6)),
            Step::Literal(9, 0, Some(9)),
        ];
        let heap = rt.alloc();
        take_steps(&rt, &mut Slots::new(heap, 340)?, &steps);
        take_steps(&rt, &mut Pool::new(heap, 100)?, &steps);
        Ok(())
    }

    // What was wiped can be kept again, to the last word.
    #[test]
    fn a_wiped_pool_is_as_new(rt: HostRuntime) -> Result<(), Fail> {
        let steps = [
            Step::Kept(2, &[1, 2, 3]),
            Step::Refused(3, &[]),
            Step::Wiped,
            Step::Length(2, None),
            Step::Absent(2),
            Step::Kept(1, &[4, 5, 6]),
            Step::Literal(1, 2, Some(6)),
            Step::Refused(3, &[]),
        ];
        take_steps(&rt, &mut Pool::new(rt.alloc(), 5)?, &steps);
        Ok(())
    }

    #[test]
    fn no_words_keep_nothing(rt: HostRuntime) -> Result<(), Fail> {
        let steps = [
            Step::Refused(1, &[]),
            Step::Length(1, None),
            Step::Absent(1),
            Step::Wiped,
            Step::Refused(1, &[]),
        ];
        let heap = rt.alloc();
        take_steps(&rt, &mut Pool::new(heap, 0)?, &steps);
        take_steps(&rt, &mut Pool::new(heap, 1)?, &steps);
        take_steps(&rt, &mut Slots::new(heap, 33)?, &steps);
        Ok(())
    }

    #[test]
    fn words_past_the_most_do_not_count(rt: HostRuntime) -> Result<(), Fail> {
        let heap = rt.alloc();
        assert_eq!(rt; Pool::new(heap, 1048575)?.capacity(), 1048575);
        assert_eq!(rt; Pool::new(heap, 1048577)?.capacity(), 1048576);
        assert_eq!(rt; Slots::new(heap, 67)?.capacity(), 1);
        assert_eq!(rt; Slots::new(heap, 1048577)?.capacity(), 30840);
        Ok(())
    }
}
