//! Edges of proof text, as tables of examples.

#![tactic(auto)]

#[cfg(test)]
mod tests {
    use prooftext::{Item, Reader};
    use refusals::Refusal;
    use std::process::Abort;

    // The first line of the text, read into rows of three that hold something already.
    fn first(text: &[u8]) -> Result<Item, Refusal> {
        let mut literals = [9i32; 3];
        let mut numbers = [9u32; 3];
        Reader::new(text).next(&mut literals, &mut numbers)
    }

    fn line(number: u32, literals: usize, hints: usize) -> Result<Item, Refusal> {
        Ok(Item::Line {
            number,
            literals,
            hints,
        })
    }

    fn strike(count: usize) -> Result<Item, Refusal> {
        Ok(Item::Strike { count })
    }

    fn refused() -> Result<Item, Refusal> {
        Err(Refusal::Text)
    }

    // None of the texts begins with a proof line.
    fn all_refused(rt: &impl Abort, texts: &[&str]) {
        for text in texts {
            assert_eq!(rt; first(text.as_bytes()), refused(), "{}", text);
        }
    }

    #[test]
    fn lists_may_be_empty(rt: HostRuntime) {
        assert_eq!(rt; first(b"5 0 0\n"), line(5, 0, 0));
        assert_eq!(rt; first(b"5 1 0 0\n"), line(5, 1, 0));
        assert_eq!(rt; first(b"5 0 1 0\n"), line(5, 0, 1));
        assert_eq!(rt; first(b"5 -1 2 0 3 4 1 0\n"), line(5, 2, 3));
        assert_eq!(rt; first(b"5 d 0\n"), strike(0));
        assert_eq!(rt; first(b"5 d 4 2 0\n"), strike(2));
    }

    #[test]
    fn the_empty_text_is_at_its_end(rt: HostRuntime) {
        assert_eq!(rt; first(b""), Ok(Item::End));
        all_refused(&rt, &["\n", " ", "0"]);
    }

    #[test]
    fn numbers_have_no_leading_zero(rt: HostRuntime) {
        all_refused(
            &rt,
            &[
                "05 0 0\n",
                "0 0 0\n",
                "5 01 0 0\n",
                "5 -01 0 0\n",
                "5 1 00 0\n",
                "5 1 0 01 0\n",
                "5 1 0 1 00\n",
                "5 d 01 0\n",
                "5 d 1 00\n",
                "05 d 1 0\n",
                "0 d 1 0\n",
            ],
        );
    }

    #[test]
    fn words_are_one_space_apart(rt: HostRuntime) {
        all_refused(
            &rt,
            &[
                " 5 1 0 2 0\n",
                "5  1 0 2 0\n",
                "5 1  0 2 0\n",
                "5 1 0  2 0\n",
                "5 1 0 2  0\n",
                "5 1 0 2 0 \n",
                "5 d  1 0\n",
                "5  d 1 0\n",
                "5d 1 0\n",
                "5 d1 0\n",
                "5 d 1 0 \n",
                "5\t1 0 2 0\n",
                "5 1\t0 2 0\n",
                "5 1 0 2 0\r\n",
                "5 1 0 2 0\r",
            ],
        );
    }

    #[test]
    fn a_line_is_whole(rt: HostRuntime) {
        all_refused(
            &rt,
            &[
                "5 1 0 2 0",
                "5 1 0 2\n",
                "5 1 0\n",
                "5 0\n",
                "5\n",
                "5 \n",
                "5 1 0 2 ",
                "5 1 0\n2 0\n",
                "5 d\n",
                "5 d 1\n",
                "5 d 1 0",
                "5 d 1 0 2 0\n",
                "5 1 0 2 0 3 0\n",
                "d 1 0\n",
            ],
        );
    }

    #[test]
    fn only_literals_have_a_minus(rt: HostRuntime) {
        assert_eq!(rt; first(b"5 -1 0 2 0\n"), line(5, 1, 1));
        all_refused(
            &rt,
            &[
                "-5 1 0 2 0\n",
                "5 1 0 -2 0\n",
                "-5 d 1 0\n",
                "5 d -1 0\n",
                "5 -0 0\n",
                "5 -0 0 0\n",
                "5 1 -0 0\n",
                "5 - 1 0 0\n",
                "5 --1 0 0\n",
                "5 +1 0 0\n",
                "+5 1 0 0\n",
            ],
        );
    }

    #[test]
    fn numbers_end_at_the_largest(rt: HostRuntime) {
        assert_eq!(rt;
            first(b"2147483647 2147483647 -2147483647 0 2147483647 0\n"),
            line(2147483647, 2, 1)
        );
        assert_eq!(rt; first(b"2147483647 d 2147483647 0\n"), strike(1));
        assert_eq!(rt; first(b"5 1000000000 0 2 0\n"), line(5, 1, 1));
        all_refused(
            &rt,
            &[
                "2147483648 1 0 2 0\n",
                "5 2147483648 0 2 0\n",
                "5 -2147483648 0 2 0\n",
                "5 1 0 2147483648 0\n",
                "5 d 2147483648 0\n",
                "5 9999999999 0 2 0\n",
                "5 4294967297 0 2 0\n",
                "5 18446744073709551617 0 2 0\n",
                "5 99999999999999999999999999999999999999999999999999 0 2 0\n",
            ],
        );
    }

    #[test]
    fn no_other_byte_is_taken(rt: HostRuntime) {
        assert_eq!(rt; first(&[53, 32, 128, 32, 48, 32, 48, 10]), refused());
        assert_eq!(rt; first(&[53, 160, 48, 32, 48, 10]), refused());
        assert_eq!(rt; first(&[255, 32, 48, 32, 48, 10]), refused());
        assert_eq!(rt; first(&[53, 32, 48, 32, 48, 138]), refused());
        all_refused(
            &rt,
            &[
                "5 1 0 2 0\0\n",
                "5 D 1 0\n",
                "5 x 0 0\n",
                "c 1 0 2 0\n",
                "/ 1 0 2 0\n",
                "5 : 0 2 0\n",
            ],
        );
    }

    // Reads into rows of two that hold something already: what is answered, what the rows hold then, and how much is read.
    fn reads(
        rt: &impl Abort,
        reader: &mut Reader<'_>,
        answer: Result<Item, Refusal>,
        literals: [i32; 2],
        numbers: [u32; 2],
        place: usize,
    ) {
        let mut left = [9i32; 2];
        let mut right = [9u32; 2];
        assert_eq!(rt; reader.next(&mut left, &mut right), answer);
        assert_eq!(rt; left, literals);
        assert_eq!(rt; right, numbers);
        assert_eq!(rt; reader.place(), place);
    }

    #[test]
    fn lines_are_read_one_after_the_other(rt: HostRuntime) {
        let mut reader = Reader::new(b"5 -1 0 2 0\n6 d 3 4 0\n7 0 5 0\n");
        assert_eq!(rt; reader.place(), 0);
        reads(&rt, &mut reader, line(5, 1, 1), [-1, 0], [2, 0], 11);
        reads(&rt, &mut reader, strike(2), [0, 0], [3, 4], 21);
        reads(&rt, &mut reader, line(7, 0, 1), [0, 0], [5, 0], 29);
        reads(&rt, &mut reader, Ok(Item::End), [0, 0], [0, 0], 29);
        reads(&rt, &mut reader, Ok(Item::End), [0, 0], [0, 0], 29);
    }

    #[test]
    fn rows_of_exact_length_suffice(rt: HostRuntime) {
        let mut reader = Reader::new(b"5 -1 2 0 3 4 0\n6 d 7 8 0\n");
        reads(&rt, &mut reader, line(5, 2, 2), [-1, 2], [3, 4], 15);
        reads(&rt, &mut reader, strike(2), [0, 0], [7, 8], 25);
        assert_eq!(rt;
            Reader::new(b"5 0 0\n").next(&mut [], &mut []),
            line(5, 0, 0)
        );
        assert_eq!(rt; Reader::new(b"").next(&mut [], &mut []), Ok(Item::End));
    }

    #[test]
    fn a_row_that_is_one_short_is_refused(rt: HostRuntime) {
        let short = Err(Refusal::Buffer);
        let mut reader = Reader::new(b"5 1 2 3 0 4 0\n");
        reads(&rt, &mut reader, short, [0, 0], [0, 0], 0);
        reader = Reader::new(b"5 1 0 2 3 4 0\n");
        reads(&rt, &mut reader, short, [0, 0], [0, 0], 0);
        reader = Reader::new(b"5 d 1 2 3 0\n");
        reads(&rt, &mut reader, short, [0, 0], [0, 0], 0);
        assert_eq!(rt; Reader::new(b"5 d 1 0\n").next(&mut [], &mut []), short);
    }

    #[test]
    fn the_text_is_refused_before_the_rows(rt: HostRuntime) {
        let mut reader = Reader::new(b"5 1 2 3 0 4 5 6 0");
        reads(&rt, &mut reader, refused(), [0, 0], [0, 0], 0);
        reader = Reader::new(b"5 1 2 3 0 4 -5 6 0\n");
        reads(&rt, &mut reader, refused(), [0, 0], [0, 0], 0);
        reader = Reader::new(b"5 d 1 2 3\n");
        reads(&rt, &mut reader, refused(), [0, 0], [0, 0], 0);
    }

    #[test]
    fn a_refused_call_stays_where_it_stood(rt: HostRuntime) {
        let mut reader = Reader::new(b"5 1 0 2 0\n6 1 0 2 3 4 0\n7");
        reads(&rt, &mut reader, line(5, 1, 1), [1, 0], [2, 0], 10);
        reads(&rt, &mut reader, Err(Refusal::Buffer), [0, 0], [0, 0], 10);
        let mut more = [9u32; 3];
        assert_eq!(rt; reader.next(&mut [0, 0], &mut more), line(6, 1, 3));
        assert_eq!(rt; more, [2, 3, 4]);
        reads(&rt, &mut reader, refused(), [0, 0], [0, 0], 24);
        reads(&rt, &mut reader, refused(), [0, 0], [0, 0], 24);
    }
}
