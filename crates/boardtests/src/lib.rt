//! Edges of records, boards, gate files, frames and runs, as tables of examples.

#![tactic(auto)]

#[cfg(test)]
mod tests {
    use boards::{Board, Drawing};
    use frames::find_frame;
    use gatefiles::{read_file, write_file};
    use gates::Gate;
    use gates::records::read_record;
    use refusals::{Failure, Refusal};
    use runs::Verdict;
    use runs::rows::read_rows;
    use runs::tracing::trace;
    use std::alloc::Global;
    use std::test::Fail;
    use values::{Lanes, Value};

    const RING: [u8; 22] = [
        0, 0, 4, 1, 6, 2, 5, 5, 0, 3, 5, 1, 7, 4, 0, 6, 6, 4, 2, 15, 8, 1,
    ];

    fn board_of(heap: Global, file: &[u8]) -> Result<Board, Failure> {
        Ok(read_file(Drawing::new(heap)?, file)?)
    }

    // Why a file is not read, if it is not. The reason alone is compared, so a board that is read is let go.
    fn why_not(heap: Global, file: &[u8]) -> Result<Option<Refusal>, Failure> {
        Ok(
            read_file(Drawing::new(heap)?, file)
                .err()
                .map(Refusal::from),
        )
    }

    // Records of one kind without wires, and then an ending.
    fn repeated(heap: Global, count: usize, property: u8, depth: u8) -> Result<Vec<u8>, Failure> {
        let mut file = vec![in heap; 2u8; count]?;
        file.extend_from_slice(&[15, property, depth])?;
        Ok(file)
    }

    #[test]
    fn records_are_exactly_one(rt: HostRuntime) {
        assert_eq!(rt; read_record(&[0]), Some(Gate::Input));
        assert_eq!(rt; read_record(&[1]), Some(Gate::Zero));
        assert_eq!(rt; read_record(&[2]), Some(Gate::One));
        assert_eq!(rt; read_record(&[3, 255]), Some(Gate::Copy(255)));
        assert_eq!(rt; read_record(&[4, 7]), Some(Gate::Not(7)));
        assert_eq!(rt; read_record(&[5, 1, 2]), Some(Gate::And(1, 2)));
        assert_eq!(rt; read_record(&[6, 1, 2]), Some(Gate::Or(1, 2)));
        assert_eq!(rt; read_record(&[7, 1, 2]), Some(Gate::Implies(1, 2)));
        assert_eq!(rt; read_record(&[8, 1, 2]), Some(Gate::Xor(1, 2)));
        assert_eq!(rt; read_record(&[9, 0]), Some(Gate::Register(0)));
        assert_eq!(rt; read_record(&[]), None);
        assert_eq!(rt; read_record(&[0, 0]), None);
        assert_eq!(rt; read_record(&[3]), None);
        assert_eq!(rt; read_record(&[5, 1]), None);
        assert_eq!(rt; read_record(&[5, 1, 2, 3]), None);
        assert_eq!(rt; read_record(&[10]), None);
        assert_eq!(rt; read_record(&[15, 0, 1]), None);
    }

    #[test]
    fn a_drawing_takes_256_wires(rt: HostRuntime) -> Result<(), Fail> {
        let mut drawing = Drawing::new(rt.alloc())?;
        assert_eq!(rt; drawing.add(&[10]), Err(Refusal::Record));
        for _ in 0..256u16 {
            drawing.add(&[2])?;
        }
        assert_eq!(rt; drawing.add(&[10]), Err(Refusal::Record));
        assert_eq!(rt; drawing.add(&[2]), Err(Refusal::Full));
        assert!(rt; drawing.wires() == 256);
        assert_eq!(rt; drawing.check_close(255, 0), Err(Refusal::Depth));
        assert_eq!(rt; drawing.check_close(255, 9), Err(Refusal::Depth));
        assert_eq!(rt; drawing.check_close(255, 1), Ok(()));
        assert_eq!(rt; drawing.check_close(255, 8), Ok(()));
        Ok(())
    }

    #[test]
    fn files_are_refused_in_order(rt: HostRuntime) -> Result<(), Fail> {
        let heap = rt.alloc();
        assert_eq!(rt; why_not(heap, &RING)?, None);
        assert_eq!(rt; why_not(heap, &[])?, Some(Refusal::Record));
        assert_eq!(rt; why_not(heap, &[15, 0])?, Some(Refusal::Record));
        assert_eq!(rt; why_not(heap, &[2, 15, 0, 1, 0])?, Some(Refusal::Record));
        assert_eq!(rt; why_not(heap, &[2, 10, 15, 0, 1])?, Some(Refusal::Record));
        assert_eq!(rt; why_not(heap, &[2, 15, 0, 1])?, None);
        // No records: the form is good, and the depth or the wire is not.
        assert_eq!(rt; why_not(heap, &[15, 0, 0])?, Some(Refusal::Depth));
        assert_eq!(rt; why_not(heap, &[15, 0, 1])?, Some(Refusal::Wire));
        assert_eq!(rt; why_not(heap, &[2, 15, 1, 9])?, Some(Refusal::Depth));
        assert_eq!(rt; why_not(heap, &[2, 15, 1, 8])?, Some(Refusal::Wire));
        assert_eq!(rt; why_not(heap, &[3, 1, 15, 0, 1])?, Some(Refusal::Wire));
        Ok(())
    }

    #[test]
    fn files_hold_256_records(rt: HostRuntime) -> Result<(), Fail> {
        let heap = rt.alloc();
        assert_eq!(rt; why_not(heap, &repeated(heap, 256, 255, 8)?)?, None);
        assert_eq!(rt;
            why_not(heap, &repeated(heap, 257, 0, 1)?)?,
            Some(Refusal::Full)
        );
        assert_eq!(rt;
            why_not(heap, &repeated(heap, 257, 0, 9)?)?,
            Some(Refusal::Full)
        );
        Ok(())
    }

    #[test]
    fn a_refused_drawing_is_handed_back(rt: HostRuntime) -> Result<(), Fail> {
        let mut drawing = Drawing::new(rt.alloc())?;
        drawing.add(&[2])?;
        let Err(unclosed) = read_file(drawing, &RING) else {
            return Err(Fail::new("read over a wire"));
        };
        assert_eq!(rt; unclosed.refusal, Refusal::Stage);
        assert!(rt; unclosed.drawing.wires() == 1);
        Ok(())
    }

    #[test]
    fn what_is_read_is_written_back(rt: HostRuntime) -> Result<(), Fail> {
        let board = board_of(rt.alloc(), &RING)?;
        let mut short = [7u8; 21];
        assert_eq!(rt; write_file(&board, &mut short), Err(Refusal::Buffer));
        assert!(rt; short == [7u8; 21]);
        let mut long = [7u8; 24];
        assert_eq!(rt; write_file(&board, &mut long), Ok(22));
        assert!(rt; &long[0..22] == &RING[0..22]);
        assert!(rt; long[22] == 7 && long[23] == 7);
        Ok(())
    }

    #[test]
    fn the_ring_settles_or_not(rt: HostRuntime) -> Result<(), Fail> {
        let board = board_of(rt.alloc(), &RING)?;
        let mut row = [Value::One; 10];
        assert_eq!(rt;
            find_frame(&board, &[Value::One], None, &mut row),
            Err(Refusal::Buffer)
        );
        assert!(rt; row == [Value::One; 10]);
        let inputs = [Value::One, Value::Zero];
        assert!(rt; find_frame(&board, &inputs, None, &mut row).is_ok());
        let settled = [
            Value::One,
            Value::Zero,
            Value::One,
            Value::One,
            Value::One,
            Value::Zero,
            Value::Zero,
            Value::One,
            Value::One,
            Value::One,
        ];
        assert!(rt; row == settled);
        Ok(())
    }

    #[test]
    fn rounds_are_counted(rt: HostRuntime) -> Result<(), Fail> {
        let heap = rt.alloc();
        let mut row = [Value::Zero; 4];
        let own_and = board_of(heap, &[5, 0, 0, 15, 0, 1])?;
        assert_eq!(rt; find_frame(&own_and, &[], None, &mut row), Ok(1));
        let constant = board_of(heap, &[2, 15, 0, 1])?;
        assert_eq!(rt; find_frame(&constant, &[], None, &mut row), Ok(2));
        let backwards = board_of(heap, &[3, 1, 3, 2, 3, 3, 2, 15, 0, 1])?;
        assert_eq!(rt; find_frame(&backwards, &[], None, &mut row), Ok(5));
        Ok(())
    }

    #[test]
    fn a_register_follows_its_source(rt: HostRuntime) -> Result<(), Fail> {
        let toggle = board_of(rt.alloc(), &[9, 1, 4, 0, 15, 1, 2])?;
        let mut first = [Value::Undefined; 2];
        let mut second = [Value::Undefined; 2];
        find_frame(&toggle, &[], None, &mut first)?;
        assert!(rt; first == [Value::Zero, Value::One]);
        assert_eq!(rt;
            find_frame(&toggle, &[], Some(&first[0..1]), &mut second),
            Err(Refusal::Buffer)
        );
        find_frame(&toggle, &[], Some(&first), &mut second)?;
        assert!(rt; second == [Value::One, Value::Zero]);
        Ok(())
    }

    // Both inputs of the ring at 1 leave wire 3 undefined; with one of them at 0 the frame is good.
    #[test]
    fn rows_are_read_and_run(rt: HostRuntime) -> Result<(), Fail> {
        let heap = rt.alloc();
        let board = board_of(heap, &RING)?;
        let rows = read_rows(heap, &board, &[1, 0, 1, 1])?;
        assert_eq!(rt; rows.len(), 2);
        assert_eq!(rt; rows.row(0), Some([Value::One, Value::Zero].as_slice()));
        assert_eq!(rt; rows.row(2), None);
        let found = trace(heap, &board, &[1, 0, 1, 1, 0, 0])?;
        assert_eq!(rt; found.frames.len(), 2);
        assert_eq!(rt; found.verdict, Verdict::Bad { frame: 2, wire: 3 });
        let good = trace(heap, &board, &[1, 0])?;
        assert_eq!(rt; good.verdict, Verdict::Good { frames: 1 });
        Ok(())
    }

    #[test]
    fn lanes_are_single_frames(rt: HostRuntime) -> Result<(), Fail> {
        let board = board_of(rt.alloc(), &RING)?;
        // Lane 0 has both inputs at 1, lane 1 has 1 and 0; lane 2 is handed in with both rails up.
        let inputs = [Lanes::new(0b100, 0b111), Lanes::new(0b110, 0b101)];
        let mut row = [Lanes::new(0, 0); 9];
        find_frame(&board, &inputs, None, &mut row)?;
        assert_eq!(rt; row[3].lane(0), Value::Undefined);
        assert_eq!(rt; row[3].lane(1), Value::One);
        assert_eq!(rt; row[0].lane(2), Value::Undefined);
        assert_eq!(rt; row[8].lane(63), Value::One);
        Ok(())
    }

    #[test]
    fn values_are_written_as_letters(rt: HostRuntime) -> Result<(), Fail> {
        let [undefined, zero, one] = [Value::Undefined, Value::Zero, Value::One];
        let text = format!(in rt.alloc(); "{undefined}{zero}{one}")?;
        assert_eq!(rt; text.as_str(), "U01");
        Ok(())
    }
}
