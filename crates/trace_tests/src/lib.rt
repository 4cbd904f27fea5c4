//! The figures of the trace format, as tests of the reader and the writer. Depends on `keys` and `traces`.
#![tactic(auto)]

#[cfg(test)]
mod tests {
    use keys::RegionNumber;
    use std::process::Abort;
    use std::test::Fail;
    use traces::{
        Fault, FaultKind, Header, Row, Trace, TraceError, check as check_trace, read_trace,
        write_fault, write_trace,
    };

    fn sound(rt: &impl Abort, text: &[u8]) {
        assert_eq!(rt; check_trace(text), Ok(()));
    }

    fn faulty(rt: &impl Abort, text: &[u8], kind: FaultKind, line: usize, column: usize) {
        assert_eq!(rt; check_trace(text), Err(Fault { kind, line, column }));
    }

    fn row(number: u32, cost: u32) -> Row {
        Row {
            key: RegionNumber { number },
            cost,
        }
    }

    #[test]
    fn lines(rt: HostRuntime) {
        faulty(&rt, b"", FaultKind::Line, 1, 1);
        faulty(&rt, b"slots\n", FaultKind::Line, 2, 1);
        faulty(&rt, b"slots\n2\n", FaultKind::Line, 3, 1);
        faulty(&rt, b"slots\n2\nkey cost", FaultKind::Line, 3, 1);
        sound(&rt, b"slots\n2\nkey cost\n");
        faulty(&rt, b"slots\n2\nkey cost\nA 3", FaultKind::Line, 4, 1);
        let eighty =
            b"slots\n00000000000000000000000000000000000000000000000000000000000000000000000000000000\nkey cost\n";
        faulty(&rt, eighty, FaultKind::Value, 2, 1);
        let more =
            b"slots\n000000000000000000000000000000000000000000000000000000000000000000000000000000000\nkey cost\n";
        faulty(&rt, more, FaultKind::Line, 2, 1);
    }

    #[test]
    fn names_and_shapes(rt: HostRuntime) {
        faulty(&rt, b"slot\n2\nkey cost\n", FaultKind::Names, 1, 1);
        faulty(&rt, b"slots \n2\nkey cost\n", FaultKind::Names, 1, 1);
        faulty(&rt, b"slots\n2\nkey  cost\n", FaultKind::Names, 3, 1);
        sound(&rt, b"slots\n2\ncost key\n3 A\n");
        faulty(&rt, b"slots\n\nkey cost\n", FaultKind::Shape, 2, 1);
        faulty(&rt, b"slots\n2 2\nkey cost\n", FaultKind::Shape, 2, 1);
        faulty(&rt, b"slots\n2\nkey cost\nA\n", FaultKind::Shape, 4, 1);
        faulty(&rt, b"slots\n2\nkey cost\nA  3\n", FaultKind::Shape, 4, 1);
        faulty(&rt, b"slots\n2\nkey cost\nA 3 3\n", FaultKind::Shape, 4, 1);
    }

    #[test]
    fn values(rt: HostRuntime) {
        sound(&rt, b"slots\n1024\nkey cost\n");
        sound(&rt, b"slots\n0000\nkey cost\nFFFFFFFF 65280\n0 00001\n");
        faulty(&rt, b"slots\n1025\nkey cost\n", FaultKind::Value, 2, 1);
        faulty(&rt, b"slots\n00001\nkey cost\n", FaultKind::Value, 2, 1);
        faulty(&rt, b"slots\n2\nkey cost\na 3\n", FaultKind::Value, 4, 1);
        faulty(
            &rt,
            b"slots\n2\nkey cost\n000000001 3\n",
            FaultKind::Value,
            4,
            1,
        );
        faulty(&rt, b"slots\n2\nkey cost\nA 0\n", FaultKind::Value, 4, 3);
        faulty(
            &rt,
            b"slots\n2\nkey cost\nABC 65281\n",
            FaultKind::Value,
            4,
            5,
        );
        faulty(
            &rt,
            b"slots\n2\nkey cost\nA 000001\n",
            FaultKind::Value,
            4,
            3,
        );
        faulty(
            &rt,
            b"slots\n2\ncost key\n3 A\n003 a\n",
            FaultKind::Value,
            5,
            5,
        );
        faulty(&rt, b"slots\n2\nkey cost\na 0\n", FaultKind::Value, 4, 1);
    }

    #[test]
    fn many_rows(rt: HostRuntime) -> Result<(), Fail> {
        let mut text = b"slots\n2\nkey cost\n".to_vec(rt.alloc())?;
        // It uses no index; a want of memory ends the test.
        for _ in 0..2048 {
            text.extend_from_slice(b"A 3\n")?;
        }
        sound(&rt, text.as_slice());
        text.extend_from_slice(b"A 3")?;
        faulty(&rt, text.as_slice(), FaultKind::Line, 2052, 1);
        text.extend_from_slice(b"\n")?;
        faulty(&rt, text.as_slice(), FaultKind::Rows, 2052, 1);
        text.truncate(8209);
        text.extend_from_slice(b"A a\n")?;
        faulty(&rt, text.as_slice(), FaultKind::Value, 2052, 3);
        text.truncate(8209);
        text.extend_from_slice(b"A\n")?;
        faulty(&rt, text.as_slice(), FaultKind::Shape, 2052, 1);
        Ok(())
    }

    #[test]
    fn there_and_back(rt: HostRuntime) -> Result<(), Fail> {
        let text = b"slots\n02\ncost key\n3 0000000A\n65280 FFFFFFFF\n00001 0\n";
        let trace = read_trace(rt.alloc(), text)?;
        assert_eq!(rt; trace.slots(), 2);
        let rows = trace.rows();
        assert!(rt; rows.len() == 3);
        assert_eq!(rt; rows[1], row(4294967295, 65280));
        let mut out = [b'x'; 64];
        let written = write_trace(trace.header(), rows, &mut out)?;
        let shown = b"slots\n2\nkey cost\nA 3\nFFFFFFFF 65280\n0 1\n";
        assert!(rt; written == 40);
        assert!(rt; shown.len() == 40);
        assert!(rt; &out[0..40] == shown.as_slice());
        assert!(rt; out[40] == b'x');
        Ok(())
    }

    #[test]
    fn refusals(rt: HostRuntime) -> Result<(), Fail> {
        let mut out = [b'x'; 32];
        let header = Header { slots: 2 };
        assert_eq!(rt;
            write_trace(Header { slots: 1025 }, &[row(1, 0)], &mut out),
            Err(Fault {
                kind: FaultKind::Value,
                line: 2,
                column: 1,
            })
        );
        assert_eq!(rt;
            write_trace(header, &[row(1, 1), row(4096, 0)], &mut out),
            Err(Fault {
                kind: FaultKind::Value,
                line: 5,
                column: 6,
            })
        );
        assert_eq!(rt;
            write_trace(header, &[row(0, 65281)], &mut out),
            Err(Fault {
                kind: FaultKind::Value,
                line: 4,
                column: 3,
            })
        );
        assert!(rt; out[0] == b'x');
        let mut rows = Vec::new(rt.alloc());
        // It uses no index; a want of memory ends the test.
        for _ in 0..2049 {
            rows.push(row(1, 1))?;
        }
        assert_eq!(rt;
            write_trace(header, rows.as_slice(), &mut out),
            Err(Fault {
                kind: FaultKind::Rows,
                line: 2052,
                column: 1,
            })
        );
        match Trace::new(header, rows) {
            Ok(_) => Err(Fail::new("2,049 rows")),
            Err(fault) => {
                assert_eq!(rt;
                    fault,
                    Fault {
                        kind: FaultKind::Rows,
                        line: 2052,
                        column: 1,
                    }
                );
                Ok(())
            },
        }
    }

    #[test]
    fn room(rt: HostRuntime) {
        let header = Header { slots: 2 };
        let mut short = [b'x'; 20];
        assert_eq!(rt;
            write_trace(header, &[row(10, 3)], &mut short),
            Err(Fault {
                kind: FaultKind::Room,
                line: 0,
                column: 0,
            })
        );
        assert!(rt; short[0] == b'x');
        let mut enough = [b'x'; 21];
        assert_eq!(rt; write_trace(header, &[row(10, 3)], &mut enough), Ok(21));
    }

    #[test]
    fn printed_faults(rt: HostRuntime) -> Result<(), Fail> {
        match read_trace(rt.alloc(), b"slots\n2\nkey cost\nA 0\n") {
            Ok(_) => Err(Fail::new("a cost of 0")),
            Err(TraceError::Memory) => Err(Fail::new("no memory")),
            Err(TraceError::Found(fault)) => {
                let mut out = [b'x'; 38];
                assert_eq!(rt;
                    write_fault(fault, &mut out[0..37]),
                    Err(Fault {
                        kind: FaultKind::Room,
                        line: 0,
                        column: 0,
                    })
                );
                assert!(rt; out[0] == b'x');
                assert_eq!(rt; write_fault(fault, &mut out), Ok(38));
                assert!(rt;
                    out.as_slice() == b"fault line column layer\n12 4 3 values\n".as_slice()
                );
                Ok(())
            }
        }
    }
}
