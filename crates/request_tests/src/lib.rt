// Request lines that do not read, each with its refusal.
#![tactic(auto)]

#[cfg(test)]
mod tests {
    use fields::Refusal;
    use request_text::read_request;
    use std::process::Abort;
    use std::test::Fail;

    // A line, the number of its refusal as an answer writes it, and the place.
    const BAD_LINES: [(&[u8], u8, usize); 40] = [
        (b"", 1, 1),
        (b",", 1, 1),
        (b"\r", 1, 1),
        (b"x,600,1", 1, 1),
        (b"XX,600,1", 1, 1),
        (b" X,600,1", 1, 1),
        (b"N,100,501,503", 1, 1),
        (b"\xc3\xa7,600,1", 1, 1),
        (b"X", 3, 2),
        (b"X,", 2, 2),
        (b"X,600", 3, 3),
        (b"X,600,", 2, 3),
        (b"X,600,1,", 3, 4),
        (b"X,600,1,2,3", 3, 4),
        (b"X,00,1", 2, 2),
        (b"X,0600,1", 2, 2),
        (b"X,+600,1", 2, 2),
        (b"X,-0,1", 2, 2),
        (b"X, 600,1", 2, 2),
        (b"X,600 ,1", 2, 2),
        (b"X,600,1\r", 2, 3),
        (b"X,1440,1", 2, 2),
        (b"X,600,0", 2, 3),
        (b"X,600,1000000000", 2, 3),
        (b"X,600,18446744073709551617", 2, 3),
        (b"X,6\xb00,1", 2, 2),
        (b"X,bad", 2, 2),
        (b"C,600,1,B,77,100,100,3,9,1,7", 2, 4),
        (b"C,600,1,SD,77,100,100,3,9,1,7", 2, 4),
        (b"C,600,1,S,77,100,100,3,9,1", 3, 11),
        (b"C,600,1,S,77,100,100,3,9,1,65536", 2, 11),
        (b"I,600,1,1,s,0,1,11,100,0", 2, 5),
        (b"I,600,1,1,S,2,1,11,100,0", 2, 6),
        (b"I,600,1,1,S,0,0", 2, 7),
        (b"I,600,1,1,S,0,17,11,100,0", 2, 7),
        (b"I,600,1,1,S,0,2,11,100,0,12,40", 3, 13),
        (b"I,600,1,1,S,0,1,11,100,0,12", 3, 11),
        (b"J,600,3,5,13,0,0,9", 2, 7),
        (b"J,600,3,5,13,0,2,2", 2, 8),
        (b"Z,1201,100000", 2, 3),
    ];

    fn is_refused(rt: &impl Abort, line: &[u8], number: u8, place: usize) -> Result<(), Fail> {
        match read_request(line) {
            Ok(_) => Err(Fail::new("a bad line reads")),
            Err(Refusal { ground, place: at }) => {
                assert_eq!(rt; ground.number(), number);
                assert_eq!(rt; at, place);
                Ok(())
            }
        }
    }

    #[test]
    fn bad_lines_are_refused(rt: HostRuntime) -> Result<(), Fail> {
        for (line, number, place) in BAD_LINES.iter() {
            is_refused(&rt, line, *number, *place)?;
        }
        Ok(())
    }

    #[test]
    fn digits_never_wrap(rt: HostRuntime) -> Result<(), Fail> {
        let heap = rt.alloc();
        let mut line = b"X,600,".to_vec(heap)?;
        for _ in 0..100_000 {
            line.push(b'1')?;
        }
        is_refused(&rt, &line, 2, 3)
    }
}
