use super::*;
use std::test::Fail;

const CASES: &[u8] = b"ab\ncd\n# two\nab\n# one\ncd";

const PRINTED: &[u8] =
    b"different: byte 3\nequal 1, different 1 two\nequal 1, different 0 one\ndifferent: byte 21\n";

#[test]
fn cases_as_lines(rt: HostRuntime) -> Result<(), Fail> {
    let mut out = Vec::new(rt.alloc());
    replay(&mut out, CASES, |line| line == b"ab\n".as_slice())?;
    assert_eq!(rt; out.as_slice(), PRINTED);
    Ok(())
}

#[test]
fn cases_within_the_input(rt: HostRuntime) -> Result<(), Fail> {
    let mut out = Vec::new(rt.alloc());
    replay_within(&mut out, CASES, |rest, line| {
        line == 3 && rest.starts_with(b"ab") && rest.ends_with(b"cd")
    })?;
    assert_eq!(rt; out.as_slice(), PRINTED);
    Ok(())
}
