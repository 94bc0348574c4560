use super::*;

#[test]
fn a_line_alone(rt: HostRuntime) {
    let mut fields = Fields::new(b"12 0 345 ");
    for want in [12, 0, 345] {
        assert_eq!(rt; fields.number(), want);
    }
    assert!(rt; fields.is_at_end());
    assert_eq!(rt; fields.number(), 0);
    assert!(rt; fields.is_empty());
}

#[test]
fn a_line_within_an_input(rt: HostRuntime) {
    let mut fields = Fields::within(b"12 0|345 ", 5);
    assert_eq!(rt; fields.number(), 12);
    assert_eq!(rt; fields.before(b'|'), b"0".as_slice());
    assert!(rt; fields.is_at_end());
    assert_eq!(rt; fields.number(), 345);
    assert!(rt; fields.is_empty());
    assert!(rt; !fields.is_at_end());
}
