// Examples of lines, and of lines that are refused.
use event::event::Event;
use line::fault::{Garbled, TooLong};
use line::read::read_line;
use line::write::write_line;

const PERFORM: Event = Event::Perform {
    thread: 0,
    number: 12,
    time: 5,
};

#[test]
fn a_line_is_written(rt: HostRuntime) {
    let mut space = [7u8; 20];
    assert_eq!(rt; write_line(PERFORM, &mut space), Ok(19));
    assert!(rt; &space[0..20] == b"perform 0 12 0 0 5\n\x07".as_slice());
}

#[test]
fn a_line_that_just_fits_is_written(rt: HostRuntime) {
    let mut space = [7u8; 19];
    assert_eq!(rt; write_line(PERFORM, &mut space), Ok(19));
    assert!(rt; &space[0..19] == b"perform 0 12 0 0 5\n".as_slice());
}

#[test]
fn a_line_that_is_too_long_leaves_the_space(rt: HostRuntime) {
    let mut space = [7u8; 18];
    assert_eq!(rt; write_line(PERFORM, &mut space), Err(TooLong));
    assert!(rt; space == [7u8; 18]);
}

#[test]
fn faults_are_found_in_order(rt: HostRuntime) {
    assert_eq!(rt;
        read_line(b"advance 1 0 0 0 18446744073709551615").err(),
        None
    );
    assert_eq!(rt;
        read_line(b"settle 0 0 0 00").err(),
        Some(Garbled::FieldCount)
    );
    assert_eq!(rt;
        read_line(b"report 0 0 0 0 00").err(),
        Some(Garbled::Unknown)
    );
    assert_eq!(rt;
        read_line(b"settle 1 0 0 0 00").err(),
        Some(Garbled::Number)
    );
    assert_eq!(rt; read_line(b"settle 1 0 0 0 0").err(), Some(Garbled::Unused));
}
