//! Lines printed into memory. What is expected was worked out by hand.

use crate::{MemoryPrinter, Printer};
use std::process::Abort;
use std::test::Fail;

// Prints the lines, and asserts that each fails where `true` stands beside it, and else does not.
fn print_lines(rt: &impl Abort, printer: &mut MemoryPrinter, lines: &[(&[u8], bool)]) {
    for (line, fails) in lines {
        assert_eq!(rt; printer.line(line).is_err(), *fails);
    }
}

// The second of four lines fails, as was asked for. A line that just fills the 1 MiB has no room for its
// line feed, so that it fails, and so does the next one.
#[test]
fn a_line_fails_where_it_is_told_to_or_has_no_room(rt: HostRuntime) -> Result<(), Fail> {
    let alloc = rt.alloc();
    let mut printer = MemoryPrinter::new(alloc, Some(2))?;
    let short: [(&[u8], bool); 4] = [
        (b"one", false),
        (b"two", true),
        (b"three", false),
        (b"", false),
    ];
    print_lines(&rt, &mut printer, &short);
    assert_eq!(rt; printer.text(), b"one\nthree\n\n".as_slice());

    let long = vec![in alloc; b'x'; 1_048_565]?;
    print_lines(&rt, &mut printer, &[(long.as_slice(), true), (b"", true)]);
    assert_eq!(rt; printer.text().len(), 1_048_576);
    assert_eq!(rt; printer.text().last().copied(), Some(b'x'));
    Ok(())
}
