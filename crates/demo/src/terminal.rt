// The terminal, to which the program shows its lines. Nothing more than the kit's `io` is assumed, so lines go through
// that: std's `println!` would assume two more functions of C, which read an error's number and word it.
use std::fmt;
use std::fmt::Write;

/// The descriptor of standard output.
const STDOUT: i32 = 1;

/// Standard output, as a writer of text. What it does not take is let go, and what follows is tried.
#[derive(Clone, Copy, Debug)]
struct Terminal;

impl fmt::Write for Terminal {
    fn write_str(&mut self, text: &str) -> fmt::Result {
        io::write_all(STDOUT, text.as_bytes());
        Ok(())
    }
}

/// Shows a line, which has its end with it: words at the end of a line go out at once with it.
pub(crate) fn show(line: impl fmt::Display + Drop) {
    let _ = write!(Terminal, "{line}");
}
