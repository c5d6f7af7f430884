// The line on standard error for what failed.
ghost use Rattle.std.specs.Io.{StartsWith};

use std::io::{Cursor, Eprint, Error, Write};

// The system's words for an error, without its number, which stands behind them in brackets.
fn words(text: &str) -> &str
    ensures { StartsWith text.now result.now }
{
    match text.split_once(" (os error ") {
        Some((words, _)) => words,
        None => text,
    }
}

// Writes a line to standard error: what failed, as the caller names it, a colon and why. Where standard error takes nothing, nobody is
// left to be told.
pub fn fail(rt: &impl Eprint, what: &str, error: Error) {
    let mut text = Cursor::new([0u8; 256]);
    let _ = write!(text, "{error}");
    let length = text.position() as usize;
    let bytes = text.into_inner();
    let length = length.min(bytes.len());
    if let Ok(why) = str::from_utf8(&bytes[..length]) {
        let why = words(why);
        let _ = eprintln!(rt; "{what}: {why}");
    }
}
