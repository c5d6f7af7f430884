// Cards K9 to K12 of 01: K1 with one thing changed.
ghost use Rattle.std.specs.Prelude.{◌≡◌, length};

use card_lines::drawn;
use std::io;
use std::io::Print;

// A byte of K1's rule, "each concept 1 is driven by something", written over and over: 10 00 60 00.
fn rule_byte(i: usize) -> u8 {
    if i % 4 == 0 {
        0x10
    } else if i % 4 == 2 {
        0x60
    } else {
        0
    }
}

// Writes the rule over the whole sheet.
fn fill(sheet: &mut [u8])
    ensures { length sheet.new ≡ length sheet.old }
{
    for (i, x) in sheet.iter_mut().enumerate() {
        *x = rule_byte(i);
    }
}

// K9: 513 rules are refused, 512 pass.
fn many_rules(rt: &impl Print, question: &[u8], union: &[u8], facts: &[u8]) -> io::Result<()> {
    let mut over = [0u8; 2052];
    fill(&mut over);
    drawn(rt, b"K9, 513 rules", &over, question, union, facts)?;
    let mut full = [0u8; 2048];
    fill(&mut full);
    drawn(rt, b"K9, 512 rules", &full, question, union, facts)
}

// The cards.
pub fn run(rt: &impl Print) -> io::Result<()> {
    // answer x: drives(y,x)
    let question = b"\x11\x00\x00\x00\x80\x00\x00\x02\x00\x00";
    // drives(y,x), and by rule 0 A(x)
    let union = b"\x00\x02\
        \x00\x00\x00\x00\x11\x00\x00\x00\x80\x00\x00\x02\x00\x00\
        \x40\x00\x00\x00\x11\x00\x00\x00\x00\x04\x00\x00\x00\x00";
    // A(7), driven by(9,3)
    let facts = b"\x00\x01\x00\x07\x00\x00\
        \x80\x01\x00\x09\x00\x03";
    many_rules(rt, question, union, facts)?;
    let rule = b"\x10\x00\x60\x00";
    // the second member's step names rule 1, and there is one rule
    let naming = b"\x00\x02\
        \x00\x00\x00\x00\x11\x00\x00\x00\x80\x00\x00\x02\x00\x00\
        \x40\x00\x00\x01\x11\x00\x00\x00\x00\x04\x00\x00\x00\x00";
    drawn(rt, b"K10", rule, question, naming, facts)?;
    // the second member has concept 2
    let other = b"\x00\x02\
        \x00\x00\x00\x00\x11\x00\x00\x00\x80\x00\x00\x02\x00\x00\
        \x40\x00\x00\x00\x11\x00\x00\x00\x00\x08\x00\x00\x00\x00";
    drawn(rt, b"K11", rule, question, other, facts)?;
    drawn(rt, b"K12", rule, question, union, b"")
}
