// Two more unions, near at hand to get wrong: a variable that stands twice in one atom, and variable 0 beside a concept atom, whose second
// place has the same bits.
use card_lines::{checked, drawn, written};
use std::io;
use std::io::Print;

// loop, its sheets record by record: in the union each line is a step and a question.
fn looped(rt: &impl Print) -> io::Result<()> {
    // A ⊑ ∃P
    let rules = b"\x10\x00\x50\x10";
    // no answer terms: P(x,x)
    let question = b"\x01\x80\x40\x00\x00\x00\x00";
    // P(x,x)
    let union = b"\x00\x01\
        \x00\x00\x00\x00\x01\x80\x40\x00\x00\x00\x00";
    // A(5)
    let facts = b"\x00\x01\x00\x05\x00\x00";
    drawn(rt, b"loop, 1 member", rules, question, union, facts)?;
    written(rt, b"loop, written", rules, question)
}

// zero bits, its sheets record by record: in the union each line is a step and a question.
fn zero_bits(rt: &impl Print) -> io::Result<()> {
    // B ⊑ ∃P
    let rules = b"\x10\x00\x90\x10";
    // answer y: P(y,x), A(y)
    let question = b"\x12\x00\x00\x01\x80\x40\x00\x02\x00\x00\x00\x04\x00\x02\x00\x00";
    // P(y,x), A(y); B(y), A(y)
    let union = b"\x00\x02\
        \x00\x00\x00\x00\x12\x00\x00\x01\x80\x40\x00\x02\x00\x00\x00\x04\x00\x02\x00\x00\
        \x40\x00\x00\x00\x12\x00\x00\x01\x00\x08\x00\x02\x00\x00\x00\x04\x00\x02\x00\x00";
    // A(5), B(5), A(6), P(6,0), B(7), P(0,8)
    let facts = b"\x00\x01\x00\x05\x00\x00\
        \x00\x02\x00\x05\x00\x00\
        \x00\x01\x00\x06\x00\x00\
        \x80\x10\x00\x06\x00\x00\
        \x00\x02\x00\x07\x00\x00\
        \x80\x10\x00\x00\x00\x08";
    drawn(rt, b"zero bits, 2 members", rules, question, union, facts)?;
    let open = b"\x00\x01\
        \x00\x00\x00\x00\x12\x00\x00\x01\x80\x40\x00\x02\x00\x00\x00\x04\x00\x02\x00\x00";
    checked(rt, b"zero bits, without the last", rules, question, open)?;
    written(rt, b"zero bits, written", rules, question)
}

// All of them.
pub fn run(rt: &impl Print) -> io::Result<()> {
    looped(rt)?;
    zero_bits(rt)
}
