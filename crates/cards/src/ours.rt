// Cards K1, K3, K5 and K6 of 01, written (02, T-02, "Our own unions").
use card_lines::written;
use std::io;
use std::io::Print;

// The cards.
pub fn run(rt: &impl Print) -> io::Result<()> {
    // each concept 1 is driven by something; answer x: drives(y,x)
    let driven = b"\x10\x00\x60\x00";
    let question_1 = b"\x11\x00\x00\x00\x80\x00\x00\x02\x00\x00";
    written(rt, b"K1, written", driven, question_1)?;
    // A ⊑ ∃P
    let every = b"\x10\x00\x50\x10";
    // answer x: P(x,y), P(z,y)
    let question_3 = b"\x12\x00\x00\x00\x80\x40\x00\x00\x00\x01\x80\x40\x00\x04\x00\x01";
    written(rt, b"K3, written", every, question_3)?;
    // A ⊑ ∃P; ∃P⁻ ⊑ A
    let both = b"\x10\x00\x50\x10\
        \x18\x04\x00\x01";
    // no answer terms: P(x,y), P(y,z)
    let question_5 = b"\x02\x80\x40\x00\x00\x00\x01\x80\x40\x00\x02\x00\x02";
    written(rt, b"K5, written", both, question_5)?;
    // answers x, y: P(x,y)
    let question_6 = b"\x21\x00\x00\x00\x00\x00\x01\x80\x40\x00\x00\x00\x01";
    written(rt, b"K6, written", every, question_6)
}
