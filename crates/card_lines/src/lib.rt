// What the programs that run cards print: one line for a call, with its name and all that it gave.
#![tactic(auto)]

use answering::{answer, check};
use std::io;
use std::io::Print;
use words::refusals::Refusal;
use write_stage::Written;
use writing::write;

// Prints some bytes.
fn print(rt: &impl Print, text: &[u8]) -> io::Result<()> {
    rt.write_all(text)
}

// The number of a refusal, 0 for none.
fn number<T: Copy>(given: Result<T, Refusal>) -> u32 {
    match given {
        Ok(_) => 0,
        Err(refusal) => u32::from(refusal),
    }
}

// Prints the bytes in hexadecimal.
fn print_bytes(rt: &impl Print, bytes: &[u8]) -> io::Result<()> {
    for x in bytes {
        print!(rt; "{:02x}", *x)?;
    }
    Ok(())
}

// Draws answers into a list of 8 bytes, and prints number, count and every byte of the list.
pub fn drawn(
    rt: &impl Print,
    name: &[u8],
    rules: &[u8],
    question: &[u8],
    union: &[u8],
    facts: &[u8],
) -> io::Result<()> {
    let mut list = [0xffu8; 8];
    let answers = answer(rules, question, union, facts, &mut list);
    print(rt, name)?;
    print!(rt;
        ": number {}, count {}, list ",
        number(answers),
        answers.unwrap_or(0)
    )?;
    print_bytes(rt, &list)?;
    println!(rt)
}

// Checks a union, and prints the number.
pub fn checked(
    rt: &impl Print,
    name: &[u8],
    rules: &[u8],
    question: &[u8],
    union: &[u8],
) -> io::Result<()> {
    let checked = check(rules, question, union);
    print(rt, name)?;
    println!(rt; ": number {}", number(checked))
}

// Prints what a call that writes a union gave beside the sheet.
fn print_made(rt: &impl Print, number: u32, made: Written) -> io::Result<()> {
    print!(rt;
        ": number {}, count {}, length {}",
        number, made.count, made.length
    )
}

// Prints a union that was written, byte by byte, and the number that checking it gives.
fn print_union(rt: &impl Print, rules: &[u8], question: &[u8], union: &[u8]) -> io::Result<()> {
    print(rt, b", union ")?;
    print_bytes(rt, union)?;
    println!(rt; ", checked {}", number(check(rules, question, union)))
}

// Prints the union at the beginning of a sheet; nothing if it were longer than the sheet, which no union that was written is.
fn print_beginning(
    rt: &impl Print,
    rules: &[u8],
    question: &[u8],
    sheet: &[u8],
    size: usize,
) -> io::Result<()> {
    if size <= sheet.len() {
        print_union(rt, rules, question, &sheet[..size])?;
    }
    Ok(())
}

// Writes the union of rules and question, and prints number, count and length, every byte of the union, and what checking it gives.
pub fn written(rt: &impl Print, name: &[u8], rules: &[u8], question: &[u8]) -> io::Result<()> {
    let mut sheet = [0xffu8; 256];
    let given = write(rules, question, &mut sheet);
    let made = given.unwrap_or(Written {
        count: 0,
        length: 0,
    });
    print(rt, name)?;
    print_made(rt, number(given), made)?;
    print_beginning(rt, rules, question, &sheet, made.length)
}
