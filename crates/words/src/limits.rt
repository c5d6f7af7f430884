// The limits of 01 and 02 that the code needs; `Limits` in specs/ has all of 01's, in 01's words.

// A rule, a step, an answer term, an atom, a fact and the count of a union, in bytes.
pub const RULE_BYTES: usize = 4;

pub const STEP_BYTES: usize = 4;

pub const ANSWER_BYTES: usize = 3;

pub const ATOM_BYTES: usize = 6;

pub const FACT_BYTES: usize = 6;

pub const COUNT_BYTES: usize = 2;

// What is meant is below these: a variable's number, a term on a sheet.
pub const VARIABLE_BOUND: u64 = 32;

pub const SHEET_TERM_BOUND: u64 = 0x20000;

// How many rules, answer terms, atoms, members and facts there may be.
pub const MOST_RULES: usize = 512;

pub const MOST_TERMS: usize = 4;

pub const MOST_ATOMS: usize = 8;

pub const MOST_MEMBERS: usize = 512;

pub const MOST_FACTS: usize = 10000;

// The longest sheets, in bytes.
pub const MOST_RULE_BYTES: usize = 2048;

pub const MOST_QUESTION_BYTES: usize = 61;

pub const MOST_UNION_BYTES: usize = 33282;

pub const MOST_FACT_BYTES: usize = 60000;

// The words of a member in a table, and of a table of members.
pub const MEMBER_WORDS: usize = 16;

pub const TABLE_WORDS: usize = 8192;

// An object in an answer list, and the longest tuple, in bytes.
pub const OBJECT_BYTES: usize = 2;

pub const TUPLE_BYTES: usize = 8;

// One more than the largest object of a word: a word from here on says that a variable is not bound.
pub const WORD_OBJECT_BOUND: u64 = 0x1000000;

// The first and the last of the objects that stand in no answer (02, T-01); theory's `LostTags` has them.
pub const FIRST_LOST_TAG: u64 = 65024;

pub const LAST_LOST_TAG: u64 = 65535;

// The first of the helper roles, which are numbered down (02, T-04); theory's `Qualified` has it.
pub const FIRST_HELPER: u64 = 4095;

// A place in a list of steps, in bytes, and how many places every explanation fits in: each parent is an earlier member (02, T-06).
pub const PLACE_BYTES: usize = 40;

pub const MOST_STEPS: usize = 511;
