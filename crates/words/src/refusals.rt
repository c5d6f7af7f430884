// What the desk turns back (01, and 02 after it): the refusals, and the number of each.
ghost use Rattle.std.specs.Prelude.{◌≡◌};
ghost use Rattle.words.specs.Refusals.{code};

// A refusal, by what is wrong.
#[derive(Clone, Copy, Debug, PartialEq, Eq)]
pub enum Refusal {
    RuleSheetLength,
    NoSuchRule,
    QuestionMalformed,
    AnswerVariableNowhere,
    AtomTwice,
    UnionMalformed,
    FirstMemberNotQuestion,
    StepDoesNotApply,
    StepGivesAnother,
    MembersAlike,
    UnionOpen,
    FactSheetLength,
    FactMalformed,
    ListTooShort,
    TooManyQuestions,
    SheetTooShort,
    PairMalformed,
    HelperAsRole,
    NoAnswer,
    StepsTooShort,
}

// The refusal's number on the list.
impl From<Refusal> for u32 {
    ghost from_gives = { λ refusal number. number ≡ code refusal };

    fn from(refusal: Refusal) -> u32 {
        match refusal {
            Refusal::RuleSheetLength => 1,
            Refusal::NoSuchRule => 2,
            Refusal::QuestionMalformed => 3,
            Refusal::AnswerVariableNowhere => 4,
            Refusal::AtomTwice => 5,
            Refusal::UnionMalformed => 6,
            Refusal::FirstMemberNotQuestion => 7,
            Refusal::StepDoesNotApply => 8,
            Refusal::StepGivesAnother => 9,
            Refusal::MembersAlike => 10,
            Refusal::UnionOpen => 11,
            Refusal::FactSheetLength => 12,
            Refusal::FactMalformed => 13,
            Refusal::ListTooShort => 14,
            Refusal::TooManyQuestions => 15,
            Refusal::SheetTooShort => 16,
            Refusal::PairMalformed => 17,
            Refusal::HelperAsRole => 18,
            Refusal::NoAnswer => 19,
            Refusal::StepsTooShort => 20,
        }
    }
}
