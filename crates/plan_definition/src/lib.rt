// The plain data that the definitions of the plan and its code share (document 02, Q-1), and this paper's numbers of it for C.
#![tactic(auto)]

ghost use Rattle.std.specs.Prelude.{◌≡◌};
ghost use Rattle.plan_definition.specs.Rules.{rule_number};
ghost use Rattle.plan_definition.specs.Check.{answer_of};

// The two kinds of well, the links that a record has room for, the most tonnes a day of a rate, and the thousandths that shares add up to.
pub const PRODUCER: u8 = 1;

pub const INJECTOR: u8 = 2;

pub const LINKS_MOST: u8 = 4;

pub const RATE_MOST: u32 = 100000;

pub const SHARES_TOTAL: u16 = 1000;

// A link: the number of the injector that it names, and its share in thousandths.
#[derive(Clone, Copy, Debug, Default, PartialEq, Eq)]
pub struct Link {
    pub injector: u16,
    pub share: u16,
}

// A record of a sheet read as a well, with its place there; count is its link count, and of its links the first count are used. Of its note only
// whether a byte of it is set is read, which tells a struck record. Kind and count are bytes, no enum and no slice: a record may hold any, and the
// rules of Rules.antt judge them.
#[derive(Clone, Copy, Debug, Default, PartialEq, Eq)]
pub struct Well {
    pub place: usize,
    pub number: u16,
    pub kind: u8,
    pub count: u8,
    pub rate: u32,
    pub links: [Link; 4],
    pub noted: bool,
}

// The rules of the request, in its order.
#[derive(Clone, Copy, Debug, PartialEq, Eq)]
pub enum Rule {
    Number = 1,
    Kind,
    LinkCount,
    Rate,
    Links,
    Shares,
    UnusedLinks,
    Repeat,
}

impl From<Rule> for u64 {
    ghost from_gives = { λ rule k. k ≡ rule_number rule };

    fn from(rule: Rule) -> u64 {
        rule as u64
    }
}

// What the check of content says: a refusal by its number, that the sheet is sound, or the rule broken with the place beside it. These are three
// outcomes, so no Result: a faulted sheet is an answer, and says_sound tells it from the others. The refusal stands by its number, as Q-1's
// definition and theorems have it.
#[derive(Clone, Copy, Debug, PartialEq, Eq)]
pub enum Verdict {
    Refused(u64),
    Sound,
    Fault(Rule, usize),
}

// The same for C, which is answered numbers alone: the refusal's, the rule's, and the place.
#[repr(C)]
#[derive(Clone, Copy, Debug, PartialEq, Eq)]
pub struct ContentAnswer {
    pub number: u64,
    pub rule: u64,
    pub place: u64,
}

impl From<Verdict> for ContentAnswer {
    ghost from_gives = { λ v answer. answer ≡ answer_of v };

    fn from(v: Verdict) -> ContentAnswer {
        match v {
            Verdict::Refused(number) => ContentAnswer {
                number,
                rule: 0,
                place: 0,
            },
            Verdict::Sound => ContentAnswer {
                number: 0,
                rule: 0,
                place: 0,
            },
            Verdict::Fault(rule, place) => ContentAnswer {
                number: 0,
                rule: u64::from(rule),
                place: place as u64,
            },
        }
    }
}
