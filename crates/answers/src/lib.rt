// What the requests answer, one struct each, with the codes (docs/RULES.md, 'The codes'). Every number is 64 bits; the
// order of the fields is that of the C library.

#![tactic(auto)]

ghost use Rattle.std.specs.Prelude.{◌≡◌, pos};
ghost use Rattle.definitions.specs.Requests.{known_kind, good_index};
ghost use Rattle.definitions.specs.Halves.{negates};
ghost use Rattle.answers.specs.Refusals.{number_of};

pub const DONE: u64 = 0;

pub const KIND: u64 = 1;

pub const INDEX: u64 = 2;

pub const LIMIT: u64 = 3;

pub const SHORT: u64 = 4;

pub const OVER: u64 = 5;

pub const TALL: u64 = 6;

pub const STEP: u64 = 7;

pub const CUT: u64 = 8;

pub const MARK: u64 = 9;

pub const WIDTH: u64 = 11;

pub const RKIND: u64 = 12;

pub const RWIDTH: u64 = 13;

pub const RINDEX: u64 = 14;

pub const RCOUNT: u64 = 15;

pub const LIST: u64 = 16;

pub const ABSENT: u64 = 17;

pub const UNEVEN: u64 = 18;

pub const POINT: u64 = 19;

pub const COARSE: u64 = 20;

pub const RANGE: u64 = 21;

pub const ROWS: u64 = 22;

// Why a request is refused, by the names of the codes (docs/RULES.md, 'The codes').
#[derive(Clone, Copy, Debug, PartialEq, Eq)]
pub enum Refusal {
    Kind,
    Index,
    Limit,
    Short,
    Over,
    Tall,
    Step,
    Cut,
    Mark,
    Width,
    RecordKind,
    RecordWidth,
    RecordIndex,
    RecordCount,
    List,
    Absent,
    Uneven,
    Point,
    Coarse,
    Range,
    Rows,
}

impl From<Refusal> for u64 {
    ghost from_gives = { λ refusal code. code ≡ number_of refusal };

    // The code that C is told.
    fn from(refusal: Refusal) -> u64
        ensures { result ≡ number_of refusal }
    {
        match refusal {
            Refusal::Kind => KIND,
            Refusal::Index => INDEX,
            Refusal::Limit => LIMIT,
            Refusal::Short => SHORT,
            Refusal::Over => OVER,
            Refusal::Tall => TALL,
            Refusal::Step => STEP,
            Refusal::Cut => CUT,
            Refusal::Mark => MARK,
            Refusal::Width => WIDTH,
            Refusal::RecordKind => RKIND,
            Refusal::RecordWidth => RWIDTH,
            Refusal::RecordIndex => RINDEX,
            Refusal::RecordCount => RCOUNT,
            Refusal::List => LIST,
            Refusal::Absent => ABSENT,
            Refusal::Uneven => UNEVEN,
            Refusal::Point => POINT,
            Refusal::Coarse => COARSE,
            Refusal::Range => RANGE,
            Refusal::Rows => ROWS,
        }
    }
}

// A polynomial request's answer.
#[repr(C)]
#[derive(Clone, Copy)]
pub struct Answer {
    pub code: u64,
    pub degree: u64,
    pub additions: u64,
    pub height: u64,
    pub peak: u64,
    pub gain: i64,
}

// A partial request's answer.
#[repr(C)]
#[derive(Drop)]
pub struct Stop {
    pub code: u64,
    pub degree: u64,
    pub additions: u64,
    pub due: u64,
}

impl Answer {
    // A refusal: its code and the degree that it tells; the rest is 0.
    pub fn refused(code: u64, degree: u64) -> Answer
        ensures { result ≡ record { code = code; degree = degree; additions = 0; height = 0; peak = 0; gain = pos 0 } }
    {
        Answer {
            code,
            degree,
            additions: 0,
            height: 0,
            peak: 0,
            gain: 0,
        }
    }

    // The same by its name.
    pub fn of(refusal: Refusal, degree: u64) -> Answer
        ensures { result
            ≡ record { code = number_of refusal; degree = degree; additions = 0; height = 0; peak = 0; gain = pos 0 } }
    {
        Answer::refused(u64::from(refusal), degree)
    }
}

impl Stop {
    // A refusal: its code and the half degree that it tells; the rest is 0.
    pub fn refused(code: u64, degree: u64) -> Stop
        ensures { result ≡ record { code = code; degree = degree; additions = 0; due = 0 } }
    {
        Stop {
            code,
            degree,
            additions: 0,
            due: 0,
        }
    }

    // The same by its name.
    pub fn of(refusal: Refusal, degree: u64) -> Stop
        ensures { result ≡ record { code = number_of refusal; degree = degree; additions = 0; due = 0 } }
    {
        Stop::refused(u64::from(refusal), degree)
    }
}

// Is the kind 1 or 2?
pub fn known_kind(kind: u64) -> bool
    ensures { result ≡ known_kind kind }
{
    kind == 1 || kind == 2
}

// Is n from 1 to 65,535?
pub fn good_index(n: u64) -> bool
    ensures { result ≡ good_index n }
{
    0 < n && n <= 65535
}

// Does the polynomial of a kind and an index change its sign when it is mirrored?
pub fn negates(kind: u64, n: u64) -> bool
    ensures { result ≡ negates kind n }
{
    if kind == 1 {
        return n == 1;
    }
    1 < n
}
