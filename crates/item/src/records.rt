// The records that item rules and their callers share.

// What a rule is opened with.
#[derive(Clone, Copy, Debug, PartialEq, Eq)]
pub struct Header {
    // The rule number. It is no enum: which numbers there are is for each rule to say.
    pub rule: u8,
    // The stock at hand before the first period.
    pub opening: u32,
    // The forced set: bit t stands for period t.
    pub forced: u32,
}

// One period of one item: four prices and the demand.
#[derive(Clone, Copy, Debug, Default, PartialEq, Eq)]
pub struct Row {
    pub setup: u64,
    pub unit: u64,
    pub hold: u64,
    pub short: u64,
    pub demand: u32,
}

// What a plan makes in one period, and whether it sets up for it.
// No Option of an amount: a plan may make something without a setup, which is a fault, or set up for nothing.
#[derive(Clone, Copy, Debug, PartialEq, Eq)]
pub struct Lot {
    pub amount: u32,
    pub setup: bool,
}

// Why a plan is not admitted. The cause is a number and no enum, since each rule may have causes of its own, and a rule that
// holds another passes on the faults of that one too.
#[derive(Clone, Copy, Debug, PartialEq, Eq)]
pub struct Fault {
    pub cause: u8,
    pub period: u8,
    pub depth: u8,
}

// What a rule says of a plan: its exact cost, or its first fault.
pub type Verdict = Result<u64, Fault>;

// Why a rule refuses a call, by its number.
#[derive(Clone, Copy, Debug, PartialEq, Eq)]
pub enum Refusal {
    HeaderNotKnown = 5,
    CostTooHigh = 9,
    NotOpened = 10,
    RowTooLarge = 11,
    TooManyRows = 12,
    PlanDoesNotFit = 13,
}
