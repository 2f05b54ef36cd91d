//! What is chosen for regions, and why.
use crate::{CauseList, ChoiceList, FormList};

/// A kind of form, in the order in which they are tried.
#[derive(Clone, Copy, Debug, PartialEq, Eq)]
pub enum Form {
    /// A row for each state of an automaton in which turns of a loop overlap. It has so many states,
    /// and might have had so many rows.
    Pipelined { states: u32, rows: u32 },
    /// A row for each state of an automaton.
    Packed,
    /// A row for each item and test. It is never refused.
    Plain,
}

/// Why a region did not get a form: a number is above the limit for it.
#[derive(Clone, Copy, Debug, PartialEq, Eq)]
pub enum Cause {
    /// The search for the form came to so many windows.
    Rows { number: u32, limit: u32 },
    /// So many names are live together.
    Live { number: u32, limit: u32 },
    /// The object would have so many bytes, with each region plain that has no form yet.
    Bytes { number: u32, limit: u32 },
}

/// What was chosen for a region.
#[derive(Debug, Drop)]
pub struct Choice {
    pub region: u32,
    pub form: Form,
    /// Why it did not get the forms before that, in their order.
    pub causes: CauseList,
}

/// What was chosen for the regions that are reachable from region 0, in the order in which they were
/// taken, the forms themselves, by region, and the bytes that are counted for the object in these forms,
/// with each region plain that has none.
#[derive(Drop)]
pub struct Chosen {
    pub choices: ChoiceList,
    pub forms: FormList,
    pub bytes: u32,
}
