//! What is known of the rows that were reached.
ghost use Rattle.pc_word.specs.Ranges.{AreLimits};

use crate::following::Care;
use crate::registers::RegisterSet;
use pc_cert::{Fact, Opening, Step};
use pc_machine::Code;
use pc_table::RegionTable;
use pc_window::Window;

/// What a certificate is proposed for.
#[derive(Drop)]
pub(crate) struct Setting<'a> {
    pub(crate) table: &'a RegionTable,
    pub(crate) code: &'a Code,
    /// For each row the registers whose values matter where it begins.
    pub(crate) live: &'a [RegisterSet],
    /// For each loop whether it is pipelined.
    pub(crate) pipelined: &'a [bool],
    /// For each row whether regions that it needs are entered before it.
    pub(crate) early: &'a [bool],
    /// How carefully equal items are told apart at first.
    pub(crate) care: Care,
    /// The stands of an earlier try; none before the first.
    pub(crate) before: &'a Stands,
    /// To how many iterations the windows of pipelined loops are unwound.
    pub(crate) number: u8,
    pub(crate) ghost limits: { AreLimits code.now.limits },
}

/// A leaf leads to a stand, whose rank has to be smaller, or not.
#[derive(Clone, Copy)]
pub(crate) struct Link {
    pub(crate) to: u32,
    pub(crate) falls: bool,
}

/// A row that was reached: what is left to do there, and what is known.
#[derive(Drop)]
pub(crate) struct Stand {
    pub(crate) row: u32,
    /// The stand from which it was reached first.
    pub(crate) from: Option<u32>,
    pub(crate) opening: Opening,
    /// The key of the window that it began with where it was reached first.
    pub(crate) first_key: Vec<u8>,
    /// The key of the window that it begins with.
    pub(crate) key: Vec<u8>,
    /// The least tag of that window.
    pub(crate) tag: u32,
    pub(crate) facts: Vec<Fact>,
    pub(crate) steps: Vec<Step>,
    pub(crate) planned: bool,
    /// Whether facts were lost since it was planned.
    pub(crate) misplanned: bool,
    /// Whether it was reached with fewer facts since it was last gone on from.
    pub(crate) waits: bool,
    /// For each leaf of the row where it leads, if to a row.
    pub(crate) links: Vec<Option<Link>>,
}

/// The stands so far, and for each row which is its own.
#[derive(Drop)]
pub(crate) struct Stands {
    pub(crate) all: Vec<Stand>,
    /// For each stand what was left where it was reached first.
    pub(crate) lefts: Vec<Window>,
    pub(crate) of_row: Vec<Option<u32>>,
    /// The stand that is gone on from, and the one at which something else arrived than before.
    pub(crate) current: Option<u32>,
    pub(crate) missed: Option<u32>,
}
