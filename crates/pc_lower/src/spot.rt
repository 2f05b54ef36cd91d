//! Where a statement is placed, and where it begins.
ghost use Rattle.std.specs.Prelude.{◌≡◌, Some};

use crate::site::Site;

/// Where a statement is placed: right before the number `end`, so that it leads on to the node `next`,
/// a `break` in it to `break_to`, a `continue` to `continue_to` and a `return` to `return_to`. It
/// stands in the text of a loop or of none, and its own loops have the numbers right below
/// `loops_end`.
#[derive(Clone, Copy, Debug)]
pub(crate) struct Spot {
    pub end: u32,
    pub next: u32,
    pub break_to: u32,
    pub continue_to: u32,
    pub return_to: u32,
    pub inside: Option<u16>,
    pub loops_end: u16,
}

/// Where the nodes of a statement start, and the node where it begins: without nodes that is one to
/// which it leads.
#[derive(Clone, Copy, Debug)]
pub(crate) struct Laid {
    pub start: u32,
    pub entry: u32,
}

impl Laid {
    /// Nodes that begin with the first.
    pub(crate) fn at(start: u32) -> Laid
        ensures { result ≡ record { start = start; entry = start } }
    {
        Laid {
            start,
            entry: start,
        }
    }

    /// No nodes before a number: what begins there begins elsewhere.
    pub(crate) fn empty(end: u32, entry: u32) -> Laid
        ensures { result ≡ record { start = end; entry = entry } }
    {
        Laid { start: end, entry }
    }
}

impl Spot {
    /// The place of a statement before one that was placed, which leads on to it and whose loops are
    /// numbered up to an end.
    pub(crate) fn before(self, later: Laid, loops_end: u16) -> Spot
        ensures { result ≡ record self { end = later.start; next = later.entry; loops_end = loops_end } }
    {
        Spot {
            end: later.start,
            next: later.entry,
            loops_end,
            ..self
        }
    }

    /// The place of a `for`'s body before its step: a `break` leads out of the loop, and a `continue`
    /// to the step, as the body's end does.
    pub(crate) fn round(self, out: u32, step: Laid) -> Spot
        ensures { result ≡ record self { end = step.start; next = step.entry; break_to = out; continue_to = step.entry } }
    {
        Spot {
            end: step.start,
            next: step.entry,
            break_to: out,
            continue_to: step.entry,
            ..self
        }
    }

    /// The place of a loop's condition and its test, before a number.
    pub(crate) fn turn(self, own: u16, end: u32) -> Site
        ensures { result ≡ record { temporary = 0; end = end; next = self.next; inside = Some own } }
    {
        Site {
            temporary: 0,
            end,
            next: self.next,
            inside: Some(own),
        }
    }

    /// The place of the nodes of an expression that leads on to a node.
    pub(crate) fn site(self, next: u32) -> Site
        ensures { result ≡ record { temporary = 0; end = self.end; next = next; inside = self.inside } }
    {
        Site {
            temporary: 0,
            end: self.end,
            next,
            inside: self.inside,
        }
    }
}
