//! Certificates that are proposed for codes: row by row the steps by which the window that is left becomes one whose
//! front the row does, and the facts that hold there. Nothing is claimed of what is proposed but that it can be
//! written; whether it shows that a code does what its table does is for a checker to say.
//!
//! Rows are gone through as they are reached (`proposing`). What is left where a row is reached first is kept as a stand,
//! with the facts that hold there, of the registers that are live (`liveness`, `arriving`, `facts`); how its window begins
//! is chosen (`opening`). From a stand that waits one goes on (`going`):
//!
//! 1. The row's items and tests are what is wanted, each with the facts of what it reads (`wanted`).
//! 2. In the window, as a list of its parts (`parts`, `ways`), of all that is ready and equal to something wanted the
//!    first is brought into the front, and so on (`choosing`, `filling`, `moving`, `trying`). Of equal items one is
//!    taken only where the register that the row writes is still read, or live, where the window's item stands: the rows
//!    are followed along the tests above the item (`following`).
//! 3. Where something wanted is not found, stubs below that leaf are opened or entered, one iteration ahead, then two,
//!    then three; those stay open from which something came (`looking`, `ahead`). If regions of another loop are entered
//!    so, one below the other, the window takes that loop (`planning`).
//! 4. The window is arranged, the row matched with its front, and what is left at each leaf arrives at the next row. At a
//!    row that was reached before it has to be the same window, and of the row's facts those stay that hold each time; if
//!    some were lost, its stand waits again.
//!
//! When none waits, ranks are given (`ranks`) and entries made (`drafts`). Where a row cannot be gone on from, the rows
//! are gone through again with what was learnt (`learning`): facts that were lost later are not planned with, or a region
//! is entered a row earlier (`early`), since what passes a test below the copies of a region forgets how it depends on
//! them. Then windows are unwound to other numbers of iterations; and at last equal items of a row are taken in the order
//! in which they stand in the window.
#![tactic(auto)]

mod ahead;
mod arriving;
mod choosing;
mod drafts;
mod early;
mod facts;
mod filling;
mod following;
mod going;
mod learning;
mod liveness;
mod looking;
mod moving;
mod opening;
mod parts;
mod planning;
mod proposing;
mod ranks;
mod registers;
mod stands;
mod start;
mod trying;
mod undone;
mod wanted;
mod ways;

pub use proposing::propose;
