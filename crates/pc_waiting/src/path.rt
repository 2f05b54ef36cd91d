//! What an item or test meets on its way from its place up into the front.
ghost use Rattle.std.specs.Prelude.{◌≡◌, ◌↔◌, true};
ghost use Rattle.pc_word.specs.Items.{operand_list};
ghost use Rattle.pc_window.specs.StoredWindow.{forms_in};
ghost use Rattle.pc_waiting.specs.Waiting.{kind_writes, writer_of, needed_by, needed, LetsPass, met, FirstInWay};
ghost use Rattle.pc_waiting.specs.models.Path.{path_in};

use crate::obstacle::Obstacle;
use pc_window::NameTable;
use pc_word::{Item, Operand, Operands};

/// What stands above a place of a window, and where.
#[derive(Clone, Copy)]
pub(crate) enum Kind {
    /// An item of the front.
    Issued(Item),
    /// An item behind the front.
    Pending(Item),
    /// A test behind the front.
    Undecided,
}

/// An item or test above a place of a window. Tests of the front are none of these, since past them everything may come.
#[derive(Clone, Copy)]
pub(crate) struct Above {
    pub(crate) tag: u32,
    pub(crate) origin: u32,
    pub(crate) kind: Kind,
}

/// What stands above a place, from the place up to the root. It lies on the stack of the walk that goes down to the place.
#[derive(Drop)]
pub(crate) enum Path<'a> {
    /// Nothing.
    Root,
    /// One more, right above the place.
    Below { last: Above, path: &'a Path<'a> },
}

impl Kind {
    /// Whether it writes a name.
    fn writes(self, name: u32) -> bool
        ensures { result ≡ kind_writes self name }
    {
        match self {
            Kind::Issued(item) => item.writes(name),
            Kind::Pending(item) => item.writes(name),
            Kind::Undecided => false,
        }
    }

    /// Whether it lets an item, or a test, pass on its way into the front.
    fn lets_pass(self, names: &NameTable, what: Option<Item>) -> bool
        ensures { (result ≡ true) ↔ LetsPass (forms_in names.now.forms) self what }
    {
        match (self, what) {
            (Kind::Issued(above), Some(item)) => names.may_follow(above, item),
            (Kind::Issued(_), None) => true,
            (Kind::Pending(above), Some(item)) => names.no_conflict(above, item),
            (Kind::Pending(_), None) => true,
            (Kind::Undecided, Some(item)) => item.only_computes(),
            (Kind::Undecided, None) => false,
        }
    }
}

impl Above {
    /// What it is to an item or test that it does not let pass.
    fn met(self, first: u32) -> Obstacle
        ensures { result ≡ met first self }
    {
        let iteration = self.tag.saturating_sub(first);
        let origin = self.origin;
        match self.kind {
            Kind::Issued(_) => Obstacle::Meets { iteration, origin },
            Kind::Pending(_) => Obstacle::Meets { iteration, origin },
            Kind::Undecided => Obstacle::Undecided { iteration, origin },
        }
    }
}

/// The nearest item above that writes a name.
fn writer_of(path: &Path, first: u32, name: u32) -> Option<Obstacle>
    ensures { result ≡ writer_of first (path_in path.now) name }
{
    match path {
        Path::Root => None,
        Path::Below { last, path } => {
            if last.kind.writes(name) {
                return Some(Obstacle::Needs {
                    iteration: last.tag.saturating_sub(first),
                    origin: last.origin,
                });
            }
            writer_of(path, first, name)
        }
    }
}

/// The item above that writes what an operand reads.
fn needed_by(path: &Path, first: u32, operand: Operand) -> Option<Obstacle>
    ensures { result ≡ needed_by first (path_in path.now) operand }
{
    match operand {
        Operand::Name(name) => writer_of(path, first, name),
        Operand::Lit(_) => None,
    }
}

/// The item above that writes what the first of these operands reads that is written above.
pub(crate) fn needed(path: &Path, first: u32, operands: Operands) -> Option<Obstacle>
    ensures { result ≡ needed first (path_in path.now) (operand_list operands) }
{
    match operands {
        Operands::None => None,
        Operands::One(one) => needed_by(path, first, one),
        Operands::Two(one, other) => match needed_by(path, first, one) {
            Some(obstacle) => Some(obstacle),
            None => needed_by(path, first, other),
        },
    }
}

/// The first of what stands above, from the root down, that does not let an item, or a test, pass.
#[tactic(auto, using(crate::proofs::Looked::ways))]
pub(crate) fn first_in_way(
    names: &NameTable,
    path: &Path,
    first: u32,
    what: Option<Item>,
) -> Option<Obstacle>
    ensures { FirstInWay (forms_in names.now.forms) first what (path_in path.now) result }
{
    match path {
        Path::Root => None,
        Path::Below { last, path } => {
            if let Some(obstacle) = first_in_way(names, path, first, what) {
                return Some(obstacle);
            }
            if last.kind.lets_pass(names, what) {
                return None;
            }
            Some(last.met(first))
        }
    }
}
