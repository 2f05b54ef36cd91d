//! The homes of a stub, by variable.
ghost use Rattle.std.specs.Prelude.{◌≡◌, ◌<◌, ◌≤◌, ◌^◌, [], true, length, IfOk};
ghost use Rattle.std.specs.List.{AllByRecursion};
ghost use Rattle.pc_table.specs.Table.{table_tree};
ghost use Rattle.pc_table.specs.StoredTable.{table_of};
ghost use Rattle.pc_table.specs.TableKeeps.{TreeIsThere, units};
ghost use Rattle.pc_window.specs.Tree.{home_of, tree_size};
ghost use Rattle.pc_window.specs.Opening.{first_new};
ghost use Rattle.pc_window.specs.Grafting.{Grafts, HasNames, TakesNames};
ghost use Rattle.pc_window.specs.StoredWindow.{tree_in, supply_in, homes_in, InNodes};

use pc_table::{RegionTable, RegionTree};
use pc_window::{Home, NameTable, VARIABLES, WindowTree, graft};
use pc_word::Operand;
use std::alloc::{AllocError, Global};
use std::marker::Model;

/// The home of each variable, where the first one in a list counts; 0 where there is none.
#[tactic(auto, using(crate::proofs::StubHomes::homes))]
pub fn homes_by_variable(homes: &[Home]) -> [Operand; VARIABLES]
    requires { AllByRecursion (λ home. home.variable < first_new) homes.now }
    ensures { homes_in result ≡ home_of homes.now }
{
    let mut by_variable = [Operand::Lit(0); VARIABLES];
    put_homes(homes, &mut by_variable);
    by_variable
}

/// Puts homes into a table in which no variable has one: the first home of a variable counts.
#[tactic(auto, using(crate::proofs::StubHomes::homes))]
fn put_homes(homes: &[Home], by_variable: &mut [Operand])
    requires small { AllByRecursion (λ home. home.variable < first_new) homes.now }
    requires all { length by_variable.old ≡ first_new }
    requires empty { homes_in by_variable.old ≡ home_of [] }
    ensures put { homes_in by_variable.new ≡ home_of homes.now }
    ensures all { length by_variable.new ≡ first_new }
{
    let mut left = homes.len();
    while left > 0 {
        left -= 1;
        let home = &homes[left];
        by_variable[home.variable as usize] = home.value;
    }
}

/// Takes the homes that were put into a table out of it.
#[tactic(auto, using(crate::proofs::StubHomes::homes))]
fn take_homes(homes: &[Home], by_variable: &mut [Operand])
    requires small { AllByRecursion (λ home. home.variable < first_new) homes.now }
    requires all { length by_variable.old ≡ first_new }
    requires put { homes_in by_variable.old ≡ home_of homes.now }
    ensures empty { homes_in by_variable.new ≡ home_of [] }
    ensures all { length by_variable.new ≡ first_new }
{
    for at in 0..homes.len() {
        by_variable[homes[at].variable as usize] = Operand::Lit(0);
    }
}

/// A table into which the homes of one stub after another are put. Between two stubs no variable has a
/// home there.
#[derive(Debug, Drop)]
pub(crate) struct HomeTable {
    by_variable: [Operand; VARIABLES],
}

impl Model for HomeTable {
    ghost use Rattle.std.specs.Prelude.{◌≡◌, []};
    ghost use Rattle.std.specs.Coded.{codes};
    ghost use Rattle.pc_window.specs.Tree.{home_of};
    ghost use Rattle.pc_window.specs.StoredWindow.{homes_in};

    ghost Value = { Unit {0} };

    ghost coded = { Prim.hlevel codes };

    ghost view = { λ it. tt };

    ghost invariant = { λ it. homes_in it.by_variable ≡ home_of [] };
}

impl HomeTable {
    /// A table in which no variable has a home.
    #[tactic(auto, using(crate::proofs::StubHomes::homes))]
    pub(crate) fn new() -> HomeTable {
        HomeTable {
            by_variable: [Operand::Lit(0); VARIABLES],
        }
    }

    /// A region's tree with these homes in place of its variables.
    #[tactic(auto, using(crate::proofs::StubHomes::homes))]
    pub(crate) fn graft(
        &mut self,
        alloc: Global,
        table: &RegionTable,
        inside: Option<u16>,
        tag: u32,
        from: &RegionTree,
        names: &mut NameTable,
        homes: &[Home],
    ) -> Result<WindowTree, AllocError>
        requires small { AllByRecursion (λ home. home.variable < first_new) homes.now }
        requires there { TreeIsThere (length table.now.arrays) (length table.now.regions) (table_tree from.now) }
        requires tag { tag < 2 ^ 31 }
        requires room { HasNames names.old (table_tree from.now) }
        ensures tree { IfOk result (λ tree.
            Grafts (table_of table.now) inside tag (table_tree from.now) (supply_in names.old) (home_of homes.now) (tree_in tree) (supply_in names.new)) }
        ensures names { IfOk result (λ tree. TakesNames (table_tree from.now) names.old names.new) }
        ensures nodes { IfOk result (λ tree. InNodes true tree) }
        ensures size { IfOk result (λ tree. tree_size (tree_in tree) ≤ units (table_tree from.now)) }
    {
        let by_variable = &mut self.by_variable;
        put_homes(homes, by_variable);
        let tree = match graft(alloc, table, inside, tag, from, names, by_variable) {
            Ok(tree) => tree,
            Err(error) => {
                *by_variable = [Operand::Lit(0); VARIABLES];
                return Err(error);
            }
        };
        take_homes(homes, by_variable);
        Ok(tree)
    }
}
