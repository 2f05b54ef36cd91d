//! How many items, tests, and loads and stores the row of a state has.
ghost use Rattle.std.specs.Prelude.{◌≡◌, ◌≤◌};
ghost use Rattle.pc_word.specs.StoredRow.{row_in};
ghost use Rattle.pc_explain.specs.models.Counted.{counted, HasFew};

use pc_automaton::AutomatonLeaf;
use pc_machine::Counts;
use pc_word::RowTree;

/// How many items, tests, and loads and stores a row has, over its whole tree.
pub(crate) fn count(row: &RowTree<AutomatonLeaf>) -> Counts
    requires { HasFew (row_in (λ leaf. leaf) row.now) }
    ensures { result ≡ counted (row_in (λ leaf. leaf) row.now) }
{
    match row {
        RowTree::Step { item, next } => {
            let below = count(next);
            Counts {
                ops: below.ops + 1,
                tests: below.tests,
                mem: below.mem + u8::from(item.is_memory()),
            }
        }
        RowTree::Test { yes, no, .. } => {
            let (left, right) = (count(yes), count(no));
            Counts {
                ops: left.ops + right.ops,
                tests: left.tests + right.tests + 1,
                mem: left.mem + right.mem,
            }
        }
        RowTree::Leaf { .. } => Counts::none(),
    }
}
