//! Statements, lowered backwards: each one is given the number after its last node, and places where
//! it leads.
ghost use Rattle.std.specs.Prelude.{◌≡◌, ◌+◌, ◌<◌, ℕ, true, length};
ghost use Rattle.pc_word.specs.SourceLimits.{most_scalars};
ghost use Rattle.pc_syntax.specs.Source.{Branch, WhileLoop, DoLoop, ForLoop};
ghost use Rattle.pc_syntax.specs.Erasure.{expression_of, statement_of, optional_of, list_of};
ghost use Rattle.pc_check.specs.Sizes.{expression_size, statement_size, branch_size, list_size};
ghost use Rattle.pc_check.specs.Sound.{is_sound, branch_is_sound, list_is_sound};
ghost use Rattle.pc_lower.specs.models.Drafts.{IsPlaced, IsTested};
ghost use Rattle.pc_lower.specs.models.Fills.{LaysLoops, IsOwn};
ghost use Rattle.pc_lower.specs.models.LowersExpression.{IsHeld};
ghost use Rattle.pc_lower.specs.SourceLoops.{loop_count, branch_loops, list_loops};
ghost use Rattle.pc_lower.specs.models.LowersStatement.{IsSpot, AreTested, LaysStatement, LaysOptional, LaysList, LaysRound, LaysTurns, StatementNodes};

use crate::assignment::{Target, lower_assignment, lower_declaration};
use crate::draft::Draft;
use crate::measure::{branch_loops, list_loops, loop_count};
use crate::spot::{Laid, Spot};
use crate::value::{Closing, close_loop, lower_condition, lower_print, lower_turn, lower_value};
use pc_check::{branch_size, statement_size};
use pc_syntax::{Expr, Stmt, StmtList};

/// A condition, its test, and the statement on each side.
#[cycle(lower_statement)]
fn lower_branch(
    draft: &mut Draft,
    test: &Expr,
    yes: &Stmt,
    no: &Option<Box<Stmt>>,
    spot: Spot,
) -> Laid
    requires spot { IsSpot draft.now (expression_size (expression_of test.now) + statement_size (statement_of yes.now)
        + branch_size (optional_of no.now) + 1) (loop_count (statement_of yes.now) + branch_loops (optional_of no.now)) spot }
    requires test { IsHeld draft.now.graph.arrays (expression_of test.now) 0 }
    requires yes { is_sound most_scalars (length draft.now.graph.arrays) true (statement_of yes.now) ≡ true }
    requires no { branch_is_sound most_scalars (length draft.now.graph.arrays) true (optional_of no.now) ≡ true }
    ensures laid { LaysLoops draft.old draft.new (expression_size (expression_of test.now) + statement_size (statement_of yes.now)
        + branch_size (optional_of no.now) + 1) result.start spot.end
        (IsOwn (loop_count (statement_of yes.now) + branch_loops (optional_of no.now)) spot.loops_end)
        (StatementNodes (Branch 0 (expression_of test.now) (statement_of yes.now) (optional_of no.now)) spot.inside spot.loops_end
        result.start spot.end spot.break_to spot.continue_to spot.return_to result.entry spot.next) }
    ensures begins { IsPlaced draft.new.graph result.entry }
    ensures tested { AreTested draft.new (loop_count (statement_of yes.now) + branch_loops (optional_of no.now)) spot.loops_end }
{
    let other = lower_optional(draft, no, spot);
    let behind = Spot {
        end: other.start,
        loops_end: spot.loops_end - branch_loops(no),
        ..spot
    };
    let chosen = lower_statement(draft, yes, behind);
    let site = spot.site(chosen.entry).up_to(chosen.start);
    Laid::at(lower_condition(draft, test, other.entry, site))
}

/// A `while`: the condition, its test and the body, which leads back to the condition.
#[cycle(lower_statement)]
#[tactic(auto, using(crate::proofs::Assigned::held_value))]
fn lower_while(draft: &mut Draft, test: &Expr, body: &Stmt, spot: Spot) -> Laid
    requires spot { IsSpot draft.now (expression_size (expression_of test.now) + statement_size (statement_of body.now) + 1)
        (loop_count (statement_of body.now) + 1) spot }
    requires test { IsHeld draft.now.graph.arrays (expression_of test.now) 0 }
    requires body { is_sound most_scalars (length draft.now.graph.arrays) true (statement_of body.now) ≡ true }
    ensures laid { (line : ℕ) → LaysLoops draft.old draft.new (expression_size (expression_of test.now) + statement_size (statement_of body.now) + 1)
        result.start spot.end (IsOwn (loop_count (statement_of body.now) + 1) spot.loops_end)
        (StatementNodes (WhileLoop line (expression_of test.now) (statement_of body.now)) spot.inside spot.loops_end
        result.start spot.end spot.break_to spot.continue_to spot.return_to result.entry spot.next) }
    ensures begins { IsPlaced draft.new.graph result.entry }
    ensures tested { AreTested draft.new (loop_count (statement_of body.now) + 1) spot.loops_end }
{
    let own = spot.loops_end - 1 - loop_count(body);
    let at = spot.end - 1 - statement_size(body);
    let header = lower_turn(draft, test, own, spot.turn(own, at + 1));
    let within = Spot {
        next: header,
        break_to: spot.next,
        continue_to: header,
        inside: Some(own),
        ..spot
    };
    let yes = lower_statement(draft, body, within).entry;
    let no = spot.next;
    let closing = Closing {
        at,
        yes,
        no,
        own,
        header,
    };
    close_loop(draft, test, closing);
    Laid::at(header)
}

/// A `do`: the body, the condition and its test, which leads back to the body.
#[cycle(lower_statement)]
#[tactic(auto, using(crate::proofs::Assigned::held_value))]
fn lower_do(draft: &mut Draft, test: &Expr, body: &Stmt, spot: Spot) -> Laid
    requires spot { IsSpot draft.now (statement_size (statement_of body.now) + expression_size (expression_of test.now) + 1)
        (loop_count (statement_of body.now) + 1) spot }
    requires test { IsHeld draft.now.graph.arrays (expression_of test.now) 0 }
    requires body { is_sound most_scalars (length draft.now.graph.arrays) true (statement_of body.now) ≡ true }
    ensures laid { (line : ℕ) → LaysLoops draft.old draft.new (statement_size (statement_of body.now) + expression_size (expression_of test.now) + 1)
        result.start spot.end (IsOwn (loop_count (statement_of body.now) + 1) spot.loops_end)
        (StatementNodes (DoLoop line (statement_of body.now) (expression_of test.now)) spot.inside spot.loops_end
        result.start spot.end spot.break_to spot.continue_to spot.return_to result.entry spot.next) }
    ensures begins { IsPlaced draft.new.graph result.entry }
    ensures tested { AreTested draft.new (loop_count (statement_of body.now) + 1) spot.loops_end }
{
    let own = spot.loops_end - 1 - loop_count(body);
    let at = spot.end - 1;
    let next = lower_turn(draft, test, own, spot.turn(own, at + 1));
    let within = Spot {
        end: next,
        next,
        break_to: spot.next,
        continue_to: next,
        inside: Some(own),
        ..spot
    };
    let laid = lower_statement(draft, body, within);
    let closing = Closing {
        at,
        yes: laid.entry,
        no: spot.next,
        own,
        header: laid.start,
    };
    close_loop(draft, test, closing);
    laid
}

/// The body of a `for` and its step, to which the body leads on. A `break` in the body leads out of
/// the loop.
#[cycle(lower_statement)]
fn lower_round(
    draft: &mut Draft,
    body: &Stmt,
    step: &Option<Box<Stmt>>,
    out: u32,
    spot: Spot,
) -> Laid
    requires spot { IsSpot draft.now (statement_size (statement_of body.now) + branch_size (optional_of step.now))
        (branch_loops (optional_of step.now) + loop_count (statement_of body.now)) spot }
    requires out { IsPlaced draft.now.graph out }
    requires step { branch_is_sound most_scalars (length draft.now.graph.arrays) true (optional_of step.now) ≡ true }
    requires body { is_sound most_scalars (length draft.now.graph.arrays) true (statement_of body.now) ≡ true }
    ensures laid { LaysRound (statement_of body.now) (optional_of step.now) out spot result draft.old draft.new }
    ensures begins { IsPlaced draft.new.graph result.entry }
    ensures tested { AreTested draft.new (branch_loops (optional_of step.now) + loop_count (statement_of body.now)) spot.loops_end }
{
    let inner = Spot {
        loops_end: spot.loops_end - loop_count(body),
        ..spot
    };
    let after = lower_optional(draft, step, inner);
    lower_statement(draft, body, spot.round(out, after))
}

/// The turns of a `for`: the condition, its test, the body and the step, which leads back to the
/// condition.
#[cycle(lower_statement)]
#[tactic(auto, using(crate::proofs::Assigned::held_value))]
fn lower_turns(
    draft: &mut Draft,
    own: u16,
    test: &Expr,
    step: &Option<Box<Stmt>>,
    body: &Stmt,
    spot: Spot,
) -> u32
    requires spot { IsSpot draft.now (expression_size (expression_of test.now) + 1 + (statement_size (statement_of body.now)
        + branch_size (optional_of step.now))) (branch_loops (optional_of step.now) + loop_count (statement_of body.now)) spot }
    requires own { own < length draft.now.graph.loops }
    requires number { own + (branch_loops (optional_of step.now) + loop_count (statement_of body.now)) < spot.loops_end }
    requires test { IsHeld draft.now.graph.arrays (expression_of test.now) 0 }
    requires step { branch_is_sound most_scalars (length draft.now.graph.arrays) true (optional_of step.now) ≡ true }
    requires body { is_sound most_scalars (length draft.now.graph.arrays) true (statement_of body.now) ≡ true }
    ensures laid { LaysTurns (expression_of test.now) (optional_of step.now) (statement_of body.now) own spot result draft.old draft.new }
    ensures own { IsTested draft.new.graph own }
    ensures tested { AreTested draft.new (branch_loops (optional_of step.now) + loop_count (statement_of body.now)) spot.loops_end }
{
    let at = spot.end - 1 - statement_size(body) - branch_size(step);
    let header = lower_turn(draft, test, own, spot.turn(own, at + 1));
    let within = Spot {
        next: header,
        inside: Some(own),
        ..spot
    };
    let yes = lower_round(draft, body, step, spot.next, within).entry;
    let no = spot.next;
    let closing = Closing {
        at,
        yes,
        no,
        own,
        header,
    };
    close_loop(draft, test, closing);
    header
}

/// A `for`: the first part and the turns.
#[cycle(lower_statement)]
#[tactic(auto, using(crate::proofs::Weights::list_some))]
fn lower_for(
    draft: &mut Draft,
    first: &StmtList,
    test: &Expr,
    step: &Option<Box<Stmt>>,
    body: &Stmt,
    spot: Spot,
) -> Laid
    requires spot { IsSpot draft.now (list_size (list_of first.now) + expression_size (expression_of test.now)
        + branch_size (optional_of step.now) + statement_size (statement_of body.now) + 1)
        (list_loops (list_of first.now) + (branch_loops (optional_of step.now) + loop_count (statement_of body.now)) + 1) spot }
    requires first { list_is_sound most_scalars (length draft.now.graph.arrays) true (list_of first.now) ≡ true }
    requires test { IsHeld draft.now.graph.arrays (expression_of test.now) 0 }
    requires step { branch_is_sound most_scalars (length draft.now.graph.arrays) true (optional_of step.now) ≡ true }
    requires body { is_sound most_scalars (length draft.now.graph.arrays) true (statement_of body.now) ≡ true }
    ensures laid { (line : ℕ) → LaysLoops draft.old draft.new (list_size (list_of first.now) + expression_size (expression_of test.now)
        + branch_size (optional_of step.now) + statement_size (statement_of body.now) + 1) result.start spot.end
        (IsOwn (list_loops (list_of first.now) + (branch_loops (optional_of step.now) + loop_count (statement_of body.now)) + 1) spot.loops_end)
        (StatementNodes
        (ForLoop line (list_of first.now) (expression_of test.now) (optional_of step.now) (statement_of body.now)) spot.inside spot.loops_end
        result.start spot.end spot.break_to spot.continue_to spot.return_to result.entry spot.next) }
    ensures begins { IsPlaced draft.new.graph result.entry }
    ensures tested { AreTested draft.new (list_loops (list_of first.now) + (branch_loops (optional_of step.now) + loop_count (statement_of body.now)) + 1) spot.loops_end }
{
    let behind = spot.loops_end - loop_count(body) - branch_loops(step);
    let own = behind - 1 - list_loops(first);
    let header = lower_turns(draft, own, test, step, body, spot);
    lower_list(draft, first, spot.before(Laid::at(header), behind))
}

/// A statement before the end of a spot.
#[cycle(lower_statement)]
#[tactic(auto, using(crate::proofs::Rules::statements), unfolding(pc_check::specs::Sizes::statement_size, pc_check::specs::Sound::is_sound, crate::specs::SourceLoops::loop_count))]
pub(crate) fn lower_statement(draft: &mut Draft, statement: &Stmt, spot: Spot) -> Laid
    requires spot { IsSpot draft.now (statement_size (statement_of statement.now)) (loop_count (statement_of statement.now)) spot }
    requires sound { is_sound most_scalars (length draft.now.graph.arrays) true (statement_of statement.now) ≡ true }
    ensures laid { LaysStatement (statement_of statement.now) spot result draft.old draft.new }
    ensures begins { IsPlaced draft.new.graph result.entry }
    ensures tested { AreTested draft.new (loop_count (statement_of statement.now)) spot.loops_end }
{
    let site = spot.site(spot.next);
    match statement {
        Stmt::Block { items } => lower_list(draft, items, spot),
        Stmt::If { test, yes, no, .. } => lower_branch(draft, test, yes, no, spot),
        Stmt::Scalar { symbol, init, .. } => {
            Laid::at(lower_declaration(draft, *symbol, init, site))
        }
        Stmt::Assign {
            symbol,
            index,
            bracket,
            op,
            at,
            value,
            ..
        } => {
            let target = Target::new(*symbol, *bracket, *op, *at);
            Laid::at(lower_assignment(draft, target, index, value, site))
        }
        Stmt::Print { value, .. } => Laid::at(lower_print(draft, value, site)),
        Stmt::Eval { value, .. } => lower_value(draft, value, site),
        Stmt::Return { value, .. } => lower_value(draft, value, spot.site(spot.return_to)),
        Stmt::Break { .. } => Laid::empty(spot.end, spot.break_to),
        Stmt::Continue { .. } => Laid::empty(spot.end, spot.continue_to),
        Stmt::Array { .. } => Laid::empty(spot.end, spot.next),
        Stmt::Empty | Stmt::Call { .. } => Laid::empty(spot.end, spot.next),
        Stmt::While { test, body, .. } => lower_while(draft, test, body, spot),
        Stmt::Do { body, test, .. } => lower_do(draft, test, body, spot),
        Stmt::For {
            first,
            test,
            step,
            body,
            ..
        } => lower_for(draft, first, test, step, body, spot),
    }
}

/// The same of a statement that may be left out.
#[cycle(lower_statement)]
#[tactic(auto, using(crate::proofs::Rules::statements), unfolding(pc_check::specs::Sizes::statement_size, pc_check::specs::Sound::is_sound, crate::specs::SourceLoops::loop_count))]
fn lower_optional(draft: &mut Draft, statement: &Option<Box<Stmt>>, spot: Spot) -> Laid
    requires spot { IsSpot draft.now (branch_size (optional_of statement.now)) (branch_loops (optional_of statement.now)) spot }
    requires sound { branch_is_sound most_scalars (length draft.now.graph.arrays) true (optional_of statement.now) ≡ true }
    ensures laid { LaysOptional (optional_of statement.now) spot result draft.old draft.new }
    ensures begins { IsPlaced draft.new.graph result.entry }
    ensures tested { AreTested draft.new (branch_loops (optional_of statement.now)) spot.loops_end }
{
    match statement {
        None => Laid::empty(spot.end, spot.next),
        Some(statement) => lower_statement(draft, statement, spot),
    }
}

/// Statements in order, from the last to the first.
#[cycle(lower_statement)]
#[tactic(auto, using(crate::proofs::Rules::statements), unfolding(pc_check::specs::Sizes::statement_size, pc_check::specs::Sound::is_sound, crate::specs::SourceLoops::loop_count))]
pub(crate) fn lower_list(draft: &mut Draft, items: &StmtList, spot: Spot) -> Laid
    requires spot { IsSpot draft.now (list_size (list_of items.now)) (list_loops (list_of items.now)) spot }
    requires sound { list_is_sound most_scalars (length draft.now.graph.arrays) true (list_of items.now) ≡ true }
    ensures laid { LaysList (list_of items.now) spot result draft.old draft.new }
    ensures begins { IsPlaced draft.new.graph result.entry }
    ensures tested { AreTested draft.new (list_loops (list_of items.now)) spot.loops_end }
{
    let mut laid = Laid::empty(spot.end, spot.next);
    let mut loops_end = spot.loops_end;
    for at in (0..items.len()).rev() {
        let item = &items.as_slice()[at];
        laid = lower_statement(draft, item, spot.before(laid, loops_end));
        loops_end -= loop_count(item);
    }
    laid
}
