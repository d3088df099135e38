//! The execution of statements.
#![tactic(auto, using(mean_blocks::proofs::Answering::answers_stop, mean_blocks::proofs::Answering::says_answers, mean_blocks::proofs::ExpressionLayers::value_at, mean_blocks::proofs::ExpressionLayers::simple_at, mean_blocks::proofs::ExpressionLayers::term_at, mean_blocks::proofs::ExpressionLayers::member_at))]

ghost use Rattle.std.specs.Prelude.{◌≡◌, ◌+◌, ℤ, true, false, List, [], ◌∷◌, OnOk, option_copied};
ghost use Rattle.plain_effects.specs.plain_systems.HeldSystems.{state_of, LooksSame};
ghost use Rattle.mean_blocks.specs.rule_scope.Outline.{entry_at};
ghost use Rattle.mean_blocks.specs.AnswersOfCalls.{Answers};
ghost use Rattle.mean_blocks.specs.ExpressionValues.{value_of, related, simple_of, with_term};
ghost use Rattle.mean_blocks.specs.ExpressionValues.{term_of, factor_of, member_of, selected};
ghost use Rattle.mean_blocks.specs.ExpressionValues.{components_in, subscripts_in, values_in};
ghost use Rattle.mean_blocks.specs.ExpressionValues.{variable_of, variable_value, required_in};
ghost use Rattle.mean_blocks.specs.ExpressionValues.{call_value, variable_place, argument_of};
ghost use Rattle.mean_blocks.specs.ExpressionValues.{arguments_in};
ghost use Rattle.mean_blocks.specs.FunctionCalls.{called};
ghost use Rattle.mean_blocks.specs.LoopEffects.{turn_of, turns, repeats, counts, distance, step};
ghost use Rattle.mean_blocks.specs.LoopEffects.{controlled, turn_for, for_each, for_child};
ghost use Rattle.mean_blocks.specs.LoopEffects.{for_children, over_children, over};
ghost use Rattle.mean_blocks.specs.NamesInRuns.{head_in, header_at};
ghost use Rattle.mean_blocks.specs.StatementEffects.{performed, body_of, statement_of};
ghost use Rattle.mean_blocks.specs.StatementEffects.{statements_in, arms_in};
ghost use Rattle.mean_blocks.specs.WriteEffects.{acts, ordinal_of, framed, assigned};
ghost use Rattle.est_values.specs.OrdinalTuples.{ordinals_of};
ghost use Rattle.plain_effects.specs.plain_operands.ExecutionSites.{site_of, view_of};
ghost use Rattle.plain_effects.specs.plain_operands.ExpressionSteps.{opposite, set_made};
ghost use Rattle.plain_effects.specs.plain_operands.ExpressionSteps.{stored_value, module_at};
ghost use Rattle.plain_effects.specs.plain_operands.ExpressionSteps.{called_with, with_factor};
ghost use Rattle.plain_effects.specs.plain_operands.ExpressionSteps.{Gathers};
ghost use Rattle.plain_effects.specs.plain_operands.HeldVariables.{reached_of, reached_in};
ghost use Rattle.plain_blocks.specs.RunningCalls.{ran};
ghost use Rattle.plain_values.specs.GatheredMembers.{IsGathered};
ghost use Rattle.plain_effects.specs.plain_operands.TurnsOfLoops.{for_turn, counted_turn, ended};
ghost use Rattle.plain_effects.specs.plain_operands.TurnsOfLoops.{branched, chosen};

use crate::expressions::{arguments_in, value_of, variable_of};
use crate::links::{attach, connect, detach, disconnect, init, output, release};
use est_syntax::est_items::Boxed;
use est_syntax::expression::{
    Expr, Factor, Member, ProductStep, Relation, Selector, Simple, SumStep, Term,
};
use est_syntax::kind::{Kind, Ordinals};
use est_syntax::name::Used;
use est_syntax::statement::{Arm, Statement};
use est_values::ordinals::ordinal_count;
use est_values::value::Value;
use mean_blocks::fault::BlockFault;
use mean_blocks::frame::{Frame, Slot};
use mean_blocks::rule_declares::variables::bare;
use mean_blocks::rule_scope::declaration::Meant;
use mean_blocks::rule_scope::predeclared::PredeclaredName;
use mean_blocks::stop::Stop;
use plain_effects::effects::children_of;
use plain_effects::plain_declared::heads::Head;
use plain_effects::plain_frames::routines::Slots;
use plain_effects::plain_frames::writing::{close, open};
use plain_effects::plain_operands::calls::{frame_with, open_naming, result_of, routine_of, store};
use plain_effects::plain_operands::chosen::is_chosen;
use plain_effects::plain_operands::loops::{
    distance, head_of_all, header_of, nth_slot, turn_value,
};
use plain_effects::plain_operands::operands::{enter, number};
use plain_effects::plain_operands::reached::{
    Reached, begun, loaded, placed, with_component, with_field, with_subscript,
};
use plain_effects::plain_operands::site::{
    Site, declared_of, dims_of, head_at, is_given_place, meaning_at,
};
use plain_effects::plain_systems::rows::lives;
use plain_effects::plain_systems::system::{Frames, Outs, Working};
use plain_values::ordinals::is_true;
use plain_values::sets::{Gathered, set_of};
use plain_values::values::{decides, joined, negated, signed, unsigned_integer};
use std::alloc::{AllocError, Global};
use std::mem;

/// A statement, which counts.
#[cycle(run)]
#[inline(never)]
pub fn statement_of(
    alloc: Global,
    site: &Site,
    statement: &Statement,
    working: &mut Working,
    left: &mut u32,
) -> Result<(), Stop>
    ensures { Answers (statement_of statement.now (site_of site.now)
        (state_of working.old left.old))
        result (state_of working.new left.new) }
{
    enter(left)?;
    body_of(alloc, site, statement, working, left)
}

// What a statement does once it is entered.
#[cycle(run)]
fn body_of(
    alloc: Global,
    site: &Site,
    statement: &Statement,
    working: &mut Working,
    left: &mut u32,
) -> Result<(), Stop>
    ensures { Answers (body_of statement.now (site_of site.now) (state_of working.old left.old))
        result (state_of working.new left.new) }
{
    match statement {
        Statement::Empty { .. } => Ok(()),
        Statement::Compound { turn, .. } => {
            statements_in(alloc, site, turn.as_slice(), working, left)
        }
        Statement::Assign {
            target,
            path,
            value,
            ..
        } => assign(
            alloc,
            site,
            target,
            path.as_slice(),
            value.get(),
            working,
            left,
        ),
        Statement::Call {
            name,
            arguments,
            ..
        } => perform(alloc, site, name, arguments.as_slice(), working, left),
        Statement::If {
            condition,
            first,
            second,
            ..
        } => either(
            alloc,
            site,
            condition.get(),
            first.get(),
            second,
            working,
            left,
        ),
        Statement::Case { value, arms, .. } => {
            choose(alloc, site, value.get(), arms.as_slice(), working, left)
        }
        Statement::While {
            condition,
            turn,
            ..
        } => repeat_while(alloc, site, condition.get(), turn.get(), working, left),
        Statement::Repeat { turn, until, .. } => {
            repeat_until(alloc, site, turn.as_slice(), until.get(), working, left)
        }
        Statement::For {
            name,
            first,
            down,
            last,
            turn,
            ..
        } => control(
            alloc,
            site,
            name,
            first.get(),
            *down,
            last.get(),
            turn.get(),
            working,
            left,
        ),
        Statement::All { name, turn, .. } => {
            over_all(alloc, site, name.place, turn.get(), working, left)
        }
        Statement::Output { sendings, .. } => {
            output(alloc, site, sendings.as_slice(), working, left)
        }
        Statement::Init {
            target,
            body,
            arguments,
            ..
        } => init(
            alloc,
            site,
            target,
            body,
            arguments.as_slice(),
            working,
            left,
        ),
        Statement::Release { target, .. } => release(alloc, site, target, working, left),
        Statement::Connect { one, other, .. } => connect(alloc, site, one, other, working, left),
        Statement::Disconnect { end, .. } => disconnect(alloc, site, end, working, left),
        Statement::Attach {
            own,
            child,
            point,
            ..
        } => attach(alloc, site, own, child, point, working, left),
        Statement::Detach { end, .. } => detach(alloc, site, end, working, left),
    }
}

/// Statements in order.
#[cycle(run)]
pub fn statements_in(
    alloc: Global,
    site: &Site,
    statements: &[Statement],
    working: &mut Working,
    left: &mut u32,
) -> Result<(), Stop>
    ensures { Answers (statements_in statements.now (site_of site.now)
        (state_of working.old left.old))
        result (state_of working.new left.new) }
{
    for statement in statements {
        statement_of(alloc, site, statement, working, left)?;
    }
    Ok(())
}

// An assignment: the target, the value, the write.
#[cycle(run)]
#[inline(never)]
fn assign(
    alloc: Global,
    site: &Site,
    target: &Used,
    path: &[Selector],
    e: &Expr,
    working: &mut Working,
    left: &mut u32,
) -> Result<(), Stop>
    ensures { Answers (assigned target.now path.now e.now (site_of site.now)
        (state_of working.old left.old))
        result (state_of working.new left.new) }
{
    let reached = variable_of(alloc, site, target, path, working, left)?;
    let value = value_of(alloc, site, e, working, left)?;
    store(alloc, site, &reached, value, working)
}

// A call of a procedure.
#[cycle(run)]
#[inline(never)]
fn perform(
    alloc: Global,
    site: &Site,
    name: &Used,
    arguments: &[Expr],
    working: &mut Working,
    left: &mut u32,
) -> Result<(), Stop>
    ensures { Answers (acts site.now.function (performed name.now arguments.now (site_of site.now))
        (state_of working.old left.old))
        result (state_of working.new left.new) }
{
    if site.function {
        return Err(Stop::Fault(BlockFault::Undefined));
    }
    let Some(place) = declared_of(site, name) else {
        return Err(Stop::Fault(BlockFault::Undefined));
    };
    let slots = arguments_in(alloc, site, arguments, place, working, left)?;
    let Some(routine) = routine_of(site, place) else {
        drop(slots);
        return Err(Stop::Fault(BlockFault::Undefined));
    };
    let frame = frame_with(alloc, site, place, slots)?;
    let statements = routine.block.statements.as_slice();
    deepen(alloc, site, site.instance, frame, statements, working, left)
}

// Statements within a frame, one level deeper.
#[cycle(run)]
#[inline(never)]
pub fn deepen(
    alloc: Global,
    site: &Site,
    instance: u32,
    frame: Frame,
    statements: &[Statement],
    working: &mut Working,
    left: &mut u32,
) -> Result<(), Stop>
    ensures { Answers (framed frame ((site_of site.now).deeper instance false statements.now)
        (state_of working.old left.old))
        result (state_of working.new left.new) }
{
    open(frame, working)?;
    if site.levels == 0 {
        return Err(Stop::Limit);
    }
    let deeper = Site {
        text: site.text,
        instance,
        function: false,
        levels: site.levels - 1,
    };
    statements_in(alloc, &deeper, statements, working, left)?;
    close(working);
    Ok(())
}

// An `if`.
#[cycle(run)]
#[inline(never)]
fn either(
    alloc: Global,
    site: &Site,
    condition: &Expr,
    first: &Statement,
    second: &Option<Boxed<Statement>>,
    working: &mut Working,
    left: &mut u32,
) -> Result<(), Stop>
    ensures { Answers (branched condition.now first.now second.now (site_of site.now)
        (state_of working.old left.old))
        result (state_of working.new left.new) }
{
    let value = value_of(alloc, site, condition, working, left)?;
    let z = number(value)?;
    if is_true(z) {
        return statement_of(alloc, site, first, working, left);
    }
    match second {
        None => Ok(()),
        Some(second) => statement_of(alloc, site, second.get(), working, left),
    }
}

// A `case`.
#[cycle(run)]
#[inline(never)]
fn choose(
    alloc: Global,
    site: &Site,
    e: &Expr,
    arms: &[Arm],
    working: &mut Working,
    left: &mut u32,
) -> Result<(), Stop>
    ensures { Answers (chosen e.now arms.now (site_of site.now) (state_of working.old left.old))
        result (state_of working.new left.new) }
{
    let value = value_of(alloc, site, e, working, left)?;
    let z = number(value)?;
    arms_in(alloc, site, arms, z, working, left)
}

// The first choice of a `case` that has an ordinal among its constants.
#[cycle(run)]
fn arms_in(
    alloc: Global,
    site: &Site,
    arms: &[Arm],
    z: i32,
    working: &mut Working,
    left: &mut u32,
) -> Result<(), Stop>
    ensures { Answers (arms_in arms.now z (site_of site.now) (state_of working.old left.old))
        result (state_of working.new left.new) }
{
    for arm in arms {
        if is_chosen(site, arm.constants.as_slice(), z)? {
            return statement_of(alloc, site, &arm.turn, working, left);
        }
    }
    Err(Stop::Fault(BlockFault::NoCase))
}

// A `while`. Each turn counts, so there are no more turns than statements are left.
#[cycle(run)]
#[inline(never)]
fn repeat_while(
    alloc: Global,
    site: &Site,
    condition: &Expr,
    turn: &Statement,
    working: &mut Working,
    left: &mut u32,
) -> Result<(), Stop>
    ensures { Answers (turns (left.old + 1) (ordinal_of condition.now (site_of site.now))
        (statement_of turn.now (site_of site.now)) (state_of working.old left.old))
        result (state_of working.new left.new) }
{
    for _ in 0..u64::from(*left) + 1 {
        let more = turn_of(alloc, site, condition, turn, working, left)?;
        if !more {
            return Ok(());
        }
    }
    Err(Stop::Limit)
}

// A turn of a `while`, and whether there was one.
#[cycle(run)]
fn turn_of(
    alloc: Global,
    site: &Site,
    condition: &Expr,
    turn: &Statement,
    working: &mut Working,
    left: &mut u32,
) -> Result<bool, Stop>
    ensures { Answers (turn_of (ordinal_of condition.now (site_of site.now))
        (statement_of turn.now (site_of site.now)) (state_of working.old left.old))
        result (state_of working.new left.new) }
{
    let value = value_of(alloc, site, condition, working, left)?;
    let z = number(value)?;
    if !is_true(z) {
        return Ok(false);
    }
    enter(left)?;
    statement_of(alloc, site, turn, working, left)?;
    Ok(true)
}

// A `repeat`, in the same way.
#[cycle(run)]
#[inline(never)]
fn repeat_until(
    alloc: Global,
    site: &Site,
    turn: &[Statement],
    until: &Expr,
    working: &mut Working,
    left: &mut u32,
) -> Result<(), Stop>
    ensures { Answers (repeats (left.old + 1) (statements_in turn.now (site_of site.now))
        (ordinal_of until.now (site_of site.now)) (state_of working.old left.old))
        result (state_of working.new left.new) }
{
    for _ in 0..u64::from(*left) + 1 {
        let last = turn_until(alloc, site, turn, until, working, left)?;
        if last {
            return Ok(());
        }
    }
    Err(Stop::Limit)
}

// A turn of a `repeat`, and whether it was the last one.
#[cycle(run)]
fn turn_until(
    alloc: Global,
    site: &Site,
    turn: &[Statement],
    until: &Expr,
    working: &mut Working,
    left: &mut u32,
) -> Result<bool, Stop>
    ensures { Answers (ended (statements_in turn.now (site_of site.now))
        (ordinal_of until.now (site_of site.now)) (state_of working.old left.old))
        result (state_of working.new left.new) }
{
    enter(left)?;
    statements_in(alloc, site, turn, working, left)?;
    let value = value_of(alloc, site, until, working, left)?;
    let z = number(value)?;
    Ok(is_true(z))
}

// A `for`: both bounds, the turns, and then the variable is undefined.
#[cycle(run)]
#[inline(never)]
fn control(
    alloc: Global,
    site: &Site,
    name: &Used,
    first: &Expr,
    down: bool,
    last: &Expr,
    turn: &Statement,
    working: &mut Working,
    left: &mut u32,
) -> Result<(), Stop>
    ensures { Answers (controlled name.now first.now down last.now
        (statement_of turn.now (site_of site.now)) (site_of site.now)
        (state_of working.old left.old))
        result (state_of working.new left.new) }
{
    let reached = variable_of(alloc, site, name, &[], working, left)?;
    let value = value_of(alloc, site, first, working, left)?;
    let first = number(value)?;
    let value = value_of(alloc, site, last, working, left)?;
    let last = number(value)?;
    count_turns(
        alloc, site, &reached, first, down, last, turn, working, left,
    )?;
    store(alloc, site, &reached, Value::Undefined, working)
}

// The turns of a `for`.
#[cycle(run)]
#[inline(never)]
fn count_turns(
    alloc: Global,
    site: &Site,
    reached: &Reached,
    first: i32,
    down: bool,
    last: i32,
    turn: &Statement,
    working: &mut Working,
    left: &mut u32,
) -> Result<(), Stop>
    ensures { Answers (counts (distance down first last) first (step down)
        (for_turn (reached_of reached.now) turn.now (site_of site.now))
        (state_of working.old left.old))
        result (state_of working.new left.new) }
{
    for number in 0..distance(down, first, last) {
        let value = turn_value(down, first, last, number);
        count_turn(alloc, site, reached, value, turn, working, left)?;
    }
    Ok(())
}

// A turn of a `for` with a value in its variable.
#[cycle(run)]
fn count_turn(
    alloc: Global,
    site: &Site,
    reached: &Reached,
    value: Value,
    turn: &Statement,
    working: &mut Working,
    left: &mut u32,
) -> Result<(), Stop>
    ensures { Answers (counted_turn (reached_of reached.now) turn.now (site_of site.now) value
        (state_of working.old left.old))
        result (state_of working.new left.new) }
{
    enter(left)?;
    store(alloc, site, reached, value, working)?;
    statement_of(alloc, site, turn, working, left)
}

// An `all`, whose name is declared at a place.
#[cycle(run)]
#[inline(never)]
fn over_all(
    alloc: Global,
    site: &Site,
    place: u32,
    turn: &Statement,
    working: &mut Working,
    left: &mut u32,
) -> Result<(), Stop>
    ensures { Answers (over (head_in place (entry_at site.now.text.now.outline place))
        (statement_of turn.now (site_of site.now)) (site_of site.now)
        (state_of working.old left.old))
        result (state_of working.new left.new) }
{
    match head_of_all(site, place) {
        Head::Variable(declared, kind) => {
            for_each(alloc, site, declared, kind, turn, working, left)
        }
        Head::Modules(declared) => over_children(alloc, site, declared, turn, working, left),
        _ => Err(Stop::Fault(BlockFault::Undefined)),
    }
}

// The turns of an `all` for the ordinals of a kind.
#[cycle(run)]
#[inline(never)]
fn for_each(
    alloc: Global,
    site: &Site,
    place: u32,
    kind: &Kind,
    turn: &Statement,
    working: &mut Working,
    left: &mut u32,
) -> Result<(), Stop>
    ensures { Answers (for_each place (ordinals_of kind.now)
        (statement_of turn.now (site_of site.now)) (state_of working.old left.old))
        result (state_of working.new left.new) }
{
    for number in 0..ordinal_count(kind) {
        let slot = nth_slot(kind, number);
        turn_for(alloc, site, place, slot, turn, working, left)?;
    }
    Ok(())
}

// A turn of an `all`, in which its name stands for this.
#[cycle(run)]
#[inline(never)]
fn turn_for(
    alloc: Global,
    site: &Site,
    place: u32,
    slot: Slot,
    turn: &Statement,
    working: &mut Working,
    left: &mut u32,
) -> Result<(), Stop>
    ensures { Answers (turn_for place slot (statement_of turn.now (site_of site.now))
        (state_of working.old left.old))
        result (state_of working.new left.new) }
{
    enter(left)?;
    open_naming(alloc, place, slot, working)?;
    statement_of(alloc, site, turn, working, left)?;
    close(working);
    Ok(())
}

// The turns of an `all` for the children that a module variable may hold.
#[cycle(run)]
#[inline(never)]
fn over_children(
    alloc: Global,
    site: &Site,
    place: u32,
    turn: &Statement,
    working: &mut Working,
    left: &mut u32,
) -> Result<(), Stop>
    ensures { Answers (over_children place (header_at site.now.text.now.outline place)
        (statement_of turn.now (site_of site.now)) (site_of site.now)
        (state_of working.old left.old))
        result (state_of working.new left.new) }
{
    let Some(header) = header_of(site, place) else {
        return Err(Stop::Fault(BlockFault::Undefined));
    };
    let children = children_of(alloc, site, header, working)?;
    for_children(alloc, site, place, children.as_slice(), turn, working, left)
}

// The turns of an `all` for these children.
#[cycle(run)]
#[inline(never)]
fn for_children(
    alloc: Global,
    site: &Site,
    place: u32,
    children: &[u32],
    turn: &Statement,
    working: &mut Working,
    left: &mut u32,
) -> Result<(), Stop>
    ensures { Answers (for_children place children.now (statement_of turn.now (site_of site.now))
        (state_of working.old left.old))
        result (state_of working.new left.new) }
{
    for child in children {
        for_child(alloc, site, place, *child, turn, working, left)?;
    }
    Ok(())
}

// The turn of an `all` for a child that lives.
#[cycle(run)]
fn for_child(
    alloc: Global,
    site: &Site,
    place: u32,
    child: u32,
    turn: &Statement,
    working: &mut Working,
    left: &mut u32,
) -> Result<(), Stop>
    ensures { Answers (for_child place child (statement_of turn.now (site_of site.now))
        (state_of working.old left.old))
        result (state_of working.new left.new) }
{
    if lives(&working.system, child) {
        turn_for(
            alloc,
            site,
            place,
            Slot::Instance(child),
            turn,
            working,
            left,
        )
    } else {
        Ok(())
    }
}
