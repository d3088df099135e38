//! The execution of statements on instances and links (ISO 9074, statements).
#![tactic(auto, using(mean_blocks::proofs::Answering::answers_stop, mean_blocks::proofs::Answering::says_answers))]

ghost use Rattle.std.specs.Prelude.{◌≡◌, [], OnOk};
ghost use Rattle.plain_effects.specs.plain_systems.HeldSystems.{state_of, LooksSame};
ghost use Rattle.mean_blocks.specs.AnswersOfCalls.{Answers};
ghost use Rattle.mean_blocks.specs.ExpressionValues.{subscripts_in};
ghost use Rattle.mean_blocks.specs.InstancePoints.{own_point, child, child_point, end_of};
ghost use Rattle.mean_blocks.specs.InstancePoints.{ends_of};
ghost use Rattle.mean_blocks.specs.LinkEffects.{connected, attached, disconnected, detached_end};
ghost use Rattle.mean_blocks.specs.NamesInRuns.{dims_at};
ghost use Rattle.mean_blocks.specs.StatementEffects.{element_of, item_of, all_sent, init_done};
ghost use Rattle.mean_blocks.specs.StatementEffects.{initialized, let_go, linked, unlinked};
ghost use Rattle.mean_blocks.specs.WriteEffects.{acts};
ghost use Rattle.plain_effects.specs.plain_operands.ExecutionSites.{site_of, view_of};
ghost use Rattle.plain_effects.specs.SystemSteps.{ends_named, sent_one, begun_by, point_by};
ghost use Rattle.plain_effects.specs.SystemSteps.{item_at};

use crate::expressions::{subscripts_in, values_in};
use crate::statements::deepen;
use crate::ties::{free, link, loosen, tie, unlink};
use est_syntax::body::FirstPart;
use est_syntax::expression::{Access, EndPoint, Expr, Exprs};
use est_syntax::kind::Ordinals;
use est_syntax::name::Used;
use est_syntax::statement::Sending;
use mean_blocks::fault::BlockFault;
use mean_blocks::situation::{Element, InteractionPoint, Item};
use mean_blocks::stop::Stop;
use plain_effects::effects::{
    Points, birth, body_of_name, declared_by_header, external_points, first_frame, held_child,
    item_with, means_modules, one_point, reach_first, send,
};
use plain_effects::plain_frames::routines::Slots;
use plain_effects::plain_operands::site::{Site, declared_of, dims_of};
use plain_effects::plain_systems::system::Working;
use std::alloc::Global;

// The subscripts of what is declared at a place.
#[cycle(run)]
fn index_of(
    alloc: Global,
    site: &Site,
    index: &Exprs,
    place: u32,
    working: &mut Working,
    left: &mut u32,
) -> Result<Ordinals, Stop>
    ensures value { Answers (subscripts_in index.now (dims_at site.now.text.now.outline place) []
        (view_of site.now working.old) left.old)
        result left.new }
    ensures world { OnOk result (LooksSame working.old working.new) }
{
    let kinds = dims_of(site, place);
    let none = Ordinals::new(alloc);
    subscripts_in(alloc, site, index.as_slice(), kinds, none, working, left)
}

// An element of a module variable.
#[cycle(run)]
fn element_of(
    alloc: Global,
    site: &Site,
    access: &Access,
    working: &mut Working,
    left: &mut u32,
) -> Result<Element, Stop>
    ensures value { Answers (element_of access.now (view_of site.now working.old) left.old)
        result left.new }
    ensures world { OnOk result (LooksSame working.old working.new) }
{
    let Some(place) = declared_of(site, &access.name) else {
        return Err(Stop::Fault(BlockFault::Undefined));
    };
    let index = index_of(alloc, site, &access.index, place, working, left)?;
    Ok(Element {
        declared: place,
        index,
    })
}

// An interaction point of this instance.
#[cycle(run)]
fn own_point(
    alloc: Global,
    site: &Site,
    access: &Access,
    working: &mut Working,
    left: &mut u32,
) -> Result<InteractionPoint, Stop>
    ensures value { Answers (own_point access.now (view_of site.now working.old) left.old)
        result left.new }
    ensures world { OnOk result (LooksSame working.old working.new) }
{
    let Some(place) = declared_of(site, &access.name) else {
        return Err(Stop::Fault(BlockFault::Undefined));
    };
    let index = index_of(alloc, site, &access.index, place, working, left)?;
    Ok(InteractionPoint {
        instance: site.instance,
        declared: place,
        index,
    })
}

// The instance that a module variable with its subscripts holds.
#[cycle(run)]
fn child(
    alloc: Global,
    site: &Site,
    access: &Access,
    working: &mut Working,
    left: &mut u32,
) -> Result<u32, Stop>
    ensures value { Answers (child access.now (view_of site.now working.old) left.old)
        result left.new }
    ensures world { OnOk result (LooksSame working.old working.new) }
{
    let Some(place) = declared_of(site, &access.name) else {
        return Err(Stop::Fault(BlockFault::Undefined));
    };
    let index = index_of(alloc, site, &access.index, place, working, left)?;
    held_child(site, place, index, working)
}

// An interaction point of a child.
#[cycle(run)]
fn child_point(
    alloc: Global,
    site: &Site,
    target: &Access,
    point: &Access,
    working: &mut Working,
    left: &mut u32,
) -> Result<InteractionPoint, Stop>
    ensures value { Answers (child_point target.now point.now (view_of site.now working.old)
        left.old)
        result left.new }
    ensures world { OnOk result (LooksSame working.old working.new) }
{
    let Some(place) = declared_of(site, &target.name) else {
        return Err(Stop::Fault(BlockFault::Undefined));
    };
    let index = index_of(alloc, site, &target.index, place, working, left)?;
    point_at(alloc, site, place, index, point, working, left)
}

// An interaction point of the child that a module variable with its subscripts holds.
#[cycle(run)]
fn point_at(
    alloc: Global,
    site: &Site,
    place: u32,
    index: Ordinals,
    point: &Access,
    working: &mut Working,
    left: &mut u32,
) -> Result<InteractionPoint, Stop>
    ensures value { Answers (point_by place index point.now (view_of site.now working.old) left.old)
        result left.new }
    ensures world { OnOk result (LooksSame working.old working.new) }
{
    let instance = held_child(site, place, index, working)?;
    let Some(declared) = declared_by_header(site, place, &point.name) else {
        return Err(Stop::Fault(BlockFault::Undefined));
    };
    let index = index_of(alloc, site, &point.index, declared, working, left)?;
    Ok(InteractionPoint {
        instance,
        declared,
        index,
    })
}

// An end of a link, as it is written.
#[cycle(run)]
fn end_of(
    alloc: Global,
    site: &Site,
    end: &EndPoint,
    working: &mut Working,
    left: &mut u32,
) -> Result<InteractionPoint, Stop>
    ensures value { Answers (end_of end.now (view_of site.now working.old) left.old)
        result left.new }
    ensures world { OnOk result (LooksSame working.old working.new) }
{
    match &end.second {
        None => own_point(alloc, site, &end.first, working, left),
        Some(point) => child_point(alloc, site, &end.first, point, working, left),
    }
}

// The ends that an end point means.
#[cycle(run)]
fn ends_of(
    alloc: Global,
    site: &Site,
    end: &EndPoint,
    working: &mut Working,
    left: &mut u32,
) -> Result<Points, Stop>
    ensures value { Answers (ends_of end.now.first end.now.second (view_of site.now working.old)
        left.old)
        result left.new }
    ensures world { OnOk result (LooksSame working.old working.new) }
{
    match &end.second {
        None => ends_alone(alloc, site, &end.first, working, left),
        Some(point) => {
            let point = child_point(alloc, site, &end.first, point, working, left)?;
            let points = one_point(alloc, point)?;
            Ok(points)
        }
    }
}

// The ends that a name alone means: an interaction point, or all external ones of a child.
#[cycle(run)]
fn ends_alone(
    alloc: Global,
    site: &Site,
    access: &Access,
    working: &mut Working,
    left: &mut u32,
) -> Result<Points, Stop>
    ensures value { Answers (ends_named access.now (view_of site.now working.old) left.old)
        result left.new }
    ensures world { OnOk result (LooksSame working.old working.new) }
{
    if means_modules(site, access) {
        let instance = child(alloc, site, access, working, left)?;
        let points = external_points(alloc, site, instance, working)?;
        Ok(points)
    } else {
        let point = own_point(alloc, site, access, working, left)?;
        let points = one_point(alloc, point)?;
        Ok(points)
    }
}

// The item of an output.
#[cycle(run)]
fn item_of(
    alloc: Global,
    site: &Site,
    sending: &Sending,
    working: &mut Working,
    left: &mut u32,
) -> Result<Item, Stop>
    ensures value { Answers (item_of sending.now (view_of site.now working.old) left.old)
        result left.new }
    ensures world { OnOk result (LooksSame working.old working.new) }
{
    let at = own_point(alloc, site, &sending.at, working, left)?;
    item_at(alloc, site, at, sending, working, left)
}

// The item of an output at an interaction point.
#[cycle(run)]
fn item_at(
    alloc: Global,
    site: &Site,
    at: InteractionPoint,
    sending: &Sending,
    working: &mut Working,
    left: &mut u32,
) -> Result<Item, Stop>
    ensures value { Answers (item_at sending.now at (view_of site.now working.old) left.old)
        result left.new }
    ensures world { OnOk result (LooksSame working.old working.new) }
{
    let slots = values_in(alloc, site, sending.arguments.as_slice(), working, left)?;
    item_with(alloc, site, at, sending, slots)
}

/// An output.
#[cycle(run)]
#[inline(never)]
pub fn output(
    alloc: Global,
    site: &Site,
    sendings: &[Sending],
    working: &mut Working,
    left: &mut u32,
) -> Result<(), Stop>
    ensures { Answers (acts site.now.function (all_sent sendings.now (site_of site.now))
        (state_of working.old left.old))
        result (state_of working.new left.new) }
{
    if site.function {
        return Err(Stop::Fault(BlockFault::Undefined));
    }
    send_all(alloc, site, sendings, working, left)
}

// The interactions of an output, in order.
#[cycle(run)]
fn send_all(
    alloc: Global,
    site: &Site,
    sendings: &[Sending],
    working: &mut Working,
    left: &mut u32,
) -> Result<(), Stop>
    ensures { Answers (all_sent sendings.now (site_of site.now) (state_of working.old left.old))
        result (state_of working.new left.new) }
{
    for sending in sendings {
        send_one(alloc, site, sending, working, left)?;
    }
    Ok(())
}

// One interaction of an output.
#[cycle(run)]
fn send_one(
    alloc: Global,
    site: &Site,
    sending: &Sending,
    working: &mut Working,
    left: &mut u32,
) -> Result<(), Stop>
    ensures { Answers (sent_one sending.now (site_of site.now) (state_of working.old left.old))
        result (state_of working.new left.new) }
{
    let item = item_of(alloc, site, sending, working, left)?;
    send(alloc, site, item, working)
}

/// An `init`.
#[cycle(run)]
#[inline(never)]
pub fn init(
    alloc: Global,
    site: &Site,
    target: &Access,
    body: &Used,
    arguments: &[Expr],
    working: &mut Working,
    left: &mut u32,
) -> Result<(), Stop>
    ensures { Answers (acts site.now.function
        (init_done target.now body.now arguments.now (site_of site.now))
        (state_of working.old left.old))
        result (state_of working.new left.new) }
{
    if site.function {
        return Err(Stop::Fault(BlockFault::Undefined));
    }
    let element = element_of(alloc, site, target, working, left)?;
    let slots = values_in(alloc, site, arguments, working, left)?;
    begin(alloc, site, element, body, slots, working, left)
}

// An instance begins, with its initialize part.
#[cycle(run)]
fn begin(
    alloc: Global,
    site: &Site,
    element: Element,
    body: &Used,
    slots: Slots,
    working: &mut Working,
    left: &mut u32,
) -> Result<(), Stop>
    ensures { Answers (begun_by element body.now slots (site_of site.now)
        (state_of working.old left.old))
        result (state_of working.new left.new) }
{
    let Some(place) = declared_of(site, body) else {
        drop(element);
        drop(slots);
        return Err(Stop::Fault(BlockFault::Undefined));
    };
    let Some(found) = body_of_name(site, place) else {
        drop(element);
        drop(slots);
        return Err(Stop::Fault(BlockFault::Undefined));
    };
    let number = working.system.next;
    birth(alloc, site, element, place, slots, working)?;
    initialize(alloc, site, number, &found.first, working, left)
}

// The initialize part of an instance, if its body has one.
#[cycle(run)]
#[inline(never)]
fn initialize(
    alloc: Global,
    site: &Site,
    number: u32,
    first: &Option<FirstPart>,
    working: &mut Working,
    left: &mut u32,
) -> Result<(), Stop>
    ensures { Answers (initialized number first.now (site_of site.now)
        (state_of working.old left.old))
        result (state_of working.new left.new) }
{
    match first {
        None => Ok(()),
        Some(first) => {
            let frame = first_frame(alloc, site, first)?;
            let statements = first.block.statements.as_slice();
            deepen(alloc, site, number, frame, statements, working, left)?;
            reach_first(alloc, site, number, first, working)
        }
    }
}

/// A `release`.
#[cycle(run)]
#[inline(never)]
pub fn release(
    alloc: Global,
    site: &Site,
    target: &Access,
    working: &mut Working,
    left: &mut u32,
) -> Result<(), Stop>
    ensures { Answers (acts site.now.function (let_go target.now (site_of site.now))
        (state_of working.old left.old))
        result (state_of working.new left.new) }
{
    if site.function {
        return Err(Stop::Fault(BlockFault::Undefined));
    }
    let instance = child(alloc, site, target, working, left)?;
    free(alloc, site, instance, working)
}

/// A `connect`.
#[cycle(run)]
#[inline(never)]
pub fn connect(
    alloc: Global,
    site: &Site,
    one: &EndPoint,
    other: &EndPoint,
    working: &mut Working,
    left: &mut u32,
) -> Result<(), Stop>
    ensures { Answers (acts site.now.function
        (linked (end_of one.now) (end_of other.now) (connected site.now.text.now)
        (site_of site.now)) (state_of working.old left.old))
        result (state_of working.new left.new) }
{
    if site.function {
        return Err(Stop::Fault(BlockFault::Undefined));
    }
    let first = end_of(alloc, site, one, working, left)?;
    let second = end_of(alloc, site, other, working, left)?;
    link(alloc, site, first, second, working)
}

/// An `attach`.
#[cycle(run)]
#[inline(never)]
pub fn attach(
    alloc: Global,
    site: &Site,
    own: &Access,
    target: &Access,
    point: &Access,
    working: &mut Working,
    left: &mut u32,
) -> Result<(), Stop>
    ensures { Answers (acts site.now.function
        (linked (own_point own.now) (child_point target.now point.now) (attached site.now.text.now)
        (site_of site.now)) (state_of working.old left.old))
        result (state_of working.new left.new) }
{
    if site.function {
        return Err(Stop::Fault(BlockFault::Undefined));
    }
    let outer = own_point(alloc, site, own, working, left)?;
    let inner = child_point(alloc, site, target, point, working, left)?;
    tie(alloc, site, outer, inner, working)
}

/// A `disconnect`.
#[cycle(run)]
#[inline(never)]
pub fn disconnect(
    alloc: Global,
    site: &Site,
    end: &EndPoint,
    working: &mut Working,
    left: &mut u32,
) -> Result<(), Stop>
    ensures { Answers (acts site.now.function (unlinked end.now disconnected (site_of site.now))
        (state_of working.old left.old))
        result (state_of working.new left.new) }
{
    if site.function {
        return Err(Stop::Fault(BlockFault::Undefined));
    }
    let points = ends_of(alloc, site, end, working, left)?;
    unlink(alloc, points, working)
}

/// A `detach`.
#[cycle(run)]
#[inline(never)]
pub fn detach(
    alloc: Global,
    site: &Site,
    end: &EndPoint,
    working: &mut Working,
    left: &mut u32,
) -> Result<(), Stop>
    ensures { Answers (acts site.now.function
        (unlinked end.now (detached_end site.now.text.now site.now.instance) (site_of site.now))
        (state_of working.old left.old))
        result (state_of working.new left.new) }
{
    if site.function {
        return Err(Stop::Fault(BlockFault::Undefined));
    }
    let points = ends_of(alloc, site, end, working, left)?;
    loosen(alloc, site, points, working)
}
