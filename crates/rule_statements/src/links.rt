//! Links between interaction points (ISO 9074, connect, disconnect, attach and detach).
#![tactic(auto, using(rule_scope::proofs::LeastLaws::least_append))]

ghost use Rattle.std.specs.Prelude.{◌≡◌};
ghost use Rattle.rule_scope.specs.LeastSoFar.{least_with};
ghost use Rattle.rule_scope.specs.Outline.{entry_at};
ghost use Rattle.rule_scope.specs.Uses.{meaning};
ghost use Rattle.rule_expressions.specs.Accesses.{subscripts_at};
ghost use Rattle.rule_statements.specs.LinkFaults.{is_end_sort, end_of, end_used, single_faults};
ghost use Rattle.rule_statements.specs.LinkFaults.{point_in, outer_point, point_used, outer_used};
ghost use Rattle.rule_statements.specs.LinkFaults.{module_header};
ghost use Rattle.rule_statements.specs.LinkFaults.{child_point, child_faults, is_external};
ghost use Rattle.rule_statements.specs.LinkFaults.{is_internal_point, internal_faults};
ghost use Rattle.rule_statements.specs.LinkFaults.{is_external_entry};
ghost use Rattle.rule_statements.specs.LinkFaults.{external_faults};
ghost use Rattle.rule_statements.specs.LinkFaults.{connected_faults, connected_side};
ghost use Rattle.rule_statements.specs.LinkFaults.{do_connect, do_attach, opposed_faults};
ghost use Rattle.rule_statements.specs.LinkFaults.{joined_faults, connect_faults, attach_faults};
ghost use Rattle.rule_statements.specs.LinkFaults.{untied_faults};

use est_syntax::expression::{Access, EndPoint};
use est_syntax::name::Used;
use est_syntax::rule::Rule;
use rule_declares::lookups::{header_at, point_side, side_at};
use rule_expressions::accesses::check_access;
use rule_expressions::expressions::check_taken;
use rule_expressions::receivers::Receiver;
use rule_scope::declaration::{Meant, Section, Side, Sort, Standing};
use rule_scope::least::Least;
use rule_scope::outline::Outline;

// Whether an interaction point or a module variable is declared at a place.
fn is_end(outline: &Outline, place: u32) -> bool
    ensures { result ≡ is_end_sort (entry_at outline.now place) }
{
    match outline.entry(place) {
        None => false,
        Some(entry) => match entry.declared.sort {
            Sort::Point => true,
            Sort::ModuleVariable => true,
            _ => false,
        },
    }
}

// The place of the interaction point or module variable that a name means.
fn end_of(outline: &Outline, used: &Used) -> Option<u32>
    ensures { result ≡ end_of outline.now used.now }
{
    match outline.meaning(used) {
        Meant::Seen(place) => if is_end(outline, place) {
            Some(place)
        } else {
            None
        },
        _ => None,
    }
}

// Notes a name that means neither.
fn check_end_name(outline: &Outline, used: &Used, least: &mut Least)
    ensures { least.new.at ≡ least_with least.old.at
        (end_used outline.now used.now.place (meaning outline.now used.now)) }
{
    match outline.meaning(used) {
        Meant::Nothing => least.note(used.place, Rule::UnknownName),
        Meant::Predeclared(_) => least.note(used.place, Rule::WrongSort),
        Meant::Unseen(_) => least.note(used.place, Rule::NotSeenHere),
        Meant::Seen(place) => if !is_end(outline, place) {
            least.note(used.place, Rule::WrongSort);
        },
    }
}

// What takes the subscripts of what is declared at a place.
fn subscripts_at(place: Option<u32>) -> Option<Receiver>
    ensures { result ≡ subscripts_at place }
{
    match place {
        None => None,
        Some(place) => Some(Receiver::Subscripts(place)),
    }
}

// A name that stands alone, with its subscripts.
fn check_single(outline: &Outline, access: &Access, least: &mut Least)
    ensures { least.new.at ≡ least_with least.old.at (single_faults outline.now access.now) }
{
    check_end_name(outline, &access.name, least);
    let receiver = subscripts_at(end_of(outline, &access.name));
    check_taken(
        outline,
        receiver,
        access.name.place,
        access.index.as_slice(),
        least,
    );
}

// The place of an interaction point that stands in a header.
fn point_in(outline: &Outline, standing: Option<Standing>) -> Option<u32>
    ensures { result ≡ point_in outline.now standing }
{
    match standing {
        None => None,
        Some(standing) => if outline.is_sort(Sort::Point, standing.place) {
            Some(standing.place)
        } else {
            None
        },
    }
}

// The place of the interaction point of a header that a name means there.
fn outer_point(outline: &Outline, header: Option<u32>, point: &Used) -> Option<u32>
    ensures { result ≡ outer_point outline.now header point.now }
{
    match header {
        None => None,
        Some(header) => point_in(outline, outline.standing(header, &point.name)),
    }
}

// Notes a name that stands in a header, or in no such place, and is no interaction point.
fn check_point(outline: &Outline, standing: Option<Standing>, place: u32, least: &mut Least)
    ensures { least.new.at ≡ least_with least.old.at (point_used outline.now standing place) }
{
    match standing {
        None => least.note(place, Rule::UnknownName),
        Some(standing) => if !outline.is_sort(Sort::Point, standing.place) {
            least.note(place, Rule::WrongSort);
        },
    }
}

// The same of a name that is looked up in a header.
fn check_outer(outline: &Outline, header: Option<u32>, point: &Used, least: &mut Least)
    ensures { least.new.at
        ≡ least_with least.old.at (outer_used outline.now header point.now) }
{
    if let Some(header) = header {
        check_point(
            outline,
            outline.standing(header, &point.name),
            point.place,
            least,
        );
    }
}

// The header of the module variable that a name means.
fn module_header(outline: &Outline, child: &Access) -> Option<u32>
    ensures { result ≡ module_header outline.now child.now }
{
    header_at(
        outline,
        outline.declaration_of(Sort::ModuleVariable, &child.name),
    )
}

// The place of an interaction point of the module of a module variable.
fn child_point(outline: &Outline, child: &Access, point: &Access) -> Option<u32>
    ensures { result ≡ child_point outline.now child.now point.now }
{
    outer_point(outline, module_header(outline, child), &point.name)
}

// A module variable and an interaction point of its module.
fn check_child(outline: &Outline, child: &Access, point: &Access, least: &mut Least)
    ensures { least.new.at
        ≡ least_with least.old.at (child_faults outline.now child.now point.now) }
{
    check_access(outline, Sort::ModuleVariable, child, least);
    check_outer(outline, module_header(outline, child), &point.name, least);
    let receiver = subscripts_at(child_point(outline, child, point));
    check_taken(
        outline,
        receiver,
        point.name.place,
        point.index.as_slice(),
        least,
    );
}

// Whether what this section declares stands in a header.
fn is_external(section: Section) -> bool
    ensures { result ≡ is_external section }
{
    match section {
        Section::Header => true,
        _ => false,
    }
}

// Whether an interaction point is declared at a place, and in no header.
fn is_internal_point(outline: &Outline, place: u32) -> bool
    ensures { result ≡ is_internal_point (entry_at outline.now place) }
{
    match outline.entry(place) {
        None => false,
        Some(entry) => match entry.declared.sort {
            Sort::Point => !is_external(entry.section),
            _ => false,
        },
    }
}

// Notes a name of something that is not such a point.
fn check_internal(outline: &Outline, declared: Option<u32>, place: u32, least: &mut Least)
    ensures { least.new.at
        ≡ least_with least.old.at (internal_faults outline.now declared place) }
{
    if let Some(declared) = declared {
        if !is_internal_point(outline, declared) {
            least.note(place, Rule::WrongLink);
        }
    }
}

// Whether what is declared at a place stands in a header.
fn is_external_entry(outline: &Outline, place: u32) -> bool
    ensures { result ≡ is_external_entry (entry_at outline.now place) }
{
    match outline.entry(place) {
        None => false,
        Some(entry) => is_external(entry.section),
    }
}

// Notes a name of something that does not.
fn check_external(outline: &Outline, declared: Option<u32>, place: u32, least: &mut Least)
    ensures { least.new.at
        ≡ least_with least.old.at (external_faults outline.now declared place) }
{
    if let Some(declared) = declared {
        if !is_external_entry(outline, declared) {
            least.note(place, Rule::WrongLink);
        }
    }
}

// An end of a `connect`.
fn check_connected(outline: &Outline, first: &Access, second: &Option<Access>, least: &mut Least)
    ensures { least.new.at
        ≡ least_with least.old.at (connected_faults outline.now first.now second.now) }
{
    match second {
        None => {
            check_single(outline, first, least);
            check_internal(
                outline,
                end_of(outline, &first.name),
                first.name.place,
                least,
            );
        },
        Some(point) => check_child(outline, first, point, least),
    }
}

// The channel and the role of that end.
fn connected_side(outline: &Outline, first: &Access, second: &Option<Access>) -> Option<Side>
    ensures { result ≡ connected_side outline.now first.now second.now }
{
    match second {
        None => point_side(outline, &first.name),
        Some(point) => side_at(outline, child_point(outline, first, point)),
    }
}

// Whether two ends have one channel and its two roles.
fn do_connect(one: Side, other: Side) -> bool
    ensures { result ≡ do_connect one other }
{
    one.channel == other.channel && one.role != other.role
}

// Whether two ends have one channel and one role.
fn do_attach(one: Side, other: Side) -> bool
    ensures { result ≡ do_attach one other }
{
    one.channel == other.channel && one.role == other.role
}

// Notes two ends that are not connected.
fn check_opposed(one: Option<Side>, other: Option<Side>, place: u32, least: &mut Least)
    ensures { least.new.at ≡ least_with least.old.at (opposed_faults one other place) }
{
    match (one, other) {
        (Some(one), Some(other)) => if !do_connect(one, other) {
            least.note(place, Rule::WrongLink);
        },
        _ => (),
    }
}

// Notes two ends that are not attached.
fn check_joined(one: Option<Side>, other: Option<Side>, place: u32, least: &mut Least)
    ensures { least.new.at ≡ least_with least.old.at (joined_faults one other place) }
{
    match (one, other) {
        (Some(one), Some(other)) => if !do_attach(one, other) {
            least.note(place, Rule::WrongLink);
        },
        _ => (),
    }
}

/// A `connect`.
pub fn check_connect(outline: &Outline, one: &EndPoint, other: &EndPoint, least: &mut Least)
    ensures { least.new.at
        ≡ least_with least.old.at (connect_faults outline.now one.now other.now) }
{
    check_connected(outline, &one.first, &one.second, least);
    check_connected(outline, &other.first, &other.second, least);
    let side = connected_side(outline, &one.first, &one.second);
    let opposite = connected_side(outline, &other.first, &other.second);
    check_opposed(side, opposite, other.first.name.place, least);
}

/// An `attach` of an own point to a point of a child.
pub fn check_attach(
    outline: &Outline,
    own: &Access,
    child: &Access,
    point: &Access,
    least: &mut Least,
)
    ensures { least.new.at
        ≡ least_with least.old.at (attach_faults outline.now own.now child.now point.now) }
{
    check_access(outline, Sort::Point, own, least);
    let declared = outline.declaration_of(Sort::Point, &own.name);
    check_external(outline, declared, own.name.place, least);
    check_child(outline, child, point, least);
    let inner = side_at(outline, child_point(outline, child, point));
    check_joined(
        point_side(outline, &own.name),
        inner,
        child.name.place,
        least,
    );
}

/// The end of a `disconnect` or a `detach`.
pub fn check_untied(outline: &Outline, end: &EndPoint, least: &mut Least)
    ensures { least.new.at
        ≡ least_with least.old.at (untied_faults outline.now end.now.first end.now.second) }
{
    match &end.second {
        None => check_single(outline, &end.first, least),
        Some(point) => check_child(outline, &end.first, point, least),
    }
}
