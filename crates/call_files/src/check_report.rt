//! The lines of reports.
ghost use Rattle.std.specs.Prelude.{◌≡◌, IfOk, string_bytes};
ghost use Rattle.call_files.specs.Reports.{fault_text, ok_line};

use est_meaning::mean_blocks::fault::BlockFault;
use est_trace::est_check::Counts;
use std::alloc::{AllocError, Global};

/// The report of a good specification.
pub fn ok_report(alloc: Global, counts: Counts) -> Result<String, AllocError>
    ensures { IfOk result (λ line. string_bytes line ≡ ok_line counts) }
{
    let Counts {
        bodies,
        transitions,
        ports,
    } = counts;
    format!(in alloc; "ok: {bodies} bodies, {transitions} transitions, {ports} ports\n")
}

/// What goes wrong in a block.
pub fn fault_text(fault: BlockFault) -> &'static str
    ensures { result.now ≡ fault_text fault }
{
    match fault {
        BlockFault::Range => "range",
        BlockFault::Divide => "divide",
        BlockFault::Undefined => "undefined",
        BlockFault::NoCase => "no case",
        BlockFault::NoModule => "no module",
        BlockFault::LinkTaken => "link taken",
        BlockFault::SelfLink => "self link",
        BlockFault::TooMany => "too many",
    }
}
