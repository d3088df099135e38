//! The ordinals of hosts (ISO 7185, 6.4.2 and 6.6.6.4).
ghost use Rattle.std.specs.Prelude.{◌≡◌};
ghost use Rattle.mean_blocks.specs.HostOrdinals.{first_of_host, last_of_host, within_host};
ghost use Rattle.mean_blocks.specs.FunctionCalls.{beside};

use est_syntax::kind::MAXINT;
use est_values::ordinals::last_constant;
use est_values::types::Host;
use mean_blocks::fault::BlockFault;

// The first ordinal of a host.
fn first_of_host(host: Host) -> i32
    ensures { result ≡ first_of_host host }
{
    match host {
        Host::Integer => -(MAXINT as i32),
        _ => 0,
    }
}

// The last ordinal of a host.
fn last_of_host(host: Host) -> i32
    ensures { result ≡ last_of_host host }
{
    match host {
        Host::Integer => MAXINT as i32,
        Host::Boolean => 1,
        Host::Char => 127,
        Host::Enumeration { declared: _, count } => last_constant(count),
    }
}

/// A number as an ordinal of a host, where it is one.
pub fn within_host(host: Host, z: i64) -> Result<i32, BlockFault>
    ensures { result ≡ within_host host z }
{
    if first_of_host(host) as i64 <= z && z <= last_of_host(host) as i64 {
        Ok(z as i32)
    } else {
        Err(BlockFault::Range)
    }
}

/// The ordinal beside that of an argument of `succ` or `pred`, where its host has it.
pub fn beside(host: Option<Host>, z: i64) -> Result<i32, BlockFault>
    ensures { result ≡ beside host z }
{
    match host {
        None => Err(BlockFault::Undefined),
        Some(host) => within_host(host, z),
    }
}
