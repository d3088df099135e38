//! The predeclared functions of ordinals (ISO 7185, 6.6.6).
ghost use Rattle.std.specs.Prelude.{◌≡◌};
ghost use Rattle.mean_blocks.specs.FunctionCalls.{required_value, required_by};
ghost use Rattle.mean_blocks.specs.OperandHosts.{host_of};

use est_syntax::expression::Expr;
use est_values::arithmetic::{negative, times};
use est_values::types::Host;
use mean_blocks::fault::BlockFault;
use mean_blocks::rule_declares::required::{Required, required_function};
use mean_blocks::rule_scope::predeclared::PredeclaredName;
use plain_names::hosts::host_of;
use plain_operands::site::Site;
use plain_values::hosts::{beside, within_host};
use plain_values::ordinals::exact;

// A predeclared function of an ordinal that an expression yields. Only `succ` and `pred` ask for
// its host.
fn required_value(site: &Site, required: Required, e: &Expr, z: i32) -> Result<i32, BlockFault>
    ensures { result ≡ required_value required (host_of site.now.text.now.outline e.now) z }
{
    match required {
        Required::Ord => Ok(z),
        Required::Chr => within_host(Host::Char, z as i64),
        Required::Succ => beside(host_of(site.text, e), z as i64 + 1),
        Required::Pred => beside(host_of(site.text, e), z as i64 - 1),
        Required::Abs => if z < 0 { exact(negative(z)) } else { Ok(z) },
        Required::Odd => Ok(z.rem_euclid(2)),
        Required::Sqr => exact(times(z, z)),
    }
}

/// The predeclared function of a name, of an ordinal that an expression yields.
pub fn required_by(site: &Site, name: PredeclaredName, e: &Expr, z: i32) -> Result<i32, BlockFault>
    ensures { result ≡ required_by name (host_of site.now.text.now.outline e.now) z }
{
    match required_function(name) {
        None => Err(BlockFault::Undefined),
        Some(required) => required_value(site, required, e, z),
    }
}
