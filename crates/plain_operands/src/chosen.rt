//! The choices of a `case`.
ghost use Rattle.std.specs.Prelude.{◌≡◌, IfOk};
ghost use Rattle.mean_blocks.specs.StatementEffects.{is_chosen};
ghost use Rattle.plain_operands.specs.ChosenConstants.{has_ordinal};

use crate::site::Site;
use est_syntax::constant::Constant;
use mean_blocks::rule_kinds::constants::constant_value;
use mean_blocks::rule_scope::outline::Outline;
use std::alloc::AllocError;

// Whether a constant has this ordinal.
fn has_ordinal(outline: &Outline, constant: &Constant, z: i32) -> Result<bool, AllocError>
    ensures { IfOk result (λ has. has ≡ has_ordinal outline.now z constant.now) }
{
    match constant_value(outline, constant)? {
        None => Ok(false),
        Some(value) => {
            let has = z == value.ordinal;
            drop(value);
            Ok(has)
        }
    }
}

/// Whether one of these constants has this ordinal.
pub fn is_chosen(site: &Site, constants: &[Constant], z: i32) -> Result<bool, AllocError>
    ensures { IfOk result
        (λ chosen. chosen ≡ is_chosen site.now.text.now.outline constants.now z) }
{
    for constant in constants {
        if has_ordinal(site.text.outline(), constant, z)? {
            return Ok(true);
        }
    }
    Ok(false)
}
