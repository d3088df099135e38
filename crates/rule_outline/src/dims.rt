//! The kinds of subscripts, which the names of one declaration share.

ghost use Rattle.std.specs.Prelude.{◌≡◌, IfOk};

use est_syntax::est_items::Shared;
use est_syntax::kind::Kinds;
use rule_declares::rule_scope::declaration::SharedKinds;
use std::alloc::{AllocError, Global};

/// These kinds, where there are such, as the first of their owners has them.
pub fn shared_dims(alloc: Global, dims: Option<Kinds>) -> Result<Option<SharedKinds>, AllocError>
    ensures { IfOk result (λ shared. shared ≡ dims) }
{
    match dims {
        None => Ok(None),
        Some(kinds) => Ok(Some(Shared::new(alloc, kinds)?)),
    }
}

/// The same kinds, as another owner has them.
pub fn share_dims(dims: &Option<SharedKinds>) -> Result<Option<SharedKinds>, AllocError>
    ensures { IfOk result (λ shared. shared ≡ dims.now) }
{
    match dims {
        None => Ok(None),
        Some(kinds) => Ok(Some(kinds.share()?)),
    }
}
