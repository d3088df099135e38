//! Equal copies of names and kinds.
ghost use Rattle.std.specs.Prelude.{◌≡◌, IfOk};
ghost use Rattle.est_syntax.specs.declared.kind.Kind.TheVariants.{ArrayOf};

use crate::kind::{Kind, SharedKind};
use crate::name::{Bytes, Name};
use std::alloc::{AllocError, Global};

impl Name {
    /// The name of these bytes, which are in lower case.
    pub fn of(alloc: Global, bytes: &[u8]) -> Result<Name, AllocError>
        ensures { IfOk result (λ name. name.bytes ≡ bytes.now) }
    {
        Ok(Name {
            bytes: Bytes {
                items: Vec::from_slice(alloc, bytes)?,
            },
        })
    }

    /// An equal name.
    pub fn copy(&self, alloc: Global) -> Result<Name, AllocError>
        ensures { IfOk result (λ name. name ≡ self.now) }
    {
        Name::of(alloc, self.bytes.as_slice())
    }
}

impl Kind {
    /// An equal kind, which shares what this one is made of. Errs where that can have no more
    /// owners.
    pub fn copy(&self) -> Result<Kind, AllocError>
        ensures { IfOk result (λ kind. kind ≡ self.now) }
    {
        match self {
            Kind::Integer => Ok(Kind::Integer),
            Kind::Boolean => Ok(Kind::Boolean),
            Kind::Char => Ok(Kind::Char),
            Kind::Enumeration { declared, names } => Ok(Kind::Enumeration {
                declared: *declared,
                names: names.share()?,
            }),
            Kind::Part { host, low, high } => Ok(Kind::Part {
                host: host.share()?,
                low: *low,
                high: *high,
            }),
            Kind::SetOf(base) => Ok(Kind::SetOf(base.share()?)),
            Kind::ArrayOf { index, of } => share_array(index, of),
            Kind::Fields(fields) => Ok(Kind::Fields(fields.share()?)),
        }
    }
}

// The kind of an array, which shares what it is made of.
fn share_array(index: &SharedKind, of: &SharedKind) -> Result<Kind, AllocError>
    ensures { IfOk result (λ kind. kind ≡ ArrayOf index.now of.now) }
{
    let index = index.share()?;
    let of = of.share()?;
    Ok(Kind::ArrayOf { index, of })
}
