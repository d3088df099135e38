//! Tuples of ordinals in lexicographic order.
ghost use Rattle.std.specs.Prelude.{◌≡◌, length, Some, None, true, false};
ghost use Rattle.est_values.specs.OrdinalTuples.{next_tuple};

use crate::ordinals::{first_ordinal, last_ordinal};
use est_syntax::kind::Kind;

/// Goes on to the next tuple of ordinals of these kinds, if there is one.
pub fn next_tuple(tuple: &mut [i32], kinds: &[Kind]) -> bool
    requires { length tuple.old ≡ length kinds.now }
    ensures next { result ≡ true → next_tuple kinds.now tuple.old ≡ Some tuple.new }
    ensures last { result ≡ false → next_tuple kinds.now tuple.old ≡ None }
{
    let mut i = kinds.len();
    while 0 < i {
        i -= 1;
        let kind = &kinds[i];
        if tuple[i] < last_ordinal(kind) {
            tuple[i] += 1;
            return true;
        }
        tuple[i] = first_ordinal(kind);
    }
    false
}
