//! Commas between the items of lists.
ghost use Rattle.text_values.specs.inside.Gathering.{TakesComma};

use est_lexer::kind::Symbol;
use text_reader::Reader;

/// Takes a comma, where an item has others before it.
pub fn comma(reader: &mut Reader, before: u64)
    ensures { TakesComma before reader.old reader.new }
{
    if 0 < before {
        reader.symbol(Symbol::Comma);
    }
}
