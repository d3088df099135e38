//! Which kinds of tokens have a spelling.

ghost use Rattle.std.specs.Prelude.{◌≡◌};
ghost use Rattle.text_reader.specs.Tests.{is_spelled};

use est_lexer::kind::TokenKind;

/// Whether a token of this kind is a word or a symbol.
pub fn is_spelled(kind: TokenKind) -> bool
    ensures { result ≡ is_spelled kind }
{
    match kind {
        TokenKind::Identifier => true,
        TokenKind::Reserved(_) => true,
        TokenKind::Symbol(_) => true,
        TokenKind::LeftOut(_) => false,
        TokenKind::Number => false,
        TokenKind::Character => false,
        TokenKind::Bad => false,
    }
}
