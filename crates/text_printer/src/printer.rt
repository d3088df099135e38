//! A printer of tokens, which puts between them what the one canonical text has there.

ghost use Rattle.std.specs.Prelude.{◌≡◌, false, OnOk, IfOk};
ghost use Rattle.std.specs.Fmt.{decimal};
ghost use Rattle.text_printer.specs.PlainSpelling.{character_bytes};

use crate::spacing::{count_of, gap_before, open_after};
use crate::spelling::{symbol_spelling, word_spelling};
use est_lexer::kind::{ReservedWord, Symbol, Token, TokenKind};
use est_syntax::name::Used;
use itoa::Buffer;
use std::alloc::{AllocError, Global};

const QUOTE: u8 = b'\'';

/// The printed text and its tokens, the kind of the last one, how many round brackets are open, and
/// whether memory ran out. Once it has, nothing more is printed.
#[derive(Drop)]
pub struct Printer {
    pub text: Vec<u8>,
    pub tokens: Vec<Token>,
    pub last: Option<TokenKind>,
    pub nested: u32,
    pub spent: bool,
}

impl Printer {
    ghost use Rattle.text_printer.specs.Putting.{Put, Puts, PutsKind, Starts, Ends};
    ghost use Rattle.est_lexer.specs.declared.kind.TokenKind.TheVariants as token;

    /// A printer that has printed nothing.
    pub fn new(alloc: Global) -> Printer
        ensures { Starts result }
    {
        Printer {
            text: Vec::new(alloc),
            tokens: Vec::new(alloc),
            last: None,
            nested: 0,
            spent: false,
        }
    }

    /// Prints a token of this kind and these bytes.
    pub fn put(&mut self, kind: TokenKind, bytes: &[u8])
        ensures { Puts kind bytes.now self.old self.new }
    {
        if self.spent {
            return;
        }
        match self.append(kind, bytes) {
            Ok(_) => {}
            Err(_) => self.spent = true,
        }
    }

    // Adds the token, or tells that memory ran out. A text that has no room for its numbers of
    // bytes and brackets is taken for one that memory does not hold.
    fn append(&mut self, kind: TokenKind, bytes: &[u8]) -> Result<(), AllocError>
        requires { self.old.spent ≡ false }
        ensures put { OnOk result (Put kind bytes.now self.old self.new) }
        ensures well { self.new.spent ≡ false }
    {
        let gap = gap_before(self.last, self.nested, kind);
        let start = count_of(self.text.len() + gap.len())?;
        let length = count_of(bytes.len())?;
        let nested = open_after(self.nested, kind)?;
        self.text.extend_from_slice(gap)?;
        self.text.extend_from_slice(bytes)?;
        self.tokens.push(Token {
            kind,
            start,
            length,
        })?;
        self.last = Some(kind);
        self.nested = nested;
        Ok(())
    }

    /// Prints a reserved word.
    pub fn word(&mut self, word: ReservedWord)
        ensures { PutsKind (token.Reserved word) self.old self.new }
    {
        self.put(TokenKind::Reserved(word), word_spelling(word));
    }

    /// Prints a symbol.
    pub fn symbol(&mut self, symbol: Symbol)
        ensures { PutsKind (token.Symbol symbol) self.old self.new }
    {
        self.put(TokenKind::Symbol(symbol), symbol_spelling(symbol));
    }

    /// Prints a name.
    pub fn name(&mut self, used: &Used)
        ensures { Puts token.Identifier used.now.name.bytes self.old self.new }
    {
        self.put(TokenKind::Identifier, used.name.bytes.as_slice());
    }

    /// Prints a number in decimal digits.
    pub fn number(&mut self, number: u64)
        ensures { Puts token.Number (decimal number) self.old self.new }
    {
        let mut buffer = Buffer::new();
        self.put(TokenKind::Number, buffer.format(number).as_bytes());
    }

    /// Prints the constant of a character.
    pub fn character(&mut self, code: u8)
        ensures { Puts token.Character (character_bytes code) self.old self.new }
    {
        if code == QUOTE {
            self.put(TokenKind::Character, b"''''");
        } else {
            self.put(TokenKind::Character, &[QUOTE, code, QUOTE]);
        }
    }

    /// Ends the text with a line feed. Errs where memory ran out, now or before.
    pub fn finish(self) -> Result<Vec<u8>, AllocError>
        ensures { IfOk result (λ text. Ends self text.items) }
    {
        let Printer {
            mut text,
            tokens: _,
            last: _,
            nested: _,
            spent,
        } = self;
        if spent {
            return Err(AllocError);
        }
        text.push(b'\n')?;
        Ok(text)
    }
}
