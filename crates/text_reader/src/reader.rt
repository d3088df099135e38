//! A reader of tokens, which keeps its place and what became of the reading.

ghost use Rattle.std.specs.Prelude.{◌≡◌, ◌≤◌, ◌<◌, true, false, length, slice_get};
ghost use Rattle.std.specs.Prelude.{Some, IfSome, ◌++◌, ◌∷◌, []};
ghost use Rattle.est_lexer.specs.Offsets.{text_of, tokens_of};

use crate::number::{value, value_up_to};
use crate::outcome::Outcome;
use crate::refusal::Refusal;
use crate::spelling::is_spelled;
use est_lexer::kind::{ReservedWord, Symbol, TokenKind};
use est_lexer::tokens::Tokens;
use est_syntax::est_items::{Boxed, Items};
use est_syntax::name::{Name, Used};
use std::alloc::{AllocError, Global};

/// The tokens, the place of the next one, the levels that may still be opened, and what became of
/// the reading.
#[derive(Drop)]
pub struct Reader<'t> {
    pub tokens: &'t Tokens<'t>,
    pub alloc: Global,
    pub at: u32,
    pub levels: u32,
    pub outcome: Outcome,
    ghost inside: { at ≤ length (tokens_of tokens.now) },
}

impl<'t> Reader<'t> {
    ghost use Rattle.text_reader.specs.Whole.{Starts};

    /// A reader at the first token, with so many levels to open.
    pub fn new(alloc: Global, tokens: &'t Tokens<'t>, levels: u32) -> Reader<'t>
        ensures { Starts tokens.now levels result }
    {
        Reader {
            tokens,
            alloc,
            at: 0,
            levels,
            outcome: Outcome::Well,
        }
    }
}

impl Reader<'_> {
    ghost use Rattle.text_reader.specs.Tests.{kind, spelled, stands, lowered};
    ghost use Rattle.text_reader.specs.Moving.{IsTest, Sees, Steps, Takes, TakesName, TakesNumber};
    ghost use Rattle.text_reader.specs.Moving.{TakesValue, TakesCharacter, TakesCode, IsNamedAt};
    ghost use Rattle.text_reader.specs.Moving.{FindsNumber, FindsCode};
    ghost use Rattle.text_reader.specs.Moving.{Opens, Enters, Closes, Still, Kept, KeptSome};
    ghost use Rattle.text_reader.specs.Moving.{NoneSpent};
    ghost use Rattle.text_reader.specs.Whole.{Finishes};
    ghost use Rattle.est_lexer.specs.declared.kind.TokenKind.TheVariants.{Identifier, Reserved};
    ghost use Rattle.est_lexer.specs.declared.kind.TokenKind.TheVariants as token;
    ghost use Rattle.text_reader.specs.declared.outcome.Outcome.TheVariants.{Well};
    ghost use Rattle.std.specs.Str.{str_to_ascii_lowercase};
    ghost use Rattle.std.specs.Option.{option_map};
    ghost use Rattle.std.specs.Prelude.{is_some};

    /// Whether all has gone well.
    pub fn is_well(&self) -> bool
        ensures { IsTest self.now.outcome result }
    {
        match self.outcome {
            Outcome::Well => true,
            Outcome::Wrong => false,
            Outcome::TooDeep => false,
            Outcome::NoMemory => false,
        }
    }

    // Whether a token of this kind stands at the place.
    fn stands(&self, token: TokenKind) -> bool
        ensures test { stands self.now.tokens.now self.now.at (kind token) ≡ result }
        ensures inside { result ≡ true → self.now.at < length (tokens_of self.now.tokens.now) }
    {
        match self.tokens.token_at(self.at) {
            Some(found) => found.kind == token,
            None => false,
        }
    }

    // Whether this word or symbol, which is given in lower case, stands at the place in any letter
    // case.
    fn stands_word(&self, word: &[u8]) -> bool
        requires { str_to_ascii_lowercase word.now ≡ word.now }
        ensures test { stands self.now.tokens.now self.now.at (spelled word.now) ≡ result }
        ensures inside { result ≡ true → self.now.at < length (tokens_of self.now.tokens.now) }
    {
        match self.tokens.token_at(self.at) {
            Some(found) => {
                is_spelled(found.kind) && word.eq_ignore_ascii_case(self.tokens.spelled(self.at))
            }
            None => false,
        }
    }

    /// Whether all has gone well and a token of this kind comes next.
    pub fn sees(&self, token: TokenKind) -> bool
        ensures { Sees self.now (kind token) result }
    {
        if self.is_well() {
            self.stands(token)
        } else {
            false
        }
    }

    /// Whether all has gone well and this word or symbol comes next, which is given in lower case
    /// and may be written in any letter case.
    pub fn sees_word(&self, word: &[u8]) -> bool
        requires { str_to_ascii_lowercase word.now ≡ word.now }
        ensures { Sees self.now (spelled word.now) result }
    {
        if self.is_well() {
            self.stands_word(word)
        } else {
            false
        }
    }

    /// Takes the token at the place, where a test of it is met; else the reading is wrong here.
    pub fn step(&mut self, met: bool)
        requires { self.old.outcome ≡ Well → met ≡ true
            → self.old.at < length (tokens_of self.old.tokens.now) }
        ensures { Steps met self.old self.new }
    {
        if self.is_well() {
            if met {
                self.at = self.at + 1;
            } else {
                self.outcome = Outcome::Wrong;
            }
        }
    }

    /// Takes a token of this kind.
    pub fn take(&mut self, token: TokenKind)
        ensures { Takes (kind token) self.old self.new }
    {
        let met = self.stands(token);
        self.step(met);
    }

    /// Takes this word or symbol, which is given in lower case, in any letter case.
    pub fn take_word(&mut self, word: &[u8])
        requires { str_to_ascii_lowercase word.now ≡ word.now }
        ensures { Takes (spelled word.now) self.old self.new }
    {
        let met = self.stands_word(word);
        self.step(met);
    }

    /// Takes this reserved word.
    pub fn word(&mut self, word: ReservedWord)
        ensures { Takes (kind (Reserved word)) self.old self.new }
    {
        self.take(TokenKind::Reserved(word));
    }

    /// Takes this symbol.
    pub fn symbol(&mut self, symbol: Symbol)
        ensures { Takes (kind (token.Symbol symbol)) self.old self.new }
    {
        self.take(TokenKind::Symbol(symbol));
    }

    /// Takes the token that is seen, which opens a level, and tells how many levels there were.
    pub fn open(&mut self, token: TokenKind) -> u32
        requires { Sees self.old (kind token) true }
        ensures { Opens self.old result self.new }
    {
        let levels = self.levels;
        if levels == 0 {
            self.outcome = Outcome::TooDeep;
        } else {
            self.take(token);
            self.levels = levels - 1;
        }
        levels
    }

    /// Takes a level, where there is one, and reads nothing.
    pub fn enter(&mut self)
        requires { self.old.outcome ≡ Well }
        ensures { Enters self.old self.new }
    {
        if self.levels == 0 {
            self.outcome = Outcome::TooDeep;
        } else {
            self.levels = self.levels - 1;
        }
    }

    /// Closes a level: there are as many as before.
    pub fn close(&mut self, levels: u32)
        ensures { Closes levels self.old self.new }
    {
        self.levels = levels;
    }

    /// Takes a name.
    pub fn name(&mut self) -> Used
        ensures { TakesName self.old result self.new }
    {
        let place = self.at;
        self.take(TokenKind::Identifier);
        let bytes = self.lowered(place);
        Used {
            name: Name { bytes },
            place,
        }
    }

    // The spelling of a token in lower case.
    fn lowered(&mut self, place: u32) -> Items<u8>
        requires { self.old.outcome ≡ Well → place < length (tokens_of self.old.tokens.now) }
        ensures still { Still self.old self.new }
        ensures lowered { self.new.outcome ≡ Well
            → IfSome (slice_get (tokens_of self.old.tokens.now) place)
            (λ token. result ≡ lowered (text_of self.old.tokens.now) token) }
    {
        if self.is_well() {
            match self.tokens.spelled(place).to_ascii_lowercase(self.alloc) {
                Ok(items) => {
                    return Items { items };
                }
                Err(_) => self.spend(),
            }
        }
        Items::new(self.alloc)
    }

    /// The name of the identifier that comes next, in lower case, where one does.
    pub fn name_here(&mut self) -> Option<Vec<u8>>
        ensures still { Still self.old self.new }
        ensures named { self.new.outcome ≡ Well
            → IsNamedAt self.old.tokens.now self.old.at (option_map (λ bytes. bytes.items) result) }
        ensures unasked { stands self.old.tokens.now self.old.at (kind Identifier) ≡ false
            → NoneSpent self.old.outcome self.new.outcome }
    {
        if !self.stands(TokenKind::Identifier) {
            return None;
        }
        match self.tokens.spelled(self.at).to_ascii_lowercase(self.alloc) {
            Ok(name) => Some(name),
            Err(_) => {
                self.spend();
                None
            }
        }
    }

    // The value of the number at the place, where one stands there within these bounds.
    fn number_here(&self, low: u32, high: u32) -> Option<u32>
        ensures found { FindsNumber low high self.now.tokens.now self.now.at result }
        ensures inside { is_some result ≡ true
            → self.now.at < length (tokens_of self.now.tokens.now) }
    {
        if !self.stands(TokenKind::Number) {
            return None;
        }
        let value = value_up_to(self.tokens.spelled(self.at), high)?;
        if low <= value { Some(value) } else { None }
    }

    /// Takes a number within these bounds, and tells its value.
    pub fn number(&mut self, low: u32, high: u32) -> u32
        ensures { TakesNumber low high self.old result self.new }
    {
        let found = self.number_here(low, high);
        self.step(found.is_some());
        found.unwrap_or(0)
    }

    /// Takes a number, and tells its value.
    pub fn value(&mut self) -> u64
        ensures { TakesValue self.old result self.new }
    {
        let place = self.at;
        self.take(TokenKind::Number);
        if self.is_well() {
            value(self.tokens.spelled(place))
        } else {
            0
        }
    }

    /// Takes a character constant, and tells the code of its character.
    pub fn character(&mut self) -> u8
        ensures { TakesCharacter self.old result self.new }
    {
        let place = self.at;
        self.take(TokenKind::Character);
        if self.is_well() {
            self.tokens.spelled(place)[1]
        } else {
            0
        }
    }

    // The code of the character constant at the place, where one stands there within these bounds.
    fn code_here(&self, low: u32, high: u32) -> Option<u32>
        ensures found { FindsCode low high self.now.tokens.now self.now.at result }
        ensures inside { is_some result ≡ true
            → self.now.at < length (tokens_of self.now.tokens.now) }
    {
        if !self.stands(TokenKind::Character) {
            return None;
        }
        let code = u32::from(self.tokens.spelled(self.at)[1]);
        if low <= code && code <= high {
            Some(code)
        } else {
            None
        }
    }

    /// Takes a character constant whose code lies within these bounds, and tells the code.
    pub fn code(&mut self, low: u32, high: u32) -> u32
        ensures { TakesCode low high self.old result self.new }
    {
        let found = self.code_here(low, high);
        self.step(found.is_some());
        found.unwrap_or(0)
    }

    /// The value in a box.
    pub fn boxed<T: Drop>(&mut self, value: T) -> Option<Boxed<T>>
        ensures still { Still self.old self.new }
        ensures boxed { self.new.outcome ≡ Well → result ≡ Some value }
    {
        match Boxed::new(self.alloc, value) {
            Ok(boxed) => Some(boxed),
            Err(_) => {
                self.spend();
                None
            }
        }
    }

    /// Puts an item last.
    pub fn keep<T: Drop>(&mut self, items: &mut Items<T>, item: T)
        ensures { Kept self.old self.new items.old item items.new }
    {
        match items.push(item) {
            Ok(_) => {}
            Err(_) => self.spend(),
        }
    }

    /// Puts an item last, if there is one.
    pub fn keep_some<T: Drop>(&mut self, items: &mut Items<T>, item: Option<T>)
        ensures { KeptSome self.old self.new items.old item items.new }
    {
        match item {
            Some(item) => self.keep(items, item),
            None => {}
        }
    }

    /// Ends the reading of a value: the value, where all has gone well and all tokens are taken;
    /// or why not, with the place.
    pub fn finish<T: Drop>(self, value: T) -> Result<T, Refusal>
        ensures { Finishes self.entry value result }
    {
        let place = self.at;
        let refusal = match self.outcome {
            Outcome::Well => {
                if place == self.tokens.count() {
                    return Ok(value);
                }
                Refusal::BadToken { place }
            }
            Outcome::Wrong => Refusal::BadToken { place },
            Outcome::TooDeep => Refusal::TooDeep { place },
            Outcome::NoMemory => Refusal::Memory(AllocError),
        };
        drop(value);
        Err(refusal)
    }

    /// Tells that memory ran out.
    pub fn spend(&mut self)
        ensures still { Still self.old self.new }
        ensures spent { self.new.outcome ≡ Well → ⊥ }
    {
        if self.is_well() {
            self.outcome = Outcome::NoMemory;
        }
    }
}
