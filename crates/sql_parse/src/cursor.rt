//! Tokens that are read from the left.

ghost use Rattle.std.specs.Prelude.{◌≡◌, ◌∷◌, [], List, length, drop, true, false, Ok, IsTrue, MatchOption};
ghost use Rattle.sql_lex.specs.declared.token.TokenKind.{TokenKind};
ghost use Rattle.sql_parse.specs.Grammar.{begins_integer};
ghost use Rattle.sql_parse.specs.inner.Kinds.{is_keyword, is_symbol};
ghost use Rattle.sql_parse.specs.Places.{kinds_of};
ghost use Rattle.sql_parse.specs.inner.Reading as spec;
ghost use Rattle.sql_parse.specs.inner.Reading.{Parses};

use crate::kinds::{integer_of, is_keyword, is_symbol};
use crate::stop::Stop;
use sql_lex::{Keyword, Symbol, Token, TokenKind};
use std::marker::Model;

/// The tokens that are left. Contracts see the list of what they mean.
#[derive(Drop)]
pub(crate) struct Cursor<'a> {
    rest: &'a [Token],
}

impl<'a> Model for Cursor<'a> {
    ghost use Rattle.std.specs.Prelude.{List};
    ghost use Rattle.sql_lex.specs.declared.token.TokenKind.{TokenKind};
    ghost use Rattle.sql_parse.specs.Places.{kinds_of};

    ghost Value = { List TokenKind };

    ghost view = { λ c. kinds_of c.rest.now };
}

impl<'a> Cursor<'a> {
    pub(crate) fn new(tokens: &'a [Token]) -> Cursor<'a>
        ensures { result ≡ kinds_of tokens.now }
    {
        Cursor { rest: tokens }
    }

    /// How many tokens are left.
    pub(crate) fn left(&self) -> usize
        ensures { result ≡ length self.now }
    {
        self.rest.len()
    }

    /// The next token.
    pub(crate) fn peek(&self) -> Option<&'a TokenKind>
        ensures { MatchOption result (self.now ≡ []) (λ token. (more : List TokenKind) × (self.now ≡ token.now ∷ more)) }
    {
        match self.rest {
            [] => None,
            [token, ..] => Some(&token.kind),
        }
    }

    /// Goes to the token behind the next one, if there is one.
    pub(crate) fn skip(&mut self)
        ensures { self.new ≡ drop 1 self.old }
    {
        if let [_, more @ ..] = self.rest {
            self.rest = more;
        }
    }

    /// The next token, and whether an integer follows it.
    pub(crate) fn ahead(&self) -> Option<(&'a TokenKind, bool)>
        ensures { MatchOption result (self.now ≡ []) (λ next. (more : List TokenKind) ×
            (self.now ≡ next.0.now ∷ more) × (next.1 ≡ begins_integer more)) }
    {
        match self.rest {
            [] => None,
            [token] => Some((&token.kind, false)),
            [token, next, ..] => Some((&token.kind, integer_of(&next.kind).is_some())),
        }
    }

    /// Whether the next token is the keyword.
    #[tactic(auto, unfolding(crate::specs::inner::Reading::begins))]
    pub(crate) fn sees_keyword(&self, keyword: Keyword) -> bool
        ensures { result ≡ spec.begins (is_keyword keyword) self.now }
    {
        match self.rest {
            [] => false,
            [token, ..] => is_keyword(keyword, &token.kind),
        }
    }

    /// Whether the next token is the symbol.
    #[tactic(auto, unfolding(crate::specs::inner::Reading::begins))]
    pub(crate) fn sees_symbol(&self, symbol: Symbol) -> bool
        ensures { result ≡ spec.begins (is_symbol symbol) self.now }
    {
        match self.rest {
            [] => false,
            [token, ..] => is_symbol(symbol, &token.kind),
        }
    }

    /// That no statement goes on with the next token.
    pub(crate) fn refuse(&self) -> Stop
        ensures { result ≡ Stop.Stuck (length self.now) }
    {
        Stop::Stuck(self.left())
    }

    /// Reads the keyword.
    #[tactic(auto, unfolding(crate::specs::inner::Reading::keyword))]
    pub(crate) fn expect_keyword(&mut self, keyword: Keyword) -> Result<(), Stop>
        ensures { Parses (spec.keyword keyword self.old) result self.new }
    {
        if !self.sees_keyword(keyword) {
            return Err(self.refuse());
        }
        self.skip();
        Ok(())
    }

    /// Reads the symbol.
    #[tactic(auto, unfolding(crate::specs::inner::Reading::symbol))]
    pub(crate) fn expect_symbol(&mut self, symbol: Symbol) -> Result<(), Stop>
        ensures { Parses (spec.symbol symbol self.old) result self.new }
    {
        if !self.sees_symbol(symbol) {
            return Err(self.refuse());
        }
        self.skip();
        Ok(())
    }

    /// Reads the keyword if it comes next, and answers whether it did.
    #[tactic(auto, unfolding(crate::specs::inner::Reading::keyword))]
    pub(crate) fn eat_keyword(&mut self, keyword: Keyword) -> bool
        ensures seen { result ≡ spec.begins (is_keyword keyword) self.old }
        ensures eaten { IsTrue result → spec.keyword keyword self.old ≡ Ok (tt, self.new) }
        ensures kept { result ≡ false → self.new ≡ self.old }
    {
        let seen = self.sees_keyword(keyword);
        if seen {
            self.skip();
        }
        seen
    }

    /// Reads the symbol if it comes next, and answers whether it did.
    #[tactic(auto, unfolding(crate::specs::inner::Reading::symbol))]
    pub(crate) fn eat_symbol(&mut self, symbol: Symbol) -> bool
        ensures seen { result ≡ spec.begins (is_symbol symbol) self.old }
        ensures eaten { IsTrue result → spec.symbol symbol self.old ≡ Ok (tt, self.new) }
        ensures kept { result ≡ false → self.new ≡ self.old }
    {
        let seen = self.sees_symbol(symbol);
        if seen {
            self.skip();
        }
        seen
    }
}
