//! Parses a text.

ghost use Rattle.std.specs.Prelude.{◌≡◌, ◌⊎◌, ◌<◌, ◌^◌, length, IfOk, IfErr};
ghost use Rattle.geo_base.specs.Results.{Gives, Reads, Refuses};
ghost use Rattle.sql_lex.specs.inner.Tokens.{tokens_of};
ghost use Rattle.sql_parse.specs.inner.Parsing as spec;
ghost use Rattle.sql_parse.specs.Places as places;
ghost use Rattle.sql_parse.specs.Refusals.{IsTextOf, IsRefused};

use crate::fault::ParseFault;
use crate::statement::read_whole;
use crate::stop::Stop;
use sql_ast::Statement;
use sql_lex::{LexFault, Token, lex};
use std::alloc::Global;

// The place of the token from which on so many are left, and the text's end where none is.
fn place_of(end: u32, tokens: &[Token], left: usize) -> u32
    ensures { result ≡ places.place_of end tokens.now left }
{
    match tokens.get(tokens.len().saturating_sub(left)) {
        Some(token) => token.from,
        None => end,
    }
}

// The fault of the text where its tokens stop being a statement.
fn placed_fault(end: u32, tokens: &[Token], stop: Stop) -> ParseFault
    ensures { result ≡ spec.placed_fault end tokens.now stop }
{
    match stop {
        Stop::Stuck(left) => ParseFault::BadSyntax(place_of(end, tokens, left)),
        Stop::Deep(left) => ParseFault::TooDeep(place_of(end, tokens, left)),
        Stop::NoMemory => ParseFault::NoMemory,
    }
}

// The fault of a text that is no tokens.
fn text_fault(fault: LexFault) -> ParseFault
    ensures { result ≡ spec.text_fault fault }
{
    match fault {
        LexFault::BadText(at) => ParseFault::BadText(at),
        LexFault::NoMemory => ParseFault::NoMemory,
    }
}

// The tokens of the text, by the steps that cut it.
fn cut(alloc: Global, text: &str) -> Result<Vec<Token>, LexFault>
    requires { length text.now < 2 ^ 32 }
    ensures { Gives LexFault.NoMemory (λ tokens. tokens.items) result (tokens_of text.now) }
{
    lex(alloc, text)
}

// The statement that the text is read as, or its first fault.
#[tactic(auto, unfolding(crate::specs::inner::Parsing::parsed))]
fn read_text(alloc: Global, text: &str) -> Result<Statement, ParseFault>
    requires { length text.now < 2 ^ 32 }
    ensures { Gives ParseFault.NoMemory (λ statement. statement) result (spec.parsed text.now) }
{
    let tokens = match cut(alloc, text) {
        Ok(tokens) => tokens,
        Err(fault) => return Err(text_fault(fault)),
    };
    match read_whole(alloc, tokens.as_slice()) {
        Ok(statement) => Ok(statement),
        Err(stop) => Err(placed_fault(text.len() as u32, tokens.as_slice(), stop)),
    }
}

/// Parses a text of less than 2 ^ 32 bytes: the statement that it spells, or the first fault. A fault of
/// its tokens comes before any other. Takes time that grows as the text's length.
pub fn parse(alloc: Global, text: &str) -> Result<Statement, ParseFault>
    requires { length text.now < 2 ^ 32 }
    ensures spelled { IfOk result (λ statement. IsTextOf text.now statement) }
    ensures only { Reads ParseFault.NoMemory (λ statement. statement) result (IsTextOf text.now) }
    ensures fault { IfErr result (λ fault. (fault ≡ ParseFault.NoMemory) ⊎ IsRefused text.now fault) }
    ensures refused { Refuses ParseFault.NoMemory result (IsRefused text.now) }
{
    read_text(alloc, text)
}
