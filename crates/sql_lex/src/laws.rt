//! That the steps by which the code cuts a text come to what the grammar says of it.

ghost use Rattle.std.specs.Prelude.{◌≡◌, ◌↔◌, ℕ, List};
ghost use Rattle.geo_base.specs.Results.{OneAnswer};
ghost use Rattle.sql_lex.specs.declared.token.Token.{Token};
ghost use Rattle.sql_lex.specs.declared.token.LexFault.{LexFault};
ghost use Rattle.sql_lex.specs.declared.keyword.Keyword.{Keyword};
ghost use Rattle.sql_lex.specs.Keywords.{IsKeyword};
ghost use Rattle.sql_lex.specs.inner.Keywords.{keyword_of};
ghost use Rattle.sql_lex.specs.inner.Tokens.{tokens_of};
ghost use Rattle.sql_lex.specs.Grammar.{AreSlicesFrom, AreTokensOf, StopsAt, IsLexFault};

/// A text is cut into tokens in one way, or stops at one place where no token begins, and not both.
pub fn texts_have_one_answer()
    ensures { (text : List ℕ) → OneAnswer (λ tokens. AreTokensOf tokens text) (IsLexFault text) }
{}

/// The code's steps cut a text into those tokens, and no others, that the text spells one after
/// another, with nothing but blanks beside them, each as long as it can be.
pub fn tokens_are_the_text()
    ensures { (text : List ℕ) (tokens : List Token) →
        (tokens_of text ≡ Ok tokens) ↔ AreTokensOf tokens text }
{}

/// The spans of the tokens rise, lie in the text, and hold what spells each of them.
pub fn tokens_are_slices()
    ensures { (text : List ℕ) (tokens : List Token) →
        AreTokensOf tokens text → AreSlicesFrom 0 text tokens }
{}

/// The code's steps stop exactly where the tokens before it end, blanks skipped, and no token begins.
pub fn faults_are_where_no_token_begins()
    ensures place { (text : List ℕ) (at : ℕ) →
        (tokens_of text ≡ Err (LexFault.BadText at)) ↔ StopsAt text at }
    ensures alone { (text : List ℕ) (fault : LexFault) →
        tokens_of text ≡ Err fault → (at : ℕ) × (fault ≡ LexFault.BadText at) }
{}

/// The keyword that is found for a word is the one whose word in capitals it is, in any mix of case:
/// one is found wherever there is such a keyword, and no other one.
pub fn keywords_are_their_words()
    ensures { (word : List ℕ) (keyword : Keyword) →
        (keyword_of word ≡ Some keyword) ↔ IsKeyword keyword word }
{}
