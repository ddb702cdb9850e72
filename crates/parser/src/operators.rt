//! Operators of expressions.
ghost use Rattle.std.specs.Prelude.{◌≡◌};
ghost use Rattle.lexer.specs.Tokens.{lexeme_of};
ghost use Rattle.parser.specs.Operators.{operator_at};

use crate::node::Operator;
use lexer::token::Token;

/// How closely an operator binds: `*`, then `+` and `-`, then `<` and `==`.
#[derive(Clone, Copy, PartialEq, Eq, Debug)]
pub enum Rank {
    Product,
    Sum,
    Comparison,
}

/// An operator with its place in the text.
#[derive(Clone, Copy, PartialEq, Eq, Debug)]
pub struct Found {
    pub operator: Operator,
    pub place: usize,
}

/// The operator of the rank that a token is.
pub(crate) fn operator_in(token: Token, rank: Rank) -> Option<Operator>
    ensures { result ≡ operator_at rank (lexeme_of token.entry) }
{
    match (rank, token) {
        (Rank::Product, Token::Sign(b'*')) => Some(Operator::Times),
        (Rank::Sum, Token::Sign(b'+')) => Some(Operator::Plus),
        (Rank::Sum, Token::Sign(b'-')) => Some(Operator::Minus),
        (Rank::Comparison, Token::Sign(b'<')) => Some(Operator::Less),
        (Rank::Comparison, Token::Equals) => Some(Operator::Same),
        _ => None,
    }
}
