//! Runs many texts through the reader, the parser of path expressions and the contracts, and writes what came of each.
//!
//! Each line of cases.txt is a kind and its fields in hexadecimal, `-` for an empty one: `script TEXT` or `path TEXT` for
//! the tokens of a text; `contract READ WRITE` for the trees of a contract; and for what is permitted of a path
//! `expression PATH READ WRITE`, `depth PATH NUMBERS` and `both PATH READ WRITE READ WRITE`.
#![tactic(auto)]

#[cfg(test)]
mod examples;

use contract::both::Both;
use contract::contract::Contract;
use contract::depth::Depth;
use contract::expressions::Expression;
use contract::path_text::permits_text;
use expression::texts::{Text, TextRefusal};
use expression::trees::Trees;
use lexer::reader::Reader;
use lexer::token::{Language, Placed, Token};
use std::alloc::{AllocError, Global};
use std::fs;

/// The value of a hexadecimal digit, or 0.
fn digit(b: u8) -> u8 {
    match b {
        b'0'..=b'9' => b - b'0',
        b'a'..=b'f' => b - b'a' + 10,
        _ => 0,
    }
}

/// The bytes that a field of a line stands for.
fn bytes_of(heap: Global, field: &str) -> Result<Vec<u8>, AllocError> {
    let mut bytes = Vec::new(heap);
    if field != "-" {
        for pair in field.as_bytes().chunks_exact(2) {
            bytes.push(digit(pair[0]).wrapping_mul(16).wrapping_add(digit(pair[1])))?;
        }
    }
    Ok(bytes)
}

// Not `Display` of `Placed`: these lines are this program's own.
fn token_text(heap: Global, next: Placed) -> Result<String, AllocError> {
    let start = next.start;
    let stop = next.stop;
    match next.token {
        Token::Name(bytes) => {
            let len = bytes.len();
            format!(in heap; "name {start} {stop} of {len}")
        }
        Token::Number { digits, value } => {
            let len = digits.len();
            format!(in heap; "number {start} {stop} of {len} is {value}")
        }
        Token::Sign(sign) => format!(in heap; "sign {start} {stop} is {sign}"),
        Token::Equals => format!(in heap; "equals {start} {stop}"),
        Token::End => format!(in heap; "end {start}"),
        Token::Bad => format!(in heap; "bad {start}"),
    }
}

/// Whether no token comes after this one.
fn is_last(token: Token) -> bool {
    matches!(token, Token::End | Token::Bad)
}

fn tokens_text(heap: Global, text: &[u8], language: Language) -> Result<String, AllocError> {
    let mut reader = Reader::new(text, language);
    let mut all = String::new(heap);
    // As many turns as bytes at most: so it ends without a measure.
    for _ in 0..text.len() {
        let next = reader.peek();
        if is_last(next.token) {
            break;
        }
        all.push_str(token_text(heap, reader.take())?.as_str())?;
        all.push_str("; ")?;
    }
    all.push_str(token_text(heap, reader.peek())?.as_str())?;
    Ok(all)
}

fn reading_text(heap: Global, reading: Result<Trees, TextRefusal>) -> Result<String, AllocError> {
    match reading {
        Ok(trees) => {
            let reads = trees.letter_count(Text::Read);
            let writes = trees.letter_count(Text::Write);
            format!(in heap; "letters {reads} {writes}")
        }
        Err(refusal) => format!(in heap; "{refusal}"),
    }
}

/// What a contract permits of a path.
fn permission_text<C: Contract>(
    heap: Global,
    contract: &C,
    path: &[u8],
) -> Result<String, AllocError> {
    match permits_text(contract, path) {
        Ok(permission) => {
            let read = permission.read;
            let write = permission.write;
            format!(in heap; "read {read} write {write}")
        }
        Err(no_path) => format!(in heap; "{no_path}"),
    }
}

/// The contract by two texts, or the one that permits only the empty path where they are refused.
fn expression_of(read: &[u8], write: &[u8]) -> Expression {
    let mut contract = Expression::new();
    let _ = contract.read(read, write);
    contract
}

/// The contract by the first two bytes.
fn depth_of(numbers: &[u8]) -> Depth {
    match numbers {
        [read, write, ..] => Depth {
            read: *read,
            write: *write,
        },
        _ => Depth { read: 0, write: 0 },
    }
}

fn answer(heap: Global, line: &str) -> Result<String, AllocError> {
    let mut fields = line.split(' ');
    let kind = fields.next().unwrap_or("");
    let first = bytes_of(heap, fields.next().unwrap_or("-"))?;
    let second = bytes_of(heap, fields.next().unwrap_or("-"))?;
    let third = bytes_of(heap, fields.next().unwrap_or("-"))?;
    let fourth = bytes_of(heap, fields.next().unwrap_or("-"))?;
    let fifth = bytes_of(heap, fields.next().unwrap_or("-"))?;
    match kind {
        "contract" => reading_text(heap, Trees::parse(first.as_slice(), second.as_slice())),
        "depth" => permission_text(heap, &depth_of(second.as_slice()), first.as_slice()),
        "expression" => {
            let contract = expression_of(second.as_slice(), third.as_slice());
            permission_text(heap, &contract, first.as_slice())
        }
        "both" => {
            let left = expression_of(second.as_slice(), third.as_slice());
            let right = expression_of(fourth.as_slice(), fifth.as_slice());
            permission_text(heap, &Both { left, right }, first.as_slice())
        }
        "script" => tokens_text(heap, first.as_slice(), Language::Script),
        _ => tokens_text(heap, first.as_slice(), Language::PathExpression),
    }
}

fn main(rt: HostRuntime) -> anyhow::Result<()> {
    let heap = rt.alloc();
    let cases = fs::read_to_string(&rt, "cases.txt")?;
    for line in cases.lines() {
        rt.println(answer(heap, line)?)?;
    }
    Ok(())
}
