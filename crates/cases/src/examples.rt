//! Worked examples.
use contract::both::Both;
use contract::contract::Contract;
use contract::depth::Depth;
use contract::expressions::Expression;
use contract::path_text::permits_text;
use contract::permits::permits as permits_names;
use expression::texts::Text;
use lexer::name::Name;
use lexer::reader::Reader;
use lexer::refusal::Reason;
use lexer::token::Language;
use parser::word::{Word, classify};
use std::test::Fail;

/// The contract by two texts, which can be read.
fn by_texts(read: &[u8], write: &[u8]) -> Result<Expression, Fail> {
    let mut contract = Expression::new();
    match contract.read(read, write) {
        Ok(_) => Ok(contract),
        Err(_) => Err(Fail::new("the contract is refused")),
    }
}

/// Whether a path may be read, and whether it may be written.
fn permits<C: Contract>(contract: &C, path: &[u8]) -> Result<(bool, bool), Fail> {
    match permits_text(contract, path) {
        Ok(permission) => Ok((permission.read, permission.write)),
        Err(_) => Err(Fail::new("the text is no path")),
    }
}

#[test]
fn a_star_repeats(rt: HostRuntime) -> Result<(), Fail> {
    let contract = by_texts(b"a.b*", b"()")?;
    assert_eq!(rt; permits(&contract, b"a.b.b")?, (true, false));
    assert_eq!(rt; permits(&contract, b"b")?, (false, false));
    Ok(())
}

#[test]
fn an_alternative_repeats(rt: HostRuntime) -> Result<(), Fail> {
    let contract = by_texts(b"(a|b.c)*", b"()")?;
    assert_eq!(rt; permits(&contract, b"b.c.a")?, (true, false));
    assert_eq!(rt; permits(&contract, b"b.a")?, (false, false));
    Ok(())
}

#[test]
fn both_permit_what_each_permits(rt: HostRuntime) -> Result<(), Fail> {
    let contract = Both {
        left: by_texts(b"a.b", b"()")?,
        right: by_texts(b"a.c", b"()")?,
    };
    assert_eq!(rt; permits(&contract, b"a")?, (true, false));
    assert_eq!(rt; permits(&contract, b"a.b")?, (false, false));
    Ok(())
}

#[test]
fn a_depth_counts_names(rt: HostRuntime) -> Result<(), Fail> {
    let contract = Depth { read: 1, write: 2 };
    assert_eq!(rt; permits(&contract, b"")?, (true, false));
    assert_eq!(rt; permits(&contract, b"a")?, (true, true));
    assert_eq!(rt; permits(&contract, b"a.b")?, (false, true));
    assert_eq!(rt; permits(&contract, b"a.b.c")?, (false, false));
    Ok(())
}

#[test]
fn a_refused_reading_changes_nothing(rt: HostRuntime) -> Result<(), Fail> {
    let mut contract = by_texts(b"a", b"a")?;
    match contract.read(b"b", b"b**") {
        Ok(_) => return Err(Fail::new("the contract was read")),
        Err(refusal) => {
            assert_eq!(rt; refusal.reason, Reason::Grammar);
            assert_eq!(rt; refusal.text, Text::Write);
            assert_eq!(rt; refusal.place, 2);
        }
    }
    assert_eq!(rt; permits(&contract, b"a")?, (true, true));
    assert_eq!(rt; permits(&contract, b"b")?, (false, false));
    Ok(())
}

#[test]
fn both_nest(rt: HostRuntime) -> Result<(), Fail> {
    let contract = Both {
        left: Both {
            left: by_texts(b"a.b.c", b"a.b*")?,
            right: Depth { read: 2, write: 3 },
        },
        right: by_texts(b"?*", b"a.b.b|a.b.b.b")?,
    };
    assert_eq!(rt; permits(&contract, b"")?, (true, false));
    assert_eq!(rt; permits(&contract, b"a.b")?, (true, false));
    assert_eq!(rt; permits(&contract, b"a.b.c")?, (false, false));
    assert_eq!(rt; permits(&contract, b"a.b.b")?, (false, true));
    assert_eq!(rt; permits(&contract, b"a.b.b.b")?, (false, false));
    Ok(())
}

fn name(bytes: &[u8]) -> Result<Name, Fail> {
    match Name::new(bytes) {
        Some(name) => Ok(name),
        None => Err(Fail::new("the bytes are no name")),
    }
}

#[test]
fn paths_of_names_are_permitted(rt: HostRuntime) -> Result<(), Fail> {
    let contract = by_texts(b"depot.?", b"depot.free")?;
    let path = [name(b"depot")?, name(b"free")?];
    let whole = permits_names(&contract, &path);
    assert_eq!(rt; (whole.read, whole.write), (true, true));
    let first = permits_names(&contract, &path[0..1]);
    assert_eq!(rt; (first.read, first.write), (true, false));
    let second = permits_names(&contract, &path[1..2]);
    assert_eq!(rt; (second.read, second.write), (false, false));
    Ok(())
}

fn letters_in(name: Name) -> usize {
    name.as_bytes().len()
}

#[test]
fn values_are_copied(rt: HostRuntime) -> Result<(), Fail> {
    let depot = name(b"depot")?;
    assert_eq!(rt; (letters_in(depot), letters_in(depot)), (5, 5));
    let path = [depot, depot];
    let contract = by_texts(b"depot.depot", b"()")?;
    let twice = Both {
        left: contract,
        right: contract,
    };
    assert_eq!(rt; permits_names(&twice, &path).read, true);
    Ok(())
}

#[test]
fn a_sign_is_passed_and_other_tokens_stay(rt: HostRuntime) -> Result<(), Fail> {
    let mut reader = Reader::new(b" (a", Language::PathExpression);
    assert_eq!(rt; reader.accept(b')'), false);
    assert_eq!(rt; reader.peek().start, 1);
    assert_eq!(rt; reader.accept(b'('), true);
    assert_eq!(rt; reader.accept(b'('), false);
    assert_eq!(rt; reader.peek().start, 2);
    Ok(())
}

#[test]
fn a_bad_token_is_refused_as_one(rt: HostRuntime) -> Result<(), Fail> {
    let bad = Reader::new(b" #", Language::Script).peek().misplaced();
    assert_eq!(rt; bad.reason, Reason::Token);
    assert_eq!(rt; bad.place, 1);
    let end = Reader::new(b"", Language::Script).peek().misplaced();
    assert_eq!(rt; end.reason, Reason::Grammar);
    assert_eq!(rt; end.place, 0);
    Ok(())
}

#[test]
fn words_are_told_from_names(rt: HostRuntime) -> Result<(), Fail> {
    assert_eq!(rt; classify(b"if"), Word::If);
    assert_eq!(rt; classify(b"has"), Word::Has);
    assert_eq!(rt; classify(b"iff"), Word::Name);
    assert_eq!(rt; classify(b"i"), Word::Name);
    Ok(())
}
