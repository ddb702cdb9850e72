//! The reader of a text, one token after the other.
ghost use Rattle.std.specs.Prelude.{◌≡◌, ℕ, ◌+◌, ◌<◌, ◌≤◌, List, length, drop, if◌then◌else◌, Some, None, nat_le, slice_index};
ghost use Rattle.lexer.specs.Classes.{class_of, classed, letters_or_digits, digits};
ghost use Rattle.lexer.specs.Tokens.{lex, lexed, lexed_of, bad, named, numbered, signed, decimal, starts, numbers, Lies};
ghost use Rattle.std.specs.List.{prefix_len};

use crate::class::{Class, is_classed, is_letter_or_digit};
use crate::name::MAX_NAME;
use crate::token::{Language, Placed, Token};

/// The largest number.
const MAX_NUMBER: u64 = 2147483647;

/// How many bytes from the front on are of these classes.
fn run_len(bytes: &[u8], classes: &[Class]) -> usize
    ensures value { result ≡ prefix_len (classed classes.now) bytes.now }
    ensures within { result ≤ length bytes.now }
{
    bytes
        .iter()
        .take_while(|b| is_classed(**b, classes))
        .count()
}

/// How many bytes from the front on are letters or digits.
fn name_len(bytes: &[u8]) -> usize
    ensures value { result ≡ prefix_len (classed letters_or_digits) bytes.now }
    ensures within { result ≤ length bytes.now }
{
    // Not `run_len` with two classes, which takes longer at each byte.
    bytes.iter().take_while(|b| is_letter_or_digit(**b)).count()
}

// A text and a place in it, here and in the four functions below: a struct of the two would hold the reader's own fields
// again.

/// Where the longest run of bytes of these classes ends that begins at `at`.
fn run_end(text: &[u8], at: usize, classes: &[Class]) -> usize
    requires { at ≤ length text.now }
    ensures ends { result ≡ at + prefix_len (classed classes.now) (drop at text.now) }
    ensures within { result ≤ length text.now }
{
    at + run_len(&text[at..], classes)
}

/// Where the longest run of letters and digits ends that begins at `at`.
fn name_end(text: &[u8], at: usize) -> usize
    requires { at ≤ length text.now }
    ensures ends { result ≡ at + prefix_len (classed letters_or_digits) (drop at text.now) }
    ensures within { result ≤ length text.now }
{
    at + name_len(&text[at..])
}

/// The value of the digits, unless it passes the largest number.
fn number(digits: &[u8]) -> Option<u32>
    ensures { result ≡ (if nat_le (decimal digits.now) 2147483647 then Some (decimal digits.now) else None) }
{
    let mut value: u64 = 0;
    for d in digits {
        if value <= MAX_NUMBER {
            value = value * 10 + d.saturating_sub(b'0') as u64;
        }
    }
    if value <= MAX_NUMBER {
        Some(value as u32)
    } else {
        None
    }
}

/// Whether a sign starts a token in texts of the language.
fn starts_token(language: Language, sign: u8) -> bool
    ensures { result ≡ starts language sign }
{
    match language {
        Language::Script => !matches!(sign, b'|' | b'?'),
        Language::PathExpression => matches!(sign, b'.' | b'|' | b'*' | b'?' | b'(' | b')'),
    }
}

/// Whether texts of the language have numbers.
fn has_numbers(language: Language) -> bool
    ensures { result ≡ numbers language }
{
    matches!(language, Language::Script)
}

/// No token.
fn no_token<'a>(start: usize) -> Placed<'a>
    ensures is { lexed_of result ≡ lexed bad start start }
    ensures lies { (text : List ℕ) → start ≤ length text → Lies text start result }
{
    Placed {
        token: Token::Bad,
        start,
        stop: start,
    }
}

/// The name that begins with the letter at `start`.
fn name_at<'a>(text: &'a [u8], start: usize) -> Placed<'a>
    requires within { start < length text.now }
    requires letter { class_of (slice_index text.now start) ≡ Class.Letter }
    ensures is { lexed_of result ≡ named start (prefix_len (classed letters_or_digits) (drop start text.now)) (drop start text.now) }
    ensures lies { Lies text.now start result }
{
    let stop = name_end(text, start);
    if stop - start > MAX_NAME {
        return no_token(start);
    }
    Placed {
        token: Token::Name(&text[start..stop]),
        start,
        stop,
    }
}

/// The number that begins with the digit at `start`.
fn number_at<'a>(text: &'a [u8], start: usize) -> Placed<'a>
    requires within { start < length text.now }
    requires digit { class_of (slice_index text.now start) ≡ Class.Digit }
    ensures is { lexed_of result ≡ numbered start (prefix_len (classed digits) (drop start text.now)) (drop start text.now) }
    ensures lies { Lies text.now start result }
{
    let stop = run_end(text, start, &[Class::Digit]);
    let digits = &text[start..stop];
    match number(digits) {
        Some(value) => Placed {
            token: Token::Number { digits, value },
            start,
            stop,
        },
        None => no_token(start),
    }
}

/// The sign at `start`, or two equality signs.
fn sign_at<'a>(text: &'a [u8], start: usize) -> Placed<'a>
    requires { start < length text.now }
    ensures is { lexed_of result ≡ signed start (slice_index text.now start) (drop (start + 1) text.now) }
    ensures lies { Lies text.now start result }
{
    if text[start..].starts_with(b"==") {
        return Placed {
            token: Token::Equals,
            start,
            stop: start + 2,
        };
    }
    Placed {
        token: Token::Sign(text[start]),
        start,
        stop: start + 1,
    }
}

/// Goes through a text from front to back.
#[derive(Drop)]
pub struct Reader<'a> {
    text: &'a [u8],
    at: usize,
    language: Language,
    ghost within: { at ≤ length text.now },
}

impl<'a> Reader<'a> {
    ghost use Rattle.lexer.specs.Readers.{text_of, place_of, language_of, Moved, Accepted};

    /// A reader that stands at the start of a text.
    pub fn new(text: &'a [u8], language: Language) -> Reader<'a>
        ensures text { text_of result ≡ text.now }
        ensures place { place_of result ≡ 0 }
        ensures language { language_of result ≡ language }
    {
        Reader {
            text,
            at: 0,
            language,
        }
    }

    /// The next token, which is not passed.
    pub fn peek(&self) -> Placed<'a>
        ensures is { lexed_of result ≡ lex (language_of self.now) (text_of self.now) (place_of self.now) }
        ensures lies { Lies (text_of self.now) (place_of self.now) result }
    {
        let text = self.text;
        let start = run_end(text, self.at, &[Class::Blank]);
        if start >= text.len() {
            return Placed {
                token: Token::End,
                start,
                stop: start,
            };
        }
        // Three tests, and not a `match`: that went by a table of jumps, at each token.
        let class = Class::from(text[start]);
        if class == Class::Letter {
            return name_at(text, start);
        }
        if class == Class::Digit && has_numbers(self.language) {
            return number_at(text, start);
        }
        if class == Class::Sign && starts_token(self.language, text[start]) {
            return sign_at(text, start);
        }
        no_token(start)
    }

    /// The next token, which is passed: the reader then stands after it, or at a bad token.
    pub fn take(&mut self) -> Placed<'a>
        ensures is { lexed_of result ≡ lex (language_of self.old) (text_of self.old) (place_of self.old) }
        ensures lies { Lies (text_of self.old) (place_of self.old) result }
        ensures after { Moved self.old self.new result.stop }
    {
        let next = self.peek();
        self.at = next.stop;
        next
    }

    /// Passes the next token if it is this sign, and tells whether it is; the reader stays before any other.
    pub fn accept(&mut self, sign: u8) -> bool
        ensures { Accepted sign self.old self.new result }
    {
        match self.peek().token {
            Token::Sign(b) if b == sign => {
                let _ = self.take();
                true
            }
            _ => false,
        }
    }
}
