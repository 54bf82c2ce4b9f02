ghost use Rattle.std.specs.Prelude.{◌≡◌, ◌≤◌, ◌⊎◌, ◌||◌, ℕ, Bool, true, false, List};
ghost use Rattle.std.specs.Prelude.{Option, Some, None, Ok, Err, IfOk, IfErr, IsSome, IsAscii};
ghost use Rattle.std.specs.List.{list_all};
ghost use Rattle.std.specs.Result.{result_ok};
ghost use Rattle.std.specs.Char.{is_ascii_digit, is_ascii_hexdigit};
ghost use Rattle.std.specs.Str.Parse.{AllDigits};
ghost use Rattle.ck_script.specs.Arguments.{is_code_digit, has_leading_zero, numeral_value};
ghost use Rattle.ck_script.specs.Arguments.{number_in, code_number_in, is_dash, bytes_in, pin_in};
ghost use Rattle.ck_script.specs.Arguments.{room_in, mechanism_in, item_in, query_in, list_in};
ghost use Rattle.ck_script.specs.Arguments.{template_in, queries_in, pair_in, two_in};

use crate::line_errors::{BadLine, LineError, NumberError};
use crate::splits::Split;
use ck_journal::AttributeQuery;
use ck_objects::{AttributeValue, Item, Template};
use ck_types::{Bytes, Mechanism, Pin, Sequence};
use hex::FromHexError;
use std::alloc::Global;
use std::marker::Model;
use std::str;

/// The byte between two values of a list.
pub(crate) const COMMA: u8 = b',';

/// The byte between an attribute's type and the room for its value, and between a mechanism's type
/// and its parameter.
pub(crate) const COLON: u8 = b':';

/// The byte between an attribute's type and its value.
pub(crate) const EQUALS_SIGN: u8 = b'=';

/// The byte that stands for nothing.
pub(crate) const DASH: u8 = b'-';

/// Whether the byte is a digit of a code number. Letters are in lower case.
fn is_code_digit(byte: u8) -> bool
    ensures { result ≡ is_code_digit byte }
{
    matches!(byte, b'0'..=b'9' | b'a'..=b'f')
}

/// Whether the digits begin with a zero that could be left out.
fn has_leading_zero(text: &[u8]) -> bool
    ensures { result ≡ has_leading_zero text.now }
{
    text.len() > 1 && text[0] == b'0'
}

/// Whether all bytes are decimal digits.
fn are_digits(text: &[u8]) -> bool
    ensures { result ≡ list_all is_ascii_digit text.now }
{
    text.iter().all(|byte| byte.is_ascii_digit())
}

/// Whether all bytes are hexadecimal digits as codes have them.
fn are_code_digits(text: &[u8]) -> bool
    ensures { result ≡ list_all is_code_digit text.now }
{
    text.iter().all(|byte| is_code_digit(*byte))
}

/// Whether all bytes are hexadecimal digits of either case.
fn are_hex_digits(text: &[u8]) -> bool
    ensures { result ≡ list_all is_ascii_hexdigit text.now }
{
    text.iter().all(|byte| byte.is_ascii_hexdigit())
}

/// The number that the digits write, which has no leading zero and is below 2^64.
#[tactic(auto, using(crate::proofs::DigitLemmas::digits))]
fn numeral_value(digits: &[u8], base: u32) -> Result<u64, NumberError>
    requires base { (2 ≤ base) × (base ≤ 36) }
    requires digits { AllDigits base digits.now }
    requires ascii { IsAscii digits.now }
    ensures { result_ok result ≡ numeral_value base digits.now }
{
    if has_leading_zero(digits) {
        return Err(NumberError::LeadingZero);
    }
    match str::from_utf8(digits) {
        Ok(text) => u64::from_str_radix(text, base).map_err(|_| NumberError::TooLarge),
        // Digits are text.
        Err(_) => unreachable!(),
    }
}

/// A number in decimal digits: sessions, objects, lengths, counts.
#[tactic(auto, using(crate::proofs::DigitLemmas::digits))]
pub(crate) fn number_in(text: &[u8]) -> Result<u64, BadLine>
    ensures { result_ok result ≡ number_in text.now }
{
    if text.is_empty() || !are_digits(text) {
        return Err(BadLine::Number(NumberError::NotDecimal));
    }
    Ok(numeral_value(text, 10)?)
}

/// A number in hexadecimal digits: flags, types of attributes and of mechanisms.
#[tactic(auto, using(crate::proofs::DigitLemmas::digits))]
fn code_number_in(text: &[u8]) -> Result<u64, BadLine>
    ensures { result_ok result ≡ code_number_in text.now }
{
    if text.is_empty() || !are_code_digits(text) {
        return Err(BadLine::Number(NumberError::NotHexadecimal));
    }
    Ok(numeral_value(text, 16)?)
}

/// Whether it is `-`, which stands for nothing.
fn is_dash(text: &[u8]) -> bool
    ensures { result ≡ is_dash text.now }
{
    text == [DASH].as_slice()
}

/// Bytes in hexadecimal digits of either case; `-` stands for none.
#[tactic(auto, using(crate::proofs::DigitLemmas::hex_digits))]
fn bytes_in(alloc: Global, text: &[u8]) -> Result<Bytes, LineError>
    ensures bytes { IfOk result (λ bytes. bytes_in text.now ≡ Some bytes) }
    ensures bad { IfErr result (λ e. (e ≡ LineError.Memory) ⊎ (bytes_in text.now ≡ None)) }
    ensures memory { result ≡ Err LineError.Memory → IsSome (bytes_in text.now) }
{
    if is_dash(text) {
        return Ok(Sequence::new(alloc));
    }
    if text.is_empty() {
        return Err(LineError::Bad(BadLine::Bytes));
    }
    match hex::decode(alloc, text) {
        Ok(bytes) => Ok(Sequence::from_vec(bytes)),
        // `decode` refuses an odd length, then takes memory, and then looks at the digits.
        Err(FromHexError::OutOfMemory) if are_hex_digits(text) => Err(LineError::Memory),
        Err(_) => Err(LineError::Bad(BadLine::Bytes)),
    }
}

/// The room for a value in bytes; `?` stands for none, which asks for the value's length.
fn room_in(text: &[u8]) -> Result<Option<u64>, BadLine>
    ensures { result_ok result ≡ room_in text.now }
{
    if text == b"?".as_slice() {
        return Ok(None);
    }
    Ok(Some(number_in(text)?))
}

/// The value of one argument, or of one word between the commas of an argument.
pub(crate) trait Argument: Sized {
    // What its text means.
    ghost value_in: { List ℕ → Option Self };

    // Whether it may take memory to read the value. Only of numbers and rooms it is said that it
    // doesn't.
    ghost parsing_takes_memory: { Bool } = { true };

    /// The value that the text means.
    fn value_in(alloc: Global, text: &[u8]) -> Result<Self, LineError>
        ensures value { IfOk result (λ value. value_in text.now ≡ Some value) }
        ensures bad { IfErr result (λ e. (e ≡ LineError.Memory) ⊎ (value_in text.now ≡ None)) }
        ensures memory { result ≡ Err LineError.Memory
            → (parsing_takes_memory ≡ true) × IsSome (value_in text.now) };
}

/// Both values. That one of them is bad is told before that there is no memory for the other, so
/// that a bad line is never out of memory.
pub(crate) fn both<A: Drop, B: Drop>(
    first: Result<A, LineError>,
    second: Result<B, LineError>,
) -> Result<(A, B), LineError>
    ensures values { IfOk result (λ values.
        (first ≡ Ok values.0) × (second ≡ Ok values.1)) }
    ensures error { IfErr result (λ e. (first ≡ Err e) ⊎ (second ≡ Err e)) }
    ensures memory { result ≡ Err LineError.Memory
        → IfErr first (λ e. e ≡ LineError.Memory)
        × IfErr second (λ e. e ≡ LineError.Memory) }
{
    match (first, second) {
        (Ok(first), Ok(second)) => Ok((first, second)),
        (Err(LineError::Memory), Err(error)) => Err(error),
        (Err(error), _) | (Ok(_), Err(error)) => Err(error),
    }
}

/// The values of two texts.
pub(crate) fn pair_in<A, B>(alloc: Global, first: &[u8], second: &[u8]) -> Result<(A, B), LineError>
where
    A: Argument + Drop,
    B: Argument + Drop,
    ensures values { IfOk result (λ values.
        pair_in A.value_in B.value_in first.now second.now ≡ Some values) }
    ensures bad { IfErr result (λ e. (e ≡ LineError.Memory)
        ⊎ (pair_in A.value_in B.value_in first.now second.now ≡ None)) }
    ensures memory { result ≡ Err LineError.Memory
        → (A.parsing_takes_memory || B.parsing_takes_memory ≡ true)
        × IsSome (pair_in A.value_in B.value_in first.now second.now) }
{
    both(A::value_in(alloc, first), B::value_in(alloc, second))
}

/// The values of the two words, or the reason given where there are not exactly two.
pub(crate) fn two_in<A, B>(
    alloc: Global,
    words: Split,
    reason: BadLine,
) -> Result<(A, B), LineError>
where
    A: Argument + Drop,
    B: Argument + Drop,
    ensures values { IfOk result (λ values.
        two_in A.value_in B.value_in words.entry ≡ Some values) }
    ensures bad { IfErr result (λ e. (e ≡ LineError.Memory)
        ⊎ (two_in A.value_in B.value_in words.entry ≡ None)) }
    ensures memory { result ≡ Err LineError.Memory
        → (A.parsing_takes_memory || B.parsing_takes_memory ≡ true)
        × IsSome (two_in A.value_in B.value_in words.entry) }
{
    let (first, second) = words.two().ok_or(reason)?;
    pair_in(alloc, first, second)
}

impl Argument for u64 {
    ghost value_in = { number_in };

    ghost parsing_takes_memory = { false };

    fn value_in(_alloc: Global, text: &[u8]) -> Result<u64, LineError> {
        Ok(number_in(text)?)
    }
}

/// A number that stands in hexadecimal digits.
#[derive(Drop)]
pub(crate) struct CodeNumber(pub(crate) u64);

impl Model for CodeNumber {
    ghost use Rattle.std.specs.Prelude.{ℕ};

    ghost Value = { ℕ };

    ghost view = { λ n. n.0 };
}

impl Argument for CodeNumber {
    ghost value_in = { code_number_in };

    ghost parsing_takes_memory = { false };

    fn value_in(_alloc: Global, text: &[u8]) -> Result<CodeNumber, LineError> {
        Ok(CodeNumber(code_number_in(text)?))
    }
}

/// A PIN by its bytes, of which its length and its digest are taken.
impl Argument for Pin {
    ghost value_in = { pin_in };

    fn value_in(alloc: Global, text: &[u8]) -> Result<Pin, LineError> {
        let bytes = bytes_in(alloc, text)?;
        Ok(Pin::of(bytes.as_slice()))
    }
}

impl Argument for Bytes {
    ghost value_in = { bytes_in };

    fn value_in(alloc: Global, text: &[u8]) -> Result<Bytes, LineError> {
        bytes_in(alloc, text)
    }
}

impl Argument for Option<u64> {
    ghost value_in = { room_in };

    ghost parsing_takes_memory = { false };

    fn value_in(_alloc: Global, text: &[u8]) -> Result<Option<u64>, LineError> {
        Ok(room_in(text)?)
    }
}

/// A mechanism: `type`, or `type:bytes` with its parameter.
impl Argument for Mechanism {
    ghost value_in = { mechanism_in };

    fn value_in(alloc: Global, text: &[u8]) -> Result<Mechanism, LineError> {
        let mut words = Split::new(text, COLON);
        let (kind, parameter) = match (words.next(), words.next(), words.next()) {
            (Some(kind), None, _) => (kind, None),
            (Some(kind), Some(parameter), None) => (kind, Some(parameter)),
            _ => return Err(LineError::Bad(BadLine::Mechanism)),
        };
        let kind = code_number_in(kind)?;
        let parameter = match parameter {
            Some(bytes) => bytes_in(alloc, bytes)?,
            None => Sequence::new(alloc),
        };
        Ok(Mechanism { kind, parameter })
    }
}

/// One item of a template: `type=bytes`.
impl Argument for Item {
    ghost value_in = { item_in };

    fn value_in(alloc: Global, text: &[u8]) -> Result<Item, LineError> {
        let words = Split::new(text, EQUALS_SIGN);
        let (CodeNumber(kind), value): (_, Bytes) = two_in(alloc, words, BadLine::Item)?;
        let value = AttributeValue::from_vec(value.into_vec());
        Ok(Item { kind, value })
    }
}

/// One query of an attribute: `type:room`.
impl Argument for AttributeQuery {
    ghost value_in = { query_in };

    fn value_in(alloc: Global, text: &[u8]) -> Result<AttributeQuery, LineError> {
        let words = Split::new(text, COLON);
        let (CodeNumber(kind), room) = two_in(alloc, words, BadLine::Query)?;
        Ok(AttributeQuery { kind, room })
    }
}

/// The values between commas; `-` stands for none.
fn list_in<T: Argument + Drop>(alloc: Global, text: &[u8]) -> Result<Sequence<T>, LineError>
    ensures list { IfOk result (λ list. list_in T.value_in text.now ≡ Some list) }
    ensures bad { IfErr result (λ e. (e ≡ LineError.Memory)
        ⊎ (list_in T.value_in text.now ≡ None)) }
    ensures memory { result ≡ Err LineError.Memory → IsSome (list_in T.value_in text.now) }
{
    if is_dash(text) {
        return Ok(Sequence::new(alloc));
    }
    let mut items = Vec::new(alloc);
    let mut has_memory = true;
    let mut words = Split::new(text, COMMA);
    while let Some(word) = words.next() {
        match T::value_in(alloc, word) {
            Ok(item) => {
                if items.push(item).is_err() {
                    has_memory = false;
                }
            }
            // The words behind it are read nevertheless, since one of them may be bad. A list that
            // lacks an item is never given.
            Err(LineError::Memory) => has_memory = false,
            Err(bad) => return Err(bad),
        }
    }
    if has_memory {
        Ok(Sequence::from_vec(items))
    } else {
        Err(LineError::Memory)
    }
}

impl Argument for Template {
    ghost value_in = { template_in };

    fn value_in(alloc: Global, text: &[u8]) -> Result<Template, LineError> {
        let items = list_in(alloc, text)?;
        Ok(Template { items })
    }
}

impl Argument for Sequence<AttributeQuery> {
    ghost value_in = { queries_in };

    fn value_in(alloc: Global, text: &[u8]) -> Result<Sequence<AttributeQuery>, LineError> {
        list_in(alloc, text)
    }
}
