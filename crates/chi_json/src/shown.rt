//! How a fault shows a text and a value.

ghost use Rattle.std.specs.Prelude.{◌≡◌};
ghost use Rattle.serde_json.specs.View.{number_view, view};
ghost use Rattle.chi_json.specs.Shown.{shown_number, shown_text, shown_value};

use serde_json::{Number, Value};
use std::fmt;

/// A text as a fault shows it: its first 32 bytes, each that is no printing ASCII letter as `?`, and `...` where it is longer.
///
/// ```
/// let text = ShownText::of("finals"); // finals
/// ```
#[derive(Clone, Copy, Debug, PartialEq, Eq)]
pub struct ShownText {
    letters: [u8; 32],
    length: usize,
}

impl ShownText {
    /// What is kept of a text.
    ///
    /// ```
    /// let text = ShownText::of("finals");
    /// ```
    pub fn of(text: &str) -> ShownText
        ensures { result ≡ shown_text text.now }
    {
        let bytes = text.as_bytes();
        let count = bytes.len().min(32);
        let mut letters = [0; 32];
        letters[..count].copy_from_slice(&bytes[..count]);
        ShownText {
            letters,
            length: bytes.len(),
        }
    }
}

impl fmt::Display for ShownText {
    fn fmt<W: fmt::Write>(&self, f: &mut fmt::Formatter<W>) -> fmt::Result {
        for letter in self.letters.iter().take(self.length) {
            let is_shown = letter.is_ascii_graphic();
            f.write_char(if is_shown { *letter as char } else { '?' })?;
        }
        if self.length > self.letters.len() {
            f.write_str("...")?;
        }
        Ok(())
    }
}

/// A value as a fault shows it, in JSON's words: `null`, `true`, `false`, a whole number from -2^63 to 2^64 - 1 in digits, a text
/// in quotes. Of another number, of a list and of an object a fault says that it is one.
///
/// ```
/// let value = ShownValue::Text(ShownText::of("0x1000")); // "0x1000"
/// ```
#[derive(Clone, Copy, Debug, PartialEq, Eq)]
pub enum ShownValue {
    Null,
    Bool(bool),
    Whole(i128),
    Number,
    Text(ShownText),
    List,
    Object,
}

/// What is shown of a number.
fn shown_number(number: &Number) -> ShownValue
    ensures { result ≡ shown_number (number_view number.now) }
{
    match number.as_i128() {
        Some(whole) => ShownValue::Whole(whole),
        None => ShownValue::Number,
    }
}

impl ShownValue {
    /// What is shown of a value.
    ///
    /// ```
    /// let value = ShownValue::of(object.get("addr")?);
    /// ```
    pub fn of(value: &Value) -> ShownValue
        ensures { result ≡ shown_value (view value.now) }
    {
        match value {
            Value::Null => ShownValue::Null,
            Value::Bool(is) => ShownValue::Bool(*is),
            Value::Number(number) => shown_number(number),
            Value::String(text) => ShownValue::Text(ShownText::of(text.as_str())),
            Value::Array(_) => ShownValue::List,
            Value::Object(_) => ShownValue::Object,
        }
    }
}

impl fmt::Display for ShownValue {
    fn fmt<W: fmt::Write>(&self, f: &mut fmt::Formatter<W>) -> fmt::Result {
        match self {
            ShownValue::Null => f.write_str("null"),
            ShownValue::Bool(is) => write!(f, "{is}"),
            ShownValue::Whole(number) => write!(f, "{number}"),
            ShownValue::Number => f.write_str("a number"),
            ShownValue::Text(text) => write!(f, "\"{text}\""),
            ShownValue::List => f.write_str("a list"),
            ShownValue::Object => f.write_str("an object"),
        }
    }
}
