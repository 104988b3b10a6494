//! The value of a member, and objects whose members are found by their names.

ghost use Rattle.std.specs.Prelude.{◌≡◌, option_and_then, is_some};
ghost use Rattle.std.specs.Option.{option_map};
ghost use Rattle.serde_json.specs.Find.{as_array, as_bool, as_null, as_number, as_str, as_u64};
ghost use Rattle.serde_json.specs.View.{items_view};
ghost use Rattle.chi_json.specs.Datum.{datum_data};

use serde_json::Value;

/// The value of a member: null, true or false, a whole number below 2^64, a text, or any value of `serde_json`.
///
/// ```
/// let size = Datum::Whole(3);
/// ```
#[derive(Clone, Copy, Debug, Default)]
pub enum Datum<'a> {
    #[default]
    Null,
    Bool(bool),
    Whole(u64),
    Text(&'a str),
    Value(&'a Value),
}

impl<'a> Datum<'a> {
    /// Whether it is null.
    ///
    /// ```
    /// let is_null = object.get("reply")?.is_null();
    /// ```
    pub fn is_null(&self) -> bool
        ensures { result ≡ is_some (as_null (datum_data self.now)) }
    {
        match self {
            Datum::Null => true,
            Datum::Value(value) => value.is_null(),
            _ => false,
        }
    }

    /// Whether it is true, where it is true or false.
    ///
    /// ```
    /// let is_final = object.get("final")?.as_bool();
    /// ```
    pub fn as_bool(&self) -> Option<bool>
        ensures { result ≡ as_bool (datum_data self.now) }
    {
        match self {
            Datum::Bool(is) => Some(*is),
            Datum::Value(value) => value.as_bool(),
            _ => None,
        }
    }

    /// The number, where it is a whole one below 2^64.
    ///
    /// ```
    /// let time = object.get("time")?.as_u64();
    /// ```
    pub fn as_u64(&self) -> Option<u64>
        ensures { result ≡ option_and_then as_u64 (as_number (datum_data self.now)) }
    {
        match self {
            Datum::Whole(number) => Some(*number),
            Datum::Value(value) => value.as_u64(),
            _ => None,
        }
    }

    /// The text, where it is one.
    ///
    /// ```
    /// let name = object.get("event")?.as_str();
    /// ```
    pub fn as_str(&self) -> Option<&'a str>
        ensures { option_map (λ text. text.now) result ≡ as_str (datum_data self.now) }
    {
        match *self {
            Datum::Text(text) => Some(text),
            Datum::Value(value) => value.as_str(),
            _ => None,
        }
    }

    /// The values of a list, where it is one.
    ///
    /// ```
    /// let requests = object.get("requests")?.as_array();
    /// ```
    pub fn as_array(&self) -> Option<&'a Vec<Value>>
        ensures { option_map (λ list. items_view list.now.items) result ≡ as_array (datum_data self.now) }
    {
        match *self {
            Datum::Value(value) => value.as_array(),
            _ => None,
        }
    }
}

/// An object whose members are found by their names.
pub trait JsonObject {
    ghost use Rattle.std.specs.Prelude.{◌≡◌};
    ghost use Rattle.std.specs.Option.{option_map};
    ghost use Rattle.serde_json.specs.Data.{Data};
    ghost use Rattle.serde_json.specs.Find.{get};
    ghost use Rattle.chi_json.specs.Datum.{datum_data};

    /// The object, as a value of JSON.
    ghost data_of: { Self → Data };

    /// The value of the member of this name. `None` is answered where there is none, and where this is no object.
    ///
    /// ```
    /// let time = object.get("time")?.as_u64();
    /// ```
    fn get(&self, name: &str) -> Option<Datum<'_>>
        ensures { option_map datum_data result ≡ get name.now (data_of self.now) };
}

impl JsonObject for Value {
    ghost use Rattle.serde_json.specs.View.{view};

    ghost data_of = { view };

    fn get(&self, name: &str) -> Option<Datum<'_>> {
        match Value::get(self, name) {
            Some(value) => Some(Datum::Value(value)),
            None => None,
        }
    }
}
