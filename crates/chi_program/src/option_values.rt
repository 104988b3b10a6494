//! What options were given.

ghost use Rattle.std.specs.Prelude.{◌≡◌, codes};
ghost use Rattle.std.specs.Option.{option_map};
ghost use Rattle.clap.specs.Matches.{found_of};
ghost use Rattle.clap.specs.Walk.{first_of, one_of, rows_of};
ghost use Rattle.chi_program.specs.OptionValues.{IsNumberOr, IsNumberOrNone, has_word};

use clap::ArgMatches;

/// The text that an option was given, where it was.
///
/// ```
/// let html = text_given(chosen, "html"); // Some("trace.html")
/// ```
pub fn text_given<'a>(chosen: &ArgMatches<'a>, option: &str) -> Option<&'a str>
    ensures { option_map (λ s. s.now) result ≡ first_of option.now (rows_of (found_of chosen.now)) }
{
    chosen.get_str(option)
}

/// The value of an option is this word.
///
/// ```
/// let is_locked = has_word(chosen, "store", "lock");
/// ```
pub fn has_word(chosen: &ArgMatches<'_>, option: &str, word: &str) -> bool
    ensures { result ≡ has_word (rows_of (found_of chosen.now)) option.now word.now }
{
    match text_given(chosen, option) {
        Some(text) => text == word,
        None => false,
    }
}

/// An option that is there or not was given.
///
/// ```
/// let wants_witness = is_switched(chosen, "witness");
/// ```
pub fn is_switched(chosen: &ArgMatches<'_>, option: &str) -> bool
    ensures { result ≡ has_word (rows_of (found_of chosen.now)) option.now (codes "true") }
{
    has_word(chosen, option, "true")
}

/// The number that an option was given, where it was.
///
/// ```
/// let until = number_given(chosen, "until"); // Some(4711)
/// ```
pub fn number_given(chosen: &ArgMatches<'_>, option: &str) -> Option<u64>
    ensures { IsNumberOrNone (one_of option.now (rows_of (found_of chosen.now))) result }
{
    chosen.get_one::<u64>(option)
}

/// The number that an option was given, or another where it was given none.
///
/// ```
/// let seed = number_or(chosen, "seed", 1);
/// ```
pub fn number_or(chosen: &ArgMatches<'_>, option: &str, other: u64) -> u64
    ensures { IsNumberOr other (one_of option.now (rows_of (found_of chosen.now))) result }
{
    number_given(chosen, option).unwrap_or(other)
}
