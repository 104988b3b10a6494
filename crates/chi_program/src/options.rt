//! The options that a command line has.

ghost use Rattle.std.specs.Prelude.{◌≡◌, [], ◌∷◌, false};
ghost use Rattle.clap.specs.Walk.{rule_of};
ghost use Rattle.chi_program.specs.Rules.{number_rule, number_rule_or, option_rule, switch_rule, text_rule};

use clap::builder::ValueParser;
use clap::{Arg, ArgAction, value_parser};
use std::alloc::Global;

/// An option that takes any text.
///
/// ```
/// let html = text_option(alloc, "html", "FILE", "Makes this file a page");
/// ```
pub(crate) fn text_option<'a>(
    alloc: Global,
    name: &'a str,
    value: &'a str,
    help: &'a str,
) -> Arg<'a>
    ensures rule { rule_of result ≡ text_rule name.now [] }
    ensures local { result.global ≡ false }
{
    Arg::new(alloc, name)
        .long(name)
        .value_name(value)
        .help(help)
}

/// An option that takes a value, and what stands in for it.
///
/// ```
/// let attempts = value_option_or(alloc, "attempts", "N", value_parser!(u8).range(1..=16), "4", "Tries before RetryAck");
/// ```
pub(crate) fn value_option_or<'a>(
    alloc: Global,
    name: &'a str,
    value: &'a str,
    parser: ValueParser<'a>,
    default: &'a str,
    help: &'a str,
) -> Arg<'a>
    ensures rule { rule_of result ≡ option_rule name.now parser.entry (default.now ∷ []) }
    ensures local { result.global ≡ false }
{
    text_option(alloc, name, value, help)
        .value_parser(parser)
        .default_value(default)
}

/// An option that takes a whole number.
///
/// ```
/// let seconds = number_option(alloc, "seconds", "S", "Begins no larger search that may go on for longer");
/// ```
pub(crate) fn number_option<'a>(
    alloc: Global,
    name: &'a str,
    value: &'a str,
    help: &'a str,
) -> Arg<'a>
    ensures rule { rule_of result ≡ number_rule name.now }
    ensures local { result.global ≡ false }
{
    text_option(alloc, name, value, help).value_parser(value_parser!(u64))
}

/// An option that takes a whole number, and what stands in for it.
///
/// ```
/// let hot = number_option_or(alloc, "hot", "N", "0", "How many of a hundred are of the first granule");
/// ```
pub(crate) fn number_option_or<'a>(
    alloc: Global,
    name: &'a str,
    value: &'a str,
    default: &'a str,
    help: &'a str,
) -> Arg<'a>
    ensures rule { rule_of result ≡ number_rule_or name.now default.now }
    ensures local { result.global ≡ false }
{
    value_option_or(alloc, name, value, value_parser!(u64), default, help)
}

/// An option that is there or not.
///
/// ```
/// let witness = switch(alloc, "witness", "Writes the operations in the order found");
/// ```
pub(crate) fn switch<'a>(alloc: Global, name: &'a str, help: &'a str) -> Arg<'a>
    ensures rule { rule_of result ≡ switch_rule name.now }
    ensures local { result.global ≡ false }
{
    Arg::new(alloc, name)
        .long(name)
        .action(ArgAction::SetTrue)
        .help(help)
}
