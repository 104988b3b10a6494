//! What the arguments ask for.

/// How the program is called.
pub(crate) const USAGE: &str = "usage: chi_soak SECONDS [--plant]";

/// How long the workers race, and whether an exchange that was answered is lost meanwhile.
#[derive(Clone, Copy)]
pub(crate) struct Options {
    pub(crate) seconds: u64,
    pub(crate) plant: bool,
}

/// The options that the arguments after the program's name state; `None` where they are not those of `USAGE`.
pub(crate) fn options_of(arguments: &[String]) -> Option<Options> {
    let (seconds, plant) = match arguments {
        [seconds] => (seconds, false),
        [seconds, word] if word.as_str() == "--plant" => (seconds, true),
        _ => return None,
    };
    let seconds = seconds.as_str().parse::<u64>().ok()?;
    Some(Options { seconds, plant })
}
