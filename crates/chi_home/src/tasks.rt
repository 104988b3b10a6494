//! The tasks that the command line names, with their options.

use crate::generation::MIX;
use chi_program::{NamedOption, NamedTask, Takes};
use clap::builder::ValueParser;

// The options of both tasks that execute a script.
const STORE: NamedOption<'static> = NamedOption {
    name: "store",
    takes: Takes::ValueOr("STORE", ValueParser::Names(&["lock", "book"]), "book"),
    help: "book: a row of at most 512 words, each changed by one exchange; lock: at most 8 under a lock",
};

const ATTEMPTS: NamedOption<'static> = NamedOption {
    name: "attempts",
    takes: Takes::ValueOr("N", ValueParser::Signed(1, 16), "4"),
    help: "Tries before RetryAck, 1 to 16; a store with a lock never answers it",
};

const POLICY: NamedOption<'static> = NamedOption {
    name: "policy",
    takes: Takes::ValueOr(
        "POLICY",
        ValueParser::Names(&["resend", "return"]),
        "resend",
    ),
    help: "After RetryAck: send again on the credit, or give it back",
};

const FORMAT: NamedOption<'static> = NamedOption {
    name: "format",
    takes: Takes::ValueOr("FORMAT", ValueParser::Names(&["text", "json"]), "text"),
    help: "json: writes the transcript as a JSON object",
};

// The options of `run`, which may be asked for a trace too.
const RUN: [NamedOption<'static>; 5] = [
    STORE,
    ATTEMPTS,
    POLICY,
    FORMAT,
    NamedOption {
        name: "trace",
        takes: Takes::Nothing,
        help: "Writes what was executed as a trace, in place of the transcript",
    },
];

// The options of `race`, which has its workers too.
const RACE: [NamedOption<'static>; 5] = [
    STORE,
    ATTEMPTS,
    POLICY,
    FORMAT,
    NamedOption {
        name: "workers",
        takes: Takes::ValueOr("WORKERS", ValueParser::Signed(1, 7), "2"),
        help: "How many requesters work at the same time, 1 to 7: those of the numbers from 1 on",
    },
];

// The options of `generate`.
const GENERATE: [NamedOption<'static>; 9] = [
    NamedOption {
        name: "requests",
        takes: Takes::NumberOr("N", "1000"),
        help: "How many requests it has, up to 4096",
    },
    NamedOption {
        name: "seed",
        takes: Takes::NumberOr("N", "1"),
        help: "What all is drawn from: the same seed makes the same script",
    },
    NamedOption {
        name: "base",
        takes: Takes::NumberOr("N", "4096"),
        help: "The address of the first granule, a multiple of 64",
    },
    NamedOption {
        name: "granules",
        takes: Takes::NumberOr("N", "8"),
        help: "How many granules the memory has, 1 to 512",
    },
    NamedOption {
        name: "image",
        takes: Takes::Nothing,
        help: "The memory opens with bytes by chance, and else with zeros",
    },
    NamedOption {
        name: "requesters",
        takes: Takes::NumberOr("N", "4"),
        help: "How many requesters send, 1 to 8: the numbers from 0 on",
    },
    NamedOption {
        name: "refused",
        takes: Takes::NumberOr("N", "0"),
        help: "How many of a hundred requests are refused, for each reason in turn",
    },
    NamedOption {
        name: "hot",
        takes: Takes::NumberOr("N", "0"),
        help: "How many of a hundred are of the first granule, before the others are of any",
    },
    NamedOption {
        name: "mix",
        takes: Takes::TextOr("KIND=WEIGHT,..", MIX),
        help: "How often read, write, store, load, swap and compare are drawn",
    },
];

/// The tasks.
pub(crate) const TASKS: [NamedTask<'static>; 3] = [
    NamedTask {
        name: "run",
        about: "Executes the requests in the order of the script, by one thread",
        options: &RUN,
    },
    NamedTask {
        name: "race",
        about: "Executes the requests of 1 and 2, or of 1 to WORKERS, at the same time, each in order, and then those of 0",
        options: &RACE,
    },
    NamedTask {
        name: "generate",
        about: "Writes a script of requests by chance",
        options: &GENERATE,
    },
];
