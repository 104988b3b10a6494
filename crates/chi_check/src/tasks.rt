//! The tasks that the command line names, with their options.

use chi_program::{NamedOption, NamedTask, Takes};

// The number of states.
const BUDGET: NamedOption<'static> = NamedOption {
    name: "budget",
    takes: Takes::NumberOr("N", "1000000"),
    help: "States of each granule that are looked at for an answer",
};

// The number of operations that are shown.
const AROUND: NamedOption<'static> = NamedOption {
    name: "around",
    takes: Takes::NumberOr("N", "16"),
    help: "Operations of the granule that are shown before the one blamed",
};

// That the lines state flits.
const FLITS: NamedOption<'static> = NamedOption {
    name: "flits",
    takes: Takes::Nothing,
    help: "Follows the flits at a home's port, a line each",
};

// That the lines state points too.
const POINTS: NamedOption<'static> = NamedOption {
    name: "points",
    takes: Takes::Nothing,
    help: "Tells each request at its point, which is a line among the flits",
};

// What an error says of its request.
const ERRORS: NamedOption<'static> = NamedOption {
    name: "errors",
    takes: Takes::TextOr("EFFECT", "unknown"),
    help: "none: a request of flits that an error answers takes no effect",
};

// The file that is read.
const FILE: NamedOption<'static> = NamedOption {
    name: "file",
    takes: Takes::Word("FILE"),
    help: "Reads this file or named pipe, and not the standard input",
};

// The options of `explain`, and its file.
const EXPLAIN: [NamedOption<'static>; 14] = [
    NamedOption {
        name: "events",
        takes: Takes::Nothing,
        help: "Judges what events tell, a line each, and no trace",
    },
    FLITS,
    POINTS,
    ERRORS,
    NamedOption {
        name: "witness",
        takes: Takes::Nothing,
        help: "Writes the operations in the order found, and the memory after them",
    },
    NamedOption {
        name: "format",
        takes: Takes::TextOr("FORMAT", "text"),
        help: "json: writes the answer as a JSON object on one line",
    },
    NamedOption {
        name: "granule",
        takes: Takes::Text("ADDR"),
        help: "Judges the granule at this address, and no other",
    },
    NamedOption {
        name: "until",
        takes: Takes::Number("T"),
        help: "Judges what had happened by time T, and no words at the end",
    },
    AROUND,
    NamedOption {
        name: "html",
        takes: Takes::Text("FILE"),
        help: "Makes this file a page that shows the trace in a browser",
    },
    BUDGET,
    NamedOption {
        name: "seconds",
        takes: Takes::Number("S"),
        help: "Begins no larger search that may go on for longer than S seconds",
    },
    NamedOption {
        name: "memory",
        takes: Takes::Number("BYTES"),
        help: "Begins no larger search that may take more than BYTES of memory",
    },
    FILE,
];

// The options of `watch`, and its file.
const WATCH: [NamedOption<'static>; 14] = [
    FLITS,
    POINTS,
    ERRORS,
    BUDGET,
    AROUND,
    NamedOption {
        name: "format",
        takes: Takes::TextOr("FORMAT", "text"),
        help: "json: writes a JSON object on a line for each granule, and one at the end",
    },
    NamedOption {
        name: "save",
        takes: Takes::Text("FILE"),
        help: "Makes this file the lines of the first granule that is not explained",
    },
    NamedOption {
        name: "html",
        takes: Takes::Text("FILE"),
        help: "Makes this file a page of the first granule that is not explained",
    },
    NamedOption {
        name: "keep-going",
        takes: Takes::Nothing,
        help: "Goes on after a granule that cannot be explained, and lists them all",
    },
    NamedOption {
        name: "require-end",
        takes: Takes::Nothing,
        help: "Status 1 where the last line does not tell the end",
    },
    NamedOption {
        name: "require-operations",
        takes: Takes::NumberOr("N", "0"),
        help: "Status 1 where fewer operations ended",
    },
    NamedOption {
        name: "require-quiet",
        takes: Takes::Nothing,
        help: "Status 1 where a request is outstanding",
    },
    NamedOption {
        name: "require-judged",
        takes: Takes::Nothing,
        help: "Status 1 where a granule is not judged",
    },
    FILE,
];

// The options of `cover`, and the files that are counted.
const COVER: [NamedOption<'static>; 10] = [
    NamedOption {
        name: "goal",
        takes: Takes::NumberOr("N", "1"),
        help: "Operations that a bin has to count to be covered",
    },
    NamedOption {
        name: "plan",
        takes: Takes::Text("FILE"),
        help: "Goals of single bins, and bins that are excluded, by the rules of this file",
    },
    NamedOption {
        name: "require",
        takes: Takes::NumberOr("PERCENT", "0"),
        help: "Status 1 where fewer of a hundred bins are covered",
    },
    NamedOption {
        name: "events",
        takes: Takes::Nothing,
        help: "Counts what events tell, a line each, and not traces",
    },
    FLITS,
    POINTS,
    ERRORS,
    NamedOption {
        name: "format",
        takes: Takes::TextOr("FORMAT", "text"),
        help: "json: writes the counts as a JSON object on one line",
    },
    NamedOption {
        name: "html",
        takes: Takes::Text("FILE"),
        help: "Makes this file a page that shows the counts in a browser",
    },
    NamedOption {
        name: "file",
        takes: Takes::Words("FILE"),
        help: "Counts what these files hold, all added up, and not the standard input",
    },
];

/// The tasks.
pub(crate) const TASKS: [NamedTask<'static>; 3] = [
    NamedTask {
        name: "explain",
        about: "Looks for an order of the operations that is a legal history",
        options: &EXPLAIN,
    },
    NamedTask {
        name: "watch",
        about: "Judges events as they come, and stops at the first that cannot be explained",
        options: &WATCH,
    },
    NamedTask {
        name: "cover",
        about: "Counts what the operations of traces or of events covered",
        options: &COVER,
    },
];
