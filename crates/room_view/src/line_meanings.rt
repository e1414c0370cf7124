//! What faults of lines of injections mean, and how such a fault is mended.
use inject_reader::LineFault;
use view_pages::Meaning;

const fn of(fault: &'static str, cure: &'static str) -> Meaning {
    Meaning { fault, cure }
}

/// A fault of a line of injections. That time is moved on is one of verdicts alone.
pub(crate) fn line_meaning(fault: LineFault) -> Meaning {
    match fault {
        LineFault::NoForm => of(
            "the line has another form",
            "write `PATH.PORT[PLACE] SIGNAL NUMBERS at PRIORITY`, of which the place, the numbers and the \
             priority may be missing, or `settle`, or `advance N`",
        ),
        LineFault::NoSlot => of(
            "no slot for actors has this path, or it is an imported one",
            "write the path as `room tree` prints it",
        ),
        LineFault::NoEnd => of(
            "the class has no such end port, or the port no such place",
            "name an end port and one of its places, from 0",
        ),
        LineFault::NoSignal => of(
            "no such message comes in at the port",
            "name a message that comes in",
        ),
        LineFault::OtherNumbers => of(
            "the message carries another number of numbers",
            "as many numbers as the message has",
        ),
        LineFault::TooManyLines => of(
            "there are more than 10,000 lines",
            "fewer lines; comments and empty ones count",
        ),
        LineFault::NoTime => of(
            "the line moves the time on, and no journals are judged over such lines",
            "none: `verify` knows no virtual time (docs/VERIFY.md)",
        ),
    }
}
