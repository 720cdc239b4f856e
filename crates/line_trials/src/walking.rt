// Lines of the calls on a walk: which are calls, what they are read as, and what is reported of them.
use crate::tests::row_of;
use answers::answer::Answer;
use answers::report::report;
use calls::call::{Call, Vocabulary};
use jobs::sat::Sat;
use lines::line::{Line, read_call, read_line};
use std::test::Fail;
use told::closing::{Closing, Setup};
use told::figure::Figure;
use walks::outcome::Outcome;

const CALLS: [&str; 14] = [
    "start 0",
    "start 70000",
    "start 4294967295",
    "ahead 007",
    "start 3 4",
    "ahead 65535 4294967295",
    "  start  00 01 ",
    "sit 1",
    "sit 0",
    "sit 4294967295",
    "sit 1 ticket 4294967295",
    "close",
    "close ticket 7",
    "close ticket 007",
];

const NO_CALLS: [&str; 30] = [
    "start",
    "start 4294967296",
    "start -1",
    "start 5x",
    "start 65536 0",
    "start 0 4294967296",
    "start 1 2 3",
    "start 1 x",
    "ahead",
    "ahead x",
    "ahead x 1",
    "ahead 1 2 3",
    "sit",
    "sit x",
    "sit 4294967296",
    "sit 1 2",
    "sit 1 ticket",
    "sit 1 ticket x",
    "sit 1 ticket 4294967296",
    "sit 1 ticket 2 3",
    "sit ticket 2",
    "sit 1 tickets 2",
    "close 7",
    "close ticket",
    "close ticket x",
    "close ticket 4294967296",
    "close ticket 1 2",
    "close Ticket 1",
    "Close",
    "closed",
];

#[test]
fn calls_are_told_apart(rt: HostRuntime) {
    for line in CALLS {
        assert!(rt;
            matches!(read_line(Vocabulary::Walking, line), Line::Call(_)),
            "{}",
            line
        );
    }
    for line in NO_CALLS {
        assert_eq!(rt;
            read_line(Vocabulary::Walking, line),
            Line::NoCall,
            "{}",
            line
        );
    }
}

#[test]
fn ceilings_and_tickets_are_read(rt: HostRuntime) {
    let table = [
        (
            "start 70000",
            Call::Start {
                ceiling: Figure::One(70000),
            },
        ),
        (
            "ahead 3 4",
            Call::Ahead {
                ceiling: Figure::Two(3, 4),
            },
        ),
        (
            "sit 20",
            Call::Sit {
                steps: 20,
                ticket: None,
            },
        ),
        (
            "sit 20 ticket 7",
            Call::Sit {
                steps: 20,
                ticket: Some(7),
            },
        ),
        ("close", Call::Close { ticket: None }),
        ("close ticket 007", Call::Close { ticket: Some(7) }),
    ];
    for (line, call) in table {
        assert_eq!(rt;
            read_call(Vocabulary::Walking, line),
            Some(call),
            "{}",
            line
        );
    }
}

fn closed(outcome: Outcome, charge: Figure, steps: u64, setup: Option<Setup>) -> Answer {
    Answer::Closed(Closing {
        outcome,
        charge,
        steps,
        setup,
    })
}

#[test]
fn answers_are_reported(rt: HostRuntime) -> Result<(), Fail> {
    let table = [
        (
            "start 1 4294967295",
            Answer::Ticket(1),
            "start 1 4294967295 -> ticket 1",
        ),
        (
            "sit 1000",
            Answer::Sat(Sat {
                made: 14,
                finished: true,
            }),
            "sit 1000 -> made 14 finished",
        ),
        (
            "sit 2",
            Answer::Sat(Sat {
                made: 2,
                finished: false,
            }),
            "sit 2 -> made 2 unfinished",
        ),
        (
            "close",
            closed(Outcome::Unfinished, Figure::Two(65534, 700), 2, None),
            "close -> outcome 0 charge 65534 700 steps 2",
        ),
        (
            "close",
            closed(
                Outcome::UnfinishedWithSetup,
                Figure::One(0),
                11,
                Some(Setup {
                    settings: row_of(&[0, 1, 0]),
                    len: 3,
                }),
            ),
            "close -> outcome 1 charge 0 steps 11 setup 0 1 0",
        ),
        (
            "close",
            closed(
                Outcome::Finished,
                Figure::Two(0, 0),
                26,
                Some(Setup {
                    settings: row_of(&[2, 0, 1, 0, 0]),
                    len: 5,
                }),
            ),
            "close -> outcome 2 charge 0 0 steps 26 setup 2 0 1 0 0",
        ),
        (
            "close ticket 7",
            closed(Outcome::NoneBelow, Figure::One(5), 1, None),
            "close ticket 7 -> outcome 3 charge 5 steps 1",
        ),
    ];
    for (line, answer, text) in table {
        assert_eq!(rt; report(rt.alloc(), line, answer)?.as_str(), text);
    }
    Ok(())
}
