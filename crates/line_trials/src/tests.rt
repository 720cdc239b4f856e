// Lines that are calls, that are none and that are skipped; what calls are read as, and what is reported.
ghost use Rattle.std.specs.Prelude.{◌≤◌, length};

use answers::answer::Answer;
use answers::report::report;
use calls::call::{BoundName, Call, KindName, SimpleBound, Vocabulary, Walks};
use jobs::refusal::Refusal;
use lines::line::{Line, read_call, read_line};
use std::test::Fail;
use told::figure::Figure;

const BOTH: [Vocabulary; 2] = [Vocabulary::Building, Vocabulary::Walking];

const CALLS: [&str; 22] = [
    "open 7 count plain past",
    "open 4294967295 sum both forward",
    "open 0 worst both directed",
    "open 1 ranked plain higher past forward",
    "open 1 ranked both higher directed forward",
    "  add   003  ",
    "add 255",
    "charge 0 1 2 3 65535",
    "charge 255 255 255 255 0",
    "narrow 1 255",
    "narrow 001 0",
    "weigh",
    "weigh 1 2 3",
    "weigh 1 2 3 4 5 6 7 8 9 10 11 12 13 14 15 16 17 18 19 20",
    "what-if 1 2",
    "what-if 1 2 255 0 9",
    "floor",
    "floor 255 0 09",
    "floor 1 2 3 4 5 6 7 8 9 10 11 12 13 14 15 16 17 18 19 20",
    "floor-with 1 2",
    "floor-with 255 0 255 0 9",
    "floor-with 1 2 1 2 3 4 5 6 7 8 9 10 11 12 13 14 15 16 17 18 19 20",
];

const NO_CALLS: [&str; 33] = [
    "open 4294967296 count plain past",
    "open 7 counts plain past",
    "open 7 count neither past",
    "open 7 count plain",
    "open 7 count plain past past",
    "open 7 count both past",
    "open 7 count both higher past forward",
    "open 7 count both higher forward past",
    "open 7 count plain higher forward",
    "open 7 count plain higher higher past",
    "add",
    "add 256",
    "add +5",
    "add -1",
    "add 5x",
    "add 5 5",
    "Add 5",
    "charge 0 1 2 3 65536",
    "charge 0 1 2 256 1",
    "charge 0 1 2 3",
    "narrow 1 2 3",
    "weigh 1 2 3 4 5 6 7 8 9 10 11 12 13 14 15 16 17 18 19 20 21",
    "what-if 1",
    "floor 1 2 3 4 5 6 7 8 9 10 11 12 13 14 15 16 17 18 19 20 21",
    "floor 256",
    "floor 1 2x",
    "floor-with",
    "floor-with 1",
    "floor-with 256 2",
    "floor-with 1 256",
    "floor-with 1 2 256",
    "floor-with 1 2 1 2 3 4 5 6 7 8 9 10 11 12 13 14 15 16 17 18 19 20 21",
    "floor-without 1 2",
];

const SKIPPED: [&str; 5] = ["", "   ", "#", "# add 5", "  #add 5"];

#[test]
fn lines_are_told_apart(rt: HostRuntime) {
    for vocabulary in BOTH {
        for line in CALLS {
            assert!(rt;
                matches!(read_line(vocabulary, line), Line::Call(_)),
                "{}",
                line
            );
        }
        for line in NO_CALLS {
            assert_eq!(rt; read_line(vocabulary, line), Line::NoCall, "{}", line);
        }
        for line in SKIPPED {
            assert_eq!(rt; read_line(vocabulary, line), Line::Skipped, "{}", line);
        }
    }
    assert_eq!(rt; read_line(Vocabulary::Building, "close"), Line::NoCall);
}

// The row of these settings, and then zeros.
pub fn row_of(settings: &[u8]) -> [u8; 20]
    requires { length settings.now ≤ 20 }
{
    let mut row = [0; 20];
    row[..settings.len()].copy_from_slice(settings);
    row
}

const ALL_TWENTY: [u8; 20] = [
    1, 2, 3, 4, 5, 6, 7, 8, 9, 10, 11, 12, 13, 14, 15, 16, 17, 18, 19, 20,
];

#[test]
fn paths_have_their_length(rt: HostRuntime) {
    let table = [
        (
            "floor",
            Call::Floor {
                path: row_of(&[]),
                len: 0,
            },
        ),
        (
            "floor 7 8 0",
            Call::Floor {
                path: row_of(&[7, 8, 0]),
                len: 3,
            },
        ),
        (
            "floor 1 2 3 4 5 6 7 8 9 10 11 12 13 14 15 16 17 18 19 20",
            Call::Floor {
                path: ALL_TWENTY,
                len: 20,
            },
        ),
        (
            "floor-with 1 2",
            Call::FloorWith {
                j: 1,
                k: 2,
                path: row_of(&[]),
                len: 0,
            },
        ),
        (
            "floor-with 1 2 9",
            Call::FloorWith {
                j: 1,
                k: 2,
                path: row_of(&[9]),
                len: 1,
            },
        ),
        (
            "floor-with 1 2 1 2 3 4 5 6 7 8 9 10 11 12 13 14 15 16 17 18 19 20",
            Call::FloorWith {
                j: 1,
                k: 2,
                path: ALL_TWENTY,
                len: 20,
            },
        ),
    ];
    for (line, call) in table {
        for vocabulary in BOTH {
            assert_eq!(rt; read_call(vocabulary, line), Some(call), "{}", line);
        }
    }
}

#[test]
fn calls_have_their_arguments(rt: HostRuntime) {
    let table = [
        (
            "open 7 count both higher forward directed",
            Call::Open {
                number: 7,
                kind: KindName::Count,
                walks: Walks::Both,
                bound: BoundName::Higher(SimpleBound::Forward, SimpleBound::Directed),
            },
        ),
        (" add  003 ", Call::Add { settings: 3 }),
        (
            "charge 1 2 3 4 500",
            Call::Charge {
                i: 1,
                k: 2,
                j: 3,
                l: 4,
                clash: 500,
            },
        ),
        ("narrow 1 6", Call::Narrow { i: 1, mask: 6 }),
        (
            "weigh 7 8",
            Call::Weigh {
                row: row_of(&[7, 8]),
            },
        ),
        (
            "what-if 1 2 9",
            Call::WhatIf {
                i: 1,
                k: 2,
                row: row_of(&[9]),
            },
        ),
    ];
    for (line, call) in table {
        for vocabulary in BOTH {
            assert_eq!(rt; read_call(vocabulary, line), Some(call), "{}", line);
        }
    }
}

#[test]
fn reports_are_written(rt: HostRuntime) -> Result<(), Fail> {
    let table = [
        ("  add   3 ", Answer::Done, "add 3 -> ok"),
        ("add 4", Answer::Module(3), "add 4 -> module 3"),
        (
            "weigh",
            Answer::Charge(Figure::One(50)),
            "weigh -> charge 50",
        ),
        (
            "weigh 1",
            Answer::Charge(Figure::Two(0, 50)),
            "weigh 1 -> charge 0 50",
        ),
        (
            "narrow 9 9",
            Answer::Refused(Refusal::NoSetting),
            "narrow 9 9 -> refused 7",
        ),
        ("what?", Answer::NotACall, "what? -> not a call"),
    ];
    for (line, answer, text) in table {
        assert_eq!(rt; report(rt.alloc(), line, answer)?.as_str(), text);
    }
    Ok(())
}
