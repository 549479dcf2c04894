//! Loads, reads and writes that fail, and reads and writes of a few bytes.

use crate::runs::{ECHO, GO, PLAIN, PROMPT, Run, first_unwanted};
use std::test::Fail;

#[test]
fn failing_calls_end_a_run_where_they_come(rt: HostRuntime) -> Result<(), Fail> {
    let echo = Run {
        file: ECHO,
        text: &[PROMPT],
        ..PLAIN
    };
    let two = Run {
        input: b"LINE 1 =go\nLINE 2 =x\n",
        text: &[PROMPT, GO, b"NO 8\n"],
        ..echo
    };
    let pipe = Run {
        command: &["pipe", "d"],
        input: b"OPEN 0 k1 0 7 80 24\nLINE 0 k1 1 1 =go\n",
        text: &[b"SHOW 0 0\n", PROMPT, b"SHOW 0 1\n", GO],
        ..echo
    };
    let unloaded = Run {
        loads: &[0],
        status: 4,
        text: &[],
        ..PLAIN
    };
    let unwritten = Run {
        writes: &[0],
        status: 5,
        text: &[],
        ..PLAIN
    };
    let lasts = Run {
        input: b"LAST 0 k1\nLAST 0 k1\nLAST 0 k1\nLAST 0 k1\nLAST 0 k1\n",
        most: 10,
        status: 4,
        ..pipe
    };
    let runs = [
        // a byte or a few at a time
        Run { most: 1, ..PLAIN },
        Run { most: 7, ..two },
        Run { most: 1, ..pipe },
        // a load
        unloaded,
        Run {
            command: &["check"],
            ..unloaded
        },
        // a call for a disk, the first and the last of the journal's and the snapshots'
        Run {
            loans: &[0],
            status: 6,
            text: &[],
            ..pipe
        },
        Run {
            loans: &[64],
            status: 6,
            text: &[],
            ..pipe
        },
        // a write
        unwritten,
        Run {
            command: &["check"],
            ..unwritten
        },
        Run {
            command: &["--help"],
            ..unwritten
        },
        Run {
            writes: &[4],
            status: 5,
            text: &[PROMPT, GO],
            ..two
        },
        Run {
            writes: &[1],
            status: 5,
            text: &[b"SHOW 0 0\n", PROMPT],
            ..pipe
        },
        // a read, behind a whole line and within one
        Run {
            input: b"LINE 1 =go\nLINE",
            reads: &[1],
            status: 4,
            text: &[PROMPT, GO],
            ..echo
        },
        Run {
            most: 20,
            reads: &[1],
            status: 4,
            text: &[PROMPT, GO],
            ..two
        },
        Run {
            reads: &[1],
            status: 4,
            ..pipe
        },
        // each of five reads of a line
        Run {
            reads: &[0],
            text: &[],
            ..lasts
        },
        Run {
            reads: &[1],
            text: &[b"NO 2\n"],
            ..lasts
        },
        Run {
            reads: &[2],
            text: &[b"NO 2\nNO 2\n"],
            ..lasts
        },
        Run {
            reads: &[3],
            text: &[b"NO 2\nNO 2\nNO 2\n"],
            ..lasts
        },
        Run {
            reads: &[4],
            text: &[b"NO 2\nNO 2\nNO 2\nNO 2\n"],
            ..lasts
        },
        // `check` reads no input
        Run {
            command: &["check"],
            reads: &[0],
            text: &[b"good version=00030103 ram=256 ext=256 end=256 stack=256 sum=0\n"],
            ..PLAIN
        },
    ];
    let unwanted = first_unwanted(&rt, rt.alloc(), &runs)?;
    assert_eq!(rt; unwanted, None);
    Ok(())
}
