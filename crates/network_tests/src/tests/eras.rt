//! A server whose eras have two records each: they end while calls come, and replies stay kept.

use crate::tests::answers::{NULL, OPENED};
use crate::tests::clients::{ANY, Exchange, Visit};
use crate::tests::is_served;
use std::process::Abort;
use std::test::Fail;

/// SETATTR of the root's mode, 0755: its time of change is later.
const SET_MODE: Exchange = (
    &[
        0x80000080, 21, 0, 2, 100003, 3, 2, 1, 20, 0, 0, 0, 0, 0, 0, 0, 32, 0x4e464433, 1, 0, 7, 0,
        1, 0, 1, 1, 0o755, 0, 0, 0, 0, 0, 0,
    ],
    &[
        0x80000090, 21, 1, 0, 0, 0, 0, 0, 1, 0, 0x1000, 1000, 0, 1000, 0, 1, 2, 0o755, 2, 0, 0, 0,
        0x1000, 0, 0x1000, 0, 0, 0, 1, 0, 1, 1000, 0, 1000, 0, 1000, 1,
    ],
);

/// MKDIR of `p` in the root.
const MADE: Exchange = (
    &[
        0x80000080, 22, 0, 2, 100003, 3, 9, 1, 20, 0, 0, 0, 0, 0, 0, 0, 32, 0x4e464433, 1, 0, 7, 0,
        1, 0, 1, 1, 0x70000000, 0, 0, 0, 0, 0, 0,
    ],
    &[
        0x80000110, 22, 1, 0, 0, 0, 0, 0, 1, 32, 0x4e464433, 1, 0, 7, ANY, ANY, ANY, ANY, 1, 2,
        0o755, 2, 0, 0, 0, 0x1000, 0, 0x1000, 0, 0, 0, 1, ANY, ANY, 1000, 0, 1000, 0, 1000, 0, 1,
        0, 0x1000, 1000, 0, 1000, 1, 1, 2, 0o755, 3, 0, 0, 0, 0x1000, 0, 0x1000, 0, 0, 0, 1, 0, 1,
        1000, 0, 1000, 2, 1000, 2,
    ],
);

/// LOOKUP of `p`.
const FOUND: Exchange = (
    &[
        0x80000068, 23, 0, 2, 100003, 3, 3, 1, 20, 0, 0, 0, 0, 0, 0, 0, 32, 0x4e464433, 1, 0, 7, 0,
        1, 0, 1, 1, 0x70000000,
    ],
    &[
        0x800000f0, 23, 1, 0, 0, 0, 0, 0, 32, 0x4e464433, 1, 0, 7, ANY, ANY, ANY, ANY, 1, 2, 0o755,
        2, 0, 0, 0, 0x1000, 0, 0x1000, 0, 0, 0, 1, ANY, ANY, 1000, 0, 1000, 0, 1000, 0, 1, 2,
        0o755, 3, 0, 0, 0, 0x1000, 0, 0x1000, 0, 0, 0, 1, 0, 1, 1000, 0, 1000, 2, 1000, 2,
    ],
);

/// LOOKUP of `q`: NOENT.
const NOT_FOUND: Exchange = (
    &[
        0x80000068, 24, 0, 2, 100003, 3, 3, 1, 20, 0, 0, 0, 0, 0, 0, 0, 32, 0x4e464433, 1, 0, 7, 0,
        1, 0, 1, 1, 0x71000000,
    ],
    &[
        0x80000074, 24, 1, 0, 0, 0, 0, 2, 1, 2, 0o755, 3, 0, 0, 0, 0x1000, 0, 0x1000, 0, 0, 0, 1,
        0, 1, 1000, 0, 1000, 2, 1000, 2,
    ],
);

/// MKDIR of `p` by another call: EXIST.
const MADE_ALREADY: Exchange = (
    &[
        0x80000080, 25, 0, 2, 100003, 3, 9, 1, 20, 0, 0, 0, 0, 0, 0, 0, 32, 0x4e464433, 1, 0, 7, 0,
        1, 0, 1, 1, 0x70000000, 0, 0, 0, 0, 0, 0,
    ],
    &[
        0x80000090, 25, 1, 0, 0, 0, 0, 17, 1, 0, 0x1000, 1000, 2, 1000, 2, 1, 2, 0o755, 3, 0, 0, 0,
        0x1000, 0, 0x1000, 0, 0, 0, 1, 0, 1, 1000, 0, 1000, 2, 1000, 2,
    ],
);

/// RENAME of `p` to `q`.
const RENAMED: Exchange = (
    &[
        0x80000094, 26, 0, 2, 100003, 3, 14, 1, 20, 0, 0, 0, 0, 0, 0, 0, 32, 0x4e464433, 1, 0, 7,
        0, 1, 0, 1, 1, 0x70000000, 32, 0x4e464433, 1, 0, 7, 0, 1, 0, 1, 1, 0x71000000,
    ],
    &[
        0x80000104, 26, 1, 0, 0, 0, 0, 0, 1, 0, 0x1000, 1000, 2, 1000, 2, 1, 2, 0o755, 3, 0, 0, 0,
        0x1000, 0, 0x1000, 0, 0, 0, 1, 0, 1, 1000, 0, 1000, 3, 1000, 3, 1, 0, 0x1000, 1000, 2,
        1000, 2, 1, 2, 0o755, 3, 0, 0, 0, 0x1000, 0, 0x1000, 0, 0, 0, 1, 0, 1, 1000, 0, 1000, 3,
        1000, 3,
    ],
);

/// RMDIR of `q`.
const REMOVED: Exchange = (
    &[
        0x80000068, 27, 0, 2, 100003, 3, 13, 1, 20, 0, 0, 0, 0, 0, 0, 0, 32, 0x4e464433, 1, 0, 7,
        0, 1, 0, 1, 1, 0x71000000,
    ],
    &[
        0x80000090, 27, 1, 0, 0, 0, 0, 0, 1, 0, 0x1000, 1000, 3, 1000, 3, 1, 2, 0o755, 2, 0, 0, 0,
        0x1000, 0, 0x1000, 0, 0, 0, 1, 0, 1, 1000, 0, 1000, 4, 1000, 4,
    ],
);

/// LOOKUP of `p`, which has no such name any more.
const GONE: Exchange = (
    &[
        0x80000068, 28, 0, 2, 100003, 3, 3, 1, 20, 0, 0, 0, 0, 0, 0, 0, 32, 0x4e464433, 1, 0, 7, 0,
        1, 0, 1, 1, 0x70000000,
    ],
    &[
        0x80000074, 28, 1, 0, 0, 0, 0, 2, 1, 2, 0o755, 2, 0, 0, 0, 0x1000, 0, 0x1000, 0, 0, 0, 1,
        0, 1, 1000, 0, 1000, 4, 1000, 4,
    ],
);

/// GETATTR of the root, which was changed four times.
const LEFT: Exchange = (
    &[
        0x80000060, 29, 0, 2, 100003, 3, 1, 1, 20, 0, 0, 0, 0, 0, 0, 0, 32, 0x4e464433, 1, 0, 7, 0,
        1, 0, 1,
    ],
    &[
        0x80000070, 29, 1, 0, 0, 0, 0, 0, 2, 0o755, 2, 0, 0, 0, 0x1000, 0, 0x1000, 0, 0, 0, 1, 0,
        1, 1000, 0, 1000, 4, 1000, 4,
    ],
);

/// Fourteen calls are executed, so seven eras end. The others come again behind the end of their era, and get the reply
/// that is kept.
const EXCHANGES: [Exchange; 20] = [
    OPENED,
    SET_MODE,
    SET_MODE,
    NULL,
    MADE,
    MADE,
    FOUND,
    NOT_FOUND,
    SET_MODE,
    MADE_ALREADY,
    RENAMED,
    RENAMED,
    NULL,
    REMOVED,
    REMOVED,
    GONE,
    LEFT,
    MADE,
    LEFT,
    NULL,
];

const BY_TCP: [&str; 6] = ["--tcp", "127.0.0.1:0", "--accept", "1", "--era", "2"];

#[test]
fn eras_end_while_calls_come(rt: HostRuntime) -> Result<(), Fail> {
    assert!(rt; is_served(rt, &BY_TCP, Visit::Connection(&EXCHANGES))?);
    Ok(())
}
