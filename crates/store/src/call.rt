// Calls as values, and what they answer.
use heap::seen::Seen;
use heap::stepped::Stepped;
use ring::arcs::Lengths;

// A call with its arguments. `Plain` has the caller's record, to which the plain part is written.
#[derive(Drop)]
pub enum Call<T> {
    Load {
        r: i64,
        v: i64,
    },
    Empty {
        r: i64,
    },
    Copy {
        d: i64,
        s: i64,
    },
    Make {
        d: i64,
        template: T,
        links: Vec<i64>,
    },
    Read {
        d: i64,
        s: i64,
        k: i64,
    },
    Write {
        s: i64,
        k: i64,
        t: i64,
    },
    Fill {
        s: i64,
        template: T,
    },
    Plain {
        s: i64,
        record: T,
    },
    Same {
        a: i64,
        b: i64,
    },
    Look {
        r: i64,
    },
    Tell,
    Step,
    Full,
}

// What an accepted call answers.
#[derive(Clone, Copy, PartialEq, Eq, Debug)]
pub enum Answer<T> {
    // Load, empty, copy, read, write and fill.
    Done,
    // Make: how many records the nursery has.
    Count(u32),
    // Plain: the caller's record after it.
    Given(T),
    // Same.
    Flag(bool),
    // Look.
    Held(Seen),
    // Tell.
    Arcs(Lengths),
    // Step and full.
    Collected(Stepped),
}
