//! The words of `serve`: which relay they ask for.

use crate::streams::holds;
use command_interface::{ServeWords, Settings, read_serve, serve_syntax};
use std::test::Fail;

/// Words that ask for a relay, and what it is asked to do.
#[derive(Clone, Copy)]
struct Serving {
    words: &'static [&'static str],
    asked: ServeWords<'static>,
}

const USUAL: ServeWords<'static> = ServeWords {
    file: "relay.db",
    address: "127.0.0.1:8080",
    settings: Settings {
        workers: 8,
        intake: 8,
        timeout: 15,
        requests: 0,
    },
};

static SERVING: &[Serving] = &[
    Serving {
        words: &["serve", "relay.db", "127.0.0.1:8080"],
        asked: USUAL,
    },
    Serving {
        words: &[
            "serve",
            "--workers",
            "1",
            "--intake",
            "64",
            "--timeout",
            "60",
            "--requests",
            "7",
            "a",
            "b",
        ],
        asked: ServeWords {
            file: "a",
            address: "b",
            settings: Settings {
                workers: 1,
                intake: 64,
                timeout: 60,
                requests: 7,
            },
        },
    },
    Serving {
        words: &[
            "serve",
            "relay.db",
            "127.0.0.1:8080",
            "--workers=64",
            "--intake=1",
            "--timeout=1",
        ],
        asked: ServeWords {
            settings: Settings {
                workers: 64,
                intake: 1,
                timeout: 1,
                requests: 0,
            },
            ..USUAL
        },
    },
    // the greatest of each number, and a long address
    Serving {
        words: &[
            "serve",
            "relay.db",
            "[2001:0db8:0123:4567:89ab:cdef:0123:4567]:65535",
            "--workers=64",
            "--intake=64",
            "--timeout=60",
            "--requests=18446744073709551615",
        ],
        asked: ServeWords {
            file: "relay.db",
            address: "[2001:0db8:0123:4567:89ab:cdef:0123:4567]:65535",
            settings: Settings {
                workers: 64,
                intake: 64,
                timeout: 60,
                requests: u64::MAX,
            },
        },
    },
];

// A relay is asked for as the words say.
#[test]
fn asks_for_a_relay(rt: HostRuntime) -> Result<(), Fail> {
    for (place, serving) in SERVING.iter().enumerate() {
        let matches = serve_syntax(rt.alloc())?.try_get_matches_from(serving.words);
        let asked = match matches {
            Ok(matches) => read_serve(&matches),
            Err(_) => None,
        };
        holds(&rt, asked == Some(serving.asked), "asked", place);
    }
    Ok(())
}
