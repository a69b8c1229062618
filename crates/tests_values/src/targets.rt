//! Targets: their parts, and texts that are none.

use crate::cases::{holds, target};
use relay_types::{ReadFault, Target};
use std::alloc::Global;
use std::process::Abort;

/// The text of a target, its host, port and authority, and its path.
#[derive(Clone, Copy)]
struct Parts {
    text: &'static [u8],
    host: &'static [u8],
    port: u16,
    authority: &'static [u8],
    path: &'static [u8],
}

static PARTS: [Parts; 7] = [
    Parts {
        text: b"http://h/",
        host: b"h",
        port: 80,
        authority: b"h",
        path: b"/",
    },
    Parts {
        text: b"HTTP://h",
        host: b"h",
        port: 80,
        authority: b"h",
        path: b"/",
    },
    Parts {
        text: b"hTtP://a-B_c.d/",
        host: b"a-B_c.d",
        port: 80,
        authority: b"a-B_c.d",
        path: b"/",
    },
    Parts {
        text: b"http://h:1",
        host: b"h",
        port: 1,
        authority: b"h:1",
        path: b"/",
    },
    Parts {
        text: b"http://h:65535/",
        host: b"h",
        port: 65_535,
        authority: b"h:65535",
        path: b"/",
    },
    Parts {
        text: b"http://127.0.0.1:9000/hook",
        host: b"127.0.0.1",
        port: 9000,
        authority: b"127.0.0.1:9000",
        path: b"/hook",
    },
    // every mark of a path
    Parts {
        text: b"http://h/Az09-._~!$&'()*+,;=:@/%?",
        host: b"h",
        port: 80,
        authority: b"h",
        path: b"/Az09-._~!$&'()*+,;=:@/%?",
    },
];

/// Whether a second holder of the target sees these parts of it.
fn has_parts(rt: &impl Abort, target: Target, parts: Parts) -> bool {
    let shared = target.share().expect(rt, "memory");
    shared.as_bytes() == parts.text
        && shared.host() == parts.host
        && shared.port() == parts.port
        && shared.authority() == parts.authority
        && shared.path() == parts.path
        && target.is(&shared)
}

#[test]
fn parts_of_targets(rt: HostRuntime) {
    for (place, parts) in PARTS.iter().enumerate() {
        let target = target(&rt, rt.alloc(), parts.text);
        holds(&rt, has_parts(&rt, target, *parts), place);
    }
}

fn are_same(one: Target, other: Target) -> bool {
    one.is(&other)
}

#[test]
fn targets_are_compared(rt: HostRuntime) {
    let alloc = rt.alloc();
    let url = b"http://h/";
    holds(
        &rt,
        are_same(target(&rt, alloc, url), target(&rt, alloc, url)),
        0,
    );
    holds(
        &rt,
        !are_same(target(&rt, alloc, url), target(&rt, alloc, b"http://h")),
        1,
    );
}

/// How a text begins, and how many letters follow it.
#[derive(Clone, Copy)]
struct Text(&'static [u8], usize);

static READ: [Text; 2] = [Text(b"http://", 253), Text(b"http://h/", 2039)];

static REFUSED: [Text; 18] = [
    Text(b"http://h:0/", 0),
    Text(b"http://h:65536/", 0),
    Text(b"https://h/", 0),
    Text(b"http:///x", 0),
    Text(b"http://h:/", 0),
    Text(b"http://h:080/", 0),
    Text(b"http://h:100000/", 0),
    Text(b"http://h:8a/", 0),
    Text(b"http://u@h/", 0),
    Text(b"http://[::1]/", 0),
    Text(b"http://h/a b", 0),
    Text(b"http://h/#a", 0),
    Text(b"http://h?a", 0),
    Text(b"http://", 0),
    Text(b"http:/", 0),
    Text(b"", 0),
    Text(b"http://", 254),
    Text(b"http://h/", 2040),
];

fn fault_of(rt: &impl Abort, alloc: Global, text: Text) -> Option<ReadFault> {
    let Text(start, count) = text;
    let mut bytes = Vec::from_slice(alloc, start).expect(rt, "memory");
    for _ in 0..count {
        bytes.push(b'h').expect(rt, "memory");
    }
    Target::read(alloc, bytes.as_slice()).err()
}

#[test]
fn texts_of_targets(rt: HostRuntime) {
    for (place, text) in READ.iter().enumerate() {
        holds(&rt, fault_of(&rt, rt.alloc(), *text).is_none(), place);
    }
}

#[test]
fn refused_targets(rt: HostRuntime) {
    for (place, text) in REFUSED.iter().enumerate() {
        let fault = fault_of(&rt, rt.alloc(), *text);
        holds(&rt, fault == Some(ReadFault::BadUrl), place);
    }
}
