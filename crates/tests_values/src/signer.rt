// HMAC at the vectors of RFC 4231, and headers that Python's `hmac` made.

use crate::cases::{body, holds, moment, msg_id, secret, secrets};
use hmac_signer::{hmac, signature_header};
use relay_types::Secrets;
use std::alloc::Global;
use std::process::Abort;

/// A key, the pieces of a text, and the digits that their HMAC begins with.
#[derive(Clone, Copy)]
struct Mac(&'static [u8], &'static [&'static [u8]], &'static str);

const RISING: [u8; 25] = [
    1, 2, 3, 4, 5, 6, 7, 8, 9, 10, 11, 12, 13, 14, 15, 16, 17, 18, 19, 20, 21, 22, 23, 24, 25,
];

// Of the fifth the first 16 bytes are given.
static VECTORS_OF_RFC_4231: [Mac; 7] = [
    Mac(
        &[0x0B; 20],
        &[b"Hi There"],
        "b0344c61d8db38535ca8afceaf0bf12b881dc200c9833da726e9376c2e32cff7",
    ),
    Mac(
        b"Jefe",
        &[b"what do ya want for nothing?"],
        "5bdcc146bf60754e6a042426089575c75a003f089d2739839dec58b964ec3843",
    ),
    Mac(
        &[0xAA; 20],
        &[&[0xDD; 50]],
        "773ea91e36800e46854db8ebd09181a72959098b3ef8c122d9635514ced565fe",
    ),
    Mac(
        &RISING,
        &[&[0xCD; 50]],
        "82558a389a443c0ea4cc819899f2083a85f0faa3e578f8077a2e3ff46729665b",
    ),
    Mac(
        &[0x0C; 20],
        &[b"Test With Truncation"],
        "a3b6167473100ee06e0c796c2955552b",
    ),
    Mac(
        &[0xAA; 131],
        &[b"Test Using Larger Than Block-Size Key - Hash Key First"],
        "60e431591ee0b67f0d8a26aacbf5b77f8e0bc6213728c5140546040f0ee37f54",
    ),
    Mac(
        &[0xAA; 131],
        &[
            b"This is a test using a larger than block-size key and a larger than block-size data. \
The key needs to be hashed before being used by the HMAC algorithm.",
        ],
        "9b09ffa71b942fcb27635fbcd5b0e944bfdc63644f0713938a7f51535c3a35e2",
    ),
];

// Keys about the length of a block, by Python's `hmac`.
static KEYS_OF_A_BLOCK: [Mac; 3] = [
    Mac(
        b"",
        &[b"abc"],
        "fd7adb152c05ef80dccf50a1fa4c05d5a3ec6da95575fc312ae7c5d091836351",
    ),
    Mac(
        &[b'k'; 64],
        &[b"abc"],
        "ae0c0e4a2340cf50185eb46aaa8723f4769153661612e212fb0d1fa3170c6202",
    ),
    Mac(
        &[b'k'; 65],
        &[b"abc"],
        "ed378e5dfa30dc98814ba09b2e610d9b6af66054922ceef9480da094a3f11b2d",
    ),
];

const JEFE: &str = "5bdcc146bf60754e6a042426089575c75a003f089d2739839dec58b964ec3843";

// Any cut of a text gives the same digest: that of the second vector.
static CUTS: [Mac; 3] = [
    Mac(b"Jefe", &[b"what do ya ", b"want for nothing?"], JEFE),
    Mac(
        b"Jefe",
        &[b"", b"w", b"hat do ya want for nothing", b"", b"?"],
        JEFE,
    ),
    Mac(
        b"Jefe",
        &[
            b"what",
            b" do",
            b" ya",
            b" want",
            b" for",
            b" nothing?",
            b"",
        ],
        JEFE,
    ),
];

fn hex(rt: &impl Abort, alloc: Global, bytes: &[u8]) -> String {
    let mut text = String::new(alloc);
    for byte in bytes {
        write!(text, "{byte:02x}").expect(rt, "memory");
    }
    text
}

fn walk(rt: &impl Abort, alloc: Global, table: &[Mac]) {
    for (place, mac) in table.iter().enumerate() {
        let Mac(key, pieces, digits) = *mac;
        let found = hex(rt, alloc, &hmac(key, pieces));
        holds(rt, found.as_str().starts_with(digits), place);
    }
}

#[test]
fn vectors_of_rfc_4231(rt: HostRuntime) {
    walk(&rt, rt.alloc(), &VECTORS_OF_RFC_4231);
}

#[test]
fn keys_of_a_block(rt: HostRuntime) {
    walk(&rt, rt.alloc(), &KEYS_OF_A_BLOCK);
}

#[test]
fn cuts(rt: HostRuntime) {
    walk(&rt, rt.alloc(), &CUTS);
}

/// The secrets, the id, the moment and the body of a post, and its header.
#[derive(Clone, Copy)]
struct Header {
    keys: &'static [&'static [u8]],
    id: &'static [u8],
    at: u64,
    body: &'static [u8],
    text: &'static str,
}

static HEADERS: [Header; 2] = [
    // The example of Standard Webhooks 1.0.0.
    Header {
        keys: &[b"whsec_MfKQ9r8GKYqrTwjUPD8ILPZIo2LaLaSw"],
        id: b"msg_p5jXN8AQM9LWM0D4loKWxJek",
        at: 1_614_265_330,
        body: b"{\"test\": 2432232314}",
        text: "v1,g0hM9SsE+OTPJTGt/tmIKtSyZlE3uFJELVlNIOLJ1OE=",
    },
    // By Python's `hmac`.
    Header {
        keys: &[
            b"whsec_MDEyMzQ1Njc4OTAxMjM0NTY3ODkwMTIz",
            b"whsec_AAAAAAAAAAAAAAAAAAAAAAAAAAAAAAAA",
        ],
        id: b"msg_1",
        at: 1000,
        body: b"",
        text: "v1,SWmnEwHTCxM5LOV+bjJ4VJ8UF8MOq1/kZ1YxmYp0p4g= v1,Yr85wgeyK4wnnPBNTS1SHnPM/J6uU3GDMZkDuR+XxGk=",
    },
];

fn list(rt: &impl Abort, keys: &[&[u8]]) -> Secrets {
    match keys {
        [newest, older] => secrets(rt, &[secret(rt, newest), secret(rt, older)]),
        [one] => secrets(rt, &[secret(rt, one)]),
        _ => panic!(rt; "one secret or two"),
    }
}

fn is_signed(rt: &impl Abort, alloc: Global, post: Header) -> bool {
    let list = list(rt, post.keys);
    let id = msg_id(rt, post.id);
    let body = body(rt, alloc, post.body);
    let text = signature_header(alloc, &list, &id, moment(rt, post.at), &body).expect(rt, "memory");
    text.as_str() == post.text
}

#[test]
fn headers(rt: HostRuntime) {
    for (place, post) in HEADERS.iter().enumerate() {
        holds(&rt, is_signed(&rt, rt.alloc(), *post), place);
    }
}
