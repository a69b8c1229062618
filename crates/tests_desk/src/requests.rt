//! Requests as lines.

use crate::steps::Request;
use delivery::request_of;
use desk::Post;
use std::alloc::{AllocError, Global};
use std::test::Fail;
use webhook_request::{Header, Outgoing};

fn add_header(text: &mut Vec<u8>, header: &Header) -> Result<(), AllocError> {
    text.extend_from_slice(header.name().text().as_bytes())?;
    text.extend_from_slice(b": ")?;
    text.extend_from_slice(header.value())?;
    text.extend_from_slice(b"\n")
}

/// The method and what is asked for, the headers and the body, each on a line.
fn lines_of(alloc: Global, outgoing: &Outgoing) -> Result<Vec<u8>, AllocError> {
    let mut text = Vec::new(alloc);
    text.extend_from_slice(outgoing.method().as_bytes())?;
    text.extend_from_slice(b" ")?;
    text.extend_from_slice(outgoing.target())?;
    text.extend_from_slice(b"\n")?;
    for header in outgoing.headers() {
        add_header(&mut text, header)?;
    }
    text.extend_from_slice(outgoing.body().as_bytes())?;
    Ok(text)
}

/// Whether this is the request of the post.
pub(crate) fn asks(alloc: Global, post: &Post, wanted: &Request) -> Result<bool, Fail> {
    let outgoing = request_of(alloc, post)?;
    let lines = lines_of(alloc, &outgoing)?;
    Ok(
        lines.as_slice() == wanted.lines
            && outgoing.host() == wanted.host
            && outgoing.port() == wanted.port,
    )
}
