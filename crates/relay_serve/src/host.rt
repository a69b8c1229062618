//! What a relay runs on.
use std::alloc::AllocGlobal;
use std::io::Eprint;
use std::net::Net;
use std::random::RandomSource;
use std::sync::Wait;
use std::thread::Threads;
use std::time::Clock;

/// What a relay runs on: locks, threads, clocks, sockets, random numbers, memory and standard error. Whatever has all
/// of these is one. Each function names the types of its sockets: were they named here, the check would have no proof
/// of a program's `main` that calls `serve`.
pub trait Host: Wait
    + Threads
    + Clock
    + Net
    + RandomSource
    + AllocGlobal
    + Eprint
    + Copy
    + Send
    + Sync
    + 'static {}

impl<R> Host for R
where
    R: Wait
        + Threads
        + Clock
        + Net
        + RandomSource
        + AllocGlobal
        + Eprint
        + Copy
        + Send
        + Sync
        + 'static,
{}
