//! The addresses of hosts. The system looks a name up for as long as it likes, so each name is
//! looked up on a thread of its own.
ghost use Rattle.std.specs.Prelude.{◌≡◌, ◌≢◌, IsSome};
ghost use Rattle.std.specs.IoError.{raw_os_error};
ghost use Rattle.hyper_poster.specs.Failures.{IsRefusedHere};

use crate::failure::Failure;
use std::alloc::{AllocError, AllocGlobal, Global};
use std::net::{
    HostAddrs, IpAddr, Ipv4Addr, Net, SocketAddr, TcpListener, TcpStream, ToSocketAddrs,
};
use std::sync::{Arc, Condvar, CondvarTimeouts, Mutex, Wait};
use std::thread::Threads;
use std::time::{Clock, Duration};
use std::{io, thread};

/// So many look-ups of one poster may be under way, those that it gave up among them.
const MOST_LOOK_UPS: usize = 32;

/// Looks names up. One thread waits for them, and starts another for each.
pub(crate) struct Resolver<R: Wait + Copy> {
    rt: R,
    queue: Arc<LookUpQueue>,
    under_way: Mutex<Vec<Arc<LookUp>>>,
}

// What the thread waits for. It changes only under the lock, so the thread misses no change.
#[derive(Drop)]
struct LookUpQueue {
    state: Mutex<QueueState>,
    changed: Condvar,
}

// The look-ups that wait for a thread, and whether the resolver is gone.
#[derive(Drop)]
struct QueueState {
    waiting: Vec<Arc<LookUp>>,
    is_over: bool,
}

// A name, and what came of its look-up once it has ended.
#[derive(Drop)]
struct LookUp {
    host: String,
    port: u16,
    found: Mutex<Option<Result<HostAddrs, Failure>>>,
    ended: Condvar,
}

// The thread that waits ends; no look-up is waited for.
impl<R: Wait + Copy> Drop for Resolver<R> {
    fn drop(self) {
        self.queue.end(&self.rt);
        let Resolver {
            rt: _,
            queue: _,
            under_way: _,
        } = self;
    }
}

impl<R: Wait + Copy> Resolver<R> {
    pub(crate) fn start(rt: R) -> Result<Resolver<R>, AllocError>
    where
        R: Threads + Net<Listener = TcpListener, Stream = TcpStream> + AllocGlobal + Send + 'static,
    {
        let alloc = rt.alloc();
        let queue = Arc::new(alloc, LookUpQueue::new(alloc)).map_err(AllocError::from)?;
        let theirs = Arc::try_clone(&queue)?;
        let _running = thread::spawn(&rt, move || serve_look_ups(&rt, &theirs))?;
        Ok(Resolver {
            rt,
            queue,
            under_way: Mutex::new(Vec::new(alloc)),
        })
    }

    // The addresses of the host, if they are found in so long.
    pub(crate) fn addresses(
        &self,
        host: &str,
        port: u16,
        limit: Duration,
    ) -> Result<HostAddrs, Failure>
    where
        R: Clock + Net + AllocGlobal,
    {
        if host.parse::<IpAddr>().is_ok() {
            return addresses_of(&self.rt, host, port);
        }
        let host = String::from_str(self.rt.alloc(), host)?;
        let look_up = self.ask(LookUp::new(host, port))?;
        look_up.found_within(&self.rt, limit)
    }

    // A look-up that is asked for, unless too many are under way.
    fn ask(&self, look_up: LookUp) -> Result<Arc<LookUp>, Failure>
    where
        R: AllocGlobal,
    {
        let mut under_way = self.under_way.lock(&self.rt);
        under_way.retain(|it| Arc::strong_count(it) > 1);
        if under_way.len() >= MOST_LOOK_UPS {
            return Err(Failure::Unsent);
        }
        let look_up = Arc::new(self.rt.alloc(), look_up).map_err(AllocError::from)?;
        under_way
            .push(Arc::try_clone(&look_up)?)
            .map_err(AllocError::from)?;
        self.queue.add(&self.rt, Arc::try_clone(&look_up)?)?;
        Ok(look_up)
    }
}

impl LookUpQueue {
    fn new(alloc: Global) -> LookUpQueue {
        LookUpQueue {
            state: Mutex::new(QueueState {
                waiting: Vec::new(alloc),
                is_over: false,
            }),
            changed: Condvar::new(),
        }
    }

    fn add<R: Wait>(&self, rt: &R, look_up: Arc<LookUp>) -> Result<(), AllocError> {
        self.state
            .lock(rt)
            .waiting
            .push(look_up)
            .map_err(AllocError::from)?;
        self.changed.notify_all();
        Ok(())
    }

    // The resolver is gone.
    fn end<R: Wait>(&self, rt: &R) {
        self.state.lock(rt).is_over = true;
        self.changed.notify_all();
    }

    // The next look-up, or none once the resolver is gone.
    fn next<R: Wait>(&self, rt: &R) -> Option<Arc<LookUp>> {
        let state = self.state.lock(rt);
        let mut state = self.changed.wait_while(rt, state, |state| {
            state.waiting.is_empty() && !state.is_over
        });
        state.waiting.pop()
    }
}

impl LookUp {
    fn new(host: String, port: u16) -> LookUp {
        LookUp {
            host,
            port,
            found: Mutex::new(None),
            ended: Condvar::new(),
        }
    }

    fn run<R: Wait + Net>(&self, rt: &R) {
        self.end(rt, addresses_of(rt, self.host.as_str(), self.port));
    }

    fn end<R: Wait>(&self, rt: &R, found: Result<HostAddrs, Failure>) {
        *self.found.lock(rt) = Some(found);
        self.ended.notify_all();
    }

    // What comes of it in so long.
    fn found_within<R: Wait + Clock>(&self, rt: &R, limit: Duration) -> Result<HostAddrs, Failure> {
        let found = self.found.lock(rt);
        let (mut found, _timed) = self
            .ended
            .wait_timeout_while(rt, found, limit, |found| found.is_none());
        found.take().unwrap_or(Err(Failure::Late))
    }
}

// Begins all look-ups that are asked for.
fn serve_look_ups<R>(rt: &R, queue: &LookUpQueue)
where
    R: Wait + Threads + Net<Listener = TcpListener, Stream = TcpStream> + Copy + Send + 'static,
{
    for _ in rt.forever() {
        let Some(look_up) = queue.next(rt) else {
            return;
        };
        if begin(*rt, &look_up).is_err() {
            look_up.end(rt, Err(Failure::Unsent));
        }
    }
}

// Begins a look-up on a thread that nobody joins: it ends when the system has an answer.
fn begin<R>(rt: R, look_up: &Arc<LookUp>) -> Result<(), AllocError>
where
    R: Wait + Threads + Net<Listener = TcpListener, Stream = TcpStream> + Copy + Send + 'static,
{
    let theirs = Arc::try_clone(look_up)?;
    let _running = thread::spawn(&rt, move || theirs.run(&rt))?;
    Ok(())
}

fn addresses_of<R: Net>(rt: &R, host: &str, port: u16) -> Result<HostAddrs, Failure> {
    (host, port)
        .to_socket_addrs(rt)
        .map_err(|error| why_not_found(rt, error))
}

// How a failed look-up counts. A resolver without a free descriptor reports an unknown name, with
// no number, so a socket is asked for then.
fn why_not_found<R: Net>(rt: &R, error: io::Error) -> Failure
    ensures here { IsRefusedHere error → result ≡ Failure.Unsent }
    ensures numbered { IsSome (raw_os_error error) → result ≡ Failure.Unsent → IsRefusedHere error }
    ensures asked { result ≢ Failure.Late }
{
    if error.raw_os_error().is_none() && is_without_sockets(rt) {
        return Failure::Unsent;
    }
    Failure::of(error)
}

// Whether this side is refused a socket now.
fn is_without_sockets<R: Net>(rt: &R) -> bool {
    match rt.bind(SocketAddr::from((Ipv4Addr::LOCALHOST, 0))) {
        Ok(_socket) => false,
        Err(refused) => matches!(Failure::of(refused), Failure::Unsent),
    }
}
