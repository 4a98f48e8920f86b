//! What a server takes of the machine that it runs on.

use std::net::{Net, TcpListener, TcpStream};
use std::random::RandomSource;
use std::rt::Clock;
use std::sync::Wait;
use std::thread::Threads;

/// Threads that may wait, a clock, random bytes, and connections.
pub trait Platform: Threads
    + Wait
    + Clock
    + RandomSource
    + Net<Listener = TcpListener, Stream = TcpStream>
    + Sync {}

impl<N> Platform for N
where
    N: Threads
        + Wait
        + Clock
        + RandomSource
        + Net<Listener = TcpListener, Stream = TcpStream>
        + Sync,
{}
