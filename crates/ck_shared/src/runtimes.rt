use std::sync::Wait;
use std::thread::Threads;

/// What runs the callers of a shared token: it starts threads, may wait, gives them memory, and
/// goes to each thread as a copy or by reference.
pub trait Runtime: Threads + Wait + AllocGlobal + Copy + Drop + Send + Sync {}

impl<R: Threads + Wait + AllocGlobal + Copy + Drop + Send + Sync> Runtime for R {}
