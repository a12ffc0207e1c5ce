//! Points on a worker's way at which it may be held.

use std::sync::Wait;

/// Where a worker is on its way.
#[derive(Clone, Copy)]
pub enum Point {
    /// It took a machine, with so many forks above it.
    Took(usize),
    /// No machine was ready.
    Idle,
    /// It takes no more machines.
    Done,
}

/// What workers call at points of their way, each by its number. It may hold them there, and tells nothing: so a test
/// shows that several run at once.
pub trait Gate {
    fn at<R: Wait>(&self, rt: &R, worker: u32, point: Point);
}

impl<G: Gate> Gate for &G {
    fn at<R: Wait>(&self, rt: &R, worker: u32, point: Point) {
        (**self).at(rt, worker, point);
    }
}

/// A gate that holds nobody.
#[derive(Clone, Copy)]
pub struct OpenGate;

impl Gate for OpenGate {
    fn at<R: Wait>(&self, _rt: &R, _worker: u32, _point: Point) {}
}
