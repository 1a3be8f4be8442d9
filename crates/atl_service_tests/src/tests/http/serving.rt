//! The calls of a service over HTTP as a trait, so that what tests them is proved without the
//! contract of a store.
use atl_http::listening::{ListenFault, serve_each};
use atl_http::{Dice, HttpFault, serve_one};
use atl_service::Service;
use sqlite::Alter;
use std::alloc::{AllocError, Global};
use std::io::{Read, Write};
use std::net::TcpListener;
use std::rt::Clock;

const DICE: Dice = Dice { seed: 1 };

/// What these tests call of a service: serving requests, the number of its next faction, and its
/// books.
pub(crate) trait HttpService {
    fn serve<R: Read, W: Write>(
        &mut self,
        alloc: Global,
        reader: &mut R,
        writer: &mut W,
    ) -> Result<u16, HttpFault>;

    fn serve_each<C: Clock>(
        &mut self,
        alloc: Global,
        clock: &C,
        listener: &TcpListener,
        count: u32,
    ) -> Result<(), ListenFault>;

    /// 0 if the service is closed.
    fn next_faction(&self) -> u32;

    fn books(&self) -> Option<Result<String, AllocError>>;
}

/// A service over any store serves by the calls of atl_http, with the words of `DICE`.
impl<S: Alter> HttpService for Service<S> {
    fn serve<R: Read, W: Write>(
        &mut self,
        alloc: Global,
        reader: &mut R,
        writer: &mut W,
    ) -> Result<u16, HttpFault> {
        serve_one(alloc, reader, writer, self, DICE)
    }

    fn serve_each<C: Clock>(
        &mut self,
        alloc: Global,
        clock: &C,
        listener: &TcpListener,
        count: u32,
    ) -> Result<(), ListenFault> {
        serve_each(alloc, clock, listener, self, count, DICE)
    }

    fn next_faction(&self) -> u32 {
        match self.campaign() {
            Some(campaign) => campaign.next_faction(),
            None => 0,
        }
    }

    fn books(&self) -> Option<Result<String, AllocError>> {
        Service::books(self)
    }
}
