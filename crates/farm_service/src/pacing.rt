//! How fast programs that never end come to the limit of their domain.

use crate::service::Service;
use std::sync::Wait;
use std::time::Duration;

impl Service {
    // Lets workers record half of each domain's limit as fast as they can.
    fn allow_half(&self) {
        for domain in 0..self.plan().domains() {
            let half = self.plan().part(domain).limit() / 2;
            self.schedule().allowance().allow(domain, half);
        }
    }

    /// Lets workers record half of each domain's limit as fast as they can. After that they record about `events` more in each
    /// `interval`, and do nothing in the domain in between. Users' commands, and what settles after them, are as fast as
    /// ever. The call returns after [`Service::end_pacing`], within an interval.
    ///
    /// A program that computes without end would else come to the greatest limit within an hour.
    pub fn keep_pace<R: Wait>(&self, rt: &R, events: u64, interval: Duration) {
        self.allow_half();
        let allowance = self.schedule().allowance();
        for _interval in rt.forever() {
            allowance.await_need(rt, interval);
            if allowance.has_ended() {
                break;
            }
            allowance.allow_more(events);
            self.schedule().sleep_board().wake_all();
        }
    }

    /// Lets [`Service::keep_pace`] return. It waits for nobody.
    pub fn end_pacing(&self) {
        self.schedule().allowance().end();
    }
}
