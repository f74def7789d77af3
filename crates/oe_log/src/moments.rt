//! Which moments the log keeps, and how many commits came after one of them.
ghost use Rattle.std.specs.Prelude.{◌≡◌, ◌-◌, ◌≤◌, length, IfOk, IfErr, OnOk};
ghost use Rattle.oe_log.specs.Moments.{newest, IsKeptMoment, IsUnkept};

use crate::log::Log;
use oe_requests::refusals::Refusal;
use oe_values::numbers::Moment;

impl Log {
    /// Tells how many commits are kept.
    pub fn kept(&self) -> usize
        ensures { result ≡ length self.now.committed }
    {
        self.commits.len()
    }

    /// Tells how many commits came after a moment; `TooOld` with the horizon, or `Future` with the
    /// newest moment, exactly where it is not between the two.
    pub fn commits_after(&self, moment: Moment) -> Result<usize, Refusal>
        ensures count { IfOk result (λ n. n ≡ newest self.now - moment) }
        ensures within { IfOk result (λ n. n ≤ length self.now.committed) }
        ensures kept { OnOk result (IsKeptMoment self.now moment) }
        ensures cause { IfErr result (IsUnkept self.now moment) }
    {
        let newest = self.newest();
        let horizon = self.horizon();
        if moment < horizon {
            return Err(Refusal::TooOld(horizon));
        }
        if newest < moment {
            return Err(Refusal::Future(newest));
        }
        Ok((newest.get() - moment.get()) as usize)
    }
}
