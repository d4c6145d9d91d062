//! A hybrid clock, as in Actual Budget's `crdt` package.
ghost use Rattle.std.specs.Prelude.{◌≡◌, ◌+◌, ◌*◌, ◌<◌, ◌≤◌, IfOk};
ghost use Rattle.hybrid_clock.specs.Stamp.{IsStamp, window};
ghost use Rattle.hybrid_clock.specs.Clock as spec;

use crate::node::Node;
use crate::stamp::{Stamp, WINDOW};
use std::marker::Model;

/// A hybrid clock: a time and a counter at which it stands, and its own node.
///
/// After a draw it stands at the last timestamp that it drew. After a receive it stands at a time and a counter that were
/// neither drawn nor received, later than both. The next timestamps that it draws are later still.
///
/// A contract sees it as the timestamp at which it stands, which is always valid.
#[derive(Debug, Drop)]
pub struct HybridClock {
    last: Stamp,
}

/// Why a clock does not move.
#[derive(Clone, Copy, Debug, PartialEq, Eq)]
pub enum ClockFault {
    /// `logical` is more than 300,000 milliseconds ahead of the reading. It is the time of the
    /// message that is received, where that is so far ahead. Else it is the time to which the
    /// clock would go, which then is the clock's own.
    Drift { logical: u64, reading: u64 },
    /// The counter would be this, which is above 65,535.
    Overflow { counter: u32 },
    /// The reading's minute is 43,046,721 or later.
    Beyond { reading: u64 },
}

/// How many milliseconds a clock may be ahead of a reading.
const DRIFT: u64 = 300_000;

/// The largest counter.
const LAST_COUNTER: u32 = 65_535;

impl Model for HybridClock {
    ghost use Rattle.hybrid_clock.specs.declared.stamp.Stamp.{Stamp};
    ghost use Rattle.hybrid_clock.specs.Stamp.{IsStamp};

    ghost Value = { Stamp };

    ghost view = { λ c. c.last };

    ghost invariant = { λ c. IsStamp c.last };
}

impl HybridClock {
    ghost use Rattle.std.specs.Prelude.{◌≡◌, ◌≤◌, ◌+◌, ◌-◌, Ok, Err, IfOk, IfErr, OnOk, OnErr};
    ghost use Rattle.std.specs.Option.{ForSome};
    ghost use Rattle.hybrid_clock.specs.Node.{IsNode};
    ghost use Rattle.hybrid_clock.specs.Stamp.{IsStamp};
    ghost use Rattle.hybrid_clock.specs.Clock.{clock_after, IsLater, draw, receive};

    /// A clock of this node that goes on after a timestamp of any node, or begins at the
    /// start of 1970 with the counter 0.
    pub fn new(node: Node, last: Option<Stamp>) -> HybridClock
        requires node { IsNode node }
        requires last { ForSome last IsStamp }
        ensures { result ≡ clock_after node last }
    {
        let (millis, counter) = match last {
            Some(last) => (last.millis, last.counter),
            None => (0, 0),
        };
        HybridClock {
            last: Stamp {
                millis,
                counter,
                node,
            },
        }
    }

    /// The timestamp at which the clock stands.
    pub fn last(&self) -> Stamp
        ensures value { result ≡ self.now }
        ensures stamp { IsStamp result }
    {
        self.last
    }

    /// Draws `n` timestamps at a reading of the wall clock, and answers the first of them.
    /// The others have the counters that follow; the clock then stands at the last.
    ///
    /// # Errors
    ///
    /// Tested in this order: `Beyond`, `Drift` of the new time, `Overflow` of the last
    /// counter. After an error the clock is as it was.
    #[tactic(auto, unfolding(crate::specs::Clock::draw))]
    pub fn draw(&mut self, reading: u64, n: u32) -> Result<Stamp, ClockFault>
        requires some { 1 ≤ n }
        requires most { n ≤ 65_536 }
        ensures drawn { OnOk result (draw self.old reading n ≡ Ok self.new) }
        ensures row { IfOk result (λ s. self.new ≡ record s { counter = s.counter + (n - 1) }) }
        ensures room { IfOk result (λ s. s.counter + (n - 1) ≤ 65_535) }
        ensures stamp { IfOk result IsStamp }
        ensures later { IfOk result (IsLater self.old) }
        ensures refused { IfErr result (λ e. draw self.old reading n ≡ Err e) }
        ensures kept { OnErr result (self.new ≡ self.old) }
    {
        if reading / 60_000 >= WINDOW {
            return Err(ClockFault::Beyond { reading });
        }
        let last = self.last;
        let time = last.millis.max(reading);
        let first = first_counter(&last, time);
        self.last = moved(&last, reading, time, first + (n - 1))?;
        Ok(Stamp {
            millis: time,
            counter: first as u16,
            node: last.node,
        })
    }

    /// Receives a message's timestamp at a reading of the wall clock. The clock then stands
    /// after it and after where it stood.
    ///
    /// # Errors
    ///
    /// Tested in this order: `Beyond`, `Drift` of the message's time, `Drift` of the new
    /// time, `Overflow` of the new counter. After an error the clock is as it was.
    #[tactic(auto, unfolding(crate::specs::Clock::receive))]
    pub fn receive(&mut self, reading: u64, message: &Stamp) -> Result<(), ClockFault>
        requires { IsStamp message.now }
        ensures received { OnOk result (receive self.old reading message.now ≡ Ok self.new) }
        ensures later { OnOk result (IsLater self.old self.new × IsLater message.now self.new) }
        ensures refused { IfErr result (λ e. receive self.old reading message.now ≡ Err e) }
        ensures kept { OnErr result (self.new ≡ self.old) }
    {
        if reading / 60_000 >= WINDOW {
            return Err(ClockFault::Beyond { reading });
        }
        if message.millis.saturating_sub(reading) > DRIFT {
            return Err(ClockFault::Drift {
                logical: message.millis,
                reading,
            });
        }
        let last = self.last;
        let time = last.millis.max(reading).max(message.millis);
        let counter = next_counter(&last, message, time);
        self.last = moved(&last, reading, time, counter)?;
        Ok(())
    }
}

/// Where a clock stands after it moves to this time and counter.
fn moved(last: &Stamp, reading: u64, time: u64, counter: u32) -> Result<Stamp, ClockFault>
    requires stamp { IsStamp last.now }
    requires within { time < 60_000 * window }
    ensures is { result ≡ spec.moved last.now reading time counter }
    ensures stamp { IfOk result IsStamp }
    ensures fits { IfOk result (λ _. counter ≤ 65_535) }
{
    if time.saturating_sub(reading) > DRIFT {
        return Err(ClockFault::Drift {
            logical: time,
            reading,
        });
    }
    if counter > LAST_COUNTER {
        return Err(ClockFault::Overflow { counter });
    }
    Ok(Stamp {
        millis: time,
        counter: counter as u16,
        node: last.node,
    })
}

/// The counter that follows at a time which is the clock's or later.
fn first_counter(last: &Stamp, time: u64) -> u32
    ensures value { result ≡ spec.first_counter last.now time }
    ensures bound { result ≤ 65_536 }
{
    if last.millis == time {
        last.counter as u32 + 1
    } else {
        0
    }
}

/// The counter that follows those of the clock and the message at the time.
fn next_counter(last: &Stamp, message: &Stamp, time: u64) -> u32
    ensures value { result ≡ spec.next_counter last.now message.now time }
    ensures bound { result ≤ 65_536 }
{
    if last.millis == time {
        if message.millis == time {
            last.counter.max(message.counter) as u32 + 1
        } else {
            last.counter as u32 + 1
        }
    } else if message.millis == time {
        message.counter as u32 + 1
    } else {
        0
    }
}
