//! The moments of a connection, and its heartbeats.

ghost use Rattle.std.specs.Prelude.{◌≡◌};
ghost use Rattle.session_tables.specs.Beating.{new_moments, seen_at, received_at, sent_at, ticked, beats};

/// What a tick tells.
#[derive(Clone, Copy, Debug, PartialEq, Eq)]
pub enum Pulse {
    /// Nothing is due.
    Still,
    /// A Heartbeat is due.
    Beat,
    /// The peer was silent for two intervals.
    Silent,
}

/// When bytes came and went, in milliseconds since 1970. A moment below one that was handed in before counts as that one.
#[derive(Clone, Copy, Debug, PartialEq, Eq)]
pub struct Moments {
    /// Seconds between heartbeats, 0 for none.
    pub heartbeat: u32,
    /// The greatest moment that was handed in.
    pub latest: u64,
    /// When the last byte came.
    pub received: u64,
    /// When the last frame went.
    pub sent: u64,
}

impl Moments {
    /// Those of a connection that begins now, without heartbeats.
    pub fn new(now: u64) -> Moments
        ensures { result ≡ new_moments now }
    {
        Moments {
            heartbeat: 0,
            latest: now,
            received: now,
            sent: now,
        }
    }

    /// A moment is handed in.
    pub fn see(&mut self, now: u64)
        ensures { self.new ≡ seen_at now self.old }
    {
        if now > self.latest {
            self.latest = now;
        }
    }

    /// Bytes came.
    pub fn receive(&mut self)
        ensures { self.new ≡ received_at self.old }
    {
        self.received = self.latest;
    }

    /// A frame goes.
    pub fn send(&mut self)
        ensures { self.new ≡ sent_at self.old }
    {
        self.sent = self.latest;
    }

    /// What is due once this moment is handed in.
    pub fn tick(&mut self, now: u64) -> Pulse
        ensures pulse { result ≡ beats (seen_at now self.old) }
        ensures new { self.new ≡ ticked now self.old }
    {
        self.see(now);
        let interval = u64::from(self.heartbeat) * 1000;
        if self.heartbeat == 0 {
            return Pulse::Still;
        }
        if self.latest.saturating_sub(self.received) >= 2 * interval {
            return Pulse::Silent;
        }
        if self.latest.saturating_sub(self.sent) >= interval {
            self.send();
            return Pulse::Beat;
        }
        Pulse::Still
    }
}
