//! In which order the lines of a transcript may follow.
ghost use Rattle.std.specs.Prelude.{◌≡◌, ◌<◌, ◌^◌, ◌+◌, IsTrue, ◌↔◌};
ghost use Rattle.sd_view.specs.Order.{MayFollow, after};

use crate::lines::Line;

/// What the lines so far say of those that may follow.
#[derive(Clone, Copy, Debug, PartialEq, Eq)]
pub struct SoFar {
    /// The tick of the latest.
    pub tick: u64,
    /// How many packets were sent.
    pub sent: u64,
}

impl SoFar {
    /// Whether a line may follow.
    pub(crate) fn may_follow(&self, line: &Line) -> bool
        ensures { IsTrue result ↔ MayFollow self.now line.now }
    {
        match line {
            Line::Sent { tick, id, .. } => self.tick <= *tick && *id == self.sent,
            Line::Came { tick, id, .. } => self.tick <= *tick && *id < self.sent,
            Line::Failed { tick } => self.tick <= *tick,
            Line::Answer { .. } => true,
        }
    }

    /// What is known after a line.
    pub(crate) fn after(&self, line: &Line) -> SoFar
        requires { self.now.sent + 1 < 2 ^ 64 }
        ensures { result ≡ after self.now line.now }
    {
        match line {
            Line::Sent { tick, .. } => SoFar {
                tick: *tick,
                sent: self.sent + 1,
            },
            Line::Came { tick, .. } => SoFar {
                tick: *tick,
                sent: self.sent,
            },
            Line::Failed { tick } => SoFar {
                tick: *tick,
                sent: self.sent,
            },
            Line::Answer { .. } => *self,
        }
    }
}
