// Which calls of an object in memory are to fail, and how many did.
ghost use Rattle.std.specs.Prelude.{◌≡◌, ◌≤◌, ℕ, is_ok, Some};
ghost use Rattle.fm_outer.specs.Failures.{HasCause};
ghost use Rattle.fm_outer.specs.FailPlan.{is_due, stopped_by, after_call, fresh_plan};

use crate::Failed;
use std::marker::Model;

/// The plan of failures of an object in memory, and its counts.
#[derive(Drop)]
pub struct FailPlan {
    fails: Vec<u64>,
    stop: Option<u64>,
    calls: u64,
    failures: u64,
}

impl Model for FailPlan {
    ghost use Rattle.fm_outer.specs.FailPlan.{Plan};

    ghost Value = { Plan };

    ghost view = { λ p. record {
      fails = p.fails.items;
      stop = p.stop;
      calls = p.calls;
      failures =
          p.failures;
    } };
}

impl FailPlan {
    /// The calls with these numbers fail.
    pub fn new(fails: Vec<u64>) -> FailPlan
        ensures { result ≡ fresh_plan fails.items }
    {
        FailPlan {
            fails,
            stop: None,
            calls: 0,
            failures: 0,
        }
    }

    /// From this call on each fails.
    pub fn stop_at(&mut self, call: u64)
        ensures { self.new ≡ record self.old { stop = Some call } }
    {
        self.stop = Some(call);
    }

    /// How many calls were made.
    pub fn calls(&self) -> u64
        ensures { result ≡ self.now.calls }
    {
        self.calls
    }

    /// How many calls failed.
    pub fn failures(&self) -> u64
        ensures { result ≡ self.now.failures }
    {
        self.failures
    }

    /// Whether the next call is one that fails.
    pub fn is_due(&self) -> bool
        ensures { result ≡ is_due self.now }
    {
        self.fails.contains(&self.calls) || is_stopped(self.stop, self.calls)
    }

    /// Counts a call, and answers for it.
    pub fn answer(&mut self, done: bool) -> Result<(), Failed>
        ensures answer { is_ok result ≡ done }
        ensures counted { self.new ≡ after_call done self.old }
        ensures cause { HasCause self.old.failures self.new.failures result }
    {
        self.calls = self.calls.saturating_add(1);
        if done {
            return Ok(());
        }
        self.failures = self.failures.saturating_add(1);
        Err(Failed)
    }
}

fn is_stopped(stop: Option<u64>, call: u64) -> bool
    ensures { result ≡ stopped_by stop call }
{
    match stop {
        None => false,
        Some(first) => first <= call,
    }
}
