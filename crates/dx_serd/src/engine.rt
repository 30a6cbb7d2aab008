// An engine: a ring of the last moments noted.
ghost use Rattle.std.specs.Prelude.{◌≡◌, ◌≤◌, [], ◌∷◌, ◌++◌, IsTrue, IfOk, option_copied, ◌-◌};
ghost use Rattle.std.specs.Prelude.{nat_le, ◌&&◌, ◌==◌, length, slice_get};
ghost use Rattle.std.specs.List.{list_all};
ghost use Rattle.circular_buffer.specs.Buffer.{buffer};
ghost use Rattle.dx_serd.specs.Rates.{IsLimited, fires, kept_after, is_rising_from, is_rising};
ghost use Rattle.dx_serd.specs.Rates.{is_rate};
ghost use Rattle.dx_serd.specs.Rates.{is_there_from, none_past, are_kept};

use circular_buffer::HeapCircularBuffer;
use fm_bytes::NoMemory;
use std::alloc::Global;
use std::marker::Model;

/// A rate engine, with the moments that it keeps.
#[derive(Drop)]
pub struct Engine {
    n: u32,
    t: u64,
    ring: HeapCircularBuffer<u64>,
}

impl Model for Engine {
    ghost use Rattle.std.specs.Prelude.{◌≡◌, IsTrue};
    ghost use Rattle.dx_serd.specs.Rates.{RateOf, IsLimited, are_kept};

    ghost Value = { RateOf };

    ghost view = { λ e. record { n = e.n; t = e.t; kept = e.ring.items } };

    ghost invariant = { λ e. IsLimited e.n e.t × (e.ring.capacity ≡ e.n)
        × IsTrue (are_kept e.n e.t e.ring.items) };
}

impl Engine {
    /// An engine that has noted nothing, and fires at `n` moments (1 to 1,024) within `t`
    /// nanoseconds (1 to 2^60).
    pub fn new(alloc: Global, n: u32, t: u64) -> Result<Engine, NoMemory>
        requires { IsLimited n t }
        ensures { IfOk result (λ engine. engine ≡ record { n = n; t = t; kept = [] }) }
    {
        Engine::with_moments(alloc, n, t, &[])
    }

    /// An engine that keeps these moments, as one of this n and t may (`are_lawful`).
    pub fn with_moments(alloc: Global, n: u32, t: u64, moments: &[u64]) -> Result<Engine, NoMemory>
        requires limited { IsLimited n t }
        requires kept { IsTrue (are_kept n t moments.now) }
        ensures { IfOk result (λ engine. engine ≡ record { n = n; t = t; kept = moments.now }) }
    {
        let mut ring = HeapCircularBuffer::with_capacity(alloc, n as usize)?;
        ring.extend_from_slice(moments);
        Ok(Engine { n, t, ring })
    }

    /// An equal engine.
    pub fn copy(&self, alloc: Global) -> Result<Engine, NoMemory>
        ensures { IfOk result (λ engine. engine ≡ self.now) }
    {
        let moments = self.moments(alloc)?;
        Engine::with_moments(alloc, self.n, self.t, &moments)
    }

    /// Notes a moment, which no kept moment is past, and answers whether the engine fired.
    pub fn note(&mut self, moment: u64) -> bool
        requires { IsTrue (none_past moment self.old.kept) }
        ensures fired { result ≡ fires self.old.n self.old.t self.old.kept moment }
        ensures kept { self.new ≡ record self.old {
          kept = kept_after self.old.n self.old.t self.old.kept moment;
        } }
    {
        let (n, t) = (self.n, self.t);
        note_in(&mut self.ring, n, t, moment)
    }

    /// Forgets all moments.
    pub fn reset(&mut self)
        ensures { self.new ≡ record self.old { kept = [] } }
    {
        self.ring.clear();
    }

    /// The moments that it keeps, oldest first: the last n since the last reset, or all of them.
    pub fn moments(&self, alloc: Global) -> Result<Vec<u64>, NoMemory>
        ensures kept { IfOk result (λ moments. moments.items ≡ self.now.kept) }
        ensures lawful { IsTrue (are_kept self.now.n self.now.t self.now.kept) }
    {
        Ok(self.ring.to_vec(alloc)?)
    }
}

// notes a moment in the ring of an engine
fn note_in(ring: &mut HeapCircularBuffer<u64>, n: u32, t: u64, moment: u64) -> bool
    requires some { 1 ≤ n }
    requires capacity { ring.old.capacity ≡ n }
    requires rising { IsTrue (is_rising ring.old.items) }
    requires past { IsTrue (none_past moment ring.old.items) }
    ensures fired { result ≡ fires n t ring.old.items moment }
    ensures kept { ring.new ≡ buffer (kept_after n t ring.old.items moment) ring.old.capacity }
{
    let _oldest = ring.push_back(moment);
    let fired = has_rate(ring, moment.saturating_sub(t));
    if fired {
        ring.clear();
    }
    fired
}

/// Whether an engine of this n and t can keep these moments.
pub fn are_lawful(n: u32, t: u64, moments: &[u64]) -> bool
    ensures { result ≡ are_kept n t moments.now }
{
    are_rising(moments) && moments.len() <= n as usize && !are_near(n, t, moments)
}

// whether the ring is full, and its oldest moment is not below another
fn has_rate(ring: &HeapCircularBuffer<u64>, low: u64) -> bool
    ensures { result ≡ (is_there_from low (slice_get ring.now.items 0)
        && (length ring.now.items == ring.now.capacity)) }
{
    is_near(ring.front(), low) && ring.is_full()
}

// whether a moment is there, and not below another
fn is_near(oldest: Option<&u64>, low: u64) -> bool
    ensures { result ≡ is_there_from low (option_copied oldest.entry) }
{
    match oldest {
        Some(moment) => *moment >= low,
        None => false,
    }
}

// whether the moments do not fall
fn are_rising(moments: &[u64]) -> bool
    ensures { result ≡ is_rising moments.now }
{
    let mut last = 0;
    for moment in moments {
        if *moment < last {
            return false;
        }
        last = *moment;
    }
    true
}

// whether there are n moments, and none is more than t past the first
fn are_near(n: u32, t: u64, moments: &[u64]) -> bool
    ensures { result ≡ is_rate n t moments.now }
{
    match moments {
        [] => false,
        [first, rest @ ..] => { moments.len() >= n as usize && are_near_to(*first, t, rest) }
    }
}

// whether none of the moments is more than t past another
fn are_near_to(first: u64, t: u64, moments: &[u64]) -> bool
    ensures { result ≡ list_all (λ y. nat_le (y - first) t) moments.now }
{
    moments.iter().all(|y| y.saturating_sub(first) <= t)
}
