//! Open cases.

ghost use Rattle.std.specs.Prelude.{◌≡◌, ◌&&◌, ◌||◌, [], true, false, map, Some};
ghost use Rattle.std.specs.Prelude.{None, IfOk, OnOk, OnErr};
ghost use Rattle.std.specs.List.{list_all, list_any, filter};
ghost use Rattle.ev_incidence.specs.Sets.{ascends, is_member};
ghost use Rattle.ev_graph.specs.Kinds.{is_report_node};
ghost use Rattle.ev_graph.specs.Lawful.{GraphValue};
ghost use Rattle.dx_explain.specs.Cases.{case_opened, case_joined, broken_of, verdict_of};
ghost use Rattle.dx_case.specs.Changes.{gone_of, AreLivesOf};
ghost use Rattle.dx_case.specs.Candidates.{covers, is_held, is_left};
ghost use Rattle.dx_case.specs.Cases.{open_of, time_of, IsCaseOf, IsBefore};
ghost use Rattle.dx_case.specs.Cases.{waits_at, takes_at, told};
ghost use Rattle.dx_case.specs.Cases.{IsCaseOpened, IsCaseSettled, IsSameBut, StaysSame};
ghost use Rattle.dx_case.specs.Facts.{case_of_facts, facts_fit};
ghost use Rattle.dx_case.specs.Starts.{AreStartsOf};

use crate::candidate::{Candidate, copies_of, drop_lost, is_any_left, is_held};
use crate::changes::{Change, awaited_until, change_each};
use crate::facts::{CaseFacts, as_links};
use crate::kinds::Asked;
use crate::lists::{put_links, put_number};
use crate::numbers::Numbers;
use crate::outcome::{Outcome, roots_among};
use crate::starts::Starts;
use ev_graph::{Graph, Link, NoMemory};
use std::alloc::Global;

/// The report that opens a case: the number that the case gets, its node, its moment, the number
/// of its entry, and the links that it breaks.
#[derive(Drop)]
pub struct FirstReport<'a> {
    pub number: u64,
    pub node: u32,
    pub moment: u64,
    pub entry: u64,
    pub broken: &'a [Link],
}

/// An open case.
#[derive(Drop)]
pub struct Case {
    number: u64,
    opened: u64,
    /// The moment that it has come to, none once it is finished.
    time: Option<u64>,
    /// The age up to which each report is awaited whose window is not over.
    until: u64,
    entries: Vec<u64>,
    observed: Numbers,
    broken: Vec<Link>,
    candidates: Vec<Candidate>,
    /// The reports that the candidates' roots reach, ascending.
    reports: Numbers,
    /// Whether some report is pending.
    waiting: bool,
}

impl Case {
    /// The case that a report of a node opens at a moment, by the entry of a number. It takes
    /// memory for what the roots reach that reach the node, and a byte for each node and instance
    /// of the graph while it runs.
    pub fn start(
        alloc: Global,
        graph: &Graph,
        number: u64,
        node: u32,
        moment: u64,
        entry: u64,
    ) -> Result<Case, NoMemory>
        requires { is_report_node graph.now.nodes node ≡ true }
        ensures case { IfOk result (λ c. IsCaseOf graph.now c) }
        ensures open { IfOk result (λ c. open_of c ≡ case_opened number node moment entry []) }
        ensures time { IfOk result (λ c. time_of c ≡ Some moment) }
    {
        let report = FirstReport {
            number,
            node,
            moment,
            entry,
            broken: &[],
        };
        Case::start_with(alloc, graph, &mut Starts::new(alloc), &report)
    }

    /// The case that a report opens with the links that it breaks. Where something was found for
    /// its node before, it takes the memory alone, and no search.
    pub fn start_with(
        alloc: Global,
        graph: &Graph,
        starts: &mut Starts,
        report: &FirstReport<'_>,
    ) -> Result<Case, NoMemory>
        requires node { is_report_node graph.now.nodes report.now.node ≡ true }
        requires starts { AreStartsOf graph.now starts.old }
        ensures case { IfOk result (λ c. IsCaseOf graph.now c) }
        ensures open { IfOk result (λ c. open_of c ≡ case_opened report.now.number report.now.node
            report.now.moment report.now.entry report.now.broken.now) }
        ensures time { IfOk result (λ c. time_of c ≡ Some report.now.moment) }
        ensures starts { AreStartsOf graph.now starts.new }
    {
        let reported = Vec::from_array(alloc, [report.node])?;
        let observed = Numbers::new(reported);
        let entries = Vec::from_array(alloc, [report.entry])?;
        let mut broken = Vec::new(alloc);
        put_links(&mut broken, report.broken)?;
        let mut case = Case {
            number: report.number,
            opened: report.moment,
            time: Some(report.moment),
            until: 0,
            entries,
            observed,
            broken,
            candidates: Vec::new(alloc),
            reports: Numbers::new(Vec::new(alloc)),
            waiting: false,
        };
        case.find_candidates(alloc, graph, starts)?;
        Ok(case)
    }

    /// The case of these facts at a moment, in whatever order its reports came. It takes the time
    /// and memory of `start_with`, and the time of one move to the moment.
    pub fn restore(
        alloc: Global,
        graph: &Graph,
        starts: &mut Starts,
        facts: &CaseFacts<'_>,
        moment: u64,
    ) -> Result<Case, NoMemory>
        requires fit { facts_fit graph.now moment (case_of_facts facts.now) ≡ true }
        requires starts { AreStartsOf graph.now starts.old }
        ensures case { IfOk result (λ c. IsCaseOf graph.now c) }
        ensures open { IfOk result (λ c. open_of c ≡ case_of_facts facts.now) }
        ensures time { IfOk result (λ c. time_of c ≡ Some moment) }
        ensures starts { AreStartsOf graph.now starts.new }
    {
        let entries = Vec::from_slice(alloc, facts.entries)?;
        let reported = Vec::from_slice(alloc, facts.observed)?;
        let observed = Numbers::new(reported);
        let broken = as_links(alloc, facts.broken)?;
        let mut case = Case {
            number: facts.number,
            opened: facts.opened,
            time: Some(facts.opened),
            until: 0,
            entries,
            observed,
            broken,
            candidates: Vec::new(alloc),
            reports: Numbers::new(Vec::new(alloc)),
            waiting: false,
        };
        case.find_candidates(alloc, graph, starts)?;
        case.expire(graph, moment);
        Ok(case)
    }

    /// An equal case.
    pub fn copy(&self, alloc: Global) -> Result<Case, NoMemory>
        ensures open { IfOk result (λ c. open_of c ≡ open_of self.now) }
        ensures time { IfOk result (λ c. time_of c ≡ time_of self.now) }
        ensures case { (g : GraphValue) → IsCaseOf g self.now
            → IfOk result (λ c. IsCaseOf g c) }
    {
        let entries = Vec::from_slice(alloc, self.entries.as_slice())?;
        let observed = self.observed.copy(alloc)?;
        let broken = Vec::from_slice(alloc, self.broken.as_slice())?;
        let candidates = copies_of(alloc, self.candidates.as_slice())?;
        let reports = self.reports.copy(alloc)?;
        Ok(Case {
            number: self.number,
            opened: self.opened,
            time: self.time,
            until: self.until,
            entries,
            observed,
            broken,
            candidates,
            reports,
            waiting: self.waiting,
        })
    }

    /// Moves the case to a moment that is not before the one it has come to. It takes no memory,
    /// and one comparison where no window of a report ends in between.
    pub fn expire(&mut self, graph: &Graph, moment: u64)
        requires case { IsCaseOf graph.now self.old }
        requires before { IsBefore (time_of self.old) moment }
        ensures case { IsCaseOf graph.now self.new }
        ensures open { open_of self.new ≡ open_of self.old }
        ensures time { time_of self.new ≡ Some moment }
    {
        let age = moment.saturating_sub(self.opened);
        self.time = Some(moment);
        if self.until < age {
            self.lose(graph, Some(age));
            self.until = awaited_until(graph.nodes(), self.reports.as_slice(), age);
        }
    }

    /// Whether no window ends up to a moment that is not before the one the case has come to, so
    /// that the same is pending then. Where it says no, some may end. It takes one comparison.
    pub fn stays(&self, moment: u64) -> bool
        ensures { (g : GraphValue) → IsCaseOf g self.now → IsBefore (time_of self.now) moment
            → result ≡ true → StaysSame g (open_of self.now) (time_of self.now) moment }
    {
        moment.saturating_sub(self.opened) <= self.until
    }

    /// Lets what was observed alone be allowed from now on, so that nothing is pending. It takes no
    /// memory.
    pub fn finish(&mut self, graph: &Graph)
        requires { IsCaseOf graph.now self.old }
        ensures case { IsCaseOf graph.now self.new }
        ensures open { open_of self.new ≡ open_of self.old }
        ensures time { time_of self.new ≡ None }
    {
        self.time = None;
        self.lose(graph, None);
    }

    /// Whether some report is pending.
    pub fn is_pending(&self) -> bool
        ensures { (g : GraphValue) → IsCaseOf g self.now
            → result ≡ waits_at g (time_of self.now) (open_of self.now) }
    {
        self.waiting
    }

    /// Whether a report of the node joins the case: it was observed, or is pending.
    pub fn fits(&self, node: u32) -> bool
        ensures { (g : GraphValue) → IsCaseOf g self.now
            → result ≡ takes_at g (time_of self.now) node (open_of self.now) }
    {
        joins(
            &self.observed,
            &self.reports,
            self.candidates.as_slice(),
            node,
        )
    }

    /// A report of the node joins the case, by the entry of a number. Without memory the case stays
    /// as it was.
    pub fn join(&mut self, graph: &Graph, node: u32, entry: u64) -> Result<(), NoMemory>
        requires case { IsCaseOf graph.now self.old }
        requires fits { takes_at graph.now (time_of self.old) node (open_of self.old) ≡ true }
        ensures case { IsCaseOf graph.now self.new }
        ensures ok { OnOk result (open_of self.new ≡ case_joined node entry [] (open_of self.old)) }
        ensures err { OnErr result (open_of self.new ≡ open_of self.old) }
        ensures time { time_of self.new ≡ time_of self.old }
    {
        self.join_with(graph, node, entry, &[])
    }

    /// The same where what the report carries breaks these links.
    pub fn join_with(
        &mut self,
        graph: &Graph,
        node: u32,
        entry: u64,
        broken: &[Link],
    ) -> Result<(), NoMemory>
        requires case { IsCaseOf graph.now self.old }
        requires fits { takes_at graph.now (time_of self.old) node (open_of self.old) ≡ true }
        ensures case { IsCaseOf graph.now self.new }
        ensures ok { OnOk result
            (open_of self.new ≡ case_joined node entry broken.now (open_of self.old)) }
        ensures err { OnErr result (open_of self.new ≡ open_of self.old) }
        ensures time { time_of self.new ≡ time_of self.old }
    {
        let alloc = *self.entries.allocator();
        let mut observed = Vec::from_slice(alloc, self.observed.as_slice())?;
        put_number(&mut observed, node)?;
        let mut links = Vec::from_slice(alloc, self.broken.as_slice())?;
        put_links(&mut links, broken)?;
        self.entries.push(entry)?;
        self.observed = Numbers::new(observed);
        self.broken = links;
        self.cut(graph, broken);
        Ok(())
    }

    /// What the case comes to, where nothing is pending.
    pub fn outcome(&self, alloc: Global, graph: &Graph) -> Result<Outcome, NoMemory>
        requires case { IsCaseOf graph.now self.now }
        requires still { waits_at graph.now (time_of self.now) (open_of self.now) ≡ false }
        ensures { IfOk result (λ o. told o ≡ verdict_of graph.now (open_of self.now)) }
    {
        let faults = roots_among(
            alloc,
            graph.nodes(),
            self.candidates.as_slice(),
            Asked::Solving,
        )?;
        if !faults.as_slice().is_empty() {
            return Ok(Outcome::Solved(faults));
        }
        let upsets = roots_among(
            alloc,
            graph.nodes(),
            self.candidates.as_slice(),
            Asked::Upsets,
        )?;
        if !upsets.as_slice().is_empty() {
            return Ok(Outcome::Upset(upsets));
        }
        Ok(Outcome::Undiagnosable)
    }

    /// The number of the case.
    pub fn number(&self) -> u64
        ensures { result ≡ (open_of self.now).number }
    {
        self.number
    }

    /// The moment at which it was opened.
    pub fn opened(&self) -> u64
        ensures { result ≡ (open_of self.now).opened }
    {
        self.opened
    }

    /// The moment that it has come to, none once it is finished.
    pub fn time(&self) -> Option<u64>
        ensures { result ≡ time_of self.now }
    {
        self.time
    }

    /// The numbers of the entries of its reports, in the order in which they came.
    pub fn reports(&self) -> &[u64]
        ensures { result.now ≡ (open_of self.now).entries }
    {
        self.entries.as_slice()
    }

    /// The reports that were observed, ascending.
    pub fn observed(&self) -> &[u32]
        ensures { result.now ≡ (open_of self.now).observed }
    {
        self.observed.as_slice()
    }

    /// The links that the payloads of its reports break, ascending by instance, then effect.
    pub fn broken(&self) -> &[Link]
        ensures { map broken_of result.now ≡ (open_of self.now).broken }
    {
        self.broken.as_slice()
    }

    /// Finds the candidates of a case as it is opened, and what they wait for.
    fn find_candidates(
        &mut self,
        alloc: Global,
        graph: &Graph,
        starts: &mut Starts,
    ) -> Result<(), NoMemory>
        requires opened { IsCaseOpened graph.now self.old }
        requires starts { AreStartsOf graph.now starts.old }
        ensures case { OnOk result (IsCaseOf graph.now self.new) }
        ensures open { open_of self.new ≡ open_of self.old }
        ensures time { time_of self.new ≡ time_of self.old }
        ensures starts { AreStartsOf graph.now starts.new }
    {
        // This says that the graph is a lawful one.
        let _ = graph.nodes();
        let node = self.observed.first();
        let fresh = starts.fresh(alloc, graph, node)?;
        self.candidates = fresh.candidates;
        self.reports = Numbers::new(fresh.reports);
        let change = Change {
            links: self.broken.as_slice(),
            reports: &[],
            observed: self.observed.as_slice(),
            age: None,
        };
        change_each(graph, &change, self.candidates.as_mut_slice());
        self.settle();
        Ok(())
    }

    /// Takes those reports out of all sets that were not observed and whose windows are over at an
    /// age; without an age, all that were not observed.
    fn lose(&mut self, graph: &Graph, age: Option<u64>)
        requires lives { AreLivesOf graph.now self.old.candidates.items }
        requires ascend { ascends self.old.observed.items ≡ true }
        requires reports { list_all (is_report_node graph.now.nodes) self.old.reports.items ≡ true }
        ensures changed { IsCaseSettled graph.now [] (gone_of graph.now.nodes self.old.reports.items
            self.old.observed.items age) self.old self.new }
        ensures same { IsSameBut self.old self.new }
    {
        let change = Change {
            links: &[],
            reports: self.reports.as_slice(),
            observed: self.observed.as_slice(),
            age,
        };
        change_each(graph, &change, self.candidates.as_mut_slice());
        self.settle();
    }

    /// Cuts links of all sets.
    fn cut(&mut self, graph: &Graph, links: &[Link])
        requires lives { AreLivesOf graph.now self.old.candidates.items }
        requires ascend { ascends self.old.observed.items ≡ true }
        ensures changed { IsCaseSettled graph.now links.now (λ e. false) self.old self.new }
        ensures same { IsSameBut self.old self.new }
    {
        let change = Change {
            links,
            reports: &[],
            observed: self.observed.as_slice(),
            age: None,
        };
        change_each(graph, &change, self.candidates.as_mut_slice());
        self.settle();
    }

    /// Drops the candidates that are lost, and looks whether some report is pending.
    fn settle(&mut self)
        requires { ascends self.old.observed.items ≡ true }
        ensures kept { self.new.candidates.items
            ≡ filter (covers self.old.observed.items) self.old.candidates.items }
        ensures waiting { self.new.waiting
            ≡ list_any (is_left self.new.candidates.items self.old.observed.items)
            self.old.reports.items }
        ensures same { IsSameBut self.old self.new }
    {
        drop_lost(&mut self.candidates, self.observed.as_slice());
        self.waiting = is_any_left(
            self.candidates.as_slice(),
            self.observed.as_slice(),
            self.reports.as_slice(),
        );
    }
}

/// Whether a node was observed, or is a report of some set.
fn joins(observed: &Numbers, reports: &Numbers, candidates: &[Candidate], node: u32) -> bool
    ensures { ascends observed.now.items ≡ true → ascends reports.now.items ≡ true
        → result ≡ (is_member observed.now.items node
        || (is_member reports.now.items node && is_held candidates.now node)) }
{
    observed.has(node) || (reports.has(node) && is_held(candidates, node))
}
