//! A run over the candidates of a query, for laws with heads of any form.
ghost use Rattle.std.specs.Prelude.{◌≡◌, ◌≢◌, ◌≤◌, ◌<◌, ◌+◌, ◌++◌, ◌∷◌, [], ℕ, IfErr, IfOk, IfSome, IsNone, None, OnErr, OnOk, Some, false, true};
ghost use Rattle.cc_arena.specs.GroundViews.{plain_ground_query};
ghost use Rattle.cc_defs.specs.declared.event.Ending.TheVariants as endings;
ghost use Rattle.cc_defs.specs.declared.log.EndWord.TheVariants as words;
ghost use Rattle.cc_defs.specs.declared.log.LogLine.TheVariants as said;
ghost use Rattle.cc_defs.specs.declared.refusal.Fault.TheVariants as faults;
ghost use Rattle.cc_defs.specs.Limits.{most_histories, most_steps};
ghost use Rattle.cc_defs.specs.Refusals.{IsRefusedBy};
ghost use Rattle.cc_defs.specs.Resolved.{Query};
ghost use Rattle.cc_defs.specs.Rows.{IsRow};
ghost use Rattle.cc_form.specs.Places.{position_sizes};
ghost use Rattle.cc_form.specs.Queries.{IsQueryAt};
ghost use Rattle.cc_general.specs.declared.turn.GeneralTurn.TheVariants as events;
ghost use Rattle.cc_general.specs.declared.halt.Halt.TheVariants as halts;
ghost use Rattle.cc_general.specs.declared.phase.Phase.TheVariants as phases;
ghost use Rattle.cc_general.specs.GeneralRuns.{GeneralRun};
ghost use Rattle.cc_general.specs.Generals.{GoesOn, HasMore, IsAmong, IsGeneralOf, IsGoodEvent, IsOver, IsReady, IsRightFault, IsSame, IsWritable, Stands, TellsNext, left_of, nothing_told};
ghost use Rattle.cc_general.specs.Walks.{Comes, Gives, HasCome, IsFormOf, IsFormedOutcome, IsJudged, IsListingAt, IsSought, IsToldOf, IsWalkFault, halt_of};
ghost use Rattle.cc_rivals.specs.Wides.{AreWideLawsFor, AreWideLawsOf, candidates_refusal, rivals_refusal};
ghost use Rattle.cc_wide.specs.WideLaws.{WideDescription};

use crate::halt::Halt;
use crate::phase::Phase;
use crate::turn::GeneralTurn;
use cc_arena::GroundQuery;
use cc_defs::{EndWord, Ending, Fault, List, LogLine, OutOfMemory, Row, Sig};
use cc_form::Form;
use cc_rivals::theorems::histories_have_no_rivals;
use cc_rivals::{candidates, rivals};
use cc_search::{Find, Outcome, Search, search_one};
use cc_wide::WideGround;
use std::alloc::Global;
use std::marker::Model;
use std::mem;

/// A listing by the definition of a model itself, for laws with heads of any form: the first histories of a query, at the first
/// horizon of its range that has any. It searches for candidates, rows that satisfy their own reduct and the query, in ascending
/// order, and for each of them for a rival, another row that satisfies this reduct: a candidate without one is a history. It tells
/// its events one by one. Each search has the budget for itself. Of a horizon it holds the lines of the search among its
/// candidates, with a block for each of them.
#[derive(Drop)]
pub struct GeneralTurns<'a> {
    alloc: Global,
    sig: &'a Sig,
    laws: &'a WideGround<'a>,
    query: &'a GroundQuery<'a>,
    count: Option<u32>,
    budget: u32,
    horizon: u32,
    // How many histories of the horizon were told.
    listed: u32,
    phase: Phase,
}

impl<'a> Model for GeneralTurns<'a> {
    ghost use Rattle.cc_arena.specs.GroundViews.{plain_ground_query};
    ghost use Rattle.cc_general.specs.Generals.{GeneralView, IsState};

    ghost Value = { GeneralView };

    ghost view = { λ g. record {
      signature = g.sig.now;
      laws = g.laws.now;
      query = plain_ground_query g.query.now;
      count = g.count;
      budget = g.budget;
      horizon = g.horizon;
      listed = g.listed;
      phase = g.phase;
    } };

    ghost invariant = { λ g. IsState (record {
      signature = g.sig.now;
      laws = g.laws.now;
      query = plain_ground_query g.query.now;
      count = g.count;
      budget = g.budget;
      horizon = g.horizon;
      listed = g.listed;
      phase = g.phase;
    }) };
}

/// What the walk comes to with a candidate.
fn halt_at(row: Row, outcome: Outcome) -> Option<Halt>
    ensures { result ≡ halt_of row outcome }
{
    match outcome {
        Outcome::Found(_) => None,
        Outcome::Empty(lines) => Some(Halt::Alone { row, lines }),
        Outcome::Spent(lines) => Some(Halt::SpentOver { row, lines }),
    }
}

/// What the walk comes to where the search among candidates ends.
fn end_at(word: EndWord) -> Halt
    requires { word ≢ words.Found }
    ensures empty { word ≡ words.Empty → result ≡ halts.Exhausted }
    ensures spent { word ≡ words.Spent → result ≡ halts.SpentAmong }
{
    match word {
        EndWord::Empty => Halt::Exhausted,
        EndWord::Spent => Halt::SpentAmong,
        EndWord::Found => unreachable!(),
    }
}

/// The lines, and after them the end line of a spent search.
fn spent_lines(mut lines: Vec<LogLine>) -> Result<List<LogLine>, OutOfMemory>
    ensures { IfOk result (λ list. list ≡ lines.items ++ said.End words.Spent ∷ []) }
{
    lines.push(LogLine::End(EndWord::Spent))?;
    Ok(List::of(lines))
}

impl<'a> GeneralTurns<'a> {
    /// A listing of a query without a claim. `count` is how many histories are asked for, from 1, and without it all are; `budget`
    /// is how many derived lines each search may have, at most 2,000,000.
    pub fn new(
        alloc: Global,
        sig: &'a Sig,
        laws: &'a WideGround<'a>,
        query: &'a GroundQuery<'a>,
        count: Option<u32>,
        budget: u32,
    ) -> GeneralTurns<'a>
        requires laws { AreWideLawsFor sig.now laws.now }
        requires ordered { query.now.lo ≤ query.now.hi }
        requires most { query.now.hi ≤ most_steps }
        requires steps { (horizon : ℕ) → query.now.lo ≤ horizon →
            horizon ≤ query.now.hi → IsQueryAt sig.now horizon (plain_ground_query query.now) }
        requires claim { IsNone query.now.claim }
        requires count { IfSome count (λ most. 1 ≤ most) }
        requires budget { budget ≤ 2000000 }
        ensures signature { result.signature ≡ sig.now }
        ensures laws { result.laws ≡ laws.now }
        ensures query { result.query ≡ plain_ground_query query.now }
        ensures count { result.count ≡ count }
        ensures budget { result.budget ≡ budget }
        ensures begun { (w : WideDescription) (q : Query) →
            IsGeneralOf result w q → Stands w q result nothing_told }
        ensures more { HasMore result }
    {
        GeneralTurns {
            alloc,
            sig,
            laws,
            query,
            count,
            budget,
            horizon: query.lo,
            listed: 0,
            phase: Phase::Opening,
        }
    }

    // What was to come next.
    fn take(&mut self) -> Phase
        ensures taken { result ≡ self.old.phase }
        ensures left { self.new ≡ record self.old { phase = phases.Ended } }
        ensures ready { IsReady self.old result }
    {
        mem::replace(&mut self.phase, Phase::Ended)
    }

    // What comes next.
    fn stand(&mut self, phase: Phase)
        requires { IsReady self.old phase }
        ensures { self.new ≡ record self.old { phase = phase } }
    {
        self.phase = phase;
    }

    // The horizon, and how many histories were told.
    fn place(&self) -> (u32, u32)
        ensures horizon { result.0 ≡ self.now.horizon }
        ensures listed { result.1 ≡ self.now.listed }
    {
        (self.horizon, self.listed)
    }

    // The clauses of the horizon's candidates.
    fn form(&self) -> Result<Form, Fault>
        requires { self.now.horizon ≤ self.now.query.hi }
        ensures made { (w : WideDescription) (q : Query) →
            IsGeneralOf self.now w q → IfOk result (IsFormOf w q self.now.horizon) }
        ensures sizes { IfOk result
            (λ form. form.sizes ≡ position_sizes self.now.signature self.now.horizon) }
        ensures refused { (w : WideDescription) (q : Query) → IsGeneralOf self.now w q →
            IfErr result (IsRefusedBy (candidates_refusal w q self.now.horizon)) }
    {
        candidates(self.alloc, self.sig, self.laws, self.query, self.horizon)
    }

    // What comes of the search for a rival of a candidate.
    fn rival(&self, row: &[u32]) -> Result<Outcome, Fault>
        requires low { self.now.horizon ≤ self.now.query.hi }
        requires row { IsRow (position_sizes self.now.signature self.now.horizon) row.now }
        ensures sought { (w : WideDescription) → AreWideLawsOf self.now.signature self.now.laws w →
            IfOk result (IsSought w self.now.budget self.now.horizon row.now) }
        ensures formed { IfOk result IsFormedOutcome }
        ensures refused { (w : WideDescription) → AreWideLawsOf self.now.signature self.now.laws w →
            IfErr result (IsRefusedBy (rivals_refusal w self.now.horizon row.now)) }
    {
        let form = rivals(self.alloc, self.sig, self.laws, self.horizon, row)?;
        search_one(self.alloc, form, self.budget)
    }

    // What the walk comes to with a candidate.
    fn judge(&self, row: &[u32]) -> Result<Option<Halt>, Fault>
        requires low { self.now.horizon ≤ self.now.query.hi }
        requires row { IsRow (position_sizes self.now.signature self.now.horizon) row.now }
        ensures judged { IfOk result (IsJudged self.now row.now) }
        ensures refused { (w : WideDescription) → AreWideLawsOf self.now.signature self.now.laws w →
            IfErr result (IsRefusedBy (rivals_refusal w self.now.horizon row.now)) }
    {
        let outcome = self.rival(row)?;
        let copy = Vec::from_slice(self.alloc, row)?;
        Ok(halt_at(Row::of(copy), outcome))
    }

    // What the search among candidates tells next, and what the walk comes to with it.
    fn turn(&self, search: &mut Search, lines: &mut Vec<LogLine>) -> Result<Option<Halt>, Fault>
        requires { IsListingAt self.now self.now.listed search.old lines.old.items }
        ensures comes { IfOk result
            (Comes self.now search.old lines.old.items search.new lines.new.items) }
        ensures fault { IfErr result (IsWalkFault self.now search.old lines.old.items) }
    {
        histories_have_no_rivals();
        match search.next()? {
            Find::Line(line) => {
                lines.push(line)?;
                Ok(None)
            }
            Find::Row => self.judge(search.row()),
            Find::End(word) => Ok(Some(end_at(word))),
        }
    }

    // Goes over the candidates, up to a history or an end.
    fn walk(&self, search: &mut Search, lines: &mut Vec<LogLine>) -> Result<Halt, Fault>
        requires { IsListingAt self.now self.now.listed search.old lines.old.items }
        ensures comes { IfOk result (λ halt.
            Comes self.now search.old lines.old.items search.new lines.new.items (Some halt)) }
        ensures fault { IfErr result (IsWalkFault self.now search.old lines.old.items) }
    {
        loop {
            match self.turn(search, lines)? {
                Some(halt) => return Ok(halt),
                None => {}
            }
        }
    }

    // A history, with the lines of the section that shows that it has no rival.
    fn show(
        &mut self,
        search: Search,
        lines: Vec<LogLine>,
        row: Row,
        shown: List<LogLine>,
    ) -> GeneralTurn
        requires over { IsOver self.old }
        requires ready { IsReady
            (record self.old { listed = self.old.listed + 1 }) (phases.Listing search lines) }
        requires few { self.old.listed < most_histories }
        ensures event { result
            ≡ events.History self.old.horizon (self.old.listed + 1) row shown }
        ensures new { self.new ≡ record self.old {
          listed = self.old.listed + 1;
          phase = phases.Listing search lines;
        } }
    {
        self.listed += 1;
        let (horizon, number) = self.place();
        self.stand(Phase::Listing { search, lines });
        GeneralTurn::History {
            horizon,
            number,
            row,
            lines: shown,
        }
    }

    // A search that was spent.
    fn spent(&self, rivals_of: Option<Row>, lines: List<LogLine>) -> GeneralTurn
        ensures { result ≡ events.Spent self.now.horizon self.now.listed rivals_of lines }
    {
        let (horizon, listed) = self.place();
        GeneralTurn::Spent {
            horizon,
            listed,
            rivals_of,
            lines,
        }
    }

    // The horizon has no history.
    fn pass(&mut self) -> GeneralTurn
        requires over { IsOver self.old }
        requires none { self.old.listed ≡ 0 }
        requires low { self.old.horizon ≤ self.old.query.hi }
        ensures event { result ≡ events.NoHistory self.old.horizon }
        ensures new { self.new
            ≡ record self.old { horizon = self.old.horizon + 1; phase = phases.Opening } }
    {
        let horizon = self.horizon;
        self.horizon = horizon + 1;
        self.stand(Phase::Opening);
        GeneralTurn::NoHistory { horizon }
    }

    // There are no more candidates.
    fn exhaust(&mut self) -> GeneralTurn
        requires over { IsOver self.old }
        requires low { self.old.horizon ≤ self.old.query.hi }
        ensures some { 0 < self.old.listed →
            (result ≡ events.Ended (endings.Complete self.old.horizon self.old.listed))
            × (self.new ≡ self.old) }
        ensures none { self.old.listed ≡ 0 → (result ≡ events.NoHistory self.old.horizon)
            × (self.new ≡ record self.old {
              horizon = self.old.horizon + 1;
              phase = phases.Opening;
            }) }
        ensures same { IsSame self.old self.new }
    {
        let (horizon, listed) = self.place();
        if listed > 0 {
            return GeneralTurn::Ended(Ending::Complete { horizon, listed });
        }
        self.pass()
    }

    // The budget was spent among the candidates.
    fn spent_among(&self, lines: Vec<LogLine>) -> Result<GeneralTurn, Fault>
        ensures event { IfOk result (λ event. event ≡ events.Spent
            self.now.horizon self.now.listed None (lines.items ++ said.End words.Spent ∷ [])) }
        ensures fault { IfErr result (λ fault. fault ≡ faults.OutOfMemory) }
    {
        let all = spent_lines(lines)?;
        Ok(self.spent(None, all))
    }

    // What is told where the walk comes to this.
    fn tell(
        &mut self,
        search: Search,
        lines: Vec<LogLine>,
        halt: Halt,
    ) -> Result<GeneralTurn, Fault>
        requires over { IsOver self.old }
        requires wanting { IfSome self.old.count (λ most. self.old.listed < most) }
        requires come { HasCome self.old search lines.items halt }
        ensures told { IfOk result (IsToldOf self.old search lines.items halt self.new) }
        ensures fault { IfErr result (λ fault. fault ≡ faults.OutOfMemory) }
        ensures over { OnErr result (IsOver self.new) }
        ensures same { IsSame self.old self.new }
    {
        histories_have_no_rivals();
        match halt {
            Halt::Alone { row, lines: shown } => Ok(self.show(search, lines, row, shown)),
            Halt::SpentOver { row, lines: over } => Ok(self.spent(Some(row), over)),
            Halt::Exhausted => Ok(self.exhaust()),
            Halt::SpentAmong => self.spent_among(lines),
        }
    }

    // Goes over the candidates, and tells what it comes to.
    fn go_on(&mut self, mut search: Search, mut lines: Vec<LogLine>) -> Result<GeneralTurn, Fault>
        requires over { IsOver self.old }
        requires wanting { IfSome self.old.count (λ most. self.old.listed < most) }
        requires listing { IsListingAt self.old self.old.listed search lines.items }
        ensures gives { IfOk result
            (Gives (record self.old { phase = phases.Listing search lines }) self.new) }
        ensures fault { IfErr result
            (IsRightFault (record self.old { phase = phases.Listing search lines })) }
        ensures over { OnErr result (IsOver self.new) }
        ensures same { IsSame self.old self.new }
    {
        let halt = self.walk(&mut search, &mut lines)?;
        self.tell(search, lines, halt)
    }

    // Whether as many were told as are asked for.
    fn is_asked(&self) -> bool
        ensures asked { result ≡ true → self.now.count ≡ Some self.now.listed }
        ensures wanting { result ≡ false → IfSome self.now.count (λ most. self.now.listed ≤ most) →
            IfSome self.now.count (λ most. self.now.listed < most) }
    {
        match self.count {
            Some(most) => self.listed == most,
            None => false,
        }
    }

    // The next history of the horizon, where one more is asked for.
    fn list(&mut self, search: Search, lines: Vec<LogLine>) -> Result<GeneralTurn, Fault>
        requires over { IsOver self.old }
        requires ready { IsReady self.old (phases.Listing search lines) }
        ensures gives { IfOk result
            (Gives (record self.old { phase = phases.Listing search lines }) self.new) }
        ensures fault { IfErr result
            (IsRightFault (record self.old { phase = phases.Listing search lines })) }
        ensures over { OnErr result (IsOver self.new) }
        ensures same { IsSame self.old self.new }
    {
        if self.is_asked() {
            let (horizon, listed) = self.place();
            return Ok(GeneralTurn::Ended(Ending::Asked { horizon, listed }));
        }
        self.go_on(search, lines)
    }

    // The search among the candidates of the horizon.
    fn begun(&self) -> Result<Search, Fault>
        requires low { self.now.horizon ≤ self.now.query.hi }
        ensures count { IfSome self.now.count (λ most. 1 ≤ most) }
        ensures among { (w : WideDescription) (q : Query) → IsGeneralOf self.now w q → IfOk result
            (λ search. IsAmong w q self.now.budget self.now.horizon [] search []) }
        ensures listing { IfOk result (λ search. IsListingAt self.now 0 search []) }
        ensures refused { (w : WideDescription) (q : Query) → IsGeneralOf self.now w q →
            IfErr result (IsRefusedBy (candidates_refusal w q self.now.horizon)) }
    {
        // Opens the invariant of the turns for the proof.
        let _ = &self.alloc;
        let form = self.form()?;
        Ok(Search::of(self.alloc, form, None, self.budget)?)
    }

    // The candidates of the horizon.
    fn begin(&mut self) -> Result<GeneralTurn, Fault>
        requires over { IsOver self.old }
        requires ready { IsReady self.old phases.Opening }
        requires low { self.old.horizon ≤ self.old.query.hi }
        ensures gives { IfOk result (Gives (record self.old { phase = phases.Opening }) self.new) }
        ensures fault { IfErr result (IsRightFault (record self.old { phase = phases.Opening })) }
        ensures over { OnErr result (IsOver self.new) }
        ensures same { IsSame self.old self.new }
    {
        let search = self.begun()?;
        let lines = Vec::new(self.alloc);
        self.list(search, lines)
    }

    // The candidates of the horizon, where there is one more.
    fn open(&mut self) -> Result<GeneralTurn, Fault>
        requires over { IsOver self.old }
        requires ready { IsReady self.old phases.Opening }
        ensures gives { IfOk result (Gives (record self.old { phase = phases.Opening }) self.new) }
        ensures fault { IfErr result (IsRightFault (record self.old { phase = phases.Opening })) }
        ensures over { OnErr result (IsOver self.new) }
        ensures same { IsSame self.old self.new }
    {
        if self.horizon > self.query.hi {
            return Ok(GeneralTurn::Ended(Ending::NoHistory));
        }
        self.begin()
    }

    // The next event.
    fn step(&mut self) -> Result<GeneralTurn, Fault>
        requires { HasMore self.old }
        ensures gives { IfOk result (Gives self.old self.new) }
        ensures fault { IfErr result (IsRightFault self.old) }
        ensures over { OnErr result (IsOver self.new) }
        ensures same { IsSame self.old self.new }
    {
        match self.take() {
            Phase::Opening => self.open(),
            Phase::Listing { search, lines } => self.list(search, lines),
            Phase::Ended => unreachable!(),
        }
    }

    /// The next event. Refuses the first limit that the rules or clauses of a horizon's candidates or of a candidate's rivals pass
    /// (14, rules, variables, axiom clauses or axiom literals), or that a horizon has too many candidates (14, histories). After an
    /// error, as after the ending, nothing more is told.
    pub fn next(&mut self) -> Result<GeneralTurn, Fault>
        requires { HasMore self.old }
        ensures tells { (w : WideDescription) (q : Query) (run : GeneralRun) →
            IsGeneralOf self.old w q → Stands w q self.old run →
            IfOk result (TellsNext w q self.new run) }
        ensures same { IsSame self.old self.new }
        ensures refused { IfErr result (IsRightFault self.old) }
        ensures less { OnOk result (left_of self.new < left_of self.old) }
        ensures goes { IfOk result (GoesOn self.new) }
        ensures over { OnErr result (IsOver self.new) }
        ensures writable { IfOk result (IsWritable self.old.signature) }
        ensures good { (w : WideDescription) (q : Query) →
            IsGeneralOf self.old w q → IfOk result (IsGoodEvent w) }
    {
        self.step()
    }
}
