//! A run over candidates, as one of those that are told event by event.
use crate::turn::GeneralTurn;
use crate::turns::GeneralTurns;
use cc_defs::Fault;
use cc_turns::Turns;

impl<'a> Turns for GeneralTurns<'a> {
    type Event = GeneralTurn;

    ghost use Rattle.cc_general.specs.GeneralRuns.{GeneralRun, ReachesGeneralLimit};
    ghost use Rattle.cc_general.specs.Generals.{HasMore, IsWritable, left_of};
    ghost use Rattle.cc_general.specs.GeneralSteps.{GeneralSubject, IsAbout, IsRightRun, StandsAt, Steps, is_last, right_run};

    ghost Of = { GeneralSubject };

    ghost Run = { GeneralRun };

    ghost Is = { IsAbout };

    ghost Stands = { StandsAt };

    ghost Fair = { IsRightRun };

    ghost Limit = { λ of run refusal.
        ReachesGeneralLimit of.description of.query of.count run refusal };

    ghost Says = { Steps };

    ghost Fit = { λ general turn. IsWritable general.signature turn };

    ghost more = { HasMore };

    ghost left = { left_of };

    ghost last = { is_last };

    ghost fair = { right_run };

    fn next(&mut self) -> Result<GeneralTurn, Fault> {
        GeneralTurns::next(self)
    }
}
