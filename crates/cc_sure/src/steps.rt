//! A run on certain and possible atoms, as one of those that are told event by event.
use crate::turn::SureStep;
use crate::turns::SureTurns;
use cc_defs::Fault;
use cc_turns::Turns;

impl<'a> Turns for SureTurns<'a> {
    type Event = SureStep;

    ghost use Rattle.cc_sure.specs.SureRuns.{ReachesSureLimit, SureRun};
    ghost use Rattle.cc_sure.specs.Sures.{HasMore, left_of};
    ghost use Rattle.cc_sure.specs.SureSteps.{IsAbout, IsFitStep, IsRightRun, StandsAt, Steps, SureSubject, is_last, right_run};

    ghost Of = { SureSubject };

    ghost Run = { SureRun };

    ghost Is = { IsAbout };

    ghost Stands = { StandsAt };

    ghost Fair = { IsRightRun };

    ghost Limit = { λ of run refusal.
        ReachesSureLimit of.description of.query of.budget run refusal };

    ghost Says = { Steps };

    ghost Fit = { λ sure step. IsFitStep sure.signature step };

    ghost more = { HasMore };

    ghost left = { left_of };

    ghost last = { λ step. is_last step.turn };

    ghost fair = { right_run };

    fn next(&mut self) -> Result<SureStep, Fault> {
        let turn = SureTurns::next(self)?;
        let horizon = self.horizon();
        Ok(SureStep { horizon, turn })
    }
}
