//! The voices of sure mode and of general mode.
use crate::certain::tell_sure;
use crate::generally::tell_general;
use crate::voice::Voice;
use cc_defs::Sig;
use cc_defs::theorems::positions_have_sizes;
use cc_general::GeneralTurn;
use cc_ports::Desk;
use cc_sorts::Table;
use cc_sure::SureStep;
use cc_tell::{Status, Stop};
use std::alloc::Global;

/// Tells a run on certain and possible atoms.
#[derive(Drop)]
pub struct SureVoice<'a> {
    pub table: &'a Table,
    pub sig: &'a Sig,
}

impl<'a> Voice for SureVoice<'a> {
    type Event = SureStep;

    ghost use Rattle.cc_defs.specs.Description.{Description};
    ghost use Rattle.cc_sorts.specs.Tables.{IsSignatureFor};
    ghost use Rattle.cc_sure.specs.SureSteps.{IsFitStep};
    ghost use Rattle.cc_tell.specs.Names.{AreNamesOf};
    ghost use Rattle.cc_tell_modes.specs.SureTexts.{given_of, status_behind};

    ghost Of = { Description };

    ghost State = { Unit {0} };

    ghost Speaks = { λ voice d state. AreNamesOf voice.table.now voice.sig.now d };

    ghost text = { λ d state step. given_of d step.horizon step.turn };

    ghost after = { λ state step. state };

    ghost status = { λ step. status_behind step.turn };

    ghost can = { λ voice step.
        IsSignatureFor voice.table.now voice.sig.now × IsFitStep voice.sig.now step };

    fn tell<D: Desk>(
        &mut self,
        alloc: Global,
        desk: &mut D,
        step: &SureStep,
    ) -> Result<Option<Status>, Stop> {
        positions_have_sizes();
        tell_sure(alloc, desk, self.table, self.sig, step.horizon, &step.turn)
    }
}

/// Tells a listing by the definition of a model.
#[derive(Drop)]
pub struct GeneralVoice<'a> {
    pub table: &'a Table,
    pub sig: &'a Sig,
}

impl<'a> Voice for GeneralVoice<'a> {
    type Event = GeneralTurn;

    ghost use Rattle.cc_defs.specs.Description.{Description};
    ghost use Rattle.cc_general.specs.Generals.{IsWritable};
    ghost use Rattle.cc_sorts.specs.Tables.{IsSignatureFor};
    ghost use Rattle.cc_tell.specs.Names.{AreNamesOf};
    ghost use Rattle.cc_tell_modes.specs.GeneralTexts.{general_status_behind, given_generally};

    ghost Of = { Description };

    ghost State = { Unit {0} };

    ghost Speaks = { λ voice d state. AreNamesOf voice.table.now voice.sig.now d };

    ghost text = { λ d state turn. given_generally d turn };

    ghost after = { λ state turn. state };

    ghost status = { general_status_behind };

    ghost can = { λ voice turn.
        IsSignatureFor voice.table.now voice.sig.now × IsWritable voice.sig.now turn };

    fn tell<D: Desk>(
        &mut self,
        alloc: Global,
        desk: &mut D,
        turn: &GeneralTurn,
    ) -> Result<Option<Status>, Stop> {
        tell_general(alloc, desk, self.table, self.sig, turn)
    }
}
