//! The voices of forever mode.
use crate::forever::{AskedForever, tell_forever};
use crate::voice::Voice;
use cc_defs::Sig;
use cc_forever::ForeverTurn;
use cc_ports::Desk;
use cc_sorts::Table;
use cc_tell::{Status, Stop};
use std::alloc::Global;

/// Tells a run on a query with a claim.
#[derive(Drop)]
pub struct ClaimVoice<'a> {
    pub table: &'a Table,
    pub sig: &'a Sig,
    /// The query's least horizon.
    pub least: u32,
}

impl<'a> Voice for ClaimVoice<'a> {
    type Event = ForeverTurn;

    ghost use Rattle.std.specs.Prelude.{◌≡◌, ℕ, true};
    ghost use Rattle.cc_defs.specs.Description.{Description};
    ghost use Rattle.cc_forever.specs.Forevers.{IsFitTurn};
    ghost use Rattle.cc_sorts.specs.Tables.{IsSignatureFor};
    ghost use Rattle.cc_tell.specs.Names.{AreNamesOf};
    ghost use Rattle.cc_tell_modes.specs.ForeverTexts.{forever_status, given_forever};

    ghost Of = { Description × ℕ };

    ghost State = { Unit {0} };

    ghost Speaks = { λ voice of state.
        AreNamesOf voice.table.now voice.sig.now of.0 × (voice.least ≡ of.1) };

    ghost text = { λ of state turn. given_forever of.0 true of.1 turn };

    ghost after = { λ state turn. state };

    ghost status = { forever_status true };

    ghost can = { λ voice turn.
        IsSignatureFor voice.table.now voice.sig.now × IsFitTurn voice.sig.now turn };

    fn tell<D: Desk>(
        &mut self,
        alloc: Global,
        desk: &mut D,
        turn: &ForeverTurn,
    ) -> Result<Option<Status>, Stop> {
        let asked = AskedForever {
            claim: true,
            least: self.least,
        };
        tell_forever(alloc, desk, self.table, self.sig, asked, turn)
    }
}

/// Tells a run on a query without a claim.
#[derive(Drop)]
pub struct PlanVoice<'a> {
    pub table: &'a Table,
    pub sig: &'a Sig,
    /// The query's least horizon.
    pub least: u32,
}

impl<'a> Voice for PlanVoice<'a> {
    type Event = ForeverTurn;

    ghost use Rattle.std.specs.Prelude.{◌≡◌, ℕ, false};
    ghost use Rattle.cc_defs.specs.Description.{Description};
    ghost use Rattle.cc_forever.specs.Forevers.{IsFitTurn};
    ghost use Rattle.cc_sorts.specs.Tables.{IsSignatureFor};
    ghost use Rattle.cc_tell.specs.Names.{AreNamesOf};
    ghost use Rattle.cc_tell_modes.specs.ForeverTexts.{forever_status, given_forever};

    ghost Of = { Description × ℕ };

    ghost State = { Unit {0} };

    ghost Speaks = { λ voice of state.
        AreNamesOf voice.table.now voice.sig.now of.0 × (voice.least ≡ of.1) };

    ghost text = { λ of state turn. given_forever of.0 false of.1 turn };

    ghost after = { λ state turn. state };

    ghost status = { forever_status false };

    ghost can = { λ voice turn.
        IsSignatureFor voice.table.now voice.sig.now × IsFitTurn voice.sig.now turn };

    fn tell<D: Desk>(
        &mut self,
        alloc: Global,
        desk: &mut D,
        turn: &ForeverTurn,
    ) -> Result<Option<Status>, Stop> {
        let asked = AskedForever {
            claim: false,
            least: self.least,
        };
        tell_forever(alloc, desk, self.table, self.sig, asked, turn)
    }
}
