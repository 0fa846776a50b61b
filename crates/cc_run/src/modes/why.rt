//! Why mode: a cause of each value of one history.
ghost use Rattle.std.specs.Prelude.{◌≡◌, ◌≤◌, [], false, IfOk, IfSome};
ghost use Rattle.cc_list.specs.Descriptions.{IsDescriptionOf};
ghost use Rattle.cc_defs.specs.Description.{Description, sizes_at};
ghost use Rattle.cc_defs.specs.Limits.{most_steps};
ghost use Rattle.cc_defs.specs.Paths.{IsPath};
ghost use Rattle.cc_defs.specs.Rows.{IsRow};
ghost use Rattle.cc_describe.specs.declared.heads.Heads.TheVariants as heads;
ghost use Rattle.cc_describe.specs.Describing.{Describes, HasForms, SaysAll};
ghost use Rattle.cc_run.specs.WhyTold.{IsLookedAt, TellsRow};
ghost use Rattle.cc_run.specs.Modes.Why.{why_promise, no_history_line};
ghost use Rattle.cc_list.specs.Stops.{Prints};
ghost use Rattle.cc_sorts.specs.Tables.{IsSignatureFor};
ghost use Rattle.cc_tell.specs.Steps.{Step};
ghost use Rattle.cc_tell.specs.Givens.{only_out};
ghost use Rattle.cc_theory.specs.Theories.{AreLawsFor, AreLawsOf};
ghost use Rattle.cc_words.specs.Requests.{SayingWhy};
ghost use Rattle.cc_words.specs.Words.{Text};
ghost use Rattle.cc_words.specs.Views.{saying_why_by};

use crate::mode::{Mode, refuse_fault};
use crate::rows::{LookedAt, look_at};
use bumpalo::Bump;
use cc_arena::{Laws, Terms};
use cc_defs::Key;
use cc_defs::theorems::positions_have_sizes;
use cc_describe::{Described, DescribedWide, Heads};
use cc_ports::{Desk, To};
use cc_tell::{Status, Stop, give};
use cc_tell_modes::tell_causes;
use cc_why::why;
use cc_words::WhyAsked;
use std::alloc::Global;

/// Tells that a row is no history.
fn tell_none<D: Desk>(desk: &mut D) -> Result<Status, Stop>
    ensures told { Step (only_out no_history_line) (D.seen desk.old) (D.seen desk.new) result }
    ensures status { IfOk result (λ status. status ≡ Status.Not) }
{
    give(desk, To::Out, b"not a history\n")?;
    Ok(Status::Not)
}

/// Tells why each position of a history has its value.
fn tell_history<D: Desk>(
    alloc: Global,
    desk: &mut D,
    described: &Described,
    laws: &Laws<'_>,
    key: &Key,
) -> Result<Status, Stop>
    requires signature { IsSignatureFor described.now.table described.now.sig }
    requires horizon { key.now.horizon ≤ most_steps }
    requires laws { AreLawsFor described.now.sig laws.now }
    requires path { (d : Description)
        × IsDescriptionOf described.now d × AreLawsOf described.now.sig laws.now d
        × IsRow (sizes_at d key.now.horizon) key.now.row × IsPath d key.now.horizon key.now.row }
    ensures { (d : Description) → IsDescriptionOf described.now d →
        AreLawsOf described.now.sig laws.now d → IsPath d key.now.horizon key.now.row →
        TellsRow d described.now.files key.now (D.seen desk.old) (D.seen desk.new) result }
{
    positions_have_sizes();
    let row = key.row.items();
    let causes = why(alloc, &described.sig, laws, key.horizon, row)?;
    let files = described.files.items();
    let base = described.laws.items();
    tell_causes(
        alloc,
        desk,
        &described.table,
        &described.sig,
        files,
        base,
        row,
        causes.items(),
    )?;
    Ok(Status::Right)
}

/// TellsWhy a row, or tells that it is no history.
fn tell_row<D: Desk>(
    alloc: Global,
    desk: &mut D,
    described: &Described,
    row: &LookedAt<'_>,
) -> Result<Status, Stop>
    requires signature { IsSignatureFor described.now.table described.now.sig }
    requires horizon { row.now.key.horizon ≤ most_steps }
    requires laws { AreLawsFor described.now.sig row.now.laws }
    requires of { (d : Description) × (text : Text) × IsDescriptionOf described.now d
        × IsLookedAt d described.now.sig text row.now.laws row.now.key row.now.is_path }
    ensures { (d : Description) (text : Text) → IsDescriptionOf described.now d →
        IsLookedAt d described.now.sig text row.now.laws row.now.key row.now.is_path →
        TellsRow d described.now.files row.now.key (D.seen desk.old) (D.seen desk.new) result }
{
    if row.is_path {
        return tell_history(alloc, desk, described, &row.laws, &row.key);
    }
    tell_none(desk)
}

impl<'a> Mode for WhyAsked<'a> {
    ghost promise = { λ asked. why_promise (saying_why_by asked) };

    ghost which = { λ asked. heads.Definite };

    ghost file = { λ asked. asked.file.now };

    ghost behind = { λ asked. [] };

    ghost within = { λ asked. Unit {0} };

    fn heads(&self) -> Heads {
        Heads::Definite
    }

    fn file(&self) -> &str {
        self.file
    }

    // Tells why the row of a key has its values, or that it is no history.
    fn answer<D: Desk>(
        &self,
        alloc: Global,
        desk: &mut D,
        said: &DescribedWide,
    ) -> Result<Status, Stop> {
        let described = &said.described;
        let arena = Bump::new(alloc);
        let terms = Terms::new(&arena);
        match look_at(alloc, described, self.key, &terms) {
            Ok(row) => tell_row(alloc, desk, described, &row),
            Err(fault) => refuse_fault(alloc, desk, described, &fault),
        }
    }
}
