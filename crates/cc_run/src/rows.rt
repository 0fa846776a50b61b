//! The row that words name of a description that was read, and whether it is a history.
ghost use Rattle.std.specs.Prelude.{◌≡◌, ◌≤◌, ◌↔◌, IfErr, IfOk, IsTrue, None, OnOk};
ghost use Rattle.cc_list.specs.Descriptions.{IsDescriptionOf};
ghost use Rattle.cc_defs.specs.Conditions.{IsSignatureOfDescription};
ghost use Rattle.cc_defs.specs.Description.{Description, sizes_at};
ghost use Rattle.cc_defs.specs.Limits.{most_steps};
ghost use Rattle.cc_defs.specs.Paths.{IsPath};
ghost use Rattle.cc_defs.specs.Refusals.{IsRefusedBy};
ghost use Rattle.cc_defs.specs.Rows.{IsRow};
ghost use Rattle.cc_describe.specs.Describing.{HasForms};
ghost use Rattle.cc_print.specs.Keys.{IsKeyText};
ghost use Rattle.cc_run.specs.WhyTold.{IsWhyFault, IsLookedAt, IsRowFault};
ghost use Rattle.cc_run.specs.Modes.Why.{IsRowNamed};
ghost use Rattle.cc_sorts.specs.Tables.{IsSignatureFor};
ghost use Rattle.cc_theory.specs.Theories.{AreLawsFor, AreLawsOf, rules_refusal};
ghost use Rattle.cc_words.specs.Words.{Text};

use cc_arena::{Laws, Terms};
use cc_defs::{Fault, Key, LimitAt, Refusal, Sig};
use cc_describe::Described;
use cc_list::laws_of;
use cc_lists::is_row;
use cc_print::read_key;
use cc_print::theorems::one_key;
use cc_theory::Theory;
use cc_why::is_history;
use std::alloc::Global;

/// What is explained.
#[derive(Drop)]
pub(crate) struct LookedAt<'a> {
    pub(crate) laws: Laws<'a>,
    pub(crate) key: Key,
    /// Whether the row of the key is a path.
    pub(crate) is_path: bool,
}

/// A key, where it is that of a row; refuses another (18).
fn fitting(sig: &Sig, key: Key) -> Result<Key, Fault>
    ensures most { IfOk result (λ key. key.horizon ≤ most_steps) }
    ensures named { (text : Text) (d : Description) →
        IsKeyText text key → IsSignatureOfDescription d sig.now → IfOk result (IsRowNamed d text) }
    ensures refused { (text : Text) (d : Description) →
        IsKeyText text key → IsSignatureOfDescription d sig.now → IfErr result (IsRowFault d text) }
{
    one_key();
    if key.horizon > LimitAt::Horizon.number() {
        return Err(Fault::Refused(Refusal::at(18, 0, 0)));
    }
    if is_row(sig, key.horizon, key.row.items()) {
        return Ok(key);
    }
    Err(Fault::Refused(Refusal::at(18, 0, 0)))
}

/// The key of a row that a text is; refuses another text (18).
fn row_named(alloc: Global, sig: &Sig, text: &str) -> Result<Key, Fault>
    ensures most { IfOk result (λ key. key.horizon ≤ most_steps) }
    ensures named { (d : Description) →
        IsSignatureOfDescription d sig.now → IfOk result (IsRowNamed d text.now) }
    ensures refused { (d : Description) →
        IsSignatureOfDescription d sig.now → IfErr result (IsRowFault d text.now) }
{
    match read_key(alloc, text)? {
        Some(key) => fitting(sig, key),
        None => Err(Fault::Refused(Refusal::at(18, 0, 0))),
    }
}

/// Whether the row of a key is a path. Refuses too many rules at its horizon (14).
fn row_is_path(alloc: Global, sig: &Sig, laws: &Laws<'_>, key: &Key) -> Result<bool, Fault>
    requires horizon { key.now.horizon ≤ most_steps }
    requires laws { AreLawsFor sig.now laws.now }
    requires row { (d : Description) →
        IsSignatureOfDescription d sig.now → IsRow (sizes_at d key.now.horizon) key.now.row }
    ensures is { (d : Description) → AreLawsOf sig.now laws.now d →
        IfOk result (λ is. IsTrue is ↔ IsPath d key.now.horizon key.now.row) }
    ensures unrefused { (d : Description) →
        AreLawsOf sig.now laws.now d → OnOk result (rules_refusal d key.now.horizon ≡ None) }
    ensures refused { (d : Description) → AreLawsOf sig.now laws.now d →
        IfErr result (IsRefusedBy (rules_refusal d key.now.horizon)) }
{
    let theory = Theory::at(alloc, sig, laws, key.horizon)?;
    Ok(is_history(&theory, key.row.items()))
}

/// The row that a text names. Refuses too many instances or nodes of the laws (14), a text that is no key of a row (18), and too
/// many rules at its horizon (14), in this order.
pub(crate) fn look_at<'a>(
    alloc: Global,
    described: &Described,
    text: &str,
    terms: &Terms<'a>,
) -> Result<LookedAt<'a>, Fault>
    requires signature { IsSignatureFor described.now.table described.now.sig }
    requires forms { HasForms described.now }
    ensures laws { IfOk result (λ made. AreLawsFor described.now.sig made.laws) }
    ensures most { IfOk result (λ made. made.key.horizon ≤ most_steps) }
    ensures named { (d : Description) → IsDescriptionOf described.now d → IfOk result (λ made.
        IsLookedAt d described.now.sig text.now made.laws made.key made.is_path) }
    ensures refused { (d : Description) →
        IsDescriptionOf described.now d → IfErr result (IsWhyFault d text.now) }
{
    let laws = laws_of(alloc, described, terms)?;
    let key = row_named(alloc, &described.sig, text)?;
    let is_path = row_is_path(alloc, &described.sig, &laws, &key)?;
    Ok(LookedAt { laws, key, is_path })
}
