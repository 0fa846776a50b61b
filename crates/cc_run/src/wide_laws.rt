//! The ground laws of a description whose heads may be of any form.
ghost use Rattle.std.specs.Prelude.{◌≡◌, IfOk, IfErr, OnOk, None};
ghost use Rattle.cc_list.specs.Descriptions.{IsWideDescriptionOf};
ghost use Rattle.cc_defs.specs.Refusals.{IsRefusedBy};
ghost use Rattle.cc_describe.specs.Describing.{HasWideForms};
ghost use Rattle.cc_rivals.specs.Wides.{AreWideLawsFor, AreWideLawsOf};
ghost use Rattle.cc_sorts.specs.Tables.{IsSignatureFor};
ghost use Rattle.cc_wide.specs.WideLaws.{WideDescription};
ghost use Rattle.cc_wide_ground.specs.WideGrounding.{wide_laws_refusal};

use cc_arena::Terms;
use cc_defs::Fault;
use cc_describe::DescribedWide;
use cc_ground::theorems::declared_have_own_values;
use cc_wide::WideGround;
use cc_wide_ground::ground_wide;
use std::alloc::Global;

/// The ground laws of a description whose heads may be of any form, as candidates and rivals ask for them: one for each instance
/// of its laws, in order. Refuses more instances, then more lists of values, then more nodes than their limits (14, law instances,
/// choices, ground nodes), where heads count beside the parts.
pub(crate) fn wide_laws_of<'a>(
    alloc: Global,
    said: &DescribedWide,
    terms: &Terms<'a>,
) -> Result<WideGround<'a>, Fault>
    requires signature { IsSignatureFor said.now.described.table said.now.described.sig }
    requires forms { HasWideForms said.now }
    ensures fit { IfOk result (λ laws. AreWideLawsFor said.now.described.sig laws) }
    ensures of { (w : WideDescription) → IsWideDescriptionOf said.now w →
        IfOk result (λ laws. AreWideLawsOf said.now.described.sig laws w) }
    ensures unrefused { (w : WideDescription) → IsWideDescriptionOf said.now w →
        OnOk result (wide_laws_refusal w.universe w.laws ≡ None) }
    ensures refused { (w : WideDescription) → IsWideDescriptionOf said.now w →
        IfErr result (IsRefusedBy (wide_laws_refusal w.universe w.laws)) }
{
    declared_have_own_values();
    ground_wide(
        alloc,
        &said.described.table,
        &said.described.sig,
        &said.wide,
        terms,
    )
}
