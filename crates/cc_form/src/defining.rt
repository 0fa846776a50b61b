//! The clauses that make a variable all of literals, one of them, or that two are the same.
ghost use Rattle.std.specs.Prelude.{◌≡◌, ◌++◌, [], ◌∷◌, map, OnOk};
ghost use Rattle.cc_defs.specs.ClauseForms.{all_clauses, all_written, any_clauses, same_clauses, written};
ghost use Rattle.cc_defs.specs.Clauses.{opposite};
ghost use Rattle.cc_form.specs.Store.{Gives};

use crate::store::Store;
use cc_defs::{Lit, OutOfMemory};

/// For each literal the clause of the first one and this one.
fn write_with_each(store: &mut Store, first: Lit, literals: &[Lit]) -> Result<(), OutOfMemory>
    ensures { OnOk result (Gives store.old.kept store.new.kept
        (all_written (map (λ literal. first ∷ literal ∷ []) literals.now))) }
{
    for literal in literals {
        store.write_two(first, *literal)?;
    }
    Ok(())
}

/// For each literal the clause of the first one and its opposite.
fn write_with_each_opposite(
    store: &mut Store,
    first: Lit,
    literals: &[Lit],
) -> Result<(), OutOfMemory>
    ensures { OnOk result (Gives store.old.kept store.new.kept
        (all_written (map (λ literal. first ∷ opposite literal ∷ []) literals.now))) }
{
    for literal in literals {
        store.write_two(first, literal.opposite())?;
    }
    Ok(())
}

/// The clause of a literal and those of others.
fn write_all_of(store: &mut Store, first: Lit, literals: &[Lit]) -> Result<(), OutOfMemory>
    ensures { OnOk result
        (Gives store.old.kept store.new.kept (all_written ((first ∷ literals.now) ∷ []))) }
{
    store.begin();
    store.stage(first)?;
    store.stage_all(literals)?;
    store.write()
}

/// The clause of a literal and the opposites of others.
fn write_all_opposites(store: &mut Store, first: Lit, literals: &[Lit]) -> Result<(), OutOfMemory>
    ensures { OnOk result (Gives store.old.kept store.new.kept
        (all_written ((first ∷ map opposite literals.now) ∷ []))) }
{
    store.begin();
    store.stage(first)?;
    store.stage_opposites(literals)?;
    store.write()
}

/// The clause of these literals.
pub(crate) fn write_all(store: &mut Store, literals: &[Lit]) -> Result<(), OutOfMemory>
    ensures { OnOk result (Gives store.old.kept store.new.kept (written literals.now)) }
{
    store.begin();
    store.stage_all(literals)?;
    store.write()
}

/// The literal is true exactly where all of the others are.
pub(crate) fn define_all(store: &mut Store, x: Lit, literals: &[Lit]) -> Result<(), OutOfMemory>
    ensures { OnOk result
        (Gives store.old.kept store.new.kept (all_written (all_clauses x literals.now))) }
{
    write_with_each(store, x.opposite(), literals)?;
    write_all_opposites(store, x, literals)
}

/// The literal is true exactly where one of the others is.
pub(crate) fn define_any(store: &mut Store, x: Lit, literals: &[Lit]) -> Result<(), OutOfMemory>
    ensures { OnOk result
        (Gives store.old.kept store.new.kept (all_written (any_clauses x literals.now))) }
{
    write_all_of(store, x.opposite(), literals)?;
    write_with_each_opposite(store, x, literals)
}

/// The literal is true exactly where both of the others are, or neither is.
pub(crate) fn define_same(store: &mut Store, x: Lit, f: Lit, g: Lit) -> Result<(), OutOfMemory>
    ensures { OnOk result (Gives store.old.kept store.new.kept (all_written (same_clauses x f g))) }
{
    store.write_three(x.opposite(), f.opposite(), g)?;
    store.write_three(x.opposite(), f, g.opposite())?;
    store.write_three(x, f, g)?;
    store.write_three(x, f.opposite(), g.opposite())
}
