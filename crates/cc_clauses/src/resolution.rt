//! Two clauses that clash on a variable, and their resolvent.
ghost use Rattle.std.specs.Prelude.{◌≡◌, ◌≤◌, ◌↔◌, ◌∷◌, ◌++◌, List, IsTrue, OnOk, IfOk, Contains};
ghost use Rattle.cc_defs.specs.Clauses.{Literal, IsClause, IsResolvent, HasAlone, Clash, opposite};
ghost use Rattle.cc_clauses.specs.Merging.{merge, lower, higher};
ghost use Rattle.cc_defs.specs.Limits.{most_variables};

use cc_defs::{Lit, OutOfMemory};

// Whether the clause has the literal.
fn has(clause: &[Lit], literal: Lit) -> bool
    requires { IsClause clause.now }
    ensures { IsTrue result ↔ Contains clause.now literal }
{
    clause.binary_search(&literal).is_ok()
}

// Whether the clause has the literal, and not its opposite.
fn has_alone(clause: &[Lit], literal: Lit) -> bool
    requires { IsClause clause.now }
    ensures { IsTrue result ↔ HasAlone clause.now literal }
{
    has(clause, literal) && !has(clause, literal.opposite())
}

// Whether the first clause has the literal alone, and the second one its opposite.
fn clash_at(a: &[Lit], b: &[Lit], literal: Lit) -> bool
    requires a_is_clause { IsClause a.now }
    requires b_is_clause { IsClause b.now }
    ensures { IsTrue result ↔ (HasAlone a.now literal × HasAlone b.now (opposite literal)) }
{
    has_alone(a, literal) && has_alone(b, literal.opposite())
}

/// Whether two clauses have a resolvent on a variable, the pivot.
pub fn clash_on(a: &[Lit], b: &[Lit], pivot: u32) -> bool
    requires a_is_clause { IsClause a.now }
    requires b_is_clause { IsClause b.now }
    requires some { 1 ≤ pivot }
    requires most { pivot ≤ most_variables }
    ensures { IsTrue result ↔ Clash a.now b.now pivot }
{
    if clash_at(a, b, Lit::positive(pivot)) {
        return true;
    }
    clash_at(a, b, Lit::negative(pivot))
}

// The literals of a clause on variables below the pivot.
fn lower_part(clause: &[Lit], pivot: u32) -> &[Lit]
    requires { IsClause clause.now }
    ensures { result.now ≡ lower pivot clause.now }
{
    let place = clause.partition_point(|literal| literal.variable() < pivot);
    clause.split_at(place).0
}

// The literals of a clause on variables above the pivot.
fn higher_part(clause: &[Lit], pivot: u32) -> &[Lit]
    requires { IsClause clause.now }
    ensures { result.now ≡ higher pivot clause.now }
{
    let place = clause.partition_point(|literal| literal.variable() <= pivot);
    clause.split_at(place).1
}

// What stands in a clause before a literal, and what behind it, whether the clause has it or not.
fn around<'a>(clause: &'a [Lit], literal: Lit) -> (&'a [Lit], &'a [Lit])
    requires { IsClause clause.now }
    ensures clause { IsClause result.1.now }
    ensures merged { (others : List Literal) →
        merge (literal ∷ others) clause.now ≡ result.0.now ++ literal ∷ merge others result.1.now }
{
    match clause.binary_search(&literal) {
        Ok(place) => (&clause[..place], &clause[place + 1..]),
        Err(place) => (&clause[..place], &clause[place..]),
    }
}

// Writes what stands in a clause before a literal, and the literal, and gives what stands behind it.
fn write_through<'a>(
    clause: &'a [Lit],
    literal: Lit,
    out: &mut Vec<Lit>,
) -> Result<&'a [Lit], OutOfMemory>
    requires { IsClause clause.now }
    ensures clause { IfOk result (λ rest. IsClause rest.now) }
    ensures written { IfOk result (λ rest. (others : List Literal) → out.new.items
        ++ merge others rest.now ≡ out.old.items ++ merge (literal ∷ others) clause.now) }
{
    let (before, behind) = around(clause, literal);
    out.extend_from_slice(before)?;
    out.push(literal)?;
    Ok(behind)
}

// Writes two clauses as one. The long one goes in runs, which are found by halves.
fn merge_into(short: &[Lit], long: &[Lit], out: &mut Vec<Lit>) -> Result<(), OutOfMemory>
    requires { IsClause long.now }
    ensures { OnOk result (out.new.items ≡ out.old.items ++ merge short.now long.now) }
{
    let mut rest = long;
    for literal in short {
        rest = write_through(rest, *literal, out)?;
    }
    out.extend_from_slice(rest)?;
    Ok(())
}

// Writes two clauses as one, by walking through the shorter of them.
fn unite_into(a: &[Lit], b: &[Lit], out: &mut Vec<Lit>) -> Result<(), OutOfMemory>
    requires a_is_clause { IsClause a.now }
    requires b_is_clause { IsClause b.now }
    ensures { OnOk result (out.new.items ≡ out.old.items ++ merge a.now b.now) }
{
    if a.len() <= b.len() {
        merge_into(a, b, out)
    } else {
        merge_into(b, a, out)
    }
}

/// Writes the resolvent of two clauses that clash on a variable, the pivot, in the place of what is there.
pub fn resolve_into(a: &[Lit], b: &[Lit], pivot: u32, out: &mut Vec<Lit>) -> Result<(), OutOfMemory>
    requires a_is_clause { IsClause a.now }
    requires b_is_clause { IsClause b.now }
    requires clash { Clash a.now b.now pivot }
    ensures { OnOk result (IsResolvent a.now b.now pivot out.new.items) }
{
    out.clear();
    out.reserve(a.len().saturating_add(b.len()))?;
    unite_into(lower_part(a, pivot), lower_part(b, pivot), out)?;
    unite_into(higher_part(a, pivot), higher_part(b, pivot), out)
}
