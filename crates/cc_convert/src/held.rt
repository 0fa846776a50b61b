//! Lines as they were read, made into lines of a log.
ghost use Rattle.std.specs.Prelude.{◌≡◌, ◌≤◌, IfOk};
ghost use Rattle.cc_check.specs.Readers.{chain_of, literals_of, numbers_of};
ghost use Rattle.cc_defs.specs.declared.log.LogLine.TheVariants as lines;
ghost use Rattle.cc_defs.specs.Clauses.{IsOver};
ghost use Rattle.cc_defs.specs.Limits.{most_variables};
ghost use Rattle.cc_defs.specs.LogBytes.{line_meant};
ghost use Rattle.cc_convert.specs.Held.{IsHeld, IsHoldable};

use cc_check::{ChainReader, Kind, LineParts, LiteralReader, Named, NumberReader};
use cc_defs::{Lit, Lits, LogLine, Nums, OutOfMemory, Row, Version};
use std::alloc::Global;

fn lit_of(named: Named) -> Lit
    requires some { 1 ≤ named.variable }
    requires most { named.variable ≤ most_variables }
    ensures { result ≡ named }
{
    if named.positive {
        Lit::positive(named.variable)
    } else {
        Lit::negative(named.variable)
    }
}

fn lits_of(alloc: Global, literals: &LiteralReader<'_>) -> Result<Lits, OutOfMemory>
    requires { IsOver most_variables (literals_of literals.now) }
    ensures { IfOk result (λ lits. lits ≡ literals_of literals.now) }
{
    let mut lits = Vec::new(alloc);
    let mut rest = *literals;
    while let Some(named) = rest.next() {
        lits.push(lit_of(named))?;
    }
    Ok(Lits::of(lits))
}

// The numbers of a chain, its clauses named by their numbers.
fn chain_in(alloc: Global, chain: &ChainReader<'_>) -> Result<Nums, OutOfMemory>
    ensures { IfOk result (λ nums. nums ≡ chain_of chain.now) }
{
    let mut nums = Vec::new(alloc);
    let mut rest = *chain;
    while let Some(number) = rest.next() {
        nums.push(number)?;
    }
    Ok(Nums::of(nums))
}

fn row_of(alloc: Global, row: &NumberReader<'_>) -> Result<Row, OutOfMemory>
    ensures { IfOk result (λ made. made ≡ numbers_of row.now) }
{
    let mut indexes = Vec::new(alloc);
    let mut rest = *row;
    while let Some(index) = rest.next() {
        indexes.push(index)?;
    }
    Ok(Row::of(indexes))
}

fn derived_line(
    alloc: Global,
    version: Version,
    own: u32,
    line: &LineParts<'_>,
) -> Result<LogLine, OutOfMemory>
    requires { IsOver most_variables (literals_of line.now.literals) }
    ensures { IfOk result (λ made. made ≡ line_meant version own
        (lines.Derived (literals_of line.now.literals) (numbers_of line.now.numbers))) }
{
    let clause = lits_of(alloc, &line.literals)?;
    let chain = chain_in(alloc, &ChainReader::of(version, own, line.numbers))?;
    Ok(LogLine::Derived { clause, chain })
}

/// The line that was read in a version, where its own clause has the number `own`.
pub(crate) fn line_of(
    alloc: Global,
    version: Version,
    own: u32,
    line: &LineParts<'_>,
) -> Result<LogLine, OutOfMemory>
    requires { IsHoldable (literals_of line.now.literals) line.now.kind }
    ensures { IfOk result (IsHeld version own (literals_of line.now.literals)
        (numbers_of line.now.numbers) line.now.kind) }
{
    match line.kind {
        Kind::Heading => unreachable!(),
        Kind::Derived => derived_line(alloc, version, own, line),
        Kind::Block => {
            let row = row_of(alloc, &line.numbers)?;
            Ok(LogLine::Block { row })
        }
        Kind::End(word) => Ok(LogLine::End(word)),
    }
}
