//! The lines of a section that is right.
ghost use Rattle.std.specs.Prelude.{◌≡◌, ◌+◌, ◌≤◌, IfOk, length};
ghost use Rattle.cc_check.specs.SectionTexts.{IsRightOf};
ghost use Rattle.cc_defs.specs.declared.log.LogLine.TheVariants as lines;
ghost use Rattle.cc_defs.specs.Limits.{most_log_bytes};
ghost use Rattle.cc_defs.specs.LogVersions.{own_behind};
ghost use Rattle.cc_convert.specs.Saying.{AreLinesOf, no_axioms};

use crate::said::said_line;
use cc_check::Section;
use cc_defs::{List, LogLine, OutOfMemory};
use cc_form::Form;
use std::alloc::Global;

/// Lines of a log.
pub type LogLines = List<LogLine>;

fn heading_of(section: &Section<'_>) -> LogLine
    ensures { result ≡ lines.Section section.now.conditions section.now.horizon }
{
    LogLine::Section {
        conditions: section.conditions,
        horizon: section.horizon,
    }
}

// The number of the clause that comes next after a line within a section, whose own clause would have this number.
fn next_number(own: u32, line: &LogLine) -> u32
    requires { own ≤ 999999999 }
    ensures { result ≡ own_behind no_axioms own line.now }
{
    match line {
        LogLine::Section { .. } => 1,
        LogLine::Derived { .. } => own + 1,
        LogLine::Block { .. } => own + 1,
        LogLine::End(_) => own,
    }
}

/// The lines of a section that is right over the clauses of a form, as `cc_check::check` answers it: its heading, and the lines
/// up to its end. A chain names clauses by their numbers, in whichever version the section is written. Fails where memory is
/// wanting.
pub fn lines_of(alloc: Global, form: &Form, section: &Section<'_>) -> Result<LogLines, OutOfMemory>
    requires few { length section.now.bytes.now ≤ most_log_bytes }
    requires right { IsRightOf form.now section.now }
    ensures { IfOk result (AreLinesOf form.now section.now) }
{
    let mut said = Vec::new(alloc);
    said.push(heading_of(section))?;
    let mut own = form.count() + 1;
    let mut rest = section.bytes;
    while !rest.is_empty() {
        let (line, behind) = said_line(alloc, section.version, own, rest)?;
        own = next_number(own, &line);
        said.push(line)?;
        rest = behind;
    }
    Ok(List::of(said))
}
