//! A case: what describing its main file gives.
ghost use Rattle.cc_sorts.specs.Tables.{IsSignatureFor};

use crate::counts::counted;
use crate::ground_laws::show_ground;
use crate::laws::show_laws;
use crate::queries::show_queries;
use crate::refusals::show_stop;
use crate::tables::{show_constants, show_files, show_sorts, show_symbols, show_variables};
use crate::trees::show_trees;
use cc_books::{files, head, parts};
use cc_defs::{Nums, OutOfMemory};
use cc_describe::{DescribeStop, Described, describe};
use cc_ports::{Files, MemoryDesk};
use std::alloc::Global;

/// The most bytes that a read gives.
const MOST: usize = 65_536;

/// What a description says.
fn show_described(alloc: Global, out: &mut String, described: &Described) -> Result<(), OutOfMemory>
    requires { IsSignatureFor described.now.table described.now.sig }
{
    let files = described.files.items();
    show_files(out, files)?;
    show_sorts(out, &described.table)?;
    show_variables(out, &described.table)?;
    show_symbols(out, &described.table)?;
    show_constants(out, &described.table, &described.sig)?;
    show_laws(out, &described.table, files, described.laws.items())?;
    show_ground(alloc, out, described)?;
    show_queries(alloc, out, described)
}

/// What describing the file of this name gives.
fn show_description(
    alloc: Global,
    out: &mut String,
    files: Files,
    name: &str,
) -> Result<(), OutOfMemory> {
    let fails = Nums::of(Vec::new(alloc));
    let mut desk = MemoryDesk::new(alloc, files, fails, MOST, [0, 0, 0])?;
    let answer = describe(alloc, &mut desk, name);
    drop(desk);
    match answer {
        Ok(described) => {
            let shown = show_described(alloc, out, &described);
            drop(described);
            shown
        }
        Err(stop) => {
            let shown = show_stop(out, &stop);
            drop(stop);
            shown
        }
    }
}

/// What is printed of a case behind its title.
fn shown_behind(alloc: Global, title: &str, case: &[u8]) -> Result<String, OutOfMemory> {
    let mut out = String::new(alloc);
    let mut main = String::new(alloc);
    let parts = parts(alloc, case)?;
    let files = files(alloc, &parts)?;
    if let Some((name, text)) = files.items().first() {
        main.push_str(name.text())?;
        if title.starts_with("tree") {
            show_trees(alloc, &mut out, text.items())?;
        }
    }
    show_description(alloc, &mut out, files, main.as_str())?;
    Ok(out)
}

/// What is printed of the part of a book that is a case.
pub(crate) fn shown(alloc: Global, case: &[u8]) -> Result<String, OutOfMemory> {
    let title = head(case);
    let mut out = String::from_str(alloc, "=== ")?;
    out.push_str(title)?;
    out.push_str("\n")?;
    let lines = shown_behind(alloc, title, case)?;
    if title.starts_with("count") {
        out.push_str(counted(alloc, lines.as_str())?.as_str())?;
    } else {
        out.push_str(lines.as_str())?;
    }
    Ok(out)
}
