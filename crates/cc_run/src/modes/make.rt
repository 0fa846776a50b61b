//! Make mode: all histories of a made description, summed up.
ghost use Rattle.std.specs.Prelude.{◌≡◌, ◌≤◌, [], None, false, IfSome};
ghost use Rattle.cc_list.specs.Descriptions.{IsDescriptionOf};
ghost use Rattle.cc_defs.specs.Description.{Description};
ghost use Rattle.cc_defs.specs.Resolved.{Query};
ghost use Rattle.cc_describe.specs.declared.heads.Heads.TheVariants as heads;
ghost use Rattle.cc_describe.specs.Describing.{AsksFormulas, Describes, HasForms, SaysAll};
ghost use Rattle.cc_run.specs.Modes.Making.{making_promise};
ghost use Rattle.cc_list.specs.Preparing.{IsSearchable, StandsFor};
ghost use Rattle.cc_list.specs.Stops.{Prints, PrintsAsked};
ghost use Rattle.cc_list.specs.Tasks.{IsTask};
ghost use Rattle.cc_run.specs.Naming.{made_files, made_named};
ghost use Rattle.cc_sorts.specs.Tables.{IsSignatureFor};

use crate::mode::refuse_fault;
use bumpalo::Bump;
use cc_arena::Terms;
use cc_describe::{DescribeStop, Described, Heads, describe_with};
use cc_list::{Prepared, prepare, search};
use cc_make::{TextDesk, make_text};
use cc_ports::Desk;
use cc_query::Ask;
use cc_tell::{Status, Stop, Teller, refuse};
use std::alloc::Global;

/// The name under which a made description is read.
const MADE: &str = "made";

/// Lists the histories of a made description, and sums them up.
fn sum_up<D: Desk>(
    alloc: Global,
    desk: &mut D,
    described: &Described,
    size: u32,
    budget: u32,
    prepared: Prepared<'_>,
) -> Result<Status, Stop>
    requires budget { budget ≤ 2000000 }
    requires signature { IsSignatureFor described.now.table described.now.sig }
    requires searchable { IsSearchable described.now prepared prepared.key }
    requires of { (d : Description) × (q : Query) × IsDescriptionOf described.now d
        × StandsFor described.now prepared d q }
    ensures { (d : Description) (q : Query) →
        IsDescriptionOf described.now d →
        StandsFor described.now prepared.entry d q →
        IfSome (D.seen desk.old).told (λ _. IsTask (made_files size) made_named (record {
          description = d;
          query = q;
          ask = record { count = None; budget = budget; after = prepared.entry.key };
        })) →
        Prints (making_promise size budget) false [] (D.seen desk.old)
        (D.seen desk.new) result }
{
    let Prepared { laws, query, key } = prepared;
    let ask = Ask {
        count: None,
        budget,
        after: key,
    };
    let outcome = Vec::new(alloc);
    search(
        alloc,
        desk,
        described,
        &laws,
        query,
        ask,
        Teller::Summed { size, outcome },
    )
}

/// The answer over a made description that was read.
fn make_described<D: Desk>(
    alloc: Global,
    desk: &mut D,
    size: u32,
    budget: u32,
    described: &Described,
) -> Result<Status, Stop>
    requires budget { budget ≤ 2000000 }
    requires says { SaysAll heads.Definite described.now }
    requires forms { HasForms described.now }
    requires formulas { AsksFormulas described.now }
    requires describes { Describes heads.Definite (made_files size) made_named.file described.now }
    ensures { Prints (making_promise size budget) false [] (D.seen desk.old) (D.seen desk.new)
        result }
{
    let arena = Bump::new(alloc);
    let terms = Terms::new(&arena);
    match prepare(alloc, described, None, None, &terms) {
        Ok(prepared) => sum_up(alloc, desk, described, size, budget, prepared),
        Err(fault) => refuse_fault(alloc, desk, described, &fault),
    }
}

/// Makes a description of a size, lists all its histories, and sums them up.
pub(crate) fn make<D: Desk>(
    alloc: Global,
    desk: &mut D,
    size: u32,
    budget: u32,
) -> Result<Status, Stop>
    requires size { 1 ≤ size }
    requires budget { budget ≤ 2000000 }
    ensures { PrintsAsked (making_promise size budget) false (D.seen desk.old) (D.seen desk.new)
        result }
{
    let text = make_text(alloc, size)?;
    let mut source = TextDesk::of(text.text().as_bytes());
    match describe_with(alloc, &mut source, MADE, Heads::Definite) {
        Ok(said) => make_described(alloc, desk, size, budget, &said.described),
        Err(DescribeStop::Refused { refusal, file }) => refuse(alloc, desk, &refusal, file.text()),
        Err(DescribeStop::ReadFault) => Err(Stop::ReadFault),
        Err(DescribeStop::OutOfMemory) => Err(Stop::OutOfMemory),
    }
}
