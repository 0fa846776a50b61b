//! List mode: the first histories of a query, each event as it comes.
ghost use Rattle.std.specs.Prelude.{◌≤◌, [], IfSome, is_some};
ghost use Rattle.cc_list.specs.Descriptions.{IsDescriptionOf};
ghost use Rattle.cc_defs.specs.Description.{Description};
ghost use Rattle.cc_defs.specs.Resolved.{Query};
ghost use Rattle.cc_describe.specs.declared.heads.Heads.TheVariants as heads;
ghost use Rattle.cc_describe.specs.Describing.{AsksFormulas, Describes, HasForms, SaysAll};
ghost use Rattle.cc_list.specs.Listing.{listing_promise};
ghost use Rattle.cc_words.specs.Views.{listing_by};
ghost use Rattle.cc_list.specs.Preparing.{IsSearchable, StandsFor};
ghost use Rattle.cc_list.specs.Stops.{Prints, PrintsAsked};
ghost use Rattle.cc_list.specs.Tasks.{IsTask, named_by};
ghost use Rattle.cc_sorts.specs.Tables.{IsSignatureFor};

use crate::asking::{Prepared, prepare};
use crate::searching::search;
use bumpalo::Bump;
use cc_arena::Terms;
use cc_defs::Fault;
use cc_describe::{DescribeStop, Described, describe};
use cc_ports::Desk;
use cc_query::Ask;
use cc_tell::{Status, Stop, Teller, begin_log, file_named, refuse};
use cc_words::ListAsked;
use std::alloc::Global;

/// Begins the log where one is named, and lists the histories.
fn list_prepared<D: Desk>(
    alloc: Global,
    desk: &mut D,
    described: &Described,
    asked: &ListAsked<'_>,
    prepared: Prepared<'_>,
) -> Result<Status, Stop>
    requires count { IfSome asked.now.count (λ count. 1 ≤ count) }
    requires budget { asked.now.budget ≤ 2000000 }
    requires signature { IsSignatureFor described.now.table described.now.sig }
    requires searchable { IsSearchable described.now prepared prepared.key }
    requires of { (d : Description) × (q : Query) × IsDescriptionOf described.now d
        × StandsFor described.now prepared d q }
    ensures { (d : Description) (q : Query) → IsDescriptionOf described.now d →
        StandsFor described.now prepared.entry d q →
        IfSome (D.seen desk.old).told (λ before. IsTask before.files (named_by (listing_by asked.now))
        (record {
          description = d;
          query = q;
          ask = record {
            count = asked.now.count;
            budget = asked.now.budget;
            after = prepared.entry.key;
          };
        })) → Prints (listing_promise (listing_by asked.now))
        (is_some (listing_by asked.now).log) [] (D.seen desk.old) (D.seen desk.new) result }
{
    begin_log(desk, asked.log)?;
    let Prepared { laws, query, key } = prepared;
    let ask = Ask {
        count: asked.count,
        budget: asked.budget,
        after: key,
    };
    let teller = Teller::OneByOne {
        version: asked.form,
        own: 1,
    };
    search(alloc, desk, described, &laws, query, ask, teller)
}

/// Lists the first histories of the query that is named, of a description that was read, event by event. Refuses what is not there, or
/// what a horizon may not be (see `prepare`), and a limit that a horizon passes.
fn list_described<D: Desk>(
    alloc: Global,
    desk: &mut D,
    described: &Described,
    asked: &ListAsked<'_>,
) -> Result<Status, Stop>
    requires count { IfSome asked.now.count (λ count. 1 ≤ count) }
    requires budget { asked.now.budget ≤ 2000000 }
    requires says { SaysAll heads.Definite described.now }
    requires forms { HasForms described.now }
    requires formulas { AsksFormulas described.now }
    ensures { IfSome (D.seen desk.old).told
        (λ before. Describes heads.Definite before.files asked.now.file.now described.now) →
        Prints (listing_promise (listing_by asked.now)) (is_some (listing_by asked.now).log) []
        (D.seen desk.old) (D.seen desk.new) result }
{
    let arena = Bump::new(alloc);
    let terms = Terms::new(&arena);
    match prepare(alloc, described, asked.query, asked.after, &terms) {
        Ok(prepared) => list_prepared(alloc, desk, described, asked, prepared),
        Err(Fault::Refused(refusal)) => {
            let file = file_named(described.files.items(), &refusal);
            refuse(alloc, desk, &refusal, file)
        }
        Err(Fault::OutOfMemory) => Err(Stop::OutOfMemory),
    }
}

/// Reads a description, and lists the first histories of one of its queries at the first of its horizons that has any, event by event,
/// with a log where one is named; or refuses the first of what is wrong with the description, the query and the key.
pub fn list<D: Desk>(alloc: Global, desk: &mut D, asked: &ListAsked<'_>) -> Result<Status, Stop>
    requires count { IfSome asked.now.count (λ count. 1 ≤ count) }
    requires budget { asked.now.budget ≤ 2000000 }
    ensures { PrintsAsked (listing_promise (listing_by asked.now))
        (is_some (listing_by asked.now).log) (D.seen desk.old) (D.seen desk.new) result }
{
    match describe(alloc, desk, asked.file) {
        Ok(described) => list_described(alloc, desk, &described, asked),
        Err(DescribeStop::Refused { refusal, file }) => refuse(alloc, desk, &refusal, file.text()),
        Err(DescribeStop::ReadFault) => Err(Stop::ReadFault),
        Err(DescribeStop::OutOfMemory) => Err(Stop::OutOfMemory),
    }
}
