//! Lists of items with a mark between them.
ghost use Rattle.std.specs.Prelude.{◌≡◌, drop, map};
ghost use Rattle.cc_syntax.specs.Readers.{listed_at};
ghost use Rattle.cc_syntax.specs.Views.{seen, Reads};

use crate::stop::Stop;
use crate::tokens::sign;
use cc_defs::{Mark, Token};
use std::alloc::Global;

/// An item of lists.
pub(crate) trait Item<'s>: Drop {
    ghost use Rattle.std.specs.Prelude.{List};
    ghost use Rattle.cc_defs.specs.declared.token.Token as tokens;
    ghost use Rattle.cc_syntax.specs.Readers.{Reader};

    /// What it is in plain form, how the grammar reads this, and of which tokens it is read.
    ghost Plain: { Type 0 };

    ghost plain: { Self → Plain };

    ghost item_at: { Reader Plain };

    ghost IsReadOf: { List tokens.Token → Type 0 };

    fn read(alloc: Global, tokens: &[Token<'s>], at: usize) -> Result<(Self, usize), Stop>
        requires { IsReadOf tokens.now }
        ensures { Reads plain tokens.now result (item_at (drop at (seen tokens.now))) };
}

/// Items with the mark between them.
#[tactic(auto, using(crate::proofs::Lists::listed_steps))]
pub(crate) fn listed<'s, X: Item<'s>>(
    alloc: Global,
    tokens: &[Token<'s>],
    at: usize,
    mark: Mark,
) -> Result<(Vec<X>, usize), Stop>
    requires { X.IsReadOf tokens.now }
    ensures { Reads (λ items. map X.plain items.items) tokens.now result
        (listed_at X.item_at mark (drop at (seen tokens.now))) }
{
    let mut items = Vec::new(alloc);
    let mut next = at;
    for _ in at..tokens.len() {
        let (item, after) = X::read(alloc, tokens, next)?;
        items.push(item)?;
        match sign(tokens, after, mark) {
            Ok(behind) => next = behind,
            Err(_) => return Ok((items, after)),
        }
    }
    Err(Stop::NoTree)
}
