//! The signature of what was declared.
ghost use Rattle.std.specs.Prelude.{◌≡◌, ◌*◌, ◌<◌, ◌≤◌, ◌++◌, ℕ, List as Items, Some, [], ◌∷◌, min, length, map, flat_map, slice_get, option_map, nat_lt, IfOk, IfErr, OnOk};
ghost use Rattle.std.specs.List.{find, list_any};
ghost use Rattle.cc_defs.specs.DeclarationFaults.{is_empty, passes_domain_values, signature_refusal};
ghost use Rattle.cc_defs.specs.Declarations.{Declaration as Declared};
ghost use Rattle.cc_defs.specs.Refusals.{IsRefusedBy};
ghost use Rattle.cc_defs.specs.Signatures.{none_value};
ghost use Rattle.cc_sorts.specs.Instances.{values_by, rows_by, constant_by, passes as is_passed, instances_by, instances_from, all_instances, refusal_at, refusal_by};
ghost use Rattle.cc_sorts.specs.Entered.{IsEntered};
ghost use Rattle.cc_sorts.specs.Shown.{shown};
ghost use Rattle.cc_sorts.specs.SortViews.{members_at};
ghost use Rattle.cc_sorts.specs.Tables.{IsSignatureOf};

use crate::register::Register;
use crate::table::Placed;
use cc_defs::{Const, Fault, Kind, LimitAt, Nums, OutOfMemory, Refusal, Sig, Symbol};
use std::alloc::Global;

/// What counts stop at: more than the limit of ground constants, so that a count that stopped is seen to pass it.
const MANY: usize = 20_001;

/// Whether a kind is an action's, or a fluent's, as asked.
fn passes(actions: bool, kind: Kind) -> bool
    ensures { result ≡ is_passed actions kind }
{
    match kind {
        Kind::Action => actions,
        Kind::Simple | Kind::Determined => !actions,
    }
}

/// The product of a count and another number; counting stops at MANY.
fn product(count: usize, number: usize) -> usize
    requires { count ≤ 20001 }
    ensures { result ≡ min (count * number) 20001 }
{
    (count * number.min(MANY)).min(MANY)
}

/// A row with another number behind it.
fn longer_row(alloc: Global, row: &[u32], object: u32) -> Result<Nums, OutOfMemory>
    ensures { IfOk result (λ longer. longer ≡ row.now ++ object ∷ []) }
{
    let mut longer = Vec::from_slice(alloc, row)?;
    longer.push(object)?;
    Ok(Nums::of(longer))
}

/// Writes a row with each object behind it.
fn longer_rows(
    alloc: Global,
    rows: &mut Vec<Nums>,
    row: &[u32],
    objects: &[u32],
) -> Result<(), OutOfMemory>
    ensures { OnOk result
        (rows.new.items ≡ rows.old.items ++ map (λ object. row.now ++ object ∷ []) objects.now) }
{
    for object in objects {
        rows.push(longer_row(alloc, row, *object)?)?;
    }
    Ok(())
}

/// All rows with each object behind them.
fn with_objects(alloc: Global, rows: &[Nums], objects: &[u32]) -> Result<Vec<Nums>, OutOfMemory>
    ensures { IfOk result (λ longer.
        longer.items ≡ flat_map (λ row. map (λ object. row ++ object ∷ []) objects.now) rows.now) }
{
    let mut longer = Vec::new(alloc);
    for row in rows {
        longer_rows(alloc, &mut longer, row.items(), objects)?;
    }
    Ok(longer)
}

impl Register {
    /// The objects of a sort; none, where there is no such sort.
    pub(crate) fn members(&self, sort: u32) -> &[u32]
        ensures { result.now ≡ members_at (shown self.now).sorts sort }
    {
        let sort = sort as usize;
        if sort < self.sorts.len() {
            &self.lists[sort]
        } else {
            &[]
        }
    }

    /// How many symbols there are. No object has the number that stands for `none`.
    pub(crate) fn symbol_count(&self) -> usize
        ensures count { result ≡ length self.now.symbols }
        ensures few { result < 4000000000 }
        ensures numbered { length self.now.objects ≤ none_value }
    {
        self.symbols.len()
    }

    /// A symbol, with its place.
    fn placed_at(&self, number: usize) -> &Placed
        requires { number < length self.now.symbols }
        ensures { Some result.now ≡ slice_get self.now.symbols number }
    {
        self.symbols.value(number).unwrap()
    }

    /// How many rows of arguments there are; counting stops at MANY.
    fn row_count(&self, sorts: &[u32]) -> usize
        ensures { result ≡ min (length (rows_by (shown self.now).sorts sorts.now)) 20001 }
    {
        let mut count = 1;
        for sort in sorts {
            count = product(count, self.members(*sort).len());
        }
        count
    }

    /// How many instances a symbol has among the actions or the fluents; counting stops at MANY.
    fn count(&self, actions: bool, placed: &Placed) -> usize
        ensures { (number : ℕ) → result
            ≡ min (length (instances_by (shown self.now).sorts actions number placed.now)) 20001 }
    {
        if passes(actions, placed.symbol.kind) {
            self.row_count(placed.symbol.sorts.items())
        } else {
            0
        }
    }

    /// Whether a symbol has more values than this number.
    fn has_more_values(&self, symbol: &Symbol, number: usize) -> bool
        ensures { result ≡ nat_lt number (length (values_by (shown self.now).sorts symbol.now)) }
    {
        let objects = self.members(symbol.domain).len();
        match symbol.attribute {
            None => objects > number,
            Some(_) => objects >= number,
        }
    }

    /// Whether a symbol has an instance without a value.
    fn has_empty(&self, actions: bool, placed: &Placed) -> bool
        ensures { (number : ℕ) → result
            ≡ list_any is_empty (instances_by (shown self.now).sorts actions number placed.now) }
    {
        self.count(actions, placed) > 0 && !self.has_more_values(&placed.symbol, 0)
    }

    /// Whether a symbol has an instance with too many values.
    fn has_wide(&self, actions: bool, placed: &Placed) -> bool
        ensures { (number : ℕ) → result
            ≡ passes_domain_values (instances_by (shown self.now).sorts actions number placed.now) }
    {
        let most = LimitAt::DomainValues.number() as usize;
        self.count(actions, placed) > 0 && self.has_more_values(&placed.symbol, most)
    }

    /// The symbol of the first instance without a value.
    fn first_empty(&self, actions: bool) -> Option<usize>
        ensures { result ≡ option_map (λ constant. constant.symbol)
            (find is_empty (instances_from (shown self.now).sorts actions 0 self.now.symbols)) }
    {
        for number in 0..self.symbol_count() {
            if self.has_empty(actions, self.placed_at(number)) {
                return Some(number);
            }
        }
        None
    }

    /// Whether an instance has too many values.
    fn any_wide(&self, actions: bool) -> bool
        ensures { result ≡ passes_domain_values
            (instances_from (shown self.now).sorts actions 0 self.now.symbols) }
    {
        for number in 0..self.symbol_count() {
            if self.has_wide(actions, self.placed_at(number)) {
                return true;
            }
        }
        false
    }

    /// How many instances there are; counting stops at MANY.
    fn total(&self, actions: bool) -> usize
        ensures { result ≡ min
            (length (instances_from (shown self.now).sorts actions 0 self.now.symbols)) 20001 }
    {
        let mut total = 0;
        for number in 0..self.symbol_count() {
            total = (total + self.count(actions, self.placed_at(number))).min(MANY);
        }
        total
    }

    /// The refusal for a symbol that has no value, at its declaration.
    fn empty_refusal(&self, number: usize) -> Refusal
        ensures { result ≡ refusal_at (slice_get self.now.symbols number) }
    {
        let (file, line) = match self.symbols.value(number) {
            Some(placed) => (placed.file, placed.line),
            None => (0, 0),
        };
        Refusal::at(12, file, line)
    }

    /// The first symbol, fluents before actions, with an instance that has no value.
    fn empty_symbol(&self) -> Option<usize>
        ensures { result ≡ option_map
            (λ constant. constant.symbol) (find is_empty (all_instances (shown self.now))) }
    {
        match self.first_empty(false) {
            Some(number) => Some(number),
            None => self.first_empty(true),
        }
    }

    /// Whether any instance has too many values.
    fn is_wide(&self) -> bool
        ensures { result ≡ passes_domain_values (all_instances (shown self.now)) }
    {
        self.any_wide(false) || self.any_wide(true)
    }

    /// Whether there are too many instances.
    fn is_many(&self) -> bool
        ensures { result ≡ nat_lt 20000 (length (all_instances (shown self.now))) }
    {
        let most = LimitAt::GroundConstants.number() as usize;
        self.total(false) + self.total(true) > most
    }

    /// The refusal of all declarations together, if there is one. Nothing is made.
    fn refusal(&self) -> Option<Refusal>
        ensures { result ≡ refusal_by (shown self.now) }
    {
        if let Some(number) = self.empty_symbol() {
            return Some(self.empty_refusal(number));
        }
        if self.is_wide() {
            return Some(Refusal::past(LimitAt::DomainValues));
        }
        if self.is_many() {
            return Some(Refusal::past(LimitAt::GroundConstants));
        }
        None
    }

    /// The values of a symbol.
    fn values(&self, alloc: Global, symbol: &Symbol) -> Result<Nums, OutOfMemory>
        ensures { IfOk result (λ values. values ≡ values_by (shown self.now).sorts symbol.now) }
    {
        let mut values = Vec::new(alloc);
        if symbol.attribute.is_some() {
            values.push(4_294_967_295)?;
        }
        values.extend_from_slice(self.members(symbol.domain))?;
        Ok(Nums::of(values))
    }

    /// All rows of arguments, the first argument slowest.
    fn rows(&self, alloc: Global, sorts: &[u32]) -> Result<Vec<Nums>, OutOfMemory>
        ensures { IfOk result (λ rows. rows.items ≡ rows_by (shown self.now).sorts sorts.now) }
    {
        let mut rows = Vec::new(alloc);
        rows.push(Nums::of(Vec::new(alloc)))?;
        for sort in sorts {
            rows = with_objects(alloc, &rows, self.members(*sort))?;
        }
        Ok(rows)
    }

    /// Writes the instances of a symbol for these rows of arguments.
    fn write_rows(
        &self,
        alloc: Global,
        written: &mut Vec<Const>,
        number: u32,
        symbol: &Symbol,
        rows: Vec<Nums>,
    ) -> Result<(), OutOfMemory>
        ensures { OnOk result (written.new.items ≡ written.old.items
            ++ map (constant_by (shown self.now).sorts number symbol.now) rows.items) }
    {
        for args in rows {
            let constant = Const {
                symbol: number,
                args,
                kind: symbol.kind,
                domain: self.values(alloc, symbol)?,
            };
            written.push(constant)?;
        }
        Ok(())
    }

    /// Writes the instances of a symbol, if it is an action or a fluent as asked. Where a sort is empty no row is made.
    fn write_symbol(
        &self,
        alloc: Global,
        written: &mut Vec<Const>,
        actions: bool,
        number: u32,
        placed: &Placed,
    ) -> Result<(), OutOfMemory>
        ensures { OnOk result (written.new.items
            ≡ written.old.items ++ instances_by (shown self.now).sorts actions number placed.now) }
    {
        let sorts = placed.symbol.sorts.items();
        if !passes(actions, placed.symbol.kind) || self.row_count(sorts) == 0 {
            return Ok(());
        }
        let rows = self.rows(alloc, sorts)?;
        self.write_rows(alloc, written, number, &placed.symbol, rows)
    }

    /// The instances of all actions or of all fluents, in order.
    fn instances(&self, alloc: Global, actions: bool) -> Result<Vec<Const>, OutOfMemory>
        ensures made { IfOk result (λ made.
            made.items ≡ instances_from (shown self.now).sorts actions 0 self.now.symbols) }
        ensures numbered { length self.now.objects ≤ none_value }
    {
        let mut made = Vec::new(alloc);
        for number in 0..self.symbol_count() {
            let placed = self.placed_at(number);
            self.write_symbol(alloc, &mut made, actions, number as u32, placed)?;
        }
        Ok(made)
    }

    /// The ground constants of all that was declared, or their refusal: `Table::signature`.
    pub(crate) fn signature(&self, alloc: Global) -> Result<Sig, Fault>
        ensures made { (declarations : Items Declared) →
            IsEntered self.now declarations → IfOk result (IsSignatureOf declarations) }
        ensures refused { (declarations : Items Declared) → IsEntered self.now declarations →
            IfErr result (IsRefusedBy (signature_refusal declarations)) }
    {
        if let Some(refusal) = self.refusal() {
            return Err(Fault::Refused(refusal));
        }
        let fluents = self.instances(alloc, false)?;
        let actions = self.instances(alloc, true)?;
        let numbers = Vec::from_slice(alloc, self.objects.numbers())?;
        let sig = Sig::of(alloc, fluents, actions, numbers)?;
        Ok(sig)
    }
}
