//! Refusals, and want of memory.
ghost use Rattle.std.specs.Prelude.{◌≡◌};
ghost use Rattle.cc_defs.specs.Limits.{limit_name, limit_number};
ghost use Rattle.cc_defs.specs.Refusals as refusals;

use std::alloc::{AllocError, AllocFailed};
use thiserror::Error;

/// A count that has a limit.
#[derive(Clone, Copy, Debug, PartialEq, Eq)]
pub enum LimitAt {
    FileBytes,
    TotalBytes,
    IncludeDepth,
    TokenBytes,
    NumberDigits,
    DeclarationTokens,
    StatementTokens,
    Objects,
    DomainValues,
    GroundConstants,
    LawInstances,
    Choices,
    GroundNodes,
    Horizon,
    Rules,
    CnfVariables,
    Variables,
    AxiomClauses,
    AxiomLiterals,
    Histories,
    LogBytes,
}

impl LimitAt {
    /// What is counted, in words.
    pub fn name(self) -> &'static str
        ensures { result.now ≡ limit_name self }
    {
        match self {
            LimitAt::FileBytes => "file bytes",
            LimitAt::TotalBytes => "total bytes",
            LimitAt::IncludeDepth => "include depth",
            LimitAt::TokenBytes => "token bytes",
            LimitAt::NumberDigits => "number digits",
            LimitAt::DeclarationTokens => "declaration tokens",
            LimitAt::StatementTokens => "statement tokens",
            LimitAt::Objects => "objects",
            LimitAt::DomainValues => "domain values",
            LimitAt::GroundConstants => "ground constants",
            LimitAt::LawInstances => "law instances",
            LimitAt::Choices => "choices",
            LimitAt::GroundNodes => "ground nodes",
            LimitAt::Horizon => "horizon",
            LimitAt::Rules => "rules",
            LimitAt::CnfVariables => "cnf variables",
            LimitAt::Variables => "variables",
            LimitAt::AxiomClauses => "axiom clauses",
            LimitAt::AxiomLiterals => "axiom literals",
            LimitAt::Histories => "histories",
            LimitAt::LogBytes => "log bytes",
        }
    }

    /// The greatest count that is not refused.
    pub fn number(self) -> u32
        ensures { result ≡ limit_number self }
    {
        match self {
            LimitAt::FileBytes => 1_048_576,
            LimitAt::TotalBytes => 4_194_304,
            LimitAt::IncludeDepth => 8,
            LimitAt::TokenBytes => 255,
            LimitAt::NumberDigits => 9,
            LimitAt::DeclarationTokens => 20_000,
            LimitAt::StatementTokens => 2_000,
            LimitAt::Objects => 4_096,
            LimitAt::DomainValues => 1_000,
            LimitAt::GroundConstants => 20_000,
            LimitAt::LawInstances => 1_000_000,
            LimitAt::Choices => 16_000_000,
            LimitAt::GroundNodes => 16_000_000,
            LimitAt::Horizon => 1_000,
            LimitAt::Rules => 8_000_000,
            LimitAt::CnfVariables => 1_000_000,
            LimitAt::Variables => 4_000_000,
            LimitAt::AxiomClauses => 8_000_000,
            LimitAt::AxiomLiterals => 40_000_000,
            LimitAt::Histories => 100_000_000,
            LimitAt::LogBytes => 268_435_456,
        }
    }
}

/// Why a description or a query is not accepted, and where.
#[derive(Clone, Copy, Debug, PartialEq, Eq)]
pub struct Refusal {
    /// The number of the kind of fault, as docs/language.md lists them.
    pub number: u8,
    /// The number of the file in order of opening, from 0; 0 where there is no place.
    pub file: u32,
    /// The line, from 1; 0 where there is no place.
    pub line: u32,
    /// The limit that was passed; there exactly for number 14.
    pub limit: Option<LimitAt>,
}

impl Refusal {
    /// That of a number that is not 14, at a line of a file.
    pub fn at(number: u8, file: u32, line: u32) -> Refusal
        ensures { result ≡ refusals.refused number file line }
    {
        Refusal {
            number,
            file,
            line,
            limit: None,
        }
    }

    /// A count is past its limit, at a line of a file (14).
    pub fn past_at(limit: LimitAt, file: u32, line: u32) -> Refusal
        ensures { result ≡ refusals.past_at limit file line }
    {
        Refusal {
            number: 14,
            file,
            line,
            limit: Some(limit),
        }
    }

    /// A count is past its limit, without a place (14).
    pub fn past(limit: LimitAt) -> Refusal
        ensures { result ≡ refusals.past limit }
    {
        Refusal::past_at(limit, 0, 0)
    }

    /// Its name, which is printed behind its number; empty for a number that no refusal has.
    pub fn name(&self) -> &'static str
        ensures { result.now ≡ refusals.refusal_name self.now.number }
    {
        match self.number {
            1 => "Words",
            2 => "Byte",
            3 => "Syntax",
            4 => "TwiceDeclared",
            5 => "UnknownName",
            6 => "Arity",
            7 => "Sort",
            8 => "Unbound",
            9 => "LawForm",
            10 => "SdInDynamicHead",
            11 => "NotDefinite",
            12 => "EmptyDomain",
            14 => "Limit",
            15 => "NoQuery",
            16 => "Step",
            17 => "Include",
            18 => "Key",
            19 => "Dimacs",
            20 => "ClaimQuery",
            _ => "",
        }
    }
}

/// Memory was wanting.
#[derive(Clone, Copy, Debug, PartialEq, Eq, Error)]
#[error("out of memory")]
pub struct OutOfMemory;

impl From<AllocError> for OutOfMemory {
    fn from(_: AllocError) -> Self {
        OutOfMemory
    }
}

impl<T: Drop> From<AllocFailed<T>> for OutOfMemory {
    fn from(_: AllocFailed<T>) -> Self {
        OutOfMemory
    }
}

/// Why a call on a description gave no answer.
#[derive(Clone, Copy, Debug, PartialEq, Eq, Error)]
pub enum Fault {
    #[error("refused")]
    Refused(Refusal),
    #[error("out of memory")]
    OutOfMemory,
}

impl From<OutOfMemory> for Fault {
    ghost use Rattle.std.specs.Prelude.{◌≡◌};
    ghost use Rattle.cc_defs.specs.declared.refusal.Fault.TheVariants as faults;

    ghost from_gives = { λ _ fault. fault ≡ faults.OutOfMemory };

    fn from(_: OutOfMemory) -> Self {
        Fault::OutOfMemory
    }
}

impl From<AllocError> for Fault {
    ghost use Rattle.std.specs.Prelude.{◌≡◌};
    ghost use Rattle.cc_defs.specs.declared.refusal.Fault.TheVariants as faults;

    ghost from_gives = { λ _ fault. fault ≡ faults.OutOfMemory };

    fn from(_: AllocError) -> Self {
        Fault::OutOfMemory
    }
}

impl<T: Drop> From<AllocFailed<T>> for Fault {
    ghost use Rattle.std.specs.Prelude.{◌≡◌};
    ghost use Rattle.cc_defs.specs.declared.refusal.Fault.TheVariants as faults;

    ghost from_gives = { λ _ fault. fault ≡ faults.OutOfMemory };

    fn from(_: AllocFailed<T>) -> Self {
        Fault::OutOfMemory
    }
}
