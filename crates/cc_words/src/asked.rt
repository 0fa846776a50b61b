//! What the program is asked for.
use cc_defs::Version;

/// What the words ask for; all texts are lent from them.
#[derive(Clone, Copy)]
pub enum Asked<'a> {
    /// Histories of a query.
    List(ListAsked<'a>),
    /// Whether a log is right.
    Check(CheckAsked<'a>),
    /// A description: its size is 1 to 100, and its budget 1 to 2000000.
    Make { size: u32, budget: u32 },
    /// Why a history has its values.
    Why(WhyAsked<'a>),
    /// A log in its other version.
    Convert(ConvertAsked<'a>),
    /// The clause list of a horizon.
    Export(ExportAsked<'a>),
    /// Models of a CNF.
    Models(ModelsAsked<'a>),
    /// Whether a log of models is right.
    CheckModels(CheckModelsAsked<'a>),
    /// What is certain, possible and impossible.
    Sure(SureAsked<'a>),
    /// Whether a log of what is impossible is right.
    CheckSure(CheckSureAsked<'a>),
    /// Histories by the definition of a model, where heads may be of any form.
    General(GeneralAsked<'a>),
    /// Whether a log of rivals is right.
    CheckGeneral(CheckGeneralAsked<'a>),
    /// Whether a claim holds, or there is no history, at every horizon.
    Forever(ForeverAsked<'a>),
    /// Whether a log of an induction over horizons is right.
    CheckForever(CheckForeverAsked<'a>),
}

/// Histories of a query.
#[derive(Clone, Copy)]
pub struct ListAsked<'a> {
    pub file: &'a str,
    /// Its label; the first query without it.
    pub query: Option<&'a str>,
    /// At most so many, from 1 to 1000000; all without it.
    pub count: Option<u32>,
    /// From 1 to 2000000.
    pub budget: u32,
    /// The key that the histories stand behind.
    pub after: Option<&'a str>,
    /// The file that the log is written to.
    pub log: Option<&'a str>,
    /// How it is written.
    pub form: Version,
}

/// Whether a log is right.
#[derive(Clone, Copy)]
pub struct CheckAsked<'a> {
    pub file: &'a str,
    /// Its label; the first query without it.
    pub query: Option<&'a str>,
    /// The key that the histories stand behind.
    pub after: Option<&'a str>,
    /// The file that the log is read from.
    pub log: &'a str,
}

/// Why a history has its values.
#[derive(Clone, Copy)]
pub struct WhyAsked<'a> {
    pub file: &'a str,
    /// The key of the history.
    pub key: &'a str,
}

/// A log in its other version.
#[derive(Clone, Copy)]
pub struct ConvertAsked<'a> {
    pub file: &'a str,
    /// Its label; the first query without it.
    pub query: Option<&'a str>,
    /// The key that the histories stand behind.
    pub after: Option<&'a str>,
    /// The file that the log is read from.
    pub log: &'a str,
    /// The file that the other version is written to.
    pub to: &'a str,
}

/// The clause list of a horizon of a query.
#[derive(Clone, Copy)]
pub struct ExportAsked<'a> {
    pub file: &'a str,
    /// Its label; the first query without it.
    pub query: Option<&'a str>,
    /// From 0 to 9999999.
    pub horizon: u32,
}

/// Models of a CNF.
#[derive(Clone, Copy)]
pub struct ModelsAsked<'a> {
    /// The file of the CNF.
    pub file: &'a str,
    /// At most so many, from 1 to 1000000; all without it.
    pub count: Option<u32>,
    /// From 1 to 2000000.
    pub budget: u32,
    /// The file that the log is written to.
    pub log: Option<&'a str>,
    /// How it is written.
    pub form: Version,
}

/// Whether a log of models is right.
#[derive(Clone, Copy)]
pub struct CheckModelsAsked<'a> {
    /// The file of the CNF.
    pub file: &'a str,
    /// The file that the log is read from.
    pub log: &'a str,
}

/// What is certain, possible and impossible.
#[derive(Clone, Copy)]
pub struct SureAsked<'a> {
    pub file: &'a str,
    /// Its label; the first query without it.
    pub query: Option<&'a str>,
    /// From 1 to 2000000.
    pub budget: u32,
    /// The file that the log is written to.
    pub log: Option<&'a str>,
}

/// Whether a log of what is impossible is right.
#[derive(Clone, Copy)]
pub struct CheckSureAsked<'a> {
    pub file: &'a str,
    /// Its label; the first query without it.
    pub query: Option<&'a str>,
    /// The file that the log is read from.
    pub log: &'a str,
}

/// Histories by the definition of a model, where heads may be of any form.
#[derive(Clone, Copy)]
pub struct GeneralAsked<'a> {
    pub file: &'a str,
    /// Its label; the first query without it.
    pub query: Option<&'a str>,
    /// From 1 to 1000000; all without it.
    pub count: Option<u32>,
    /// From 1 to 2000000, for each search.
    pub budget: u32,
    /// The file that the log is written to.
    pub log: Option<&'a str>,
}

/// Whether a log of rivals is right.
#[derive(Clone, Copy)]
pub struct CheckGeneralAsked<'a> {
    pub file: &'a str,
    /// Its label; the first query without it.
    pub query: Option<&'a str>,
    /// The file that the log is read from.
    pub log: &'a str,
}

/// Whether a claim holds, or there is no history, at every horizon.
#[derive(Clone, Copy)]
pub struct ForeverAsked<'a> {
    pub file: &'a str,
    /// Its label; the first query without it.
    pub query: Option<&'a str>,
    /// From 1 to 2000000, for each search.
    pub budget: u32,
    /// The file that the log is written to.
    pub log: Option<&'a str>,
}

/// Whether a log of an induction over horizons is right.
#[derive(Clone, Copy)]
pub struct CheckForeverAsked<'a> {
    pub file: &'a str,
    /// Its label; the first query without it.
    pub query: Option<&'a str>,
    /// The file that the log is read from.
    pub log: &'a str,
}
