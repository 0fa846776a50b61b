//! The modes: which words each needs, and which it bars.
ghost use Rattle.std.specs.Prelude.{◌≡◌, option_map};
ghost use Rattle.cc_words.specs.Requests.{bars, mode_named, needs};

/// What is done.
#[derive(Clone, Copy)]
pub enum Mode {
    /// Histories of a query are listed.
    List,
    /// A log is judged.
    Check,
    /// A description of a size is made and searched.
    Make,
    /// The values of a history are explained.
    Why,
    /// A log is written in its other version.
    Convert,
    /// The clause list of a horizon is printed.
    Export,
    /// Models of a CNF are listed.
    Models,
    /// A log of models is judged.
    CheckModels,
    /// It is told what is certain, possible and impossible.
    Sure,
    /// A log of what is impossible is judged.
    CheckSure,
    /// Histories are listed by the definition of a model.
    General,
    /// A log of rivals is judged.
    CheckGeneral,
    /// A claim, or that there is no history, is proved for every horizon.
    Forever,
    /// A log of an induction over horizons is judged.
    CheckForever,
}

/// What may stand among the words: an option with its value, or the FILE.
#[derive(Clone, Copy)]
pub enum Item {
    /// `--query LABEL`.
    Query,
    /// `--count N`.
    Count,
    /// `--budget B`.
    Budget,
    /// `--after KEY`.
    After,
    /// `--log NAME`.
    Log,
    /// `--form 1` or `--form 2`.
    Form,
    /// `--to NAME`.
    To,
    /// `--key KEY`.
    Key,
    /// `--horizon M`.
    Horizon,
    /// `--size N`.
    Size,
    /// FILE.
    File,
}

impl Mode {
    /// The mode of this name.
    pub(crate) fn named(name: &str) -> Option<Mode>
        ensures { result ≡ mode_named name.now }
    {
        match name {
            "list" => Some(Mode::List),
            "check" => Some(Mode::Check),
            "make" => Some(Mode::Make),
            "why" => Some(Mode::Why),
            "convert" => Some(Mode::Convert),
            "export" => Some(Mode::Export),
            "models" => Some(Mode::Models),
            "modelscheck" => Some(Mode::CheckModels),
            "sure" => Some(Mode::Sure),
            "surecheck" => Some(Mode::CheckSure),
            "general" => Some(Mode::General),
            "generalcheck" => Some(Mode::CheckGeneral),
            "forever" => Some(Mode::Forever),
            "forevercheck" => Some(Mode::CheckForever),
            _ => None,
        }
    }

    /// What it does not do without.
    pub(crate) fn needs(self) -> &'static [Item]
        ensures { result.now ≡ needs self }
    {
        match self {
            Mode::List => &[Item::File],
            Mode::Check => &[Item::File, Item::Log],
            Mode::Make => &[Item::Size],
            Mode::Why => &[Item::File, Item::Key],
            Mode::Convert => &[Item::File, Item::Log, Item::To],
            Mode::Export => &[Item::File, Item::Horizon],
            Mode::Models => &[Item::File],
            Mode::CheckModels => &[Item::File, Item::Log],
            Mode::Sure => &[Item::File],
            Mode::CheckSure => &[Item::File, Item::Log],
            Mode::General => &[Item::File],
            Mode::CheckGeneral => &[Item::File, Item::Log],
            Mode::Forever => &[Item::File],
            Mode::CheckForever => &[Item::File, Item::Log],
        }
    }

    /// What does not go with it.
    pub(crate) fn bars(self) -> &'static [Item]
        ensures { result.now ≡ bars self }
    {
        match self {
            Mode::List => &[Item::To, Item::Key, Item::Horizon, Item::Size],
            Mode::Check => &[
                Item::Count,
                Item::Budget,
                Item::Form,
                Item::To,
                Item::Key,
                Item::Horizon,
                Item::Size,
            ],
            Mode::Make => &[
                Item::Query,
                Item::Count,
                Item::After,
                Item::Log,
                Item::Form,
                Item::To,
                Item::Key,
                Item::Horizon,
                Item::File,
            ],
            Mode::Why => &[
                Item::Query,
                Item::Count,
                Item::Budget,
                Item::After,
                Item::Log,
                Item::Form,
                Item::To,
                Item::Horizon,
                Item::Size,
            ],
            Mode::Convert => &[
                Item::Count,
                Item::Budget,
                Item::Form,
                Item::Key,
                Item::Horizon,
                Item::Size,
            ],
            Mode::Export => &[
                Item::Count,
                Item::Budget,
                Item::After,
                Item::Log,
                Item::Form,
                Item::To,
                Item::Key,
                Item::Size,
            ],
            Mode::Models => &[
                Item::Query,
                Item::After,
                Item::To,
                Item::Key,
                Item::Horizon,
                Item::Size,
            ],
            Mode::CheckModels => &[
                Item::Query,
                Item::Count,
                Item::Budget,
                Item::After,
                Item::Form,
                Item::To,
                Item::Key,
                Item::Horizon,
                Item::Size,
            ],
            Mode::Sure => &[
                Item::Count,
                Item::After,
                Item::Form,
                Item::To,
                Item::Key,
                Item::Horizon,
                Item::Size,
            ],
            Mode::CheckSure => &[
                Item::Count,
                Item::Budget,
                Item::After,
                Item::Form,
                Item::To,
                Item::Key,
                Item::Horizon,
                Item::Size,
            ],
            Mode::General => &[
                Item::After,
                Item::Form,
                Item::To,
                Item::Key,
                Item::Horizon,
                Item::Size,
            ],
            Mode::CheckGeneral => &[
                Item::Count,
                Item::Budget,
                Item::After,
                Item::Form,
                Item::To,
                Item::Key,
                Item::Horizon,
                Item::Size,
            ],
            Mode::Forever => &[
                Item::Count,
                Item::After,
                Item::Form,
                Item::To,
                Item::Key,
                Item::Horizon,
                Item::Size,
            ],
            Mode::CheckForever => &[
                Item::Count,
                Item::Budget,
                Item::After,
                Item::Form,
                Item::To,
                Item::Key,
                Item::Horizon,
                Item::Size,
            ],
        }
    }
}
