//! What the words give, and what is asked with it.
ghost use Rattle.std.specs.Prelude.{◌≡◌};
ghost use Rattle.std.specs.List.{list_all, list_any};
ghost use Rattle.cc_words.specs.Requests as requests;
ghost use Rattle.cc_words.specs.Requests.{asked_in, asked_of, budget_of, count_of, form_of, mode_of, number_from_zero, number_up_to, provided, to_be_sure, to_check, to_check_forever, to_check_models, to_check_general, to_check_sure, to_convert, to_say_why, to_export, to_list, to_list_generally, to_make, to_model, to_prove, valued};
ghost use Rattle.cc_words.specs.Views.{plain_asked, plain_given};

use crate::asked::{
    Asked, CheckAsked, CheckForeverAsked, CheckGeneralAsked, CheckModelsAsked, CheckSureAsked,
    ConvertAsked, ExportAsked, ForeverAsked, GeneralAsked, ListAsked, ModelsAsked, SureAsked,
    WhyAsked,
};
use crate::modes::{Item, Mode};
use crate::names::is_plain_name;
use crate::numbers::{from_zero, optional_up_to, optional_version, up_to};
use cc_defs::Version;

/// The value of each option that stands there, and the file.
#[derive(Clone, Copy)]
pub(crate) struct Given<'a> {
    pub mode: Option<&'a str>,
    pub query: Option<&'a str>,
    pub count: Option<&'a str>,
    pub budget: Option<&'a str>,
    pub after: Option<&'a str>,
    pub log: Option<&'a str>,
    pub form: Option<&'a str>,
    pub to: Option<&'a str>,
    pub key: Option<&'a str>,
    pub horizon: Option<&'a str>,
    pub size: Option<&'a str>,
    pub file: Option<&'a str>,
}

impl<'a> Given<'a> {
    fn mode(&self) -> Option<Mode>
        ensures { result ≡ mode_of (plain_given self.now) }
    {
        match self.mode {
            None => Some(Mode::List),
            Some(name) => Mode::named(name),
        }
    }

    fn has(&self, item: Item) -> bool
        ensures { result ≡ requests.has (plain_given self.now) item }
    {
        let value = match item {
            Item::Query => self.query,
            Item::Count => self.count,
            Item::Budget => self.budget,
            Item::After => self.after,
            Item::Log => self.log,
            Item::Form => self.form,
            Item::To => self.to,
            Item::Key => self.key,
            Item::Horizon => self.horizon,
            Item::Size => self.size,
            Item::File => self.file,
        };
        value.is_some()
    }

    fn has_all(&self, items: &[Item]) -> bool
        ensures { result ≡ list_all (requests.has (plain_given self.now)) items.now }
    {
        for item in items {
            if !self.has(*item) {
                return false;
            }
        }
        true
    }

    fn has_any(&self, items: &[Item]) -> bool
        ensures { result ≡ list_any (requests.has (plain_given self.now)) items.now }
    {
        for item in items {
            if self.has(*item) {
                return true;
            }
        }
        false
    }

    /// The words have what the mode needs, and nothing that it bars.
    fn suits(&self, mode: Mode) -> bool
        ensures { result ≡ requests.suits mode (plain_given self.now) }
    {
        self.has_all(mode.needs()) && !self.has_any(mode.bars())
    }

    fn count(&self) -> Option<Option<u32>>
        ensures { result ≡ count_of (plain_given self.now) }
    {
        optional_up_to(1_000_000, self.count)
    }

    fn budget(&self) -> Option<u32>
        ensures { result ≡ budget_of (plain_given self.now) }
    {
        let budget = optional_up_to(2_000_000, self.budget)?;
        Some(budget.unwrap_or(200_000))
    }

    fn size(&self) -> Option<u32>
        ensures { result ≡ provided (plain_given self.now).size (number_up_to 100) }
    {
        up_to(100, self.size?)
    }

    fn horizon(&self) -> Option<u32>
        ensures { result ≡ provided (plain_given self.now).horizon number_from_zero }
    {
        from_zero(self.horizon?)
    }

    fn form(&self) -> Option<Version>
        ensures { result ≡ form_of (plain_given self.now) }
    {
        let form = optional_version(self.form)?;
        Some(form.unwrap_or(Version::First))
    }

    fn to_list(&self) -> Option<Asked<'a>>
        ensures { plain_asked result ≡ to_list (plain_given self.now) }
    {
        let (Some(file), Some(count), Some(budget), Some(form)) = (
            self.file,
            self.count(),
            self.budget(),
            self.form(),
        ) else {
            return None;
        };
        Some(Asked::List(ListAsked {
            file,
            query: self.query,
            count,
            budget,
            after: self.after,
            log: self.log,
            form,
        }))
    }

    fn to_check(&self) -> Option<Asked<'a>>
        ensures { plain_asked result ≡ to_check (plain_given self.now) }
    {
        let (Some(file), Some(log)) = (self.file, self.log) else {
            return None;
        };
        Some(Asked::Check(CheckAsked {
            file,
            query: self.query,
            after: self.after,
            log,
        }))
    }

    fn to_make(&self) -> Option<Asked<'a>>
        ensures { plain_asked result ≡ to_make (plain_given self.now) }
    {
        let (Some(size), Some(budget)) = (self.size(), self.budget()) else {
            return None;
        };
        Some(Asked::Make { size, budget })
    }

    fn to_say_why(&self) -> Option<Asked<'a>>
        ensures { plain_asked result ≡ to_say_why (plain_given self.now) }
    {
        let (Some(file), Some(key)) = (self.file, self.key) else {
            return None;
        };
        Some(Asked::Why(WhyAsked { file, key }))
    }

    fn to_convert(&self) -> Option<Asked<'a>>
        ensures { plain_asked result ≡ to_convert (plain_given self.now) }
    {
        let (Some(file), Some(log), Some(to)) = (self.file, self.log, self.to) else {
            return None;
        };
        Some(Asked::Convert(ConvertAsked {
            file,
            query: self.query,
            after: self.after,
            log,
            to,
        }))
    }

    fn to_export(&self) -> Option<Asked<'a>>
        ensures { plain_asked result ≡ to_export (plain_given self.now) }
    {
        let (Some(file), Some(horizon)) = (self.file, self.horizon()) else {
            return None;
        };
        Some(Asked::Export(ExportAsked {
            file,
            query: self.query,
            horizon,
        }))
    }

    fn to_model(&self) -> Option<Asked<'a>>
        ensures { plain_asked result ≡ to_model (plain_given self.now) }
    {
        let (Some(file), Some(count), Some(budget), Some(form)) = (
            self.file,
            self.count(),
            self.budget(),
            self.form(),
        ) else {
            return None;
        };
        Some(Asked::Models(ModelsAsked {
            file,
            count,
            budget,
            log: self.log,
            form,
        }))
    }

    fn to_check_models(&self) -> Option<Asked<'a>>
        ensures { plain_asked result ≡ to_check_models (plain_given self.now) }
    {
        let (Some(file), Some(log)) = (self.file, self.log) else {
            return None;
        };
        Some(Asked::CheckModels(CheckModelsAsked { file, log }))
    }

    fn to_be_sure(&self) -> Option<Asked<'a>>
        ensures { plain_asked result ≡ to_be_sure (plain_given self.now) }
    {
        let (Some(file), Some(budget)) = (self.file, self.budget()) else {
            return None;
        };
        Some(Asked::Sure(SureAsked {
            file,
            query: self.query,
            budget,
            log: self.log,
        }))
    }

    fn to_check_sure(&self) -> Option<Asked<'a>>
        ensures { plain_asked result ≡ to_check_sure (plain_given self.now) }
    {
        let (Some(file), Some(log)) = (self.file, self.log) else {
            return None;
        };
        Some(Asked::CheckSure(CheckSureAsked {
            file,
            query: self.query,
            log,
        }))
    }

    fn to_list_generally(&self) -> Option<Asked<'a>>
        ensures { plain_asked result ≡ to_list_generally (plain_given self.now) }
    {
        let (Some(file), Some(count), Some(budget)) = (self.file, self.count(), self.budget())
        else {
            return None;
        };
        Some(Asked::General(GeneralAsked {
            file,
            query: self.query,
            count,
            budget,
            log: self.log,
        }))
    }

    fn to_check_general(&self) -> Option<Asked<'a>>
        ensures { plain_asked result ≡ to_check_general (plain_given self.now) }
    {
        let (Some(file), Some(log)) = (self.file, self.log) else {
            return None;
        };
        Some(Asked::CheckGeneral(CheckGeneralAsked {
            file,
            query: self.query,
            log,
        }))
    }

    fn to_prove(&self) -> Option<Asked<'a>>
        ensures { plain_asked result ≡ to_prove (plain_given self.now) }
    {
        let (Some(file), Some(budget)) = (self.file, self.budget()) else {
            return None;
        };
        Some(Asked::Forever(ForeverAsked {
            file,
            query: self.query,
            budget,
            log: self.log,
        }))
    }

    fn to_check_forever(&self) -> Option<Asked<'a>>
        ensures { plain_asked result ≡ to_check_forever (plain_given self.now) }
    {
        let (Some(file), Some(log)) = (self.file, self.log) else {
            return None;
        };
        Some(Asked::CheckForever(CheckForeverAsked {
            file,
            query: self.query,
            log,
        }))
    }

    /// What is asked in a mode, by its values.
    fn valued(&self, mode: Mode) -> Option<Asked<'a>>
        ensures { plain_asked result ≡ valued mode (plain_given self.now) }
    {
        match mode {
            Mode::List => self.to_list(),
            Mode::Check => self.to_check(),
            Mode::Make => self.to_make(),
            Mode::Why => self.to_say_why(),
            Mode::Convert => self.to_convert(),
            Mode::Export => self.to_export(),
            Mode::Models => self.to_model(),
            Mode::CheckModels => self.to_check_models(),
            Mode::Sure => self.to_be_sure(),
            Mode::CheckSure => self.to_check_sure(),
            Mode::General => self.to_list_generally(),
            Mode::CheckGeneral => self.to_check_general(),
            Mode::Forever => self.to_prove(),
            Mode::CheckForever => self.to_check_forever(),
        }
    }

    /// What is asked in a mode, where the words suit it.
    fn asked_in(&self, mode: Mode) -> Option<Asked<'a>>
        ensures { plain_asked result ≡ asked_in mode (plain_given self.now) }
    {
        if !self.suits(mode) {
            return None;
        }
        self.valued(mode)
    }

    /// The name of the file, where there is one, has no control character.
    fn has_plain_name(&self) -> bool
        ensures { result ≡ requests.has_plain_name (plain_given self.now) }
    {
        match self.file {
            None => true,
            Some(file) => is_plain_name(file),
        }
    }

    /// What is asked; `None` where a value is not of its form, where what is required is missing, where an option does not
    /// go with the mode, or where the file's name has a control character.
    pub fn asked(&self) -> Option<Asked<'a>>
        ensures { plain_asked result ≡ asked_of (plain_given self.now) }
    {
        if !self.has_plain_name() {
            return None;
        }
        self.asked_in(self.mode()?)
    }
}
