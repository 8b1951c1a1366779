// The options of jobs.
ghost use Rattle.std.specs.Prelude.{◌≡◌, codes, false, option_and_then};
ghost use Rattle.decimal_words.specs.Numbers.{decimal_number};
ghost use Rattle.scmd_top.specs.Parts.{IsParts, IsText};
ghost use Rattle.scmd_top.specs.Settings.{count_in, no_options, once, port_of, setting_named};
ghost use Rattle.scmd_top.specs.Settings.{options_from, with_alone, with_export, with_name};
ghost use Rattle.scmd_top.specs.Settings.{with_option, with_word};
ghost use Rattle.scmd_top.specs.Settings.{is_plain, named_value, principal_named};
ghost use Rattle.scmd_top.specs.Settings.{value_from, value_in};

use decimal_words::number_at;
use scm_model::Principal;
use scm_text::Text;

/// What an option says.
#[derive(Clone, Copy)]
pub enum Setting {
    AdminPort,
    UserPort,
    AdminTake,
    UserTake,
    /// Whose connection it is.
    As,
    /// Where the journal stands in a plain file.
    File,
    /// Where the store stands.
    Store,
    /// Which groups start first.
    Groups,
}

/// What options say, so far as they were read.
#[derive(Clone, Copy)]
pub struct Settings {
    pub admin: Option<u16>,
    pub user: Option<u16>,
    /// How many connections are taken, where that is said.
    pub take_admin: Option<u64>,
    pub take_user: Option<u64>,
    pub principal: Option<Principal>,
    /// Whether a file is named.
    pub file: bool,
    /// Whether a store is named.
    pub store: bool,
    /// Whether groups are listed.
    pub groups: bool,
    /// Whether the history is to be exported.
    pub export: bool,
    /// The option whose value is the next word.
    pub waits: Option<Setting>,
}

fn setting_named(word: &str) -> Option<Setting>
    ensures { result ≡ setting_named word.now }
{
    match word {
        "--admin" => Some(Setting::AdminPort),
        "--user" => Some(Setting::UserPort),
        "--take-admin" => Some(Setting::AdminTake),
        "--take-user" => Some(Setting::UserTake),
        "--as" => Some(Setting::As),
        "--db" => Some(Setting::File),
        "--store" => Some(Setting::Store),
        "--groups" => Some(Setting::Groups),
        _ => None,
    }
}

/// A name and a value that stand in one word.
fn parts_of(word: &str) -> Option<(&str, &str)>
    ensures { IsParts (named_value word.now) result }
{
    word.split_once('=')
}

/// A port, of which there are those from 1 to 65535.
fn port_of(number: u64) -> Option<u16>
    ensures { result ≡ port_of number }
{
    if 1 <= number && number <= 65535 {
        Some(number as u16)
    } else {
        None
    }
}

fn port_at(value: &str) -> Option<u16>
    ensures { result ≡ option_and_then port_of (decimal_number value.now) }
{
    port_of(number_at(value.as_bytes())?)
}

/// A count of connections, of 32 bits.
fn count_of(number: u64) -> Option<u64>
    ensures { result ≡ count_in number }
{
    if number <= 4_294_967_295 {
        Some(number)
    } else {
        None
    }
}

fn count_at(value: &str) -> Option<u64>
    ensures { result ≡ option_and_then count_in (decimal_number value.now) }
{
    count_of(number_at(value.as_bytes())?)
}

fn principal_named(value: &str) -> Option<Principal>
    ensures { result ≡ principal_named value.now }
{
    match value {
        "admin" => Some(Principal::Admin),
        "user" => Some(Principal::User),
        _ => None,
    }
}

fn is_plain(value: &str) -> bool
    ensures { result ≡ is_plain value.now }
{
    match value.as_bytes() {
        [] => false,
        [first, ..] => *first != b'-',
    }
}

/// A value, where none was given before.
fn once<T: Copy>(before: Option<T>, value: Option<T>) -> Option<T>
    ensures { result ≡ once before value }
{
    match before {
        None => value,
        Some(_) => None,
    }
}

impl Settings {
    const NONE: Settings = Settings {
        admin: None,
        user: None,
        take_admin: None,
        take_user: None,
        principal: None,
        file: false,
        store: false,
        groups: false,
        export: false,
        waits: None,
    };

    fn with_value(self, name: Setting, value: &str) -> Option<Settings>
        ensures { result ≡ with_option self name value.now }
    {
        let settings = Settings {
            waits: None,
            ..self
        };
        match name {
            Setting::AdminPort => Some(Settings {
                admin: Some(once(self.admin, port_at(value))?),
                ..settings
            }),
            Setting::UserPort => Some(Settings {
                user: Some(once(self.user, port_at(value))?),
                ..settings
            }),
            Setting::AdminTake => Some(Settings {
                take_admin: Some(once(self.take_admin, count_at(value))?),
                ..settings
            }),
            Setting::UserTake => Some(Settings {
                take_user: Some(once(self.take_user, count_at(value))?),
                ..settings
            }),
            Setting::As => Some(Settings {
                principal: Some(once(self.principal, principal_named(value))?),
                ..settings
            }),
            Setting::File if !self.file && is_plain(value) => Some(Settings {
                file: true,
                ..settings
            }),
            Setting::Store if !self.store && is_plain(value) => Some(Settings {
                store: true,
                ..settings
            }),
            Setting::Groups if !self.groups && is_plain(value) => Some(Settings {
                groups: true,
                ..settings
            }),
            Setting::File | Setting::Store | Setting::Groups => None,
        }
    }

    /// The option without a value, where it wasn't given before.
    fn with_export(self) -> Option<Settings>
        ensures { result ≡ with_export self }
    {
        if self.export {
            None
        } else {
            Some(Settings {
                export: true,
                ..self
            })
        }
    }

    /// A name that stands alone in its word.
    fn with_alone(self, word: &str) -> Option<Settings>
        ensures { result ≡ with_alone self word.now }
    {
        if word == "--export" {
            self.with_export()
        } else {
            Some(Settings {
                waits: Some(setting_named(word)?),
                ..self
            })
        }
    }

    /// A name, with its value or alone.
    fn with_name(self, word: &str) -> Option<Settings>
        ensures { result ≡ with_name self word.now (named_value word.now) }
    {
        match parts_of(word) {
            Some((name, value)) => self.with_value(setting_named(name)?, value),
            None => self.with_alone(word),
        }
    }

    /// One word further.
    fn with_word(self, word: &str) -> Option<Settings>
        ensures { result ≡ with_word self self.waits word.now }
    {
        match self.waits {
            Some(name) => self.with_value(name, word),
            None => self.with_name(word),
        }
    }

    /// What these words say, if each is an option or a value.
    pub fn of(words: &[Text]) -> Option<Settings>
        ensures { result ≡ options_from no_options words.now }
    {
        let mut settings = Settings::NONE;
        for word in words {
            settings = settings.with_word(word.as_str())?;
        }
        Some(settings)
    }
}

/// The value of an option that stands in one word with it.
fn value_in<'a>(option: &str, word: &'a str) -> Option<&'a str>
    ensures { IsText (value_in option.now (named_value word.now)) result }
{
    let (name, value) = parts_of(word)?;
    if name == option { Some(value) } else { None }
}

/// The value that these words have for an option, if they are options of a job and their values.
fn value_of<'a>(option: &str, words: &'a [Text]) -> Option<&'a str>
    ensures { IsText (value_from option.now false words.now) result }
{
    let mut waits = false;
    for word in words {
        if waits {
            return Some(word.as_str());
        }
        if let Some(value) = value_in(option, word.as_str()) {
            return Some(value);
        }
        waits = word.as_str() == option;
    }
    None
}

/// Which file they name.
pub fn file_of(words: &[Text]) -> Option<&str>
    ensures { IsText (value_from (codes "--db") false words.now) result }
{
    value_of("--db", words)
}

/// Which store they name.
pub fn store_in(words: &[Text]) -> Option<&str>
    ensures { IsText (value_from (codes "--store") false words.now) result }
{
    value_of("--store", words)
}

/// The groups that they list, as one text.
pub fn groups_text(words: &[Text]) -> Option<&str>
    ensures { IsText (value_from (codes "--groups") false words.now) result }
{
    value_of("--groups", words)
}
