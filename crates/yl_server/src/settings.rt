//! Reads the settings of an editor.
ghost use Rattle.std.specs.Prelude.{◌≡◌, IfOk, IsSome, OnErr, string_bytes};
ghost use Rattle.std.specs.Option.{option_map};
ghost use Rattle.json.specs.Value.{value_view};
ghost use Rattle.yl_lsp.specs.Read.{settings_value};
ghost use Rattle.yl_server.specs.Bodies.{IsFound, text_set};
ghost use Rattle.yl_server.specs.Named.{IsNamed};
ghost use Rattle.yl_server.specs.Settings.{fault_words, place_of, refused_by, setting_found};
ghost use Rattle.yl_server.specs.Settings as spec;

use crate::governed::Governed;
use crate::words::MEMORY;
use json::Value;
use std::alloc::{AllocError, Allocator};
use yl_config::{Config, ConfigFault, FaultPlace};
use yl_lsp::{Settings, settings_in};

/// The result of looking for a configuration.
#[derive(Clone, Copy)]
pub enum Found {
    /// Its text was read, with this result.
    Said(Result<Config, ConfigFault>),
    /// Its file could not be read.
    Unreadable,
    /// There was no memory to read its file.
    NoMemory,
}

/// A source of configurations, such as the files of a machine.
pub trait ConfigFiles {
    /// Reads the file at this path as a configuration.
    fn read(&mut self, path: &str) -> Found;

    /// Returns the configuration by which the document with this URI is judged, according to the
    /// files of its folder. `is_known` means that the document was asked for since it was opened.
    /// Only then may the result be `Same`.
    fn of_document(&mut self, uri: &str, is_known: bool) -> Governed;

    /// Notifies that the document with this URI was closed. What is cached for it may be dropped.
    fn closed(&mut self, uri: &str);
}

/// A fault of settings, or of the files of configurations.
#[derive(Clone, Copy)]
pub(crate) enum SettingFault {
    /// A setting has the wrong type.
    Shape,
    /// A file of a configuration could not be read.
    Unreadable,
    /// Memory ran out.
    Memory,
    /// A configuration has a fault.
    Refused(ConfigFault),
}

/// Returns the fault of settings whose configuration is refused for `fault`.
pub(crate) fn refused_by(fault: ConfigFault) -> SettingFault
    ensures { result ≡ refused_by fault }
{
    match fault {
        ConfigFault::Memory => SettingFault::Memory,
        fault => SettingFault::Refused(fault),
    }
}

impl SettingFault {
    /// Returns the message for users, without the position of the fault.
    pub(crate) fn words(self) -> &'static str
        ensures { result.now ≡ fault_words self }
    {
        match self {
            SettingFault::Shape => "a setting is of another type than it has",
            SettingFault::Unreadable => "the file of the configuration cannot be read",
            SettingFault::Memory => MEMORY,
            SettingFault::Refused(fault) => refused_words(fault),
        }
    }

    /// Returns the position of the fault in the configuration, if it has one: a line and a column
    /// in characters, both counted from 1.
    pub(crate) fn place(self) -> Option<FaultPlace>
        ensures { result ≡ place_of self }
    {
        match self {
            SettingFault::Shape | SettingFault::Unreadable | SettingFault::Memory => None,
            SettingFault::Refused(fault) => fault.place(),
        }
    }
}

/// Returns the message for users about a refused configuration, without the position.
fn refused_words(fault: ConfigFault) -> &'static str
    ensures { result.now ≡ fault_words (SettingFault.Refused fault) }
{
    match fault {
        ConfigFault::NotUtf8 => "the configuration is refused: NotUtf8",
        ConfigFault::Syntax(_) => "the configuration is refused: Syntax",
        ConfigFault::NotAMapping(_) => "the configuration is refused: NotAMapping",
        ConfigFault::UnknownKey(_) => "the configuration is refused: UnknownKey",
        ConfigFault::UnknownRule(_) => "the configuration is refused: UnknownRule",
        ConfigFault::UnknownOption(_) => "the configuration is refused: UnknownOption",
        ConfigFault::BadValue(_) => "the configuration is refused: BadValue",
        ConfigFault::BadLevel(_) => "the configuration is refused: BadLevel",
        ConfigFault::UnknownExtends(_) => "the configuration is refused: UnknownExtends",
        ConfigFault::Memory => "the configuration is refused: Memory",
        ConfigFault::TooLarge => "the configuration is refused: TooLarge",
    }
}

/// The values that settings set.
#[derive(Clone, Copy)]
pub(crate) enum Setting {
    /// A configuration and the maximum number of problems that are shown for a text, each if it is
    /// set.
    Set(Option<Config>, Option<u64>),
    /// Nothing is set, since the settings have this fault.
    Faulty(SettingFault),
}

/// Returns the configuration that settings name, if they name one. A text takes precedence over a
/// file.
fn found_by<A: Allocator + Copy, F: ConfigFiles>(
    alloc: A,
    settings: Settings<'_>,
    files: &mut F,
) -> Option<Found>
    ensures { IsNamed (settings_value settings.entry) result }
{
    if let Some(text) = settings.config {
        return Some(Found::Said(Config::read(alloc, text.as_bytes())));
    }
    match settings.config_file {
        Some(path) => Some(files.read(path)),
        None => None,
    }
}

/// Returns the path of the file that settings name, in a new `String`. Returns `None` if they name
/// a text. The only error is out of memory.
pub(crate) fn file_named<A: Allocator + Copy>(
    alloc: A,
    settings: Option<&Value<'_, A>>,
) -> Result<Option<String<A>>, AllocError>
    ensures ok { IfOk result (λ file. option_map string_bytes file ≡ spec.file_named (option_map (λ v. value_view v.now) settings.entry)) }
    ensures err { OnErr result (IsSome (spec.file_named (option_map (λ v. value_view v.now) settings.entry))) }
{
    match path_in(settings) {
        Some(path) => Ok(Some(String::from_str(alloc, path)?)),
        None => Ok(None),
    }
}

/// Returns the path of the file that settings name, or `None` if they name a text or no file.
fn path_in<'a, A: Allocator>(settings: Option<&Value<'a, A>>) -> Option<&'a str>
    ensures { option_map (λ path. path.now) result ≡ spec.file_named (option_map (λ v. value_view v.now) settings.entry) }
{
    let settings = settings_in(settings?)?;
    match settings.config {
        Some(_) => None,
        None => settings.config_file,
    }
}

/// Returns the values that settings set if their configuration was found to be `found`.
pub(crate) fn setting_found(found: Found, most: Option<u64>) -> Setting
    ensures { result ≡ setting_found found most }
{
    match found {
        Found::Said(Ok(config)) => Setting::Set(Some(config), most),
        Found::Said(Err(fault)) => Setting::Faulty(refused_by(fault)),
        Found::Unreadable => Setting::Faulty(SettingFault::Unreadable),
        Found::NoMemory => Setting::Faulty(SettingFault::Memory),
    }
}

/// Returns the values that settings set. Absent settings set nothing.
pub(crate) fn setting_of<A: Allocator + Copy, F: ConfigFiles>(
    alloc: A,
    settings: Option<&Value<'_, A>>,
    files: &mut F,
) -> Setting
    ensures { (found : Found) × IsFound (text_set (option_map (λ v. value_view v.now) settings.entry)) found
        × (result ≡ spec.setting_of found (option_map (λ v. value_view v.now) settings.entry)) }
{
    let Some(settings) = settings else {
        return Setting::Set(None, None);
    };
    let Some(settings) = settings_in(settings) else {
        return Setting::Faulty(SettingFault::Shape);
    };
    match found_by(alloc, settings, files) {
        Some(found) => setting_found(found, settings.most),
        None => Setting::Set(None, settings.most),
    }
}
