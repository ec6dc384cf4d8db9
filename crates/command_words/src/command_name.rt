//! The commands: their names, and what each can be asked to use.
ghost use Rattle.std.specs.Prelude.{◌≡◌};
ghost use Rattle.command_words.specs.Split.{command_of_name, settings_of};
ghost use Rattle.command_words.specs.Words.{name_of_command};

use crate::settings::Setting;

static SIGNAL_SETTINGS: [Setting; 2] = [Setting::Bands, Setting::System];

static PAIR_SETTINGS: [Setting; 9] = [
    Setting::Mask,
    Setting::Gap,
    Setting::Jump,
    Setting::Arc,
    Setting::Step,
    Setting::First,
    Setting::Count,
    Setting::Bands,
    Setting::System,
];

static ALL_SETTINGS: [Setting; 11] = [
    Setting::Ratio,
    Setting::Budget,
    Setting::Mask,
    Setting::Gap,
    Setting::Jump,
    Setting::Arc,
    Setting::Step,
    Setting::First,
    Setting::Count,
    Setting::Bands,
    Setting::System,
];

/// A command of the program.
#[derive(Clone, Copy, Debug)]
pub enum CommandName {
    Fix,
    Arcs,
    Check,
    Residuals,
    Zero,
    List,
    Orbit,
    Sim,
    Migrate,
    Track,
    CheckTrack,
}

impl CommandName {
    /// All commands.
    pub const ALL: [CommandName; 11] = [
        CommandName::Fix,
        CommandName::Arcs,
        CommandName::Check,
        CommandName::Residuals,
        CommandName::Zero,
        CommandName::List,
        CommandName::Orbit,
        CommandName::Sim,
        CommandName::Migrate,
        CommandName::Track,
        CommandName::CheckTrack,
    ];

    /// The command of this name, if there is one.
    pub fn named(name: &str) -> Option<CommandName>
        ensures { result ≡ command_of_name name.now }
    {
        Self::ALL
            .iter()
            .copied()
            .find(|command| command.name() == name)
    }

    /// The command's name.
    pub fn name(self) -> &'static str
        ensures { result.now ≡ name_of_command self }
    {
        match self {
            CommandName::Fix => "fix",
            CommandName::Arcs => "arcs",
            CommandName::Check => "check",
            CommandName::Residuals => "residuals",
            CommandName::Zero => "zero",
            CommandName::List => "list",
            CommandName::Orbit => "orbit",
            CommandName::Sim => "sim",
            CommandName::Migrate => "migrate",
            CommandName::Track => "track",
            CommandName::CheckTrack => "check-track",
        }
    }

    /// What the command can be asked to use, by an option each.
    pub fn settings(self) -> &'static [Setting]
        ensures { result.now ≡ settings_of self }
    {
        match self {
            CommandName::Fix | CommandName::Track => ALL_SETTINGS.as_slice(),
            CommandName::Arcs => PAIR_SETTINGS.as_slice(),
            CommandName::Sim => SIGNAL_SETTINGS.as_slice(),
            CommandName::Check
            | CommandName::Residuals
            | CommandName::Zero
            | CommandName::List
            | CommandName::Orbit
            | CommandName::Migrate
            | CommandName::CheckTrack => &[],
        }
    }
}
