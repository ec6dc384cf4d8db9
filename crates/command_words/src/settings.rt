//! The options and what they are set to.
ghost use Rattle.std.specs.Prelude.{◌≡◌, ℕ, ◌<◌, ◌≤◌, ◌↔◌, [], IsTrue, IfSome, MatchOption};
ghost use Rattle.command_words.specs.Settings.{name_of, place_of, is_of_sim, are_of_sim, numbers_for, IsSetBy, HasFound};

/// A number that a job can be asked to use.
#[derive(Clone, Copy, Debug)]
pub enum Setting {
    Ratio,
    Budget,
    Mask,
    Gap,
    Jump,
    Arc,
    Step,
    First,
    Count,
    Bands,
    System,
}

/// A setting with its number; that of a system is its letter's code.
#[derive(Clone, Copy, Debug)]
pub struct Given {
    pub setting: Setting,
    pub number: u64,
}

impl Setting {
    /// The option's name.
    pub fn name(self) -> &'static str
        ensures { result.now ≡ name_of self }
    {
        match self {
            Setting::Ratio => "ratio",
            Setting::Budget => "budget",
            Setting::Mask => "mask",
            Setting::Gap => "gap",
            Setting::Jump => "jump",
            Setting::Arc => "arc",
            Setting::Step => "step",
            Setting::First => "first",
            Setting::Count => "count",
            Setting::Bands => "bands",
            Setting::System => "system",
        }
    }

    /// The setting at a place of the table.
    pub fn at(place: usize) -> Setting
        requires { place < 11 }
        ensures { place_of result ≡ place }
    {
        match place {
            0 => Setting::Ratio,
            1 => Setting::Budget,
            2 => Setting::Mask,
            3 => Setting::Gap,
            4 => Setting::Jump,
            5 => Setting::Arc,
            6 => Setting::Step,
            7 => Setting::First,
            8 => Setting::Count,
            9 => Setting::Bands,
            _ => Setting::System,
        }
    }

    fn place(self) -> u8
        ensures { result ≡ place_of self }
    {
        match self {
            Setting::Ratio => 0,
            Setting::Budget => 1,
            Setting::Mask => 2,
            Setting::Gap => 3,
            Setting::Jump => 4,
            Setting::Arc => 5,
            Setting::Step => 6,
            Setting::First => 7,
            Setting::Count => 8,
            Setting::Bands => 9,
            Setting::System => 10,
        }
    }

    // Whether it is a setting of a simulated session.
    fn is_of_sim(self) -> bool
        ensures { result ≡ is_of_sim self }
    {
        match self {
            Setting::Bands | Setting::System => true,
            _ => false,
        }
    }
}

/// What a setting may be set to, and what it is where it isn't given.
#[derive(Clone, Copy, Debug)]
pub struct Limits {
    pub least: u64,
    pub most: u64,
    pub plain: u64,
}

/// The numbers that are given for a setting, as far as it matters.
#[derive(Clone, Copy, Debug)]
pub enum Found {
    Nothing,
    One(u64),
    More,
}

pub fn numbers_found(given: &[Given], setting: Setting) -> Found
    ensures { HasFound (numbers_for setting given.now) result }
{
    let mut seen = None;
    let mut rest = given;
    while let [one, after @ ..] = rest {
        if one.setting.place() == setting.place() {
            if seen.is_some() {
                return Found::More;
            }
            seen = Some(one.number);
        }
        rest = after;
    }
    match seen {
        Some(number) => Found::One(number),
        None => Found::Nothing,
    }
}

/// What the setting is set to: the number that is given, once and within the limits, or the plain one.
pub fn number_for(given: &[Given], setting: Setting, limits: &Limits) -> Option<u64>
    requires plain_from { limits.now.least ≤ limits.now.plain }
    requires plain_to { limits.now.plain ≤ limits.now.most }
    ensures set { MatchOption result ((n : ℕ) → IsSetBy (numbers_for setting
        given.now) limits.now.least limits.now.most limits.now.plain n → ⊥) (λ n. IsSetBy
        (numbers_for setting given.now) limits.now.least limits.now.most limits.now.plain n) }
    ensures from { IfSome result (λ n. limits.now.least ≤ n) }
    ensures to { IfSome result (λ n. n ≤ limits.now.most) }
{
    match numbers_found(given, setting) {
        Found::Nothing => Some(limits.plain),
        Found::One(number) if limits.least <= number && number <= limits.most => Some(number),
        _ => None,
    }
}

/// Whether each setting that is given is one of a simulated session.
pub fn are_of_sim(given: &[Given]) -> bool
    ensures { result ≡ are_of_sim given.now }
{
    let mut rest = given;
    while let [one, after @ ..] = rest {
        if !one.setting.is_of_sim() {
            return false;
        }
        rest = after;
    }
    true
}

/// Whether no number is given for the setting.
pub fn is_left_out(given: &[Given], setting: Setting) -> bool
    ensures { IsTrue result ↔ (numbers_for setting given.now ≡ []) }
{
    match numbers_found(given, setting) {
        Found::Nothing => true,
        _ => false,
    }
}
