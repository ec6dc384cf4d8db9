//! What the two formats of observation files place differently.
ghost use Rattle.std.specs.Prelude.{◌≡◌, ◌≤◌, IfSome};
ghost use Rattle.obs_fields.specs.Layouts.{first_name_of, name_step_of, names_in_line_of, count_column_of, date_column_of, value_column};

/// The format of an observation file, for what RINEX 2 and RINEX 3 say alike in other columns.
#[derive(Clone, Copy, Debug, PartialEq, Eq)]
pub enum Layout {
    Rinex2,
    Rinex3,
}

impl Layout {
    /// The column of the first type's name in a line of a list of types.
    pub fn first_name(self) -> u32
        ensures { result ≡ first_name_of self }
    {
        match self {
            Layout::Rinex2 => 11,
            Layout::Rinex3 => 8,
        }
    }

    /// How many columns apart the names of types begin.
    pub fn name_step(self) -> u32
        ensures { result ≡ name_step_of self }
    {
        match self {
            Layout::Rinex2 => 6,
            Layout::Rinex3 => 4,
        }
    }

    /// How many names of types a line has room for.
    pub fn names_in_line(self) -> u16
        ensures { result ≡ names_in_line_of self }
    {
        match self {
            Layout::Rinex2 => 9,
            Layout::Rinex3 => 13,
        }
    }

    /// The column of the count in the line of an epoch or an event.
    pub fn count_column(self) -> u32
        ensures { result ≡ count_column_of self }
    {
        match self {
            Layout::Rinex2 => 30,
            Layout::Rinex3 => 33,
        }
    }

    /// The column at which a date that is none is refused.
    pub fn date_column(self) -> u32
        ensures { result ≡ date_column_of self }
    {
        match self {
            Layout::Rinex2 => 2,
            Layout::Rinex3 => 3,
        }
    }

    /// The column of the value of a type, by the type's number from 0, if it stands in this line of a satellite, from 0.
    pub fn value_column(self, at: u8, number: u8) -> Option<u32>
        ensures value { result ≡ value_column self at number }
        ensures from_one { IfSome result (λ column. 1 ≤ column) }
        ensures near { IfSome result (λ column. column ≤ 4900) }
    {
        match self {
            Layout::Rinex2 => {
                if number / 5 == at {
                    Some(1 + 16 * (number % 5) as u32)
                } else {
                    None
                }
            }
            Layout::Rinex3 => Some(4 + 16 * number as u32),
        }
    }
}
