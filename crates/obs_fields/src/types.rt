//! The list of the observation types of a system (`SYS / # / OBS TYPES`, in RINEX 2 `# / TYPES OF OBSERV`).
ghost use Rattle.std.specs.Prelude.{◌≡◌, ◌+◌, ◌<◌, ◌≤◌, ◌++◌, ◌∷◌, [], min, length, IfOk, OnOk, IfErr, Ok, Err};
ghost use Rattle.decimal_text.specs.Fixed.{are_blank};
ghost use Rattle.rinex_head.specs.Fields.{whole_of};
ghost use Rattle.obs_fields.specs.Layouts.{first_name_of, name_in, types_column_of, types_count_in, further_mark_in};
ghost use Rattle.obs_fields.specs.Types.{is_listed, names_from, with_line, count_from, first_types_of, further_types_of, keeps, kept_type_in, kept_at, kept_from, is_kept_name, listed_of};

use crate::Layout;
use crate::labels::{Label, label_of_line};
use arrayvec::ArrayVec;
use decimal_text::all_blank;
use line_source::Line;
use obs_store::{ObsType, SLOTS};
use rinex_head::{Flaw, System, What, field, wide_number};
use std::alloc::{AllocError, Global};
use std::marker::Model;

/// How many types a list may have.
pub const MOST_TYPES: usize = 200;

/// The names of the listed types, of three bytes each. Contracts see the list of them.
#[derive(Drop)]
pub struct TypeNames {
    items: ArrayVec<[u8; 3], MOST_TYPES>,
}

impl Model for TypeNames {
    ghost use Rattle.std.specs.Prelude.{List, ℕ};

    ghost Value = { List (List ℕ) };

    ghost view = { λ s. s.items.items };
}

impl TypeNames {
    /// No names.
    pub fn new() -> TypeNames
        ensures { result ≡ [] }
    {
        TypeNames {
            items: ArrayVec::new(),
        }
    }

    /// The names, in order.
    pub fn as_slice(&self) -> &[[u8; 3]]
        ensures value { result.now ≡ self.now }
        ensures few { length self.now ≤ MOST_TYPES }
    {
        self.items.as_slice()
    }

    /// Whether the name is listed.
    #[tactic(auto, unfolding(crate::specs::Types::is_listed))]
    pub fn has(&self, name: &[u8]) -> bool
        ensures { result ≡ is_listed self.now name.now }
    {
        self.items.iter().any(|listed| listed.as_slice() == name)
    }

    /// Adds a name.
    pub fn push(&mut self, name: [u8; 3])
        requires { length self.old < MOST_TYPES }
        ensures { self.new ≡ self.old ++ name ∷ [] }
    {
        self.items.push(name);
    }
}

/// The names that a list has so far, and how many are due.
#[derive(Drop)]
pub struct TypeList {
    pub names: TypeNames,
    pub left: u16,
}

/// A kept type, and its number in the list, from 0.
#[derive(Clone, Copy, Debug)]
pub struct KeptType {
    pub number: u8,
    pub kind: ObsType,
}

fn types_flaw(column: u32) -> Flaw
    ensures { result ≡ record { column = column; what = What.Types } }
{
    Flaw {
        column,
        what: What::Types,
    }
}

// The name of a type at this column, of three bytes.
fn name_at(layout: Layout, line: &[u8], first: u32) -> [u8; 3]
    requires from_one { 1 ≤ first }
    requires near { first ≤ 4900 }
    ensures { result ≡ name_in layout line.now first }
{
    match layout {
        Layout::Rinex2 => {
            let name = field::<2>(line, first as usize);
            [name[0], name[1], b' ']
        }
        Layout::Rinex3 => field::<3>(line, first as usize),
    }
}

// A number of further names of a line.
fn add_names(layout: Layout, line: &[u8], count: u16, names: &mut TypeNames) -> Result<(), Flaw>
    requires room { length names.old + count ≤ MOST_TYPES }
    requires few { count ≤ 13 }
    ensures ok { OnOk result
        (names_from layout line.now (first_name_of layout) count names.old ≡ Ok names.new) }
    ensures longer { OnOk result (length names.new ≡ length names.old + count) }
    ensures err { IfErr result (λ flaw.
        names_from layout line.now (first_name_of layout) count names.old ≡ Err flaw) }
{
    let mut first = layout.first_name();
    let step = layout.name_step();
    let mut left = count;
    'names: while left > 0 {
        let name = name_at(layout, line, first);
        if names.has(&name) {
            return Err(types_flaw(first));
        }
        names.push(name);
        first += step;
        left -= 1;
    }
    Ok(())
}

fn add_line(layout: Layout, line: &[u8], mut list: TypeList) -> Result<TypeList, Flaw>
    requires { length list.names + list.left ≤ MOST_TYPES }
    ensures value { result ≡ with_line layout line.now list.names list.left }
    ensures room { IfOk result (λ all. length all.names + all.left ≤ MOST_TYPES) }
{
    let count = list.left.min(layout.names_in_line());
    add_names(layout, line, count, &mut list.names)?;
    list.left -= count;
    Ok(list)
}

fn count_field(layout: Layout, line: &[u8]) -> Result<Option<u32>, Flaw>
    ensures { result ≡ whole_of (types_column_of layout) (types_count_in layout line.now) }
{
    match layout {
        Layout::Rinex2 => wide_number(&field::<6>(line, 1), 1),
        Layout::Rinex3 => wide_number(&field::<3>(line, 4), 4),
    }
}

fn count_column(layout: Layout) -> u32
    ensures { result ≡ types_column_of layout }
{
    match layout {
        Layout::Rinex2 => 1,
        Layout::Rinex3 => 4,
    }
}

fn type_count(layout: Layout, line: &[u8]) -> Result<u16, Flaw>
    ensures value { result ≡ count_from (types_column_of layout)
        (whole_of (types_column_of layout) (types_count_in layout line.now)) }
    ensures bound { IfOk result (λ n. n ≤ MOST_TYPES) }
{
    match count_field(layout, line) {
        Ok(Some(count)) => {
            if count < 1 || count > MOST_TYPES as u32 {
                return Err(types_flaw(count_column(layout)));
            }
            Ok(count as u16)
        }
        _ => Err(types_flaw(count_column(layout))),
    }
}

/// The first line of a list.
pub fn first_types(layout: Layout, line: &[u8]) -> Result<TypeList, Flaw>
    ensures value { result ≡ first_types_of layout line.now }
    ensures room { IfOk result (λ all. length all.names + all.left ≤ MOST_TYPES) }
{
    let list = TypeList {
        names: TypeNames::new(),
        left: type_count(layout, line)?,
    };
    add_line(layout, line, list)
}

// Whether the columns are blank that a list's first line fills.
fn goes_on(layout: Layout, line: &[u8]) -> bool
    ensures { result ≡ are_blank (further_mark_in layout line.now) }
{
    match layout {
        Layout::Rinex2 => all_blank(&field::<6>(line, 1)),
        Layout::Rinex3 => all_blank(&field::<1>(line, 1)),
    }
}

/// A line in the place of a further line of a list.
pub fn further_types(layout: Layout, line: &Line<'_>, list: TypeList) -> Result<TypeList, Flaw>
    requires { length list.names + list.left ≤ MOST_TYPES }
    ensures value { result ≡ further_types_of layout line.now.bytes.now list.names list.left }
    ensures room { IfOk result (λ all. length all.names + all.left ≤ MOST_TYPES) }
{
    match label_of_line(layout, line) {
        Label::Comment => Ok(list),
        Label::Types => {
            if !goes_on(layout, line.bytes) {
                return Err(types_flaw(1));
            }
            add_line(layout, line.bytes, list)
        }
        _ => Err(types_flaw(1)),
    }
}

fn is_kept(system: System, kind: ObsType) -> bool
    ensures { result ≡ keeps system kind }
{
    match system {
        System::Gps => true,
        System::Galileo => matches!(
            kind,
            ObsType::C1C
                | ObsType::C1X
                | ObsType::L1C
                | ObsType::L1X
                | ObsType::C5Q
                | ObsType::C5X
                | ObsType::C5I
                | ObsType::L5Q
                | ObsType::L5X
                | ObsType::L5I
        ),
    }
}

fn kept_type(system: System, name: &[u8]) -> Option<ObsType>
    ensures { result ≡ kept_type_in system name.now }
{
    match ObsType::named(name) {
        Some(kind) if is_kept(system, kind) => Some(kind),
        _ => None,
    }
}

/// Adds the type of this number in its list, if it is kept. After an `Err` no clause says which types there are.
pub fn add_kept(
    kept: &mut Vec<KeptType>,
    number: u8,
    kind: Option<ObsType>,
) -> Result<(), AllocError>
    ensures { OnOk result (kept.new.items ≡ kept.old.items ++ kept_at number kind) }
{
    match kind {
        Some(kind) => match kept.push(KeptType { number, kind }) {
            Ok(()) => Ok(()),
            Err(_) => Err(AllocError),
        },
        None => Ok(()),
    }
}

/// The kept types of a list.
pub fn kept_types(
    alloc: Global,
    system: System,
    names: &TypeNames,
) -> Result<Vec<KeptType>, AllocError>
    ensures { IfOk result (λ kept. kept.items ≡ kept_from system 0 names.now) }
{
    let mut kept: Vec<KeptType> = Vec::new(alloc);
    for (number, name) in names.as_slice().iter().enumerate() {
        add_kept(&mut kept, number as u8, kept_type(system, name))?;
    }
    Ok(kept)
}

fn is_listed_kept(system: System, names: &TypeNames, kind: ObsType) -> bool
    ensures { result ≡ is_kept_name system names.now kind }
{
    is_kept(system, kind) && names.has(kind.name())
}

/// Whether each type is listed and kept, in the order of the slots.
pub fn listed_types(system: System, names: &TypeNames) -> [bool; SLOTS]
    ensures { result ≡ listed_of system names.now }
{
    let mut listed = [false; SLOTS];
    for (slot, kind) in ObsType::ALL.iter().enumerate() {
        listed[slot] = is_listed_kept(system, names, *kind);
    }
    listed
}
