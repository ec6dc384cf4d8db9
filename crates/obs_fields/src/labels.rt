//! The labels of header lines.
ghost use Rattle.std.specs.Prelude.{◌≡◌};
ghost use Rattle.obs_fields.specs.Layouts.{types_label_of, factor_label_of};
ghost use Rattle.obs_fields.specs.Labels.{named_label, label_in, changes_header, event_line_of};

use crate::Layout;
use line_source::Line;
use rinex_head::{Flaw, What, head_line};

/// The labels that count in the header of an observation file.
#[derive(Clone, Copy, Debug, PartialEq, Eq)]
pub enum Label {
    End,
    Position,
    Delta,
    /// A list of types.
    Types,
    /// Scale factors, or the wavelength factors of RINEX 2.
    Factor,
    FirstObs,
    Comment,
    Other,
}

fn types_label(layout: Layout) -> &'static [u8]
    ensures { result.now ≡ types_label_of layout }
{
    match layout {
        Layout::Rinex2 => b"# / TYPES OF OBSERV",
        Layout::Rinex3 => b"SYS / # / OBS TYPES",
    }
}

fn factor_label(layout: Layout) -> &'static [u8]
    ensures { result.now ≡ factor_label_of layout }
{
    match layout {
        Layout::Rinex2 => b"WAVELENGTH FACT L1/2",
        Layout::Rinex3 => b"SYS / SCALE FACTOR",
    }
}

fn named(layout: Layout, label: &[u8]) -> Label
    ensures { result ≡ named_label layout label.now }
{
    if label == b"END OF HEADER".as_slice() {
        return Label::End;
    }
    if label == b"APPROX POSITION XYZ".as_slice() {
        return Label::Position;
    }
    if label == b"ANTENNA: DELTA H/E/N".as_slice() {
        return Label::Delta;
    }
    if label == types_label(layout) {
        return Label::Types;
    }
    if label == factor_label(layout) {
        return Label::Factor;
    }
    if label == b"TIME OF FIRST OBS".as_slice() {
        return Label::FirstObs;
    }
    if label == b"COMMENT".as_slice() {
        return Label::Comment;
    }
    Label::Other
}

/// The label of a line.
#[tactic(auto, unfolding(crate::specs::Labels::label_in))]
pub fn label_of_line(layout: Layout, line: &Line<'_>) -> Label
    ensures { result ≡ label_in layout line.now.bytes.now }
{
    named(layout, head_line(line).label)
}

fn is_change(label: Label) -> bool
    ensures { result ≡ changes_header label }
{
    matches!(label, Label::Types | Label::Factor)
}

/// A line of an event, after which the header may change or not. It is skipped unless it changes what the header says.
#[tactic(auto, unfolding(crate::specs::Labels::event_line_of))]
pub fn event_line(layout: Layout, line: &Line<'_>, changes: bool) -> Result<(), Flaw>
    ensures { result ≡ event_line_of layout changes line.now.bytes.now }
{
    if changes && is_change(label_of_line(layout, line)) {
        return Err(Flaw {
            column: 61,
            what: What::Changed,
        });
    }
    Ok(())
}
