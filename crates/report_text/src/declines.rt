//! Why a run is declined without a session to print.
ghost use Rattle.std.specs.Prelude.{◌≡◌, ◌++◌, OnOk};
ghost use Rattle.report_text.specs.OutcomeText.{stage_word, early_text};

use cert_data::{Place, Stage, Tail, name_of_place};
use std::alloc::{AllocError, Global};

fn stage_word(stage: Stage) -> &'static str
    ensures { result.now ≡ stage_word stage }
{
    match stage {
        Stage::Coarse => "coarse",
        Stage::Fine => "fine",
    }
}

// Appends the stage and the place.
fn push_overwidth(
    alloc: Global,
    text: &mut Vec<u8>,
    stage: Stage,
    place: Place,
) -> Result<(), AllocError>
    ensures { OnOk result
        (text.new.items ≡ text.old.items ++ early_text stage (Tail.Overwidth place)) }
{
    let word = stage_word(stage);
    let why = format!(in alloc; "overwidth {word} ")?;
    text.extend_from_slice(why.as_bytes())?;
    text.extend_from_slice(name_of_place(place))
}

/// Appends why a run is declined in a round of this stage.
pub(crate) fn push_early(
    alloc: Global,
    text: &mut Vec<u8>,
    stage: Stage,
    tail: &Tail,
) -> Result<(), AllocError>
    ensures { OnOk result (text.new.items ≡ text.old.items ++ early_text stage tail.now) }
{
    let word = stage_word(stage);
    match tail {
        Tail::Weak { column, pivot } => {
            let why = format!(in alloc; "weak {word} {column} {pivot}")?;
            text.extend_from_slice(why.as_bytes())
        }
        Tail::Overwidth { place } => push_overwidth(alloc, text, stage, *place),
        Tail::Unsettled { entry } => {
            let why = format!(in alloc; "unsettled {word} {entry}")?;
            text.extend_from_slice(why.as_bytes())
        }
        Tail::Fixed { .. } => text.extend_from_slice(word.as_bytes()),
        Tail::Unseparated { .. } => text.extend_from_slice(word.as_bytes()),
        Tail::Spent { .. } => text.extend_from_slice(word.as_bytes()),
    }
}
