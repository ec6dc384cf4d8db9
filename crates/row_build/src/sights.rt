//! What the rover sees of the entries' satellites from a point.
ghost use Rattle.std.specs.Prelude.{◌≡◌, Some, List, [], ◌∷◌, slice_get, IfOk, OnOk};
ghost use Rattle.obs_rows.specs.ReceiverPoints.{IsReceiverPoint};
ghost use Rattle.screening.specs.declared.sv_pair.SvPair.{SvPair};
ghost use Rattle.row_boxes.specs.declared.sights.Sight.{Sight};
ghost use Rattle.row_build.specs.Sights.{IsRoverSight, AreRoverSights};

use row_boxes::{Sight, sight_from};
use screening::{Screened, SvPair};
use signal_travel::{Point, point_at};
use std::alloc::{AllocError, Global};

fn rover_sight(entry: &SvPair, point: &Point) -> Sight
    ensures { IsRoverSight entry.now (point.now.x ∷ point.now.y ∷ point.now.z ∷ []) result }
{
    sight_from(&entry.rover, point)
}

/// The sight of the entry in this place: the one that is kept, or else one that is made.
pub fn sight_at(sights: &[Sight], place: usize, entry: &SvPair, point: &[i64; 3]) -> Sight
    requires kept { (sight : Sight) → slice_get sights.now place ≡ Some sight →
        IsRoverSight entry.now point.now sight }
    requires point { IsReceiverPoint point.now }
    ensures { IsRoverSight entry.now point.now result }
{
    match sights.get(place) {
        Some(sight) => *sight,
        None => rover_sight(entry, &point_at(point)),
    }
}

// The sight of each entry in its place
fn sights_of(alloc: Global, boxes: &[SvPair], point: &[i64; 3]) -> Result<Vec<Sight>, AllocError>
    requires { IsReceiverPoint point.now }
    ensures { IfOk result (λ sights. AreRoverSights boxes.now point.now sights.items) }
{
    let mut sights = Vec::with_capacity(alloc, boxes.len())?;
    let receiver = point_at(point);
    for place in 0..boxes.len() {
        sights.push(rover_sight(&boxes[place], &receiver))?;
    }
    Ok(sights)
}

/// What the rover sees from one point, in units of 0.1 mm, of each entry in its place.
#[derive(Debug, Drop)]
pub struct KeptSights {
    pub point: [i64; 3],
    pub sights: Vec<Sight>,
}

impl KeptSights {
    /// None, from nowhere.
    pub fn none(alloc: Global) -> KeptSights
        ensures { (boxes : List SvPair) → AreRoverSights boxes result.point result.sights.items }
    {
        KeptSights {
            point: [0, 0, 0],
            sights: Vec::new(alloc),
        }
    }

    /// Turns to a point: the sights stay if they are from there; else they go first, and others are made. Refused only where it is
    /// out of memory, with none.
    pub fn turn_to(
        &mut self,
        alloc: Global,
        screened: &Screened,
        point: &[i64; 3],
    ) -> Result<(), AllocError>
        requires kept { AreRoverSights screened.now.boxes self.old.point self.old.sights.items }
        requires point { IsReceiverPoint point.now }
        ensures kept { AreRoverSights screened.now.boxes self.new.point self.new.sights.items }
        ensures there { OnOk result (self.new.point ≡ point.now) }
    {
        if self.point == *point {
            return Ok(());
        }
        *self = KeptSights::none(alloc);
        let sights = sights_of(alloc, screened.boxes.as_slice(), point)?;
        *self = KeptSights {
            point: *point,
            sights,
        };
        Ok(())
    }
}
