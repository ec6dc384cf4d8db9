//! A receiver.
ghost use Rattle.std.specs.Prelude.{◌≤◌, unsigned_abs};
ghost use Rattle.obs_rows.specs.ReceiverPoints.{IsReceiverPoint};
ghost use Rattle.sim_session.specs.declared.drawn.TheConstants.{MOST_CLOCK};

/// A receiver: its place in units of 0.1 mm, in the Earth-fixed frame, and its clock term in mm.
#[derive(Clone, Copy, Debug)]
pub struct Receiver {
    pub point: [i64; 3],
    pub clock: i64,
    pub ghost on_earth: { IsReceiverPoint point },
    pub ghost clock_in: { unsigned_abs clock ≤ MOST_CLOCK },
}
