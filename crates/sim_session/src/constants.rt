//! What the constants are: a definition that cites one by name means this number.
ghost use Rattle.std.specs.Prelude.{◌≡◌};
ghost use Rattle.sim_session.specs.declared.drawn.TheConstants.{MOST_CLOCK, MOST_CYCLES, MOST_OFFSET};

/// The greatest numbers of a session's draws that a contract cites by name.
pub fn draws_law()
    // 1 km in mm
    ensures offset { MOST_OFFSET ≡ 1_000_000 }
    // 100 m in mm
    ensures clock { MOST_CLOCK ≡ 100_000 }
    ensures cycles { MOST_CYCLES ≡ 1_000_000 }
{}
