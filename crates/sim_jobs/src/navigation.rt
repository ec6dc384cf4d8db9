//! The navigation file of made satellites is read as their records.
ghost use Rattle.std.specs.Prelude.{◌≤◌, List, length};
ghost use Rattle.eph_store.specs.declared.ephemeris.Eph.{Eph};
ghost use Rattle.line_source.specs.Lines.{lines_of};
ghost use Rattle.rinex_nav.specs.NavForm.{IsNavFile};
ghost use Rattle.rinex_head.specs.Systems.{letter_of};
ghost use Rattle.rinex_head.specs.declared.system.System.{System};
ghost use Rattle.sim_session.specs.Navigation.{navigation_text};
ghost use Rattle.sim_session.specs.Satellites.{AreSatellites};
ghost use Rattle.sim_jobs.specs.NavRecords.{raws_of};

/// The text of made satellites of a system is a navigation file of it, and its records are theirs.
pub fn navigation_law()
    ensures { (system : System) (es : List Eph) → AreSatellites (letter_of system) 0 es → length es
        ≤ 32 → IsNavFile system (lines_of (navigation_text (letter_of system) es)) (raws_of es) }
{}
