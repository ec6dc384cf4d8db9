//! An observation file of made signals is read as these signals.
ghost use Rattle.std.specs.Prelude.{◌*◌, ◌<◌, ◌≤◌, ℕ, List, length, All};
ghost use Rattle.line_source.specs.Lines.{lines_of};
ghost use Rattle.rinex_obs.specs.ObsForm.{IsObsFile};
ghost use Rattle.sim_session.specs.declared.signals.Signals.{Signals};
ghost use Rattle.sim_session.specs.declared.signals.Tracking.{Tracking};
ghost use Rattle.sim_session.specs.ObservationText.{observation_text};
ghost use Rattle.sim_jobs.specs.ObsFiles.{system_in, file_of, HaveRoom};

/// The text of signals at epochs of 2024-01-01, a step of seconds apart, is an observation file of the system that is
/// tracked, and the signals are what it says.
pub fn observation_law()
    ensures { (t : Tracking) (step : ℕ) (epochs : List (List Signals)) → 0 < step →
        step * length epochs ≤ 86400 → length epochs ≤ 20000 → All HaveRoom epochs → IsObsFile
        (system_in t) (lines_of (observation_text t step epochs)) (file_of t step epochs) }
{}
