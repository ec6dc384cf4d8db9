//! What the commands of `sim` have in common, and how `fix` and `check` agree, as the contracts of functions that do nothing.
ghost use Rattle.std.specs.Prelude.{◌≡◌, List, ℕ, Bool, Some, codes};
ghost use Rattle.std.specs.declared.option.Option.{Option};
ghost use Rattle.command_words.specs.declared.sims.File.TheVariants.{Base, Rover, Nav};
ghost use Rattle.cert_data.specs.declared.certs.Cert.{Cert};
ghost use Rattle.cert_text.specs.Spelling.{spelling};
ghost use Rattle.cert_text.specs.Lengths.{IsWhole};
ghost use Rattle.file_jobs.specs.CertJobs.{check_job};
ghost use Rattle.file_jobs.specs.Migrations.{migrate_job};
ghost use Rattle.track_data.specs.declared.certs.TrackCert.{TrackCert};
ghost use Rattle.track_text.specs.Spelling.{track_spelling};
ghost use Rattle.track_text.specs.Lengths.{IsWholeTrackCert};
ghost use Rattle.track_job.specs.TrackJobs.{AnswersTrack};
ghost use Rattle.track_job.specs.CheckJobs.{check_track_job};
ghost use Rattle.session_jobs.specs.FixJobs.{AnswersFix};
ghost use Rattle.job_answers.specs.SessionJobs.{SaysOfSession};
ghost use Rattle.obs_rows.specs.declared.options.Options.{Options};
ghost use Rattle.job_answers.specs.declared.status.Status.{Status};
ghost use Rattle.job_answers.specs.declared.status.Status.TheVariants.{Done};
ghost use Rattle.job_answers.specs.TextJobs.{SaysOfText};
ghost use Rattle.job_answers.specs.Delivered.{SinkChange};
ghost use Rattle.sim_jobs.specs.SimRuns.{SaysMade};
ghost use Rattle.sim_session.specs.Texts.{tracking_of};
ghost use Rattle.sim_jobs.specs.SameWords.{DifferInSignals};
ghost use Rattle.sim_jobs.specs.SimRunJobs.{AreMadeFiles};
ghost use Rattle.sim_jobs.specs.SimRunSays.{SaysMatch};
ghost use Rattle.baseline_app.specs.Agreements.{PrintsCertified, HasMoreBudget, HasMoreTrackBudget};

/// The texts that `sim base`, `sim rover` and `sim nav` have written of the same words are a session of which `sim run` speaks.
/// `sim run` of these words has processed this navigation file, byte for byte, and observation files that differ from these in
/// codes and phases alone.
pub fn one_session_law()
    ensures session { (seed epochs sats bands system : ℕ) (one other third : SinkChange)
        (text_of : List ℕ → Option (List ℕ)) →
        (base : SaysMade Base seed epochs sats bands system one) →
        (rover : SaysMade Rover seed epochs sats bands system other) →
        (nav : SaysMade Nav seed epochs sats bands system third) →
        text_of (codes "base") ≡ Some base.text → text_of (codes "rover") ≡ Some rover.text →
        text_of (codes "nav") ≡ Some nav.text → AreMadeFiles seed epochs sats bands system text_of }
    ensures nav { (seed epochs sats bands system : ℕ) (fixed : Bool) (one other : SinkChange) →
        (nav : SaysMade Nav seed epochs sats bands system one) →
        (run : SaysMatch seed epochs sats bands system fixed other) →
        run.text_of (codes "nav") ≡ Some nav.text }
    ensures base { (seed epochs sats bands system : ℕ) (fixed : Bool) (one other : SinkChange) →
        (base : SaysMade Base seed epochs sats bands system one) →
        (run : SaysMatch seed epochs sats bands system fixed other) → DifferInSignals epochs sats
        (tracking_of bands system) base.text run.made.session.base.items }
    ensures rover { (seed epochs sats bands system : ℕ) (fixed : Bool) (one other : SinkChange) →
        (rover : SaysMade Rover seed epochs sats bands system one) →
        (run : SaysMatch seed epochs sats bands system fixed other) → DifferInSignals epochs sats
        (tracking_of bands system) rover.text run.made.session.rover.items }
{}

/// A text has one verdict: two runs of `check` on it, or of `check-track`, that answer end with the same status and the same texts.
pub fn one_verdict_law()
    ensures check { (text_of texts : List ℕ → Option (List ℕ)) (name other text : List ℕ)
        (status other_status : Status) (out other_out : SinkChange) → text_of name ≡ Some text →
        texts other ≡ Some text → (one : SaysOfText check_job text_of name status out) →
        (two : SaysOfText check_job texts other other_status other_out) → one.end ≡ two.end }
    ensures check_track { (text_of texts : List ℕ → Option (List ℕ)) (name other text : List ℕ)
        (status other_status : Status) (out other_out : SinkChange) → text_of name ≡ Some text →
        texts other ≡ Some text → (one : SaysOfText check_track_job text_of name status out) →
        (two : SaysOfText check_track_job texts other other_status other_out) → one.end ≡ two.end }
{}

/// What `fix`, `track` or `migrate` has printed with status 0 is certified: a run of `check` or `check-track` on that text that ends
/// with status 0 or 1 ends with 0 and `certified`, whatever its search costs.
pub fn checked_fix_law()
    ensures fix { (text_of texts : List ℕ → Option (List ℕ)) (base rover nav name : List ℕ)
        (o : Options) (status : Status) (out other : SinkChange) →
        (fix : SaysOfSession AnswersFix text_of base rover nav o Done out) →
        texts name ≡ Some fix.end.out → SaysOfText check_job texts name status other →
        PrintsCertified status other }
    ensures track { (text_of texts : List ℕ → Option (List ℕ)) (base rover nav name : List ℕ)
        (o : Options) (status : Status) (out other : SinkChange) →
        (track : SaysOfSession AnswersTrack text_of base rover nav o Done out) →
        texts name ≡ Some track.end.out → SaysOfText check_track_job texts name status other →
        PrintsCertified status other }
    ensures migrate { (text_of texts : List ℕ →
        Option (List ℕ)) (old name : List ℕ) (status : Status) (out other : SinkChange) →
        (migrate : SaysOfText migrate_job text_of old Done out) →
        texts name ≡ Some migrate.end.out → SaysOfText check_job texts name status other →
        PrintsCertified status other }
{}

/// A greater budget never loses a certificate: where a run of `check` certifies one, each run that ends with status 0 or 1 certifies
/// the same with a greater budget.
pub fn greater_budget_law()
    ensures check { (cert other : Cert) (text_of texts : List ℕ →
        Option (List ℕ)) (name other_name : List ℕ) (status : Status) (out other_out : SinkChange) →
        IsWhole cert → IsWhole other → HasMoreBudget cert other →
        text_of name ≡ Some (spelling cert) → texts other_name ≡ Some (spelling other) →
        SaysOfText check_job text_of name Done out →
        SaysOfText check_job texts other_name status other_out → PrintsCertified status other_out }
    ensures check_track { (cert other : TrackCert) (text_of texts : List ℕ →
        Option (List ℕ)) (name other_name : List ℕ) (status : Status) (out other_out : SinkChange) →
        IsWholeTrackCert cert → IsWholeTrackCert other → HasMoreTrackBudget cert other →
        text_of name ≡ Some (track_spelling cert) → texts other_name ≡ Some (track_spelling other) →
        SaysOfText check_track_job text_of name Done out →
        SaysOfText check_track_job texts other_name status other_out →
        PrintsCertified status other_out }
{}
