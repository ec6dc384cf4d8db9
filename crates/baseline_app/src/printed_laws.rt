//! What is proved of each text that is printed or certified, as the contracts of functions that do nothing.
ghost use Rattle.std.specs.Prelude.{◌≡◌, List, ℕ};
ghost use Rattle.std.specs.declared.option.Option.{Option};
ghost use Rattle.file_jobs.specs.CertJobs.{check_job};
ghost use Rattle.session_jobs.specs.FixJobs.{AnswersFix};
ghost use Rattle.job_answers.specs.SessionJobs.{SaysOfSession};
ghost use Rattle.obs_rows.specs.declared.options.Options.{Options};
ghost use Rattle.job_answers.specs.declared.status.Status.TheVariants.{Done};
ghost use Rattle.job_answers.specs.TextJobs.{SaysOfText};
ghost use Rattle.job_answers.specs.Delivered.{SinkChange};
ghost use Rattle.cert_data.specs.declared.certs.Cert.{Cert};
ghost use Rattle.cert_data.specs.declared.outcomes.Answer.TheVariants as answer;
ghost use Rattle.track_data.specs.declared.certs.TrackCert.{TrackCert};
ghost use Rattle.track_job.specs.declared.answers.TrackAnswer.TheVariants as track_answer;
ghost use Rattle.track_job.specs.TrackJobs.{AnswersTrack};
ghost use Rattle.track_job.specs.CheckJobs.{check_track_job};
ghost use Rattle.job_answers.specs.declared.status.Status.{Status};
ghost use Rattle.baseline_app.specs.PrintedVectors.{SpellsNear};
ghost use Rattle.baseline_app.specs.PrintedTracks.{SpellsNearTrack};
ghost use Rattle.baseline_app.specs.PrintedArcs.{SpellsOrdered, SpellsOrderedTrack};

/// What `fix` has printed with status 0, and each text of which `check` says `certified`, is a certificate whose vector is near
/// the least-squares vector: for all data in the boxes of its rows the least-squares baseline with its integers is within its
/// bound of the printed move, in each coordinate. The bound is any number that the definition gives to the rows and the tail
/// (`IsSessionBound`, which `vector_bound` computes).
pub fn near_vector_law()
    ensures fix { (text_of : List ℕ →
        Option (List ℕ)) (base rover nav : List ℕ) (o : Options) (out : SinkChange) →
        (fix : SaysOfSession AnswersFix text_of base rover nav o Done out) →
        SpellsNear fix.end.out }
    ensures check { (text_of : List ℕ → Option (List ℕ)) (name : List ℕ) (out : SinkChange)
        → (check : SaysOfText check_job text_of name Done out) → SpellsNear check.text }
{}

/// What `track` has printed with status 0, and each text of which `check-track` says `certified`, is the certificate of a track
/// whose moves are near the least-squares baselines of their pairs: for all data in the boxes of a pair's rows, the pair's
/// least-squares baseline with the printed integers is within the pair's bound of its move, in each coordinate. The bound is any
/// number that the definition gives to the pair's rows, the integers and the move (`IsPairBound`, which `pair_vector_bound`
/// computes). With the integers held no pair's rows or baseline change another's, so the least-squares baselines of the whole
/// track, all pairs taken together, are within these bounds too.
pub fn near_track_law()
    ensures track { (text_of : List ℕ →
        Option (List ℕ)) (base rover nav : List ℕ) (o : Options) (out : SinkChange) →
        (track : SaysOfSession AnswersTrack text_of base rover nav o Done out) →
        SpellsNearTrack track.end.out }
    ensures check { (text_of : List ℕ → Option (List ℕ)) (name : List ℕ) (out : SinkChange)
        → (check : SaysOfText check_track_job text_of name Done out) → SpellsNearTrack check.text }
{}

/// In each certificate that `fix` or `track` has printed, fixed or not, the arcs stand in the order of first pair, then satellite,
/// and an arc is a datum exactly where its first pair is after the last pair of every arc before it.
pub fn arc_order_law()
    ensures fix { (text_of : List ℕ → Option (List ℕ)) (base rover nav : List ℕ) (o : Options)
        (status : Status) (out : SinkChange) →
        (fix : SaysOfSession AnswersFix text_of base rover nav o status out) → (cert : Cert) →
        fix.answer.outcome.answer ≡ answer.Full cert → SpellsOrdered fix.end.out }
    ensures track { (text_of : List ℕ → Option (List ℕ)) (base rover nav : List ℕ) (o : Options)
        (status : Status) (out : SinkChange) →
        (track : SaysOfSession AnswersTrack text_of base rover nav o status out) →
        (cert : TrackCert) → track.answer.outcome.answer ≡ track_answer.Full cert →
        SpellsOrderedTrack track.end.out }
{}
