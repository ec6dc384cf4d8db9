//! The program over any files and sinks.
ghost use Rattle.std.specs.Prelude.{◌≡◌, ◌<◌, ◌⊎◌, [], All, IfOk, IsErr};
ghost use Rattle.line_source.specs.Causes.{Rose};
ghost use Rattle.job_answers.specs.Statuses.{IsVerdictStatus};
ghost use Rattle.job_answers.specs.Answers.{IfEnded};
ghost use Rattle.job_answers.specs.Delivered.{sink_change, IsDelivered};
ghost use Rattle.job_answers.specs.Works.{known_between, file_work, IsDoneOver};
ghost use Rattle.job_answers.specs.SessionJobs.{session_command};
ghost use Rattle.command_words.specs.declared.jobs.Job.{Job};
ghost use Rattle.command_words.specs.Words.{texts_of, IsJob, IsInRange, IsSimInRange};
ghost use Rattle.baseline_app.specs.Commands.{PartEnds, command_of};
ghost use Rattle.baseline_app.specs.Jobs.{AnswersJob, AnswersUsage, stop_end, end_of};
ghost use Rattle.baseline_app.specs.Calls.{AnswersByCalls, RefusesByCalls};
ghost use Rattle.baseline_app.specs.Runs.{IsRun, UsesFiles, IsComplete, IsStarted, HasNoWords};

use command_words::{Job, Part, Word, WordFault, read_words};
use file_jobs::{CertCheck, Claim, Migration, Orbit, Residuals, list};
use job_answers::{
    JobOutput, JobStop, SessionCommand, Status, answer_file, answer_session, deliver, usage,
};
use line_source::{Files, HostFiles, HostSink, Sink};
use obs_rows::Options;
use session_jobs::{Fix, KeptArcs};
use sim_jobs::{sim, sim_run};
use std::alloc::{AllocError, Global};
use std::io::Write;
use track_job::{MovingRover, TrackCheck};

// A command on the three files of a session by its words.
fn session_by_words<C: SessionCommand, F: Files>(
    alloc: Global,
    files: &mut F,
    command: &C,
    base: &Word,
    rover: &Word,
    nav: &Word,
    options: &Options,
) -> Result<JobOutput, JobStop>
    ensures { IsDoneOver (file_work F.Files files.old files.new)
        (session_command C.answers base.now rover.now nav.now options.now) result }
{
    answer_session(
        alloc,
        files,
        command,
        base.as_str(),
        rover.as_str(),
        nav.as_str(),
        options,
    )
}

// A file of a simulated session, or what the three are found to say.
fn sim_part(
    alloc: Global,
    part: Part,
    seed: u32,
    epochs: u32,
    sats: u32,
    bands: u16,
    system: u8,
) -> Result<JobOutput, JobStop>
    requires { IsSimInRange epochs sats bands system }
    ensures { IfEnded result (λ end. PartEnds part seed epochs sats bands system end) }
{
    match part {
        Part::File(file) => Ok(sim(alloc, file, seed, epochs, sats, bands, system)?),
        Part::Run => sim_run(alloc, seed, epochs, sats, bands, system),
    }
}

// What the job ends with.
fn do_job<F: Files>(alloc: Global, job: &Job, files: &mut F) -> Result<JobOutput, JobStop>
    requires { IsInRange job.now }
    ensures done { IsDoneOver (file_work F.Files files.old files.new) (command_of job.now) result }
    ensures untouched { (command_of job.now).file_words ≡ [] → files.new ≡ files.old }
{
    match job {
        Job::Zero { rows } => answer_file(alloc, files, &Claim, rows.as_str()),
        Job::List { obs } => list(alloc, files, obs.as_str()),
        Job::Orbit {
            nav,
            system,
            sat,
            tick,
        } => {
            let command = Orbit {
                system: *system,
                sat: *sat,
                tag: *tick,
            };
            answer_file(alloc, files, &command, nav.as_str())
        }
        Job::Check { cert } => answer_file(alloc, files, &CertCheck, cert.as_str()),
        Job::Residuals { cert } => answer_file(alloc, files, &Residuals, cert.as_str()),
        Job::Migrate { cert } => answer_file(alloc, files, &Migration, cert.as_str()),
        Job::Fix {
            base,
            rover,
            nav,
            options,
        } => session_by_words(alloc, files, &Fix, base, rover, nav, options),
        Job::Track {
            base,
            rover,
            nav,
            options,
        } => session_by_words(alloc, files, &MovingRover, base, rover, nav, options),
        Job::CheckTrack { cert } => answer_file(alloc, files, &TrackCheck, cert.as_str()),
        Job::Arcs {
            base,
            rover,
            nav,
            options,
        } => session_by_words(alloc, files, &KeptArcs, base, rover, nav, options),
        Job::Sim {
            part,
            seed,
            epochs,
            sats,
            bands,
            system,
        } => sim_part(alloc, *part, *seed, *epochs, *sats, *bands, *system),
    }
}

// What the words ask for, as far as memory goes.
fn answer_of<F: Files>(alloc: Global, words: &[String], files: &mut F) -> Result<JobOutput, JobStop>
    ensures answer { IfEnded result (λ end. AnswersJob (texts_of words.now)
        (file_work F.Files files.old files.new) end ⊎ AnswersUsage (texts_of words.now) end) }
    ensures done { (job : Job) → IsJob (texts_of words.now) job →
        IsDoneOver (file_work F.Files files.old files.new) (command_of job) result }
    ensures untouched { ((job : Job) → IsJob (texts_of words.now) job →
        (command_of job).file_words ≡ []) → files.new ≡ files.old }
{
    match read_words(alloc, words) {
        Ok(job) => do_job(alloc, &job, files),
        Err(WordFault::Usage) => Ok(usage(alloc)?),
        Err(WordFault::NoMemory) => Err(JobStop::NoMemory),
    }
}

/// It does what the words ask for, where they could be had, and gives the number that the process ends with.
pub fn start<F: Files, O: Sink, E: Sink>(
    alloc: Global,
    words: Result<Vec<String>, AllocError>,
    files: &mut F,
    out: &mut O,
    err: &mut E,
) -> u8
    ensures started { IfOk words (λ ws. IsStarted (texts_of ws.items)
        (file_work F.Files files.old files.new) (files.new ≡ files.old) result
        (sink_change O.Sink out.old out.new) (sink_change E.Sink err.old err.new)) }
    ensures no_files { IsErr words → files.new ≡ files.old }
    ensures no_words { IsErr words → HasNoWords result (sink_change O.Sink out.old out.new)
        (sink_change E.Sink err.old err.new) }
{
    match words {
        Ok(words) => run(alloc, &words, files, out, err).number(),
        Err(AllocError) => deliver(Status::NoMemory, b"", b"no memory\n", out, err).number(),
    }
}

/// What `main` calls: `start` over the system's files and streams, of which nothing is reported but what their calls answered.
///
/// With the number 0 or 1 (`answer`) the bytes that the writes took are exactly the two texts that the words' job ends with on
/// the bytes that the reads gave, of files that were opened under exactly the job's words, in this order, each read to its end; a
/// word that stands twice is opened twice, and where the two gave different bytes the texts are those of some text in their place
/// (`given_under`). With the number 3 (`refusal`) they took nothing for `out`, and for `err` the line of a refusal by the bytes
/// that were given, or a first part of it before a write failed. The line refuses the file that was opened last, which was read
/// to its end or gave more bytes than a file may have, or all files together; each file before it was read to its end. The other
/// clauses are those of `start`, for every status.
pub fn start_on_host<R: std::rt::Files + Drop, O: Write + Drop, E: Write + Drop>(
    alloc: Global,
    words: Result<Vec<String>, AllocError>,
    files: &mut HostFiles<R>,
    out: &mut HostSink<O>,
    err: &mut HostSink<E>,
) -> u8
    ensures answer { IfOk words (λ ws. (job : Job) → IsJob (texts_of ws.items) job → result < 2 →
        AnswersByCalls (command_of job) result (⟦<HostFiles<R> as Files>⟧.given files.old)
        (⟦<HostFiles<R> as Files>⟧.given files.new) (⟦<HostSink<O> as Sink>⟧.taken out.old)
        (⟦<HostSink<O> as Sink>⟧.taken out.new) (⟦<HostSink<E> as Sink>⟧.taken err.old)
        (⟦<HostSink<E> as Sink>⟧.taken err.new)) }
    ensures refusal { IfOk words (λ ws. (job : Job) → IsJob (texts_of ws.items) job → result ≡ 3 →
        RefusesByCalls (command_of job) (⟦<HostFiles<R> as Files>⟧.given files.old)
        (⟦<HostFiles<R> as Files>⟧.given files.new) (⟦<HostSink<O> as Sink>⟧.taken out.old)
        (⟦<HostSink<O> as Sink>⟧.taken out.new)
        (sink_change ⟦<HostSink<E> as Sink>⟧ err.old err.new)) }
    ensures started { IfOk words (λ ws.
        IsStarted (texts_of ws.items) (file_work ⟦<HostFiles<R> as Files>⟧ files.old files.new)
        (files.new ≡ files.old) result (sink_change ⟦<HostSink<O> as Sink>⟧ out.old out.new)
        (sink_change ⟦<HostSink<E> as Sink>⟧ err.old err.new)) }
    ensures no_files { IsErr words → files.new ≡ files.old }
    ensures no_words { IsErr words →
        HasNoWords result (sink_change ⟦<HostSink<O> as Sink>⟧ out.old out.new)
        (sink_change ⟦<HostSink<E> as Sink>⟧ err.old err.new) }
{
    start(alloc, words, files, out, err)
}

/// Does what the words after the program's name ask for, and writes its two texts, `out` first.
/// Words that ask for no job, or for one without files, leave the files as they are. The files under a first part of a job's
/// file words are opened, each word once and in this order. An answer comes after all were opened and each was read to its end. The
/// file that a refusal names, in the text that is made for `err`, was opened last, and read to its end or is too large; each before
/// it was read to its end. The file that a read fault names there is none that can't fail, and the last that was opened or the one
/// after it.
pub fn run<F: Files, O: Sink, E: Sink>(
    alloc: Global,
    words: &[String],
    files: &mut F,
    out: &mut O,
    err: &mut E,
) -> Status
    ensures run { IsRun (texts_of words.now) (file_work F.Files files.old files.new) result
        (sink_change O.Sink out.old out.new) (sink_change E.Sink err.old err.new) }
    ensures files { (job : Job) → IsJob (texts_of words.now) job →
        UsesFiles (file_work F.Files files.old files.new) (command_of job).file_words result }
    ensures untouched { ((job : Job) → IsJob (texts_of words.now) job →
        (command_of job).file_words ≡ []) → files.new ≡ files.old }
    ensures read { result ≡ Status.ReadFault → Rose (F.faults files.old) (F.faults files.new) }
    ensures write { result ≡ Status.WriteFault →
        Rose (O.faults out.old) (O.faults out.new) ⊎ Rose (E.faults err.old) (E.faults err.new) }
    ensures steady { IsVerdictStatus result →
        (O.faults out.new ≡ O.faults out.old) × (E.faults err.new ≡ E.faults err.old) }
    ensures usage { result ≡ Status.Usage → (job : Job) → IsJob (texts_of words.now) job → ⊥ }
    ensures output { (job : Job) → IsJob (texts_of words.now) job → IsVerdictStatus result →
        (command_of job).Says (known_between F.Files files.old files.new) result
        (sink_change O.Sink out.old out.new) }
    ensures complete { (job : Job) → IsJob (texts_of words.now) job →
        (command_of job).IsReadable (known_between F.Files files.old files.new) →
        All (F.is_sure_name files.old) (command_of job).file_words
        ⊎ (Rose (F.faults files.old) (F.faults files.new) → ⊥) →
        IsComplete (command_of job) (known_between F.Files files.old files.new) result
        (sink_change O.Sink out.old out.new) (sink_change E.Sink err.old err.new) }
{
    write_answer(alloc, words, files, out, err)
}

// Finds the answer, and writes it.
fn write_answer<F: Files, O: Sink, E: Sink>(
    alloc: Global,
    words: &[String],
    files: &mut F,
    out: &mut O,
    err: &mut E,
) -> Status
    ensures run { IsRun (texts_of words.now) (file_work F.Files files.old files.new) result
        (sink_change O.Sink out.old out.new) (sink_change E.Sink err.old err.new) }
    ensures files { (job : Job) → IsJob (texts_of words.now) job →
        UsesFiles (file_work F.Files files.old files.new) (command_of job).file_words result }
    ensures untouched { ((job : Job) → IsJob (texts_of words.now) job →
        (command_of job).file_words ≡ []) → files.new ≡ files.old }
    ensures read { result ≡ Status.ReadFault → Rose (F.faults files.old) (F.faults files.new) }
{
    let end = answer_of(alloc, words, files);
    write_end(&end, out, err)
}

// Writes why there is no answer, as the words end then.
fn write_stop<O: Sink, E: Sink>(stop: &JobStop, out: &mut O, err: &mut E) -> Status
    ensures { IsDelivered (stop_end stop.now) result (sink_change O.Sink out.old out.new)
        (sink_change E.Sink err.old err.new) }
{
    match stop {
        JobStop::Ended(answer) => deliver(answer.status, &answer.out, &answer.err, out, err),
        JobStop::NoMemory => deliver(Status::NoMemory, b"", b"no memory\n", out, err),
    }
}

// Writes what the words end with.
fn write_end<O: Sink, E: Sink>(end: &Result<JobOutput, JobStop>, out: &mut O, err: &mut E) -> Status
    ensures { IsDelivered (end_of end.now) result (sink_change O.Sink out.old out.new)
        (sink_change E.Sink err.old err.new) }
{
    match end {
        Ok(answer) => deliver(answer.status, &answer.out, &answer.err, out, err),
        Err(stop) => write_stop(stop, out, err),
    }
}
