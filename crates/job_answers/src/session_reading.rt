//! An observation file of either format and either system, read in pieces; and the three files of a session of one system, read one
//! after the other. The crate's head says where this stops.
ghost use Rattle.std.specs.Prelude.{◌≡◌, ◌≢◌, ◌≤◌, ℕ, List, [], ◌∷◌, length, IfOk, OnOk, All};
ghost use Rattle.line_source.specs.Causes.{Rose};
ghost use Rattle.line_source.specs.Openings.{OpensFirst, unread};
ghost use Rattle.line_source.specs.Pieces.{IsTakenWhole};
ghost use Rattle.line_source.specs.Givens.{GivesFirst};
ghost use Rattle.line_source.specs.Lines.{lines_of};
ghost use Rattle.line_source.specs.declared.transfer.TheConstants.{MAX_FILE};
ghost use Rattle.rinex_head.specs.declared.system.System.{System};
ghost use Rattle.job_answers.specs.Formats.{any_of, IsObservation, HasObservation};
ghost use Rattle.job_answers.specs.Taking.{IsAnswer};
ghost use Rattle.rinex_nav.specs.NavForm.{IsNavFile, HasNavFile};
ghost use Rattle.rinex_nav.specs.NavRules.{nav_of};
ghost use Rattle.eph_store.specs.Records.{AreFit};
ghost use Rattle.job_answers.specs.Answers.{IfStopped};
ghost use Rattle.job_answers.specs.Endings.{EndsUnloaded, IsRefusal, IsRefusalOf};
ghost use Rattle.job_answers.specs.Works.{ForAllKnown, UsesFile, ReadsWhole, known_between, file_work, AreAllRead, IsRefusalAmong, IsFaultOf};
ghost use Rattle.job_answers.specs.SessionFiles.{IsObsGiven, IsNavGiven, StopsAtObs, StopsAtNav, StopsAtFiles, AreFilesOf};

use crate::{JobStop, ObsTaker, Status, load_file, read_fault, refused, too_large};
use eph_store::NavFile;
use line_source::{Files, LoadFault, Taker, load_into};
use obs_store::ObsFile;
use rinex_head::{System, TextFault};
use rinex_nav::read_records_of;
use rinex_obs::GalFeed;
use std::alloc::Global;

/// The files of a base and of a rover, and that of the satellites.
#[derive(Drop)]
pub struct SessionFiles {
    pub base: ObsFile,
    pub rover: ObsFile,
    pub nav: NavFile,
}

// Hands the file of a job to a taker that has taken nothing, or ends the job where it can't be had.
fn take_file<F: Files, T: Taker>(
    alloc: Global,
    files: &mut F,
    name: &str,
    taker: &mut T,
) -> Result<(), JobStop>
    requires none_taken { T.taken taker.old ≡ 0 }
    requires stands_for_none { T.stands_for taker.old [] }
    ensures taken { OnOk result (IsTakenWhole (F.text_of files.old name.now) name.now
        (F.given files.old) (F.given files.new) (T.taken taker.new) (T.stands_for taker.new)) }
    ensures stopped { ForAllKnown F.Files files.old files.new (λ known.
        IfStopped result (λ end. EndsUnloaded known name.now end)) }
    ensures uses { UsesFile F.Files name.now files.old files.new }
    ensures reads { OnOk result (ReadsWhole F.Files name.now files.old files.new) }
    ensures refused { IfStopped result (IsRefusalOf (F.text_of files.old) (F.given files.old)
        (unread (F.openings files.new) (F.unread files.new) (F.given files.new)) name.now) }
    ensures fault { IfStopped result (λ end. end.status ≡ Status.ReadFault →
        Rose (F.faults files.old) (F.faults files.new)) }
    ensures sure { F.is_sure_name files.old name.now →
        IfStopped result (λ end. end.status ≢ Status.ReadFault) }
{
    match load_into(files, name, taker) {
        Ok(()) => Ok(()),
        Err(LoadFault::BigFile) => Err(JobStop::Ended(too_large(alloc, name)?)),
        Err(LoadFault::ReadFault) => Err(JobStop::Ended(read_fault(alloc, name)?)),
        Err(LoadFault::NoMemory) => Err(JobStop::NoMemory),
    }
}

// The file of a text, by what its reader answered.
fn file_of(
    alloc: Global,
    name: &str,
    answer: Result<ObsFile, TextFault>,
) -> Result<ObsFile, JobStop>
    ensures file { (system : System) (text : List ℕ) → IsAnswer system text answer →
        IfOk result (λ file. IsObservation system (lines_of text) file) }
    ensures stopped { (system : System) (text : List ℕ) → IsAnswer system text answer →
        IfStopped result (λ end.
        IsRefusal (any_of system) (HasObservation system) name.now text end) }
    ensures status { IfStopped result (λ end. end.status ≡ Status.Refused) }
{
    match answer {
        Ok(file) => Ok(file),
        Err(TextFault::Refused(at)) => Err(JobStop::Ended(refused(alloc, name, at)?)),
        Err(TextFault::NoMemory) => Err(JobStop::NoMemory),
    }
}

fn nav_in(alloc: Global, system: System, name: &str, text: &[u8]) -> Result<NavFile, JobStop>
    requires { length text.now ≤ MAX_FILE }
    ensures file { IfOk result (λ file. IsNavFile system (lines_of text.now) file.all) }
    ensures fit { IfOk result (λ file. AreFit file.all file.fit) }
    ensures stopped { IfStopped result (λ end.
        IsRefusal (nav_of system) (HasNavFile system) name.now text.now end) }
{
    match read_records_of(alloc, system, text) {
        Ok(file) => {
            let _usable = file.fit();
            Ok(file)
        }
        Err(TextFault::Refused(at)) => Err(JobStop::Ended(refused(alloc, name, at)?)),
        Err(TextFault::NoMemory) => Err(JobStop::NoMemory),
    }
}

/// The observation file of a job, with the satellites of the system, or the job's end where it can't be had or is none. The
/// text of a file of RINEX 3 is not kept. It is opened once, and refused only after it was read to its end.
pub fn obs_file<F: Files>(
    alloc: Global,
    files: &mut F,
    system: System,
    name: &str,
) -> Result<ObsFile, JobStop>
    ensures read { IfOk result (λ file. IsObsGiven system (F.text_of files.old) name.now
        (F.given files.old) (F.given files.new) file) }
    ensures stopped { ForAllKnown F.Files files.old files.new (λ known.
        IfStopped result (λ end. StopsAtObs system known name.now end)) }
    ensures uses { UsesFile F.Files name.now files.old files.new }
    ensures reads { OnOk result (ReadsWhole F.Files name.now files.old files.new) }
    ensures refused { IfStopped result (IsRefusalOf (F.text_of files.old) (F.given files.old)
        (unread (F.openings files.new) (F.unread files.new) (F.given files.new)) name.now) }
    ensures fault { IfStopped result (λ end. end.status ≡ Status.ReadFault →
        Rose (F.faults files.old) (F.faults files.new)) }
    ensures sure { F.is_sure_name files.old name.now →
        IfStopped result (λ end. end.status ≢ Status.ReadFault) }
{
    match system {
        System::Gps => {
            let mut taker = ObsTaker::new(alloc);
            take_file(alloc, files, name, &mut taker)?;
            file_of(alloc, name, taker.finish())
        }
        System::Galileo => {
            let mut feed = GalFeed::new(alloc);
            take_file(alloc, files, name, &mut feed)?;
            file_of(alloc, name, feed.finish())
        }
    }
}

fn nav_file<F: Files>(
    alloc: Global,
    files: &mut F,
    system: System,
    name: &str,
) -> Result<NavFile, JobStop>
    ensures read { IfOk result (λ file. IsNavGiven system (F.text_of files.old) name.now
        (F.given files.old) (F.given files.new) file) }
    ensures stopped { ForAllKnown F.Files files.old files.new (λ known.
        IfStopped result (λ end. StopsAtNav system known name.now end)) }
    ensures uses { UsesFile F.Files name.now files.old files.new }
    ensures reads { OnOk result (ReadsWhole F.Files name.now files.old files.new) }
    ensures refused { IfStopped result (IsRefusalOf (F.text_of files.old) (F.given files.old)
        (unread (F.openings files.new) (F.unread files.new) (F.given files.new)) name.now) }
    ensures fault { IfStopped result (λ end. end.status ≡ Status.ReadFault →
        Rose (F.faults files.old) (F.faults files.new)) }
    ensures sure { F.is_sure_name files.old name.now →
        IfStopped result (λ end. end.status ≢ Status.ReadFault) }
{
    let text = load_file(alloc, files, name)?;
    nav_in(alloc, system, name, &text)
}

/// Reads the three files in this order, for the satellites of the system, each whole before the next and opened once, or stops at the first that can't be had
/// or is none of its form.
pub fn read_session<F: Files>(
    alloc: Global,
    files: &mut F,
    system: System,
    base: &str,
    rover: &str,
    nav: &str,
) -> Result<SessionFiles, JobStop>
    ensures read { IfOk result (λ s. AreFilesOf system (known_between F.Files files.old files.new)
        base.now rover.now nav.now s.base s.rover s.nav) }
    ensures stopped { IfStopped result (λ end. StopsAtFiles system
        (known_between F.Files files.old files.new) base.now rover.now nav.now end) }
    ensures gives { GivesFirst (base.now ∷ rover.now ∷ nav.now ∷ []) (F.given files.old)
        (F.given files.new) }
    ensures whole { OnOk result
        (AreAllRead (file_work F.Files files.old files.new) (base.now ∷ rover.now ∷ nav.now ∷ [])) }
    ensures refused { IfStopped result (IsRefusalAmong (file_work F.Files files.old files.new)
        (base.now ∷ rover.now ∷ nav.now ∷ [])) }
    ensures opened { OpensFirst (base.now ∷ rover.now ∷ nav.now ∷ []) (F.openings files.old)
        (F.openings files.new) }
    ensures fault { IfStopped result (λ end. end.status ≡ Status.ReadFault →
        Rose (F.faults files.old) (F.faults files.new)) }
    ensures sure { All (F.is_sure_name files.old) (base.now ∷ rover.now ∷ nav.now ∷ []) →
        IfStopped result (λ end. end.status ≢ Status.ReadFault) }
    ensures named { IfStopped result
        (IsFaultOf (file_work F.Files files.old files.new) (base.now ∷ rover.now ∷ nav.now ∷ [])) }
{
    let base_file = obs_file(alloc, files, system, base)?;
    let rover_file = obs_file(alloc, files, system, rover)?;
    let records = nav_file(alloc, files, system, nav)?;
    Ok(SessionFiles {
        base: base_file,
        rover: rover_file,
        nav: records,
    })
}
