//! The certificate of a track, written.
ghost use Rattle.std.specs.Prelude.{◌≡◌, ◌++◌, OnOk};
ghost use Rattle.track_text.specs.Lengths.{IsWholeTrackCert};
ghost use Rattle.track_text.specs.Spelling.{track_spelling};

use crate::parts::push_track;
use crate::written_tails::push_tail;
use std::alloc::{AllocError, Global};
use track_data::TrackCert;

/// Appends the spelling of the certificate of a track. In a definition an array may have any length; that those of this
/// certificate have theirs is said where they are written, since two such certificates with one spelling are the same.
///
/// `out` grows in memory of its own. The allocator is handed in as to every call that may run out of memory, and isn't used.
pub fn write_track(_alloc: Global, out: &mut Vec<u8>, cert: &TrackCert) -> Result<(), AllocError>
    ensures text { OnOk result (out.new.items ≡ out.old.items ++ track_spelling cert.now) }
    ensures whole { OnOk result (IsWholeTrackCert cert.now) }
{
    push_track(out, cert.ratio, cert.budget, &cert.track)?;
    push_tail(out, cert)
}
