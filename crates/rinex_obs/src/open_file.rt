//! An observation file of which more may follow.
ghost use Rattle.std.specs.Prelude.{◌≡◌, IfOk, []};
ghost use Rattle.rinex_obs.specs.ObsRules.{Body, admit, finish};
ghost use Rattle.rinex_obs.specs.Opened.{expected_in, expected_in_body};
ghost use Rattle.rinex_obs.specs.Feeding.{Takes};

use crate::open_body::OpenBody;
use line_source::Line;
use obs_fields::{Header, Layout, OpenHeader, kept_types};
use obs_store::ObsFile;
use rinex_head::{Flaw, TextFault, flaw};
use std::alloc::{AllocError, Global};

/// What the lines of a file have given so far.
#[derive(Drop)]
pub enum OpenFile {
    Header(OpenHeader),
    Body(OpenBody),
}

impl OpenFile {
    /// Reads the next line.
    pub fn take_line(&mut self, alloc: Global, line: &Line<'_>) -> Result<(), TextFault>
        ensures { Takes (admit (expected_in self.old) line.now.bytes.now) line.now.number
            (expected_in self.new) result }
    {
        match self {
            OpenFile::Body(body) => body.take_line(alloc, line),
            _ => self.take_any_line(alloc, line),
        }
    }

    // Reads a line in any state. It stands apart, since its large locals are cleared at each call.
    #[inline(never)]
    fn take_any_line(&mut self, alloc: Global, line: &Line<'_>) -> Result<(), TextFault>
        ensures { Takes (admit (expected_in self.old) line.now.bytes.now) line.now.number
            (expected_in self.new) result }
    {
        match self {
            OpenFile::Header(header) => match header.take_line(Layout::Rinex3, line) {
                Ok(None) => Ok(()),
                Ok(Some(header)) => match begin_body(alloc, header) {
                    Ok(body) => {
                        *self = OpenFile::Body(body);
                        Ok(())
                    }
                    Err(AllocError) => Err(TextFault::NoMemory),
                },
                Err(flaw) => Err(TextFault::Refused(flaw.at(line.number))),
            },
            OpenFile::Body(body) => body.take_line(alloc, line),
        }
    }

    /// The file that ends here.
    pub fn finish(self) -> Result<ObsFile, Flaw>
        ensures { result ≡ finish (expected_in self) }
    {
        match self {
            OpenFile::Header(header) => Err(flaw(1, header.missing())),
            OpenFile::Body(body) => body.finish(),
        }
    }
}

fn begin_body(alloc: Global, header: Header) -> Result<OpenBody, AllocError>
    ensures { IfOk result (λ body. expected_in_body body ≡ Body header []) }
{
    let kept = kept_types(alloc, header.system, &header.types)?;
    Ok(OpenBody::new(alloc, header, kept))
}
