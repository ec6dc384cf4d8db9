//! A header whose end isn't read yet.
ghost use Rattle.std.specs.Prelude.{◌≡◌, ◌+◌, ◌<◌, ◌≤◌, length, IfSome, IfOk, OnOk, IfErr, Ok, Err, None};
ghost use Rattle.std.proofs.Props.{props};
ghost use Rattle.obs_fields.specs.declared.types.TheConstants.{MOST_TYPES};
ghost use Rattle.obs_fields.specs.HeaderRules.{More, Next, Inside, Whole, bare_header, more_types, missing_list, begun_list, ended_header, admit_header, missing_line};

use crate::header::first_line;
use crate::header_lines::{HeaderLine, header_line};
use crate::types::{TypeList, first_types, further_types};
use crate::{Header, Layout, TypeNames};
use line_source::Line;
use rinex_head::{Flaw, System, What, flaw};

// Why a header without the list of the system's types is refused.
fn missing_list(layout: Layout, system: System) -> What
    ensures { result ≡ missing_list layout system }
{
    match layout {
        Layout::Rinex2 => What::Types,
        Layout::Rinex3 => system.none_listed(),
    }
}

/// What the lines of a header after its first one have said so far.
#[derive(Drop)]
pub struct BegunHeader {
    system: System,
    hundredths: u16,
    position: Option<[i64; 3]>,
    delta: [i64; 3],
    types: Option<TypeNames>,
    // the list of types, while further lines of it are due
    list: Option<TypeList>,
    ghost due: { IfSome list (λ l. (0 < l.left) × (length l.names + l.left ≤ MOST_TYPES)) } by { Prim.hlevel props },
}

impl BegunHeader {
    ghost use Rattle.obs_fields.specs.OpenHeaders.{said_so_far, expected_in_begun, behind_line};

    // The header after its first line.
    fn new(system: System, hundredths: u16) -> BegunHeader
        ensures { expected_in_begun result ≡ Next (bare_header system hundredths) }
    {
        BegunHeader {
            system,
            hundredths,
            position: None,
            delta: [0; 3],
            types: None,
            list: None,
        }
    }

    // Reads the next line. It answers the whole header where the line is its end.
    fn take_line(&mut self, layout: Layout, line: &Line<'_>) -> Result<Option<Header>, Flaw>
        ensures ok { IfOk result (λ found. admit_header layout (expected_in_begun self.old)
            line.now.bytes.now ≡ Ok (behind_line (expected_in_begun self.new) found)) }
        ensures err { IfErr result (λ flaw.
            admit_header layout (expected_in_begun self.old) line.now.bytes.now ≡ Err flaw) }
    {
        match self.list.take() {
            Some(list) => {
                self.take_further(layout, line, list)?;
                Ok(None)
            }
            None => self.take_other(layout, line),
        }
    }

    // A line in the place of a further line of the list of types.
    fn take_further(&mut self, layout: Layout, line: &Line<'_>, list: TypeList) -> Result<(), Flaw>
        requires few { length list.names + list.left ≤ MOST_TYPES }
        requires no_list { self.old.list ≡ None }
        ensures ok { OnOk result (admit_header layout
            (More (said_so_far self.old) list.names list.left) line.now.bytes.now
            ≡ Ok (Inside (expected_in_begun self.new))) }
        ensures err { IfErr result (λ flaw. admit_header layout
            (More (said_so_far self.old) list.names list.left) line.now.bytes.now ≡ Err flaw) }
    {
        let list = further_types(layout, line, list)?;
        self.expect_types(list);
        Ok(())
    }

    fn take_other(&mut self, layout: Layout, line: &Line<'_>) -> Result<Option<Header>, Flaw>
        requires { self.old.list ≡ None }
        ensures ok { IfOk result (λ found. admit_header layout (Next (said_so_far self.old))
            line.now.bytes.now ≡ Ok (behind_line (expected_in_begun self.new) found)) }
        ensures err { IfErr result (λ flaw.
            admit_header layout (Next (said_so_far self.old)) line.now.bytes.now ≡ Err flaw) }
    {
        match header_line(layout, self.system, line)? {
            HeaderLine::Skipped => Ok(None),
            HeaderLine::Position(found) => {
                self.position = found;
                Ok(None)
            }
            HeaderLine::Delta(found) => {
                self.delta = found;
                Ok(None)
            }
            HeaderLine::Types => {
                self.begin_list(layout, line.bytes)?;
                Ok(None)
            }
            HeaderLine::End => Ok(Some(self.end(layout)?)),
        }
    }

    // The first line of the list of types, which must stand once.
    fn begin_list(&mut self, layout: Layout, line: &[u8]) -> Result<(), Flaw>
        requires { self.old.list ≡ None }
        ensures ok { OnOk result (begun_list layout (said_so_far self.old) line.now self.old.types
            ≡ Ok (Inside (expected_in_begun self.new))) }
        ensures err { IfErr result (λ flaw.
            begun_list layout (said_so_far self.old) line.now self.old.types ≡ Err flaw) }
    {
        if self.types.is_some() {
            return Err(flaw(1, What::Types));
        }
        let list = first_types(layout, line)?;
        self.expect_types(list);
        Ok(())
    }

    // The list of types has these names, and others are due or not.
    #[tactic(auto, using(crate::proofs::HeaderSteps::types_due, crate::proofs::HeaderSteps::types_all))]
    fn expect_types(&mut self, list: TypeList)
        requires few { length list.names + list.left ≤ MOST_TYPES }
        requires no_list { self.old.list ≡ None }
        ensures { expected_in_begun self.new
            ≡ more_types (said_so_far self.old) list.names list.left }
    {
        if list.left == 0 {
            self.types = Some(list.names);
        } else {
            self.list = Some(list);
        }
    }

    fn end(&mut self, layout: Layout) -> Result<Header, Flaw>
        ensures ok { IfOk result (λ header.
            ended_header layout (said_so_far self.old) self.old.types ≡ Ok (Whole header)) }
        ensures err { IfErr result (λ flaw.
            ended_header layout (said_so_far self.old) self.old.types ≡ Err flaw) }
    {
        match self.types.take() {
            Some(types) => Ok(Header {
                system: self.system,
                hundredths: self.hundredths,
                position: self.position,
                delta: self.delta,
                types,
            }),
            None => Err(flaw(1, missing_list(layout, self.system))),
        }
    }
}

/// A header whose end isn't read yet.
#[derive(Drop)]
pub enum OpenHeader {
    /// None of its lines was read; satellites of this system will be.
    First(System),
    Begun(BegunHeader),
}

impl OpenHeader {
    ghost use Rattle.obs_fields.specs.OpenHeaders.{expected_in_header, behind_line};

    /// Reads the next line. It answers the whole header where the line is its end.
    pub fn take_line(&mut self, layout: Layout, line: &Line<'_>) -> Result<Option<Header>, Flaw>
        ensures ok { IfOk result (λ found. admit_header layout (expected_in_header self.old)
            line.now.bytes.now ≡ Ok (behind_line (expected_in_header self.new) found)) }
        ensures err { IfErr result (λ flaw.
            admit_header layout (expected_in_header self.old) line.now.bytes.now ≡ Err flaw) }
    {
        match self {
            OpenHeader::First(system) => {
                let hundredths = first_line(layout, *system, line)?;
                *self = OpenHeader::Begun(BegunHeader::new(*system, hundredths));
                Ok(None)
            }
            OpenHeader::Begun(header) => header.take_line(layout, line),
        }
    }

    /// Why a text that ends here is refused.
    #[tactic(auto, using(crate::proofs::HeaderSteps::begun_missing))]
    pub fn missing(&self) -> What
        ensures { result ≡ missing_line (expected_in_header self.now) }
    {
        match self {
            OpenHeader::First(system) => system.bad_version(),
            OpenHeader::Begun(_) => What::NoEnd,
        }
    }
}
