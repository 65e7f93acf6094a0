//! The sections of a script.
ghost use Rattle.std.specs.Prelude.{◌≡◌, IfOk};
ghost use Rattle.script_lang.specs.Reading.{parts_at};

use crate::Section;
use crate::line::Part;
use std::alloc::{AllocError, Global};
use std::marker::Model;

/// The commands of a script, section by section.
#[derive(Drop)]
pub(crate) struct Sections {
    pub(crate) prelude: Part,
    pub(crate) lanes: Vec<Part>,
    pub(crate) last: Part,
}

impl Model for Sections {
    ghost use Rattle.script_lang.specs.Parts.{Parts};

    ghost Value = { Parts };

    ghost view = { λ s. record { prelude = s.prelude; lanes = s.lanes.items; last = s.last } };
}

impl Sections {
    /// The sections, where the commands of the section at hand are all there.
    pub(crate) fn closed(
        alloc: Global,
        section: Section,
        prelude: Part,
        mut lanes: Vec<Part>,
        here: Part,
    ) -> Result<Sections, AllocError>
        ensures { IfOk result (λ sections. sections ≡ parts_at section prelude lanes.items here) }
    {
        match section {
            Section::Prelude => Ok(Sections {
                prelude: here,
                lanes,
                last: Part::new(alloc),
            }),
            Section::Lane { .. } => {
                lanes.push(here)?;
                Ok(Sections {
                    prelude,
                    lanes,
                    last: Part::new(alloc),
                })
            }
            Section::Finally => Ok(Sections {
                prelude,
                lanes,
                last: here,
            }),
        }
    }
}
