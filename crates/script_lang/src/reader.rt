//! A script as far as it is read, line by line.
ghost use Rattle.std.specs.Prelude.{◌≡◌, IfOk, IfErr, Ok, Some, None, if◌then◌else◌};
ghost use Rattle.std.specs.Option.{option_and_then};
ghost use Rattle.script_lang.specs.Contents.{content_of};
ghost use Rattle.script_lang.specs.Reading.{start, after, in_section, with_command, with_section, with_group, finished, IsRefusalOf, may_stand, next_lane};

use crate::content::{Content, content_of};
use crate::group::Group;
use crate::line::Part;
use crate::sections::Sections;
use crate::{Command, Line, ScriptRefusal, Section};
use std::alloc::{AllocError, Global};
use std::marker::Model;
use std::mem;

/// The most lanes of a script.
pub const MAX_LANES: u32 = 16;

/// A script as far as it is read.
#[derive(Drop)]
pub(crate) struct Reader {
    /// The section at hand.
    section: Section,
    /// The prelude, once another section has begun.
    prelude: Part,
    /// The lanes before the section at hand.
    lanes: Vec<Part>,
    /// The commands of the section at hand.
    here: Part,
    /// The group at hand.
    group: Option<Group>,
}

impl Model for Reader {
    ghost use Rattle.script_lang.specs.Reading.{State};

    ghost Value = { State };

    ghost view = { λ r. record { section = r.section; prelude = r.prelude; lanes = r.lanes.items; here = r.here; open_group = r.group } };
}

impl Reader {
    /// Nothing is read.
    pub(crate) fn new(alloc: Global) -> Reader
        ensures { result ≡ start }
    {
        Reader {
            section: Section::Prelude,
            prelude: Part::new(alloc),
            lanes: Vec::new(alloc),
            here: Part::new(alloc),
            group: None,
        }
    }

    /// Goes on by one line, and tells whether it may follow.
    pub(crate) fn go_on(
        &mut self,
        alloc: Global,
        number: u32,
        line: &[u8],
    ) -> Result<bool, AllocError>
        ensures { IfOk result
            (λ may. after self.old number (content_of line.now)
            ≡ (if may then Some self.new else None)) }
    {
        let content = content_of(alloc, line)?;
        match &mut self.group {
            Some(group) => match content {
                Content::PassedBy => Ok(true),
                Content::Holds(Command::Change(change)) => group.push(change),
                Content::End => self.end_group(),
                other => {
                    drop(other);
                    Ok(false)
                }
            },
            None => self.in_section(alloc, number, content),
        }
    }

    /// Goes on by one line, where no group is open.
    fn in_section(
        &mut self,
        alloc: Global,
        number: u32,
        content: Content,
    ) -> Result<bool, AllocError>
        ensures { IfOk result
            (λ may. in_section self.old number content ≡ (if may then Some self.new else None)) }
    {
        match content {
            Content::PassedBy => Ok(true),
            Content::Holds(command) => self.add_command(number, command),
            Content::Lane => match next_lane(self.section) {
                Some(section) => self.begin_section(alloc, section),
                None => Ok(false),
            },
            Content::Finally => match self.section {
                Section::Finally => Ok(false),
                _ => self.begin_section(alloc, Section::Finally),
            },
            Content::Group => {
                self.group = Some(Group::new(alloc, number));
                Ok(true)
            }
            Content::End | Content::Bad => Ok(false),
        }
    }

    /// Adds a command to the section at hand, where it may stand there.
    fn add_command(&mut self, number: u32, command: Command) -> Result<bool, AllocError>
        ensures { IfOk result
            (λ may. with_command self.old number command ≡ (if may then Some self.new else None)) }
    {
        if !may_stand(self.section, &command) {
            drop(command);
            return Ok(false);
        }
        self.here.push(Line { number, command })?;
        Ok(true)
    }

    /// Begins another section, which may follow. The section at hand isn't the last one.
    fn begin_section(&mut self, alloc: Global, section: Section) -> Result<bool, AllocError>
        ensures { IfOk result
            (λ may. Some (with_section self.old section) ≡ (if may then Some self.new else None)) }
    {
        let here = mem::replace(&mut self.here, Part::new(alloc));
        match self.section {
            Section::Prelude => self.prelude = here,
            Section::Lane { .. } => self.lanes.push(here)?,
            Section::Finally => drop(here),
        }
        self.section = section;
        Ok(true)
    }

    /// Ends the group that is open, where it has a change.
    fn end_group(&mut self) -> Result<bool, AllocError>
        ensures { IfOk result
            (λ may. option_and_then (with_group (record self.old { open_group = None })) self.old.open_group
            ≡ (if may then Some self.new else None)) }
    {
        let Some(group) = self.group.take() else {
            return Ok(false);
        };
        if group.len() == 0 {
            drop(group);
            return Ok(false);
        }
        self.here.push(group.line())?;
        Ok(true)
    }

    /// The sections, where no group is open.
    pub(crate) fn finished(self, alloc: Global) -> Result<Sections, ScriptRefusal>
        ensures ok { IfOk result (λ sections. finished self ≡ Ok sections) }
        ensures err { IfErr result (λ refusal. IsRefusalOf (finished self) refusal) }
    {
        let Reader {
            section,
            prelude,
            lanes,
            here,
            group,
        } = self;
        match group {
            Some(group) => Err(ScriptRefusal::BadLine {
                number: group.number,
            }),
            None => Ok(Sections::closed(alloc, section, prelude, lanes, here)?),
        }
    }
}

/// Whether a command may stand in a section: a load stands in the prelude alone.
fn may_stand(section: Section, command: &Command) -> bool
    ensures { result ≡ may_stand section command.now }
{
    match (section, command) {
        (Section::Prelude, _) => true,
        (_, Command::Load { .. }) => false,
        _ => true,
    }
}

/// The lane that may begin in a section.
fn next_lane(section: Section) -> Option<Section>
    ensures { result ≡ next_lane section }
{
    match section {
        Section::Prelude => Some(Section::Lane { number: 1 }),
        Section::Lane { number } if number < MAX_LANES => Some(Section::Lane {
            number: number + 1,
        }),
        _ => None,
    }
}
