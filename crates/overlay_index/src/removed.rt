//! The rows that a change took out.
use crate::data::FileData;
use std::marker::Model;

/// The rows that a change of layers took out: those that were shown, and those that lay hidden. They are of use to
/// `Layers::sweep` alone.
#[derive(Drop)]
pub struct Removed {
    pub(crate) shown: Option<FileData>,
    pub(crate) hidden: Option<FileData>,
}

impl Model for Removed {
    ghost use Rattle.std.specs.Prelude.{List, ◌++◌, option_to_list};
    ghost use Rattle.overlay_index.specs.Parts.{Parts};

    ghost Value = { List Parts };

    ghost view = { λ g. option_to_list g.shown ++ option_to_list g.hidden };
}
