//! Kinds of cases of which each line is told by itself.
use crate::tell::Tell;
use crate::{
    choices, declarations, histories, java_texts, long_scripts, names, paths, property_texts,
    scripts, signals, sinks, sources, stubs, texts,
};
use std::alloc::{AllocError, Global};

/// A kind, by its name.
#[derive(Drop)]
pub struct Kind<'a> {
    pub name: &'a str,
}

impl Tell for Kind<'_> {
    fn tell(&mut self, alloc: Global, line: &str, out: &mut String) -> Result<(), AllocError> {
        match self.name {
            "stubs" => stubs::tell(alloc, line, out),
            "keys" => property_texts::tell(alloc, line, out),
            "tokens" => java_texts::tell_tokens(alloc, line, out),
            "many words" => java_texts::tell_many(alloc, line, out),
            "words" => java_texts::tell_word(line, out),
            "uses" => java_texts::tell_uses(alloc, line, out),
            "declarations" => declarations::tell(alloc, line, out),
            "deep texts" => declarations::tell_deep(alloc, line, out),
            "copied names" => declarations::tell_copied(alloc, line, out),
            "scripts" => scripts::tell(alloc, line, out),
            "long scripts" => long_scripts::tell(alloc, line, out),
            "sources" => sources::tell(alloc, line, out),
            "sinks" => sinks::tell(alloc, line, out),
            "signals" => signals::tell(alloc, line, out),
            "texts" => texts::tell(alloc, line, out),
            "long texts" => texts::tell_long(alloc, line, out),
            "places" => texts::tell_places(alloc, line, out),
            "names" => names::tell(alloc, line, out),
            "paths" => paths::tell_path(alloc, line, out),
            "marks" => paths::tell_marks(alloc, line, out),
            "refusals" => histories::tell_refusal(line, out),
            "choices" => choices::tell(alloc, line, out),
            _ => out.push_str(" no such kind"),
        }
    }
}
