//! A stub: what is kept of one declaration.
ghost use Rattle.std.specs.Prelude.{◌≡◌, IfOk};
ghost use Rattle.stub_tree.specs.Stub.{is_type};

use crate::names::Names;
use crate::stub_kind::StubKind;
use ide_text::Name;
use std::alloc::AllocError;

/// The greatest depth at which a declaration is kept.
pub const MAX_DEPTH: u8 = 64;

/// A declaration of a text.
#[derive(Drop)]
pub struct Stub {
    /// The code of its kind, as `StubKind::code` gives it.
    pub kind: u8,
    /// In how many types it stands, one in another.
    pub depth: u8,
    /// The offset of its name, in characters from 0.
    pub at: u32,
    /// Its name.
    pub name: Name,
    /// The names behind `extends` and `implements`, in order and repeats kept; none but for a type.
    pub supers: Names,
}

impl Stub {
    /// Whether it is the declaration of a type: a class, interface, enum, record or annotation type.
    pub fn is_type(&self) -> bool
        ensures { result ≡ is_type self.now }
    {
        StubKind::Class.code() <= self.kind && self.kind <= StubKind::Annotation.code()
    }

    /// The same stub once more.
    pub fn copy(&self) -> Result<Stub, AllocError>
        ensures { IfOk result (λ copy. copy ≡ self.now) }
    {
        Ok(Stub {
            kind: self.kind,
            depth: self.depth,
            at: self.at,
            name: self.name.copy()?,
            supers: self.supers.copy()?,
        })
    }
}
