//! The kinds of declarations.
ghost use Rattle.std.specs.Prelude.{◌≡◌};
ghost use Rattle.stub_tree.specs.Stub.{code_of};

/// The kind of a declaration.
#[derive(Clone, Copy, Debug, PartialEq, Eq)]
pub enum StubKind {
    /// A class.
    Class = 1,
    /// An interface.
    Interface = 2,
    /// An enum.
    Enum = 3,
    /// A record.
    Record = 4,
    /// An annotation type.
    Annotation = 5,
    /// A method.
    Method = 6,
    /// A constructor.
    Constructor = 7,
    /// A field.
    Field = 8,
    /// A constant of an enum.
    Constant = 9,
}

impl StubKind {
    /// The code by which a stub tells its kind.
    pub fn code(self) -> u8
        ensures { result ≡ code_of self }
    {
        self as u8
    }
}
