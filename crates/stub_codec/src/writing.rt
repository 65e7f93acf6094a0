//! A list of stubs to bytes.
ghost use Rattle.std.specs.Prelude.{◌≡◌, ◌++◌, All, true, OnOk, IfOk};
ghost use Rattle.std.specs.List.{flat_map, list_all};
ghost use Rattle.std.specs.Str.{all_scalars};
ghost use Rattle.stub_tree.specs.Lawful.{IsLawfulName, IsLawfulStub};
ghost use Rattle.byte_fields.specs.Spelling.{name};
ghost use Rattle.stub_codec.specs.Spelling.{IsStubBytes, stub, has_scalars};

use byte_fields::{put_name, put_number};
use std::alloc::{AllocError, Global};
use stub_tree::{Names, Stub, StubList};

/// The version that is written.
const VERSION: u8 = 1;

/// The bytes of a list.
pub fn encode(alloc: Global, list: &StubList) -> Result<Vec<u8>, AllocError>
    ensures { IfOk result (λ bytes. IsStubBytes list.now bytes.items) }
{
    let mut out = Vec::new(alloc);
    out.push(VERSION)?;
    put_number(&mut out, list.len())?;
    for stub in list.as_slice() {
        put_stub(&mut out, stub)?;
    }
    Ok(out)
}

/// Puts names at the end.
fn put_names(out: &mut Vec<u8>, names: &Names) -> Result<(), AllocError>
    requires { All IsLawfulName names.now }
    ensures written { OnOk result (out.new.items ≡ out.old.items ++ flat_map name names.now) }
    ensures scalars { OnOk result (list_all all_scalars names.now ≡ true) }
{
    for name in names.as_slice() {
        put_name(out, name)?;
    }
    Ok(())
}

/// Puts a stub at the end.
fn put_stub(out: &mut Vec<u8>, of: &Stub) -> Result<(), AllocError>
    requires { IsLawfulStub of.now }
    ensures written { OnOk result (out.new.items ≡ out.old.items ++ stub of.now) }
    ensures scalars { OnOk result (has_scalars of.now ≡ true) }
{
    out.push(of.kind)?;
    out.push(of.depth)?;
    put_number(out, of.at)?;
    put_name(out, &of.name)?;
    if of.is_type() {
        put_number(out, of.supers.len() as u32)?;
        put_names(out, &of.supers)?;
    }
    Ok(())
}
