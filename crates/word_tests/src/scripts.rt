//! The scripts of small seeds.
use demo::demo_script;
use std::test::Fail;

/// The script of a seed of 1, two files and one edit: the draws are 16838, 5758, 10113 and 17515.
static SMALL: &str =
    "create G1.java \"class G1 extends G0 { void m1() {} }\"\ncreate G2.java \"class G2 extends G0 { void m2() {} }\"\nlane\nlane\nwrite G2.java \"class G2 extends G1 { void w1() {} }\"\nfinally\nsettle\nstatus\nsupers G0\nsupers G1\n";

#[test]
fn small_script(rt: HostRuntime) -> Result<(), Fail> {
    let script = demo_script(rt.alloc(), 1, 2, 1)?;
    assert_eq!(rt; script.as_slice(), SMALL.as_bytes());
    Ok(())
}
