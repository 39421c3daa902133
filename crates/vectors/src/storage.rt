//! Storage that is smaller than its full size.
use refusal::{Layer, Refusal};
use rule_store::read_file;
use rules::{NO_COUNT, NO_RULE};
use std::process::Abort;
use std::test::Fail;

/// Whether a file is refused for want of storage where so much is lent.
fn too_small(rt: &impl Abort, rules: usize, counts: usize, entries: usize) -> Result<bool, Fail> {
    let mut rule_rows = [NO_RULE; 2048];
    let mut count_rows = [NO_COUNT; 1024];
    let mut choices = [0; 16384];
    assert!(rt; rules <= 2048 && counts <= 1024 && entries <= 16384);
    match read_file(
        b"p 0 0\n",
        &mut rule_rows[0..rules],
        &mut count_rows[0..counts],
        &mut choices[0..entries],
    ) {
        Ok(_) => Ok(false),
        Err(fault) => {
            assert_eq!(rt; fault.line, 1);
            assert_eq!(rt;
                Refusal::from(fault),
                Refusal {
                    number: 9,
                    place: 0,
                    layer: Layer::File,
                }
            );
            Ok(true)
        }
    }
}

#[test]
fn lent(rt: HostRuntime) -> Result<(), Fail> {
    assert!(rt; !too_small(&rt, 2048, 1024, 16384)?);
    assert!(rt; too_small(&rt, 2047, 1024, 16384)?);
    assert!(rt; too_small(&rt, 2048, 1023, 16384)?);
    assert!(rt; too_small(&rt, 2048, 1024, 16383)?);
    Ok(())
}
