// Copies of identifier spellings.

use std::test::Fail;
use ti_syntax::Spelled;

#[test]
fn a_spelling_is_copied(rt: HostRuntime) -> Result<(), Fail> {
    let word = Spelled::new(b"word".to_vec(rt.alloc())?);
    let copy = word.copy(rt.alloc())?;
    assert_eq!(rt; copy.into_bytes().as_slice(), word.as_bytes());
    Ok(())
}
