// A word of each kind, where there is memory.
use super::decode;
use std::alloc::AllocError;

#[test]
fn words(rt: HostRuntime) -> Result<(), AllocError> {
    let alloc = rt.alloc();
    let bytes = decode(alloc, b"68ce09ff", 4)?;
    assert_eq!(rt; bytes.as_deref(), Some(b"\x68\xCE\x09\xFF".as_slice()));
    assert!(rt; decode(alloc, b"-", 0)?.is_some_and(|bytes| bytes.is_empty()));
    assert!(rt; decode(alloc, b"", 4)?.is_none());
    for word in ["68ce09ff00", "68c", "6", "--", "68CE", "6g", "+1", " 1"] {
        assert!(rt; decode(alloc, word.as_bytes(), 4)?.is_none(), "{word}");
    }
    Ok(())
}
