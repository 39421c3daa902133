//! Rule books written out, and the limits of that.
use refusal::Refusal;
use rule_store::Storage;
use rule_text::write_rules;
use std::test::Fail;

/// Reads a file and writes its book out: how many bytes that takes, or the number of the refusal to write.
fn rewrite(file: &[u8], out: &mut [u8]) -> Result<Result<usize, u8>, Fail> {
    let mut storage = Storage::new();
    let Ok(book) = storage.read(file) else {
        return Err(Fail::new("the file is refused"));
    };
    match write_rules(&book, out) {
        Ok(n) => Ok(Ok(n)),
        Err(fault) => Ok(Err(Refusal::from(fault).number)),
    }
}

#[test]
fn plain(rt: HostRuntime) -> Result<(), Fail> {
    let file = b"c a comment\np 003 2\n,{01 1 1 2}\nc another\n  1,3  \n";
    let plain = *b"p 3 2\n, { 1 1 1 2 }\n1 , 3\n";
    let mut out = [7; 26];
    assert_eq!(rt; rewrite(file, &mut out)?, Ok(26));
    assert_eq!(rt; out, plain);
    assert_eq!(rt;
        rewrite(&plain, &mut out)?,
        Ok(26),
        "what is written reads back"
    );
    assert_eq!(rt; out, plain);
    let mut short = [7; 25];
    assert_eq!(rt; rewrite(file, &mut short)?, Err(19));
    assert_eq!(rt; short, [7; 25], "a list too short is as it was");
    Ok(())
}

#[test]
fn most_bytes(rt: HostRuntime) -> Result<(), Fail> {
    let heap = rt.alloc();
    let mut file = Vec::from_slice(heap, b"p 1000 1\n,")?;
    for _ in 0..12900 {
        file.extend_from_slice(b"1000 ")?;
    }
    for _ in 0..200 {
        file.extend_from_slice(b"{0 0}")?;
    }
    file.push(b'\n')?;
    assert!(rt; file.len() == 65511);
    let mut out = vec![in heap; 7; 70000]?;
    assert_eq!(rt;
        rewrite(file.as_slice(), out.as_mut_slice())?,
        Err(19),
        "a file within the limit whose writing is not"
    );
    Ok(())
}
